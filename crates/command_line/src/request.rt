//! What a command line asks for.

/// The most workers that a run may have.
pub const MAX_WORKERS: u32 = 8;

/// The most event slots that a run may have.
pub const MAX_SLOTS: u32 = 8_192;

/// The most lines that a generated graph may have: as many as any graph may.
pub const MAX_SIZE: u32 = 8_192;

/// What is done.
#[derive(Clone, Copy, Debug, PartialEq, Eq)]
pub enum Action {
    /// A graph is read, checked and run, and its report is written.
    Run,
    /// A graph is read and checked, and its need is written.
    Check,
    /// A graph is read, checked and evaluated on one thread, and its report is written.
    Eval,
    /// A graph is made of a seed and a size, checked and run, and a line that sums it up is
    /// written; or its text is written, and nothing is run.
    Make,
    /// A graph and the text of a trace behind it are read, the graph is checked, and whether the
    /// trace is lawful is written.
    Audit,
    /// A graph is read, checked and planned in virtual time, and its timeline is written.
    Timeline,
    /// A graph is read, and its text in a later format is written: format 2 of formats 1 and 2, and format 3 of
    /// format 3, or of any where the request says so.
    Upgrade,
    /// Graphs with links to earlier ones are read, checked and run one after the other, and their
    /// reports and what their events answer are written.
    Session,
}

/// What runs a graph.
#[derive(Clone, Copy, Debug, PartialEq, Eq)]
pub enum Engine {
    /// Workers that share the words of a run without a lock.
    Words,
    /// Workers round a lock.
    Lock,
}

/// Where workers that share the words of a run keep the hints by which they tell each other of lines.
#[derive(Clone, Copy, Debug, PartialEq, Eq)]
pub enum HintKind {
    /// In one queue for all of them.
    Queue,
    /// In a deque of each worker's own, from which the others steal.
    Homes,
}

/// An action with its options.
#[derive(Clone, Copy, Debug, PartialEq, Eq)]
pub struct Request {
    pub action: Action,
    /// How many workers run a graph, at most `MAX_WORKERS`; with 0 the caller does all. A timeline has as many
    /// processors, but one at least.
    pub workers: u32,
    /// How many event slots a run has, or all graphs of a session together, from 1 to `MAX_SLOTS`,
    /// where it is given.
    pub slots: Option<u32>,
    pub engine: Engine,
    /// Where the workers keep their hints. Only a run in words by some workers has any.
    pub hints: HintKind,
    /// What a generated graph is drawn from.
    pub seed: u64,
    /// How many lines a generated graph has, from 1 to `MAX_SIZE`.
    pub size: u32,
    /// Whether the trace follows the report.
    pub trace: bool,
    /// Whether the text of a generated graph is written, and nothing is run.
    pub text: bool,
    /// Whether an upgrade writes format 3 of any format.
    pub to_three: bool,
    /// Whether a timeline plans a line that changes a piece of a column beside no other that uses it.
    pub columns: bool,
}
