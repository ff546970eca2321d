//! The kinds of operation lines as one table: words, and what stands behind them.

ghost use Rattle.std.specs.Prelude.{◌≡◌, slice_index, true, false};
ghost use Rattle.basics.specs.Words.{contents};
ghost use Rattle.graph_terms.specs.Table.{kind_words, kind_places, kind_takes_on, kind_since, is_row};
ghost use Rattle.graph_terms.specs.declared.format.Format.TheVariants.{One, Two};

use self::Place::{
    Acquire, Barrier, Column, Lock, Phase, Shared, Space, Times, User, Value, Weight,
};
use crate::format::Format;
use crate::verb::Mode::{Least, Most, Read, Sum, Write};
use crate::verb::{Mode, Verb};
use index_spaces::Op;

/// What stands in the place of a word of an operation line.
#[derive(Clone, Copy, Debug, PartialEq, Eq)]
pub enum Place {
    /// A user event.
    User,
    /// A phase.
    Phase,
    /// An acquire.
    Acquire,
    /// A reservation.
    Lock,
    /// A barrier.
    Barrier,
    /// A space.
    Space,
    /// A number.
    Value,
    /// The word `times`.
    Times,
    /// How many arrivals one counts for, where it counts for more than one.
    Weight,
    /// The word `shared`.
    Shared,
    /// A column, how it is used, and the number of the place that has the space over which it is.
    Column(Mode, usize),
}

/// A function of the kernel table with its arguments.
#[derive(Clone, Copy)]
pub enum Kernel {
    Iota {
        x: u32,
        s: u32,
        value: u64,
    },
    Axpy {
        x: u32,
        y: u32,
        s: u32,
        factor: u64,
    },
    Stencil {
        x: u32,
        y: u32,
        r: u32,
        s: u32,
    },
    Scan {
        x: u32,
        y: u32,
        s: u32,
    },
    Hist {
        x: u32,
        y: u32,
        s: u32,
        t: u32,
    },
    Dot {
        x: u32,
        y: u32,
        z: u32,
        s: u32,
        t: u32,
    },
    Expect {
        x: u32,
        s: u32,
        low: u64,
        high: u64,
    },
    Gather {
        x: u32,
        y: u32,
        z: u32,
        s: u32,
        t: u32,
    },
}

/// The kinds of operation lines but for merges and calls, which take any number of words.
#[derive(Clone, Copy, Debug, PartialEq, Eq)]
pub enum Kind {
    User,
    Trigger,
    Cancel,
    Phase,
    Arrive,
    ArriveTimes,
    Acquire,
    AcquireShared,
    Release,
    Fill,
    Copy,
    ReduceSum,
    ReduceMin,
    ReduceMax,
    Iota,
    Axpy,
    Stencil,
    Scan,
    Hist,
    Dot,
    Expect,
    Gather,
}

/// All kinds.
pub const KINDS: [Kind; 22] = [
    Kind::User,
    Kind::Trigger,
    Kind::Cancel,
    Kind::Phase,
    Kind::Arrive,
    Kind::ArriveTimes,
    Kind::Acquire,
    Kind::AcquireShared,
    Kind::Release,
    Kind::Fill,
    Kind::Copy,
    Kind::ReduceSum,
    Kind::ReduceMin,
    Kind::ReduceMax,
    Kind::Iota,
    Kind::Axpy,
    Kind::Stencil,
    Kind::Scan,
    Kind::Hist,
    Kind::Dot,
    Kind::Expect,
    Kind::Gather,
];

/// What the lines of a kind have in common.
#[derive(Clone, Copy)]
pub struct Row {
    /// The words that the line begins with, behind its name and the sign.
    pub words: &'static [&'static [u8]],
    /// What stands behind them, word by word.
    pub places: &'static [Place],
    /// Whether the words `on EVENT` may follow.
    pub takes_on: bool,
    /// The format that brought it. It is in each later one too.
    pub since: Format,
}

/// The most places of a kind.
pub const MOST_PLACES: usize = 5;

/// What stands in the places of a verb: at the number of each place that of a name or a value.
#[derive(Clone, Copy)]
pub struct Parts {
    pub numbers: [u32; MOST_PLACES],
    pub values: [u64; MOST_PLACES],
}

fn with_on(words: &'static [&'static [u8]], places: &'static [Place]) -> Row
    ensures words { contents result.words.now ≡ contents words.now }
    ensures places { result.places.now ≡ places.now }
    ensures takes_on { result.takes_on ≡ true }
    ensures since { result.since ≡ One }
{
    Row {
        words,
        places,
        takes_on: true,
        since: Format::One,
    }
}

fn without_on(words: &'static [&'static [u8]], places: &'static [Place]) -> Row
    ensures words { contents result.words.now ≡ contents words.now }
    ensures places { result.places.now ≡ places.now }
    ensures takes_on { result.takes_on ≡ false }
    ensures since { result.since ≡ One }
{
    Row {
        words,
        places,
        takes_on: false,
        since: Format::One,
    }
}

fn since_two(row: Row) -> Row
    ensures words { contents result.words.now ≡ contents row.words.now }
    ensures places { result.places.now ≡ row.places.now }
    ensures takes_on { result.takes_on ≡ row.takes_on }
    ensures since { result.since ≡ Two }
{
    Row {
        since: Format::Two,
        ..row
    }
}

impl Kind {
    ghost use Rattle.std.specs.Prelude.{◌≡◌};

    /// The row of this kind: the table.
    pub fn row(self) -> Row
        ensures words { contents result.words.now ≡ kind_words self }
        ensures places { result.places.now ≡ kind_places self }
        ensures takes_on { result.takes_on ≡ kind_takes_on self }
        ensures since { result.since ≡ kind_since self }
        ensures is_row { is_row result.places.now ≡ true }
    {
        match self {
            Kind::User => without_on(&[b"user"], &[]),
            Kind::Trigger => with_on(&[b"trigger"], &[User]),
            Kind::Cancel => with_on(&[b"cancel"], &[User]),
            Kind::Phase => without_on(&[b"phase"], &[Barrier]),
            Kind::Arrive => with_on(&[b"arrive"], &[Phase, Value]),
            Kind::ArriveTimes => since_two(with_on(&[b"arrive"], &[Phase, Value, Times, Weight])),
            Kind::Acquire => with_on(&[b"acquire"], &[Lock]),
            Kind::AcquireShared => since_two(with_on(&[b"acquire"], &[Lock, Shared])),
            Kind::Release => with_on(&[b"release"], &[Acquire]),
            Kind::Fill => with_on(&[b"fill"], &[Column(Write, 1), Space, Value]),
            Kind::Copy => with_on(&[b"copy"], &[Column(Read, 2), Column(Write, 2), Space]),
            Kind::ReduceSum => with_on(
                &[b"reduce", b"sum"],
                &[Column(Read, 2), Column(Sum, 2), Space],
            ),
            Kind::ReduceMin => with_on(
                &[b"reduce", b"min"],
                &[Column(Read, 2), Column(Least, 2), Space],
            ),
            Kind::ReduceMax => with_on(
                &[b"reduce", b"max"],
                &[Column(Read, 2), Column(Most, 2), Space],
            ),
            Kind::Iota => with_on(&[b"task", b"iota"], &[Column(Write, 1), Space, Value]),
            Kind::Axpy => with_on(
                &[b"task", b"axpy"],
                &[Column(Read, 2), Column(Sum, 2), Space, Value],
            ),
            Kind::Stencil => with_on(
                &[b"task", b"stencil"],
                &[Column(Read, 2), Column(Write, 3), Space, Space],
            ),
            Kind::Scan => with_on(
                &[b"task", b"scan"],
                &[Column(Read, 2), Column(Write, 2), Space],
            ),
            Kind::Hist => with_on(
                &[b"task", b"hist"],
                &[Column(Read, 2), Column(Sum, 3), Space, Space],
            ),
            Kind::Dot => with_on(
                &[b"task", b"dot"],
                &[
                    Column(Read, 3),
                    Column(Read, 3),
                    Column(Sum, 4),
                    Space,
                    Space,
                ],
            ),
            Kind::Expect => with_on(
                &[b"task", b"expect"],
                &[Column(Read, 1), Space, Value, Value],
            ),
            Kind::Gather => with_on(
                &[b"task", b"gather"],
                &[
                    Column(Read, 3),
                    Column(Read, 4),
                    Column(Write, 3),
                    Space,
                    Space,
                ],
            ),
        }
    }

    /// The fixed words, behind the name and the sign of a line.
    pub fn words(self) -> &'static [&'static [u8]]
        ensures { contents result.now ≡ kind_words self }
    {
        self.row().words
    }

    /// What stands behind the fixed words, word by word.
    pub fn places(self) -> &'static [Place]
        ensures { result.now ≡ kind_places self }
    {
        self.row().places
    }

    /// Whether the words `on EVENT` may follow.
    pub fn takes_on(self) -> bool
        ensures { result ≡ kind_takes_on self }
    {
        self.row().takes_on
    }

    /// The format that brought it.
    pub fn since(self) -> Format
        ensures { result ≡ kind_since self }
    {
        self.row().since
    }
}

impl Parts {
    ghost use Rattle.std.specs.Prelude.{◌≡◌, slice_index};

    /// The number of the name in the place of number `n`.
    pub fn number(&self, n: usize) -> u32
        ensures { result ≡ slice_index self.now.numbers n }
    {
        match self.numbers.get(n) {
            Some(number) => *number,
            None => 0,
        }
    }

    /// The value in the place of number `n`.
    pub fn value(&self, n: usize) -> u64
        ensures { result ≡ slice_index self.now.values n }
    {
        match self.values.get(n) {
            Some(value) => *value,
            None => 0,
        }
    }
}

const NONE: [u64; MOST_PLACES] = [0; MOST_PLACES];

fn named(numbers: [u32; MOST_PLACES]) -> Parts
    ensures { result ≡ record { numbers = numbers; values = NONE } }
{
    Parts {
        numbers,
        values: NONE,
    }
}

fn valued(numbers: [u32; MOST_PLACES], values: [u64; MOST_PLACES]) -> Parts
    ensures { result ≡ record { numbers = numbers; values = values } }
{
    Parts { numbers, values }
}

impl Verb {
    ghost use Rattle.std.specs.Prelude.{◌≡◌};
    ghost use Rattle.graph_terms.specs.Table.{verb_kind, verb_parts, verb_places, verb_of, parts_from, parts_of};

    /// Its kind. `None` exactly where it is a merge or a call.
    pub fn kind(&self) -> Option<Kind>
        ensures { result ≡ verb_kind self.now }
    {
        match self {
            Verb::User => Some(Kind::User),
            Verb::Trigger { .. } => Some(Kind::Trigger),
            Verb::Cancel { .. } => Some(Kind::Cancel),
            Verb::Merge { .. } => None,
            Verb::MergeIgnore { .. } => None,
            Verb::Phase { .. } => Some(Kind::Phase),
            Verb::Arrive { weight: 1, .. } => Some(Kind::Arrive),
            Verb::Arrive { .. } => Some(Kind::ArriveTimes),
            Verb::Acquire { shared: false, .. } => Some(Kind::Acquire),
            Verb::Acquire { .. } => Some(Kind::AcquireShared),
            Verb::Release { .. } => Some(Kind::Release),
            Verb::Fill { .. } => Some(Kind::Fill),
            Verb::Copy { .. } => Some(Kind::Copy),
            Verb::Reduce { op: Op::Sum, .. } => Some(Kind::ReduceSum),
            Verb::Reduce { op: Op::Min, .. } => Some(Kind::ReduceMin),
            Verb::Reduce { op: Op::Max, .. } => Some(Kind::ReduceMax),
            Verb::Task { kernel } => Some(kernel.kind()),
            Verb::Call { .. } => None,
        }
    }

    /// What stands in its places.
    pub fn parts(&self) -> Parts
        ensures { parts_from 0 (verb_places self.now) result ≡ verb_parts self.now }
    {
        match *self {
            Verb::User => named([0, 0, 0, 0, 0]),
            Verb::Trigger { user } => named([user, 0, 0, 0, 0]),
            Verb::Cancel { user } => named([user, 0, 0, 0, 0]),
            Verb::Merge { .. } => named([0, 0, 0, 0, 0]),
            Verb::MergeIgnore { .. } => named([0, 0, 0, 0, 0]),
            Verb::Phase { barrier } => named([barrier, 0, 0, 0, 0]),
            Verb::Arrive {
                phase,
                value,
                weight,
            } => valued([phase, 0, 0, weight, 0], [0, value, 0, 0, 0]),
            Verb::Acquire { lock, .. } => named([lock, 0, 0, 0, 0]),
            Verb::Release { acquire } => named([acquire, 0, 0, 0, 0]),
            Verb::Fill {
                target,
                space,
                value,
            } => valued([target, space, 0, 0, 0], [0, 0, value, 0, 0]),
            Verb::Copy {
                source,
                target,
                space,
            } => named([source, target, space, 0, 0]),
            Verb::Reduce {
                op: Op::Sum,
                source,
                target,
                space,
            } => named([source, target, space, 0, 0]),
            Verb::Reduce {
                op: Op::Min,
                source,
                target,
                space,
            } => named([source, target, space, 0, 0]),
            Verb::Reduce {
                op: Op::Max,
                source,
                target,
                space,
            } => named([source, target, space, 0, 0]),
            Verb::Task { kernel } => kernel.parts(),
            Verb::Call { .. } => named([0, 0, 0, 0, 0]),
        }
    }

    /// The verb of a kind with these parts.
    pub fn of(kind: Kind, parts: &Parts) -> Verb
        ensures { result ≡ verb_of kind (parts_of kind parts.now) }
    {
        let n = parts.numbers;
        let v = parts.values;
        match kind {
            Kind::User => Verb::User,
            Kind::Trigger => Verb::Trigger { user: n[0] },
            Kind::Cancel => Verb::Cancel { user: n[0] },
            Kind::Phase => Verb::Phase { barrier: n[0] },
            Kind::Arrive => Verb::Arrive {
                phase: n[0],
                value: v[1],
                weight: 1,
            },
            Kind::ArriveTimes => Verb::Arrive {
                phase: n[0],
                value: v[1],
                weight: n[3],
            },
            Kind::Acquire => Verb::Acquire {
                lock: n[0],
                shared: false,
            },
            Kind::AcquireShared => Verb::Acquire {
                lock: n[0],
                shared: true,
            },
            Kind::Release => Verb::Release { acquire: n[0] },
            Kind::Fill => Verb::Fill {
                target: n[0],
                space: n[1],
                value: v[2],
            },
            Kind::Copy => Verb::Copy {
                source: n[0],
                target: n[1],
                space: n[2],
            },
            Kind::ReduceSum => reduce(Op::Sum, parts),
            Kind::ReduceMin => reduce(Op::Min, parts),
            Kind::ReduceMax => reduce(Op::Max, parts),
            Kind::Iota => task(Kernel::Iota {
                x: n[0],
                s: n[1],
                value: v[2],
            }),
            Kind::Axpy => task(Kernel::Axpy {
                x: n[0],
                y: n[1],
                s: n[2],
                factor: v[3],
            }),
            Kind::Stencil => task(Kernel::Stencil {
                x: n[0],
                y: n[1],
                r: n[2],
                s: n[3],
            }),
            Kind::Scan => task(Kernel::Scan {
                x: n[0],
                y: n[1],
                s: n[2],
            }),
            Kind::Hist => task(Kernel::Hist {
                x: n[0],
                y: n[1],
                s: n[2],
                t: n[3],
            }),
            Kind::Dot => task(Kernel::Dot {
                x: n[0],
                y: n[1],
                z: n[2],
                s: n[3],
                t: n[4],
            }),
            Kind::Expect => task(Kernel::Expect {
                x: n[0],
                s: n[1],
                low: v[2],
                high: v[3],
            }),
            Kind::Gather => task(Kernel::Gather {
                x: n[0],
                y: n[1],
                z: n[2],
                s: n[3],
                t: n[4],
            }),
        }
    }
}

fn reduce(op: Op, parts: &Parts) -> Verb
    ensures { result ≡ Verb.Reduce op (slice_index parts.now.numbers 0) (slice_index parts.now.numbers 1) (slice_index parts.now.numbers 2) }
{
    Verb::Reduce {
        op,
        source: parts.numbers[0],
        target: parts.numbers[1],
        space: parts.numbers[2],
    }
}

fn task(kernel: Kernel) -> Verb
    ensures { result ≡ Verb.Task kernel }
{
    Verb::Task { kernel }
}

impl Kernel {
    ghost use Rattle.std.specs.Prelude.{◌≡◌};
    ghost use Rattle.graph_terms.specs.Table.{kernel_kind, kernel_parts, kind_places, parts_from};

    fn kind(&self) -> Kind
        ensures { result ≡ kernel_kind self.now }
    {
        match self {
            Kernel::Iota { .. } => Kind::Iota,
            Kernel::Axpy { .. } => Kind::Axpy,
            Kernel::Stencil { .. } => Kind::Stencil,
            Kernel::Scan { .. } => Kind::Scan,
            Kernel::Hist { .. } => Kind::Hist,
            Kernel::Dot { .. } => Kind::Dot,
            Kernel::Expect { .. } => Kind::Expect,
            Kernel::Gather { .. } => Kind::Gather,
        }
    }

    fn parts(&self) -> Parts
        ensures { parts_from 0 (kind_places (kernel_kind self.now)) result ≡ kernel_parts self.now }
    {
        match *self {
            Kernel::Iota { x, s, value } => valued([x, s, 0, 0, 0], [0, 0, value, 0, 0]),
            Kernel::Axpy { x, y, s, factor } => valued([x, y, s, 0, 0], [0, 0, 0, factor, 0]),
            Kernel::Stencil { x, y, r, s } => named([x, y, r, s, 0]),
            Kernel::Scan { x, y, s } => named([x, y, s, 0, 0]),
            Kernel::Hist { x, y, s, t } => named([x, y, s, t, 0]),
            Kernel::Dot { x, y, z, s, t } => named([x, y, z, s, t]),
            Kernel::Expect { x, s, low, high } => valued([x, s, 0, 0, 0], [0, 0, low, high, 0]),
            Kernel::Gather { x, y, z, s, t } => named([x, y, z, s, t]),
        }
    }
}
