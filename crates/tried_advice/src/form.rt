//! What is tried.

ghost use Rattle.std.specs.Prelude.{◌≡◌};

/// A change of waits by which two lines may come to be ordered. Lines are numbered from 0, as are the
/// events, each by its line.
#[derive(Clone, Copy, Debug)]
pub enum Form {
    /// This line waits for this event besides.
    OnLine { line: u32, event: u32 },
    /// This line comes between two others: it waits for the one before it besides, and the one after it
    /// for this line.
    Between { before: u32, line: u32, after: u32 },
}

impl Form {
    ghost use Rattle.tried_advice.specs.Forms.{event_for};

    /// The event for which line `n` is to wait besides.
    pub(crate) fn event_for(self, n: u32) -> Option<u32>
        ensures { result ≡ event_for self n }
    {
        match self {
            Form::OnLine { line, event } if n == line => Some(event),
            Form::Between { before, line, .. } if n == line => Some(before),
            Form::Between { line, after, .. } if n == after => Some(line),
            _ => None,
        }
    }
}
