//! Orders in which the lines of a graph are attempted.

ghost use Rattle.std.specs.Prelude.{◌<◌};

/// In which order lines are attempted.
#[derive(Clone, Copy)]
pub(crate) enum Order {
    Ascending,
    Descending,
    /// The first, the last, the second, the last but one, and so on.
    Alternating,
}

/// The line at a place of this order of so many lines.
pub(crate) fn line_at(order: Order, place: u32, lines: u32) -> u32
    requires { place < lines }
    ensures { result < lines }
{
    let last = lines - 1;
    match order {
        Order::Ascending => place,
        Order::Descending => last - place,
        Order::Alternating if place % 2 == 0 => place / 2,
        Order::Alternating => last - place / 2,
    }
}
