//! Which uses have an order.

ghost use Rattle.std.specs.Prelude.{◌≡◌};
ghost use Rattle.flow_order.specs.Meaning.{order_counts};

use graph_terms::verb::Mode;

/// Whether the order of two uses counts: not both are reads and, where sums commute, not both sums.
pub(crate) fn order_counts(commute: bool, one: Mode, other: Mode) -> bool
    ensures { result ≡ order_counts commute one other }
{
    match (one, other) {
        (Mode::Read, Mode::Read) => false,
        (Mode::Sum, Mode::Sum) => !commute,
        _ => true,
    }
}
