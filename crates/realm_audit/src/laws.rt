//! What holds of traces. The function only states it.

ghost use Rattle.realm_audit.specs.Laws.{OrderIsLawful};

use graph_meaning::laws::order_lists_ended;

/// The order of the evaluation is a lawful trace of a graph that acquires no reservation.
pub fn order_is_lawful()
    ensures { OrderIsLawful }
{
    order_lists_ended();
}
