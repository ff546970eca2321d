//! Copies of verbs.

ghost use Rattle.std.specs.Prelude.{◌≡◌, IsTrue};
ghost use Rattle.flow_order.specs.Flow.{uses_columns};

use graph_terms::verb::Verb;

/// A copy of a verb that uses columns.
pub(crate) fn copy_of_verb(verb: &Verb) -> Verb
    requires { IsTrue (uses_columns verb.now) }
    ensures { result ≡ verb.now }
{
    match verb {
        Verb::Fill {
            target,
            space,
            value,
        } => Verb::Fill {
            target: *target,
            space: *space,
            value: *value,
        },
        Verb::Copy {
            source,
            target,
            space,
        } => Verb::Copy {
            source: *source,
            target: *target,
            space: *space,
        },
        Verb::Reduce {
            op,
            source,
            target,
            space,
        } => Verb::Reduce {
            op: *op,
            source: *source,
            target: *target,
            space: *space,
        },
        Verb::Task { kernel } => Verb::Task { kernel: *kernel },
        _ => unreachable!(),
    }
}
