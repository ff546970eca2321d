//! Words for causes and for faults.

ghost use Rattle.std.specs.Prelude.{◌≡◌};
ghost use Rattle.explain_text.specs.Accepted.{fault_word};
ghost use Rattle.explain_text.specs.Lines.{cause_word};

use explain_graph::Cause;
use graph_terms::outcome::End;

/// The word for a cause.
pub(crate) fn cause_word(cause: Cause) -> &'static [u8]
    ensures { result.now ≡ cause_word cause }
{
    match cause {
        Cause::On => b"on",
        Cause::Merge => b"merge",
        Cause::MergeIgnore => b"mergei",
        Cause::Trigger => b"trigger",
        Cause::Cancel => b"cancel",
        Cause::Arrival => b"arrival",
        Cause::PhaseOrder => b"phase order",
    }
}

/// What a line does with which a fault begins, by its end.
pub(crate) fn fault_word(end: End) -> &'static [u8]
    ensures { result.now ≡ fault_word end }
{
    match end {
        End::Faulted => b" faulted",
        _ => b" cancels",
    }
}
