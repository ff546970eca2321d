//! What lines read and write.

ghost use Rattle.std.specs.Prelude.{◌≡◌, Some, None, [], ◌∷◌, true, slice_get};
ghost use Rattle.graph_terms.specs.declared.verb.Mode.TheVariants.{Read};
ghost use Rattle.graph_terms.specs.Table.{is_row, parts_from};
ghost use Rattle.graph_terms.specs.Access.{access, access_in, in_format, or_write, mode_in, accesses_of, verb_accesses, kept_accesses, present};

use crate::format::Format;
use crate::table::{Parts, Place};
use crate::verb::{Access, Mode, Verb};
use index_spaces::Op;

/// Up to three accesses, in order.
pub type Accesses = [Option<Access>; 3];

/// The accesses of a line that does this. Those of fills, copies and reductions, which are many, are not
/// looked up in the table.
pub fn verb_accesses(verb: &Verb) -> Accesses
    ensures each { result ≡ kept_accesses verb.now }
    ensures present { present result ≡ verb_accesses verb.now }
{
    match *verb {
        Verb::Fill { target, space, .. } => [over(target, space, Mode::Write), None, None],
        Verb::Copy {
            source,
            target,
            space,
        } => between(source, target, space, Mode::Write),
        Verb::Reduce {
            op: Op::Sum,
            source,
            target,
            space,
        } => between(source, target, space, Mode::Sum),
        Verb::Reduce {
            op: Op::Min,
            source,
            target,
            space,
        } => between(source, target, space, Mode::Least),
        Verb::Reduce {
            op: Op::Max,
            source,
            target,
            space,
        } => between(source, target, space, Mode::Most),
        _ => placed_accesses(verb),
    }
}

/// The accesses of what reads one column and changes another, over one space.
fn between(source: u32, target: u32, space: u32, mode: Mode) -> Accesses
    ensures { result ≡ Some (access source space Read) ∷ Some (access target space mode) ∷ None ∷ [] }
{
    [
        over(source, space, Mode::Read),
        over(target, space, mode),
        None,
    ]
}

/// The access of a column over a space.
fn over(column: u32, space: u32, mode: Mode) -> Option<Access>
    ensures { result ≡ Some (access column space mode) }
{
    Some(Access {
        column,
        space,
        mode,
    })
}

/// The accesses of a line that does this, by the table of kinds.
fn placed_accesses(verb: &Verb) -> Accesses
    ensures { result ≡ kept_accesses verb.now }
{
    match verb.kind() {
        Some(kind) => {
            let places = kind.row().places;
            let parts = verb.parts();
            [
                access_at(places, &parts, 0),
                access_at(places, &parts, 1),
                access_at(places, &parts, 2),
            ]
        }
        None => [None, None, None],
    }
}

/// The access in the place of number `k`. Columns stand first.
fn access_at(places: &[Place], parts: &Parts, k: usize) -> Option<Access>
    requires { is_row places.now ≡ true }
    ensures { result ≡ slice_get (accesses_of places.now (parts_from 0 places.now parts.now)) k }
{
    match places.get(k) {
        Some(place) => access_in(*place, parts, k),
        None => None,
    }
}

fn access_in(place: Place, parts: &Parts, k: usize) -> Option<Access>
    ensures { result ≡ access_in parts.now place k }
{
    match place {
        Place::Column(mode, over) => Some(Access {
            column: parts.number(k),
            space: parts.number(over),
            mode,
        }),
        _ => None,
    }
}

/// A reduction by the least or the greatest value is a write to format 1.
fn or_write(format: Format, mode: Mode) -> Mode
    ensures { result ≡ or_write format mode }
{
    match format {
        Format::One => Mode::Write,
        _ => mode,
    }
}

fn mode_in(format: Format, mode: Mode) -> Mode
    ensures { result ≡ mode_in format mode }
{
    match mode {
        Mode::Read => Mode::Read,
        Mode::Write => Mode::Write,
        Mode::Sum => Mode::Sum,
        Mode::Least => or_write(format, Mode::Least),
        Mode::Most => or_write(format, Mode::Most),
    }
}

/// An access as a format takes it.
pub fn in_format(format: Format, access: Access) -> Access
    ensures { result ≡ in_format format access }
{
    Access {
        column: access.column,
        space: access.space,
        mode: mode_in(format, access.mode),
    }
}
