//! The parts of a column.

ghost use Rattle.std.specs.Prelude.{◌≡◌, ◌<◌, ℕ, length, [], ◌∷◌, Contains, IfOk, IfSome, None};
ghost use Rattle.graph_terms.specs.Graph.{named_spaces, column_space, space_at};
ghost use Rattle.space_classes.specs.Classes.{values};
ghost use Rattle.space_classes.specs.Spans.{HasClasses};
ghost use Rattle.column_parts.specs.declared.parts.Part.TheVariants.{Declared, Union};
ghost use Rattle.column_parts.specs.Accessed.{AreAccessed};
ghost use Rattle.column_parts.specs.Column.{spaces_at, AreParts, AreClassParts, IsClassPart, HasWideClass, IsWide};

use crate::parts::Part;
use column_pieces::pieces::MAX_COLUMN_PIECES;
use graph_meaning::line_laws::accesses_fit;
use graph_model::graph::Graph;
use index_spaces::NoMemory;
use index_spaces::limits::MAX_INTERVALS_OF_THREE;
use index_spaces::room::{push, with_room};
use index_spaces::space::Space;
use space_classes::classes::SpaceClasses;
use space_classes::points::ClassPoints;
use space_classes::{classes_of, firsts, points_of};
use std::alloc::Global;

/// The parts of a column that is accessed over the spaces of these numbers: the connected components.
/// Where these are more than `MAX_COLUMN_PIECES`, or one has more intervals than a declared space may
/// have, the whole column is one part.
pub(crate) fn column_parts(
    alloc: Global,
    graph: &Graph,
    column: u32,
    numbers: &[u32],
    whole: u32,
) -> Result<Vec<Part>, NoMemory>
    requires accessed { AreAccessed graph.now column numbers.now }
    requires whole { space_at graph.now whole ≡ column_space graph.now column }
    ensures { IfOk result (λ v. AreParts graph.now column v.items) }
{
    accesses_fit();
    let _ = graph.lines();
    let spaces = spaces_at(alloc, graph, numbers)?;
    let classes = classes_of(alloc, &spaces)?;
    let firsts = firsts(alloc, &classes.labels, MAX_COLUMN_PIECES as usize)?;
    if firsts.len() > MAX_COLUMN_PIECES as usize {
        return only(alloc, whole);
    }
    match class_parts(alloc, numbers, &spaces, &classes, &firsts)? {
        Some(parts) => Ok(parts),
        None => only(alloc, whole),
    }
}

/// A declared space alone.
fn only(alloc: Global, s: u32) -> Result<Vec<Part>, NoMemory>
    ensures { IfOk result (λ v. v.items ≡ Declared s ∷ []) }
{
    let mut parts = with_room(alloc, 1)?;
    push(&mut parts, Part::Declared(s))?;
    Ok(parts)
}

/// The spaces of these numbers.
fn spaces_at<'a>(
    alloc: Global,
    graph: &'a Graph,
    numbers: &[u32],
) -> Result<Vec<&'a Space>, NoMemory>
    requires { (s : ℕ) → Contains numbers.now s → s < length (named_spaces graph.now) }
    ensures { IfOk result (λ v. values v.items ≡ spaces_at graph.now numbers.now) }
{
    let mut spaces = with_room(alloc, numbers.len())?;
    for s in numbers {
        push(&mut spaces, graph.space(*s))?;
    }
    Ok(spaces)
}

/// A part for each class, by the places of their first spaces. None where a union has more intervals
/// than a declared space may have.
fn class_parts(
    alloc: Global,
    numbers: &[u32],
    spaces: &[&Space],
    classes: &SpaceClasses,
    firsts: &[usize],
) -> Result<Option<Vec<Part>>, NoMemory>
    requires count { length numbers.now ≡ length spaces.now }
    requires classes { HasClasses (values spaces.now) classes.now }
    requires firsts { (k : ℕ) → Contains firsts.now k → k < length spaces.now }
    ensures some { IfOk result (λ o. IfSome o (λ v. AreClassParts numbers.now (values spaces.now) classes.now.labels.items firsts.now v.items)) }
    ensures none { IfOk result (λ o. o ≡ None → HasWideClass (values spaces.now) classes.now.labels.items) }
{
    let mut parts = with_room(alloc, firsts.len())?;
    for k in firsts {
        match class_part(alloc, numbers, spaces, classes, *k)? {
            Some(part) => push(&mut parts, part)?,
            None => return Ok(None),
        }
    }
    Ok(Some(parts))
}

/// The part of the class of the space at a place. None where it is a union of more intervals than a
/// declared space may have.
fn class_part(
    alloc: Global,
    numbers: &[u32],
    spaces: &[&Space],
    classes: &SpaceClasses,
    k: usize,
) -> Result<Option<Part>, NoMemory>
    requires count { length numbers.now ≡ length spaces.now }
    requires classes { HasClasses (values spaces.now) classes.now }
    requires place { k < length spaces.now }
    ensures some { IfOk result (λ o. IfSome o (λ x. IsClassPart numbers.now (values spaces.now) classes.now.labels.items k x)) }
    ensures none { IfOk result (λ o. o ≡ None → HasWideClass (values spaces.now) classes.now.labels.items) }
{
    match points_of(alloc, spaces, classes, k)? {
        ClassPoints::Space(j) => Ok(Some(Part::Declared(numbers[j]))),
        ClassPoints::Union(union) => Ok(narrow(union)),
    }
}

/// The part of a union of no more intervals than a declared space may have.
fn narrow(union: Space) -> Option<Part>
    ensures some { IfSome result (λ x. x ≡ Union union) }
    ensures none { result ≡ None → IsWide union }
{
    if union.intervals().len() > MAX_INTERVALS_OF_THREE as usize {
        return None;
    }
    Some(Part::Union(union))
}
