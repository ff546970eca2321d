//! Spaces in classes: two are of one class where they have a point in common, or where others link them.

ghost use Rattle.std.specs.Prelude.{◌≡◌, ℕ, ◌<◌, length, false, Contains, IfOk, OnOk, IsTrue};
ghost use Rattle.space_classes.specs.Classes.{values, AreFirsts, HasClass, AddsFirst};
ghost use Rattle.space_classes.specs.Spans.{HasClasses};

use crate::spans::sorted_spans;
use crate::sweep::labels_of;
use index_spaces::NoMemory;
use index_spaces::room::push;
use index_spaces::space::Space;
use std::alloc::Global;

/// An interval of a space.
#[derive(Clone, Copy)]
pub struct Span {
    /// Its least point.
    pub first: u32,
    /// Its greatest point.
    pub last: u32,
    /// The place of its space.
    pub owner: usize,
}

/// Some spaces in classes.
#[derive(Drop)]
pub struct SpaceClasses {
    /// The intervals of all spaces, by their first points.
    pub spans: Vec<Span>,
    /// For each space the label of its class.
    pub labels: Vec<usize>,
}

/// The classes of these spaces.
pub fn classes_of(alloc: Global, spaces: &[&Space]) -> Result<SpaceClasses, NoMemory>
    ensures { IfOk result (λ x. HasClasses (values spaces.now) x) }
{
    let spans = sorted_spans(alloc, spaces)?;
    let labels = labels_of(alloc, spaces, &spans)?;
    Ok(SpaceClasses { spans, labels })
}

/// The place of the first space of each class, or of more than so many classes.
pub fn firsts(alloc: Global, labels: &[usize], most: usize) -> Result<Vec<usize>, NoMemory>
    ensures { IfOk result (λ v. AreFirsts labels.now most v.items) }
{
    let mut firsts = Vec::new(alloc);
    for k in 0..labels.len() {
        add_first(labels, &mut firsts, k)?;
        if firsts.len() > most {
            return Ok(firsts);
        }
    }
    Ok(firsts)
}

/// Puts the place of a space at the end, unless one of its class is there.
fn add_first(labels: &[usize], firsts: &mut Vec<usize>, k: usize) -> Result<(), NoMemory>
    requires known { (a : ℕ) → Contains firsts.old.items a → a < length labels.now }
    requires place { k < length labels.now }
    ensures { OnOk result (AddsFirst labels.now k firsts.old.items firsts.new.items) }
{
    if has_class(labels, firsts, labels[k]) {
        return Ok(());
    }
    push(firsts, k)
}

/// Whether a space at one of these places has a label.
fn has_class(labels: &[usize], firsts: &[usize], wanted: usize) -> bool
    requires { (a : ℕ) → Contains firsts.now a → a < length labels.now }
    ensures some { IsTrue result → HasClass labels.now firsts.now wanted }
    ensures none { result ≡ false → HasClass labels.now firsts.now wanted → ⊥ }
{
    for first in firsts {
        if labels[*first] == wanted {
            return true;
        }
    }
    false
}
