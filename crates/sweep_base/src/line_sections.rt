//! In which sections the lines lie.

ghost use Rattle.std.specs.Prelude.{◌≡◌, ℕ, ◌<◌, ◌↔◌, None, length, IsTrue, OnOk, IfOk, IfSome};
ghost use Rattle.graph_meaning.specs.Rules.{Section};
ghost use Rattle.sweep_base.specs.Held.{IsHeld, IsKeeping, Exclude, acquire_in, kept_in};

use graph_model::graph::Graph;
use index_spaces::NoMemory;
use index_spaces::room::{push, with_room};
use std::alloc::Global;

/// An acquire, and the reservation that it acquires.
#[derive(Clone, Copy)]
pub struct Kept {
    pub lock: u32,
    pub acquire: u32,
}

/// For each line a list of acquires in whose sections it lies, or no list where it lies in none. Of
/// those of one reservation the first counts.
#[derive(Drop)]
pub struct Held {
    pub lines: Vec<Vec<Kept>>,
}

impl Held {
    /// Empty lists for so many lines.
    pub fn new(alloc: Global, lines: u32) -> Result<Held, NoMemory>
        ensures size { IfOk result (λ h. length h.lines.items ≡ lines) }
        ensures none { IfOk result (λ h. (l i : ℕ) → acquire_in h l i ≡ None) }
    {
        let mut lists = with_room(alloc, lines as usize)?;
        for _line in 0..lines {
            push(&mut lists, Vec::new(alloc))?;
        }
        Ok(Held { lines: lists })
    }

    /// Keeps an acquire for a line that has a list.
    pub fn keep(&mut self, line: u32, lock: u32, acquire: u32) -> Result<(), NoMemory>
        requires { line < length self.old.lines.items }
        ensures { OnOk result (IsKeeping self.old self.new lock line acquire) }
    {
        push(&mut self.lines[line as usize], Kept { lock, acquire })
    }

    /// Whether two lines lie in sections of two different acquires of one reservation, not both
    /// shared, of those that count.
    pub fn are_apart(&self, graph: &Graph, one: u32, other: u32) -> bool
        requires { IsHeld graph.now self.now }
        ensures { IsTrue result ↔ ((l : ℕ) × Exclude graph.now (acquire_in self.now l one) (acquire_in self.now l other)) }
    {
        let Some(list) = self.lines.get(one as usize) else {
            return false;
        };
        for kept in list {
            let acquire = self.acquire(kept.lock, one);
            if exclude(graph, acquire, self.acquire(kept.lock, other)) {
                return true;
            }
        }
        false
    }

    /// The acquire of a reservation in whose section a line lies, where there is one.
    pub fn acquire(&self, lock: u32, line: u32) -> Option<u32>
        ensures { result ≡ acquire_in self.now lock line }
    {
        match self.lines.get(line as usize) {
            Some(list) => first_kept(list.as_slice(), lock),
            None => None,
        }
    }

    /// A reservation in a section of which a line lies.
    pub fn some_lock(&self, graph: &Graph, line: u32) -> Option<u32>
        requires { IsHeld graph.now self.now }
        ensures { IfSome result (λ l. (q : ℕ) × Section graph.now l q line) }
    {
        let list = self.lines.get(line as usize)?;
        let kept = list.get(0)?;
        Some(kept.lock)
    }

    /// Whether a line lies in no section.
    pub fn is_free(&self, graph: &Graph, line: u32) -> bool
        requires held { IsHeld graph.now self.now }
        requires line { line < length graph.now.lines }
        ensures { IsTrue result → (l q : ℕ) → Section graph.now l q line → ⊥ }
    {
        match self.lines.get(line as usize) {
            Some(list) => list.is_empty(),
            None => true,
        }
    }
}

/// The first acquire of a reservation in a list.
fn first_kept(list: &[Kept], lock: u32) -> Option<u32>
    ensures { result ≡ kept_in list.now lock }
{
    for kept in list {
        if kept.lock == lock {
            return Some(kept.acquire);
        }
    }
    None
}

/// Whether two acquires are both there, they differ, and they are not both shared. Where they are
/// of one reservation, no line of the section of one runs beside a line of the other's.
fn exclude(graph: &Graph, one: Option<u32>, other: Option<u32>) -> bool
    requires one { IfSome one (λ q. q < length graph.now.lines) }
    requires other { IfSome other (λ q. q < length graph.now.lines) }
    ensures { IsTrue result ↔ Exclude graph.now one other }
{
    let (Some(one), Some(other)) = (one, other) else {
        return false;
    };
    one != other && !(graph.is_shared(one) && graph.is_shared(other))
}
