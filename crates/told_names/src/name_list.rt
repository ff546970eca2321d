//! The names that are told of a line, each once.

use graph_words::words::is_same;
use index_spaces::NoMemory;
use indexmap::IndexSet;
use std::alloc::Global;
use std::marker::Model;

/// As many ends of names are told apart.
const ENDS: usize = 256;

/// Names, each once, in the order in which they came first.
#[derive(Drop)]
pub(crate) struct NameList<'a> {
    names: IndexSet<&'a [u8]>,
    /// Where the next word is looked for first.
    next: usize,
    /// Where a name with such an end was put or found last.
    by_end: [usize; ENDS],
}

impl<'a> Model for NameList<'a> {
    ghost use Rattle.std.specs.Prelude.{ℕ, List, map};

    ghost Value = { List (List ℕ) };

    ghost view = { λ a. map (λ w. w.now) a.names.keys };
}

impl<'a> NameList<'a> {
    ghost use Rattle.std.specs.Prelude.{◌≡◌, ◌<◌, [], length, OnOk};
    ghost use Rattle.std.specs.List.{slice_index_or};
    ghost use Rattle.told_names.specs.Named.{is_name_at, with_name};

    /// No name.
    pub(crate) fn new(alloc: Global) -> NameList<'a>
        ensures { result ≡ [] }
    {
        NameList {
            names: IndexSet::new(alloc),
            next: 0,
            by_end: [0; ENDS],
        }
    }

    /// How many names there are.
    pub(crate) fn len(&self) -> usize
        ensures { result ≡ length self.now }
    {
        self.names.len()
    }

    /// The name of number `i`, from 0.
    pub(crate) fn at(&self, i: usize) -> &'a [u8]
        requires { i < length self.now }
        ensures { result.now ≡ slice_index_or self.now i [] }
    {
        match self.names.get_index(i) {
            Some(name) => *name,
            None => unreachable!(),
        }
    }

    /// Puts a name at the end, where it is not there. Words often stand in turn, or one comes again, so the name behind
    /// the one that was found and the last one with this end are looked at before all.
    pub(crate) fn add(&mut self, name: &'a [u8]) -> Result<(), NoMemory>
        ensures { OnOk result (self.new ≡ with_name self.old name.now) }
    {
        if self.is_at(self.next, name) {
            self.go_on();
            return Ok(());
        }
        if self.is_at(self.by_end[end_of(name) as usize], name) {
            return Ok(());
        }
        self.put(name)
    }

    /// Whether the name of number `i` is this one.
    fn is_at(&self, i: usize, name: &[u8]) -> bool
        ensures { result ≡ is_name_at self.now i name.now }
    {
        match self.names.get_index(i) {
            Some(other) => is_same(name, other),
            None => false,
        }
    }

    /// Goes on to the name behind, or from the last to the first.
    fn go_on(&mut self)
        ensures { self.new ≡ self.old }
    {
        self.next = self.next.saturating_add(1);
        if self.next >= self.names.len() {
            self.next = 0;
        }
    }

    /// Puts a name at the end, where it is not among all.
    fn put(&mut self, name: &'a [u8]) -> Result<(), NoMemory>
        ensures { OnOk result (self.new ≡ with_name self.old name.now) }
    {
        match self.names.insert_full(name) {
            Ok((place, _)) => {
                self.by_end[end_of(name) as usize] = place;
                Ok(())
            }
            Err(_) => Err(NoMemory),
        }
    }
}

/// A number for the last three bytes of a name. Names that differ in their last two digits alone have
/// different ones.
fn end_of(name: &[u8]) -> u8 {
    let mut end: u8 = 0;
    for byte in name.iter().rev().take(3) {
        end = end.wrapping_mul(11).wrapping_add(*byte);
    }
    end
}
