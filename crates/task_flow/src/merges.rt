//! The merges that stand.

ghost use Rattle.std.specs.Prelude.{◌≡◌, ℕ, ◌++◌, [], ◌∷◌, None, List, find, bytes_eq, option_map, OnOk};

use graph_terms::lists::LineList;
use index_spaces::NoMemory;
use indexmap::IndexMap;
use std::alloc::Global;
use std::marker::Model;

/// For each merge its events, as a key, and its line.
#[derive(Drop)]
pub(crate) struct Merges {
    lines: IndexMap<Vec<u32>, u32>,
}

impl Model for Merges {
    ghost use Rattle.std.specs.Prelude.{ℕ, List, map};

    ghost Value = { List (List ℕ × ℕ) };

    ghost view = { λ a. map (λ e. (e.0.items, e.1)) a.lines.entries };
}

impl Merges {
    /// No merge.
    pub(crate) fn new(alloc: Global) -> Merges
        ensures { result ≡ [] }
    {
        Merges {
            lines: IndexMap::new(alloc),
        }
    }

    /// The line of the merge of these events, where it stands.
    pub(crate) fn find(&self, events: &LineList) -> Option<u32>
        ensures { result ≡ option_map (λ (x : List ℕ × ℕ). x.1) (find (λ (x : List ℕ × ℕ). bytes_eq x.0 events.now) self.now) }
    {
        self.lines.get(events.items.as_slice()).copied()
    }

    /// Notes the line of the merge of these events, which did not stand.
    pub(crate) fn add(
        &mut self,
        alloc: Global,
        events: &LineList,
        line: u32,
    ) -> Result<(), NoMemory>
        requires { None ≡ option_map (λ (x : List ℕ × ℕ). x.1) (find (λ (x : List ℕ × ℕ). bytes_eq x.0 events.now) self.old) }
        ensures { OnOk result (self.new ≡ self.old ++ (events.now, line) ∷ []) }
    {
        let Ok(key) = Vec::from_slice(alloc, events.items.as_slice()) else {
            return Err(NoMemory);
        };
        match self.lines.insert(key, line) {
            Ok(_) => {}
            Err(_) => return Err(NoMemory),
        }
        Ok(())
    }
}
