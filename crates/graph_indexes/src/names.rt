//! The names of a graph.

ghost use Rattle.std.specs.Prelude.{◌≡◌, ℕ, List, Some, None, cond, OnOk, OnErr};
ghost use Rattle.std.specs.Str.{bytes_eq};
ghost use Rattle.graph_indexes.specs.Names.{named, told};

use crate::chains::{Chains, Seat};
use graph_terms::found::Found;
use graph_terms::name::Name;
use index_spaces::NoMemory;
use std::alloc::Global;
use std::collections::BTreeMap;
use std::marker::Model;

/// The names of a graph, in chains of slots whose number grows with that of the names. Where a chain
/// has no place for a name, it is in an ordered map: so names that all ask for one slot cost what
/// they do there.
#[derive(Drop)]
pub struct Names {
    alloc: Global,
    chains: Chains,
    others: BTreeMap<Name, Found>,
}

impl Model for Names {
    ghost use Rattle.graph_indexes.specs.Names.{NamesValue};

    ghost Value = { NamesValue };

    ghost view = { λ a. record { chains = a.chains; others = a.others.entries } };
}

impl Names {
    /// No names. It takes no memory.
    pub fn new(alloc: Global) -> Names
        ensures { (q : List ℕ) → named result q ≡ None }
    {
        Names {
            alloc,
            chains: Chains::new(alloc),
            others: BTreeMap::new(alloc),
        }
    }

    /// What a name stands for. `None` where it stands for nothing.
    pub fn get(&self, name: &Name) -> Option<Found>
        ensures { result ≡ named self.now name.now }
    {
        match self.chains.told(name) {
            Some(found) => found,
            None => self.others.get(name).copied(),
        }
    }

    /// Puts a name in. `NoMemory` leaves the names as they were.
    pub fn insert(&mut self, name: &Name, found: Found) -> Result<(), NoMemory>
        ensures ok { OnOk result ((q : List ℕ) → named self.new q ≡ cond (bytes_eq name.now q) (Some found) (named self.old q)) }
        ensures err { OnErr result ((q : List ℕ) → named self.new q ≡ named self.old q) }
    {
        if self.chains.is_crowded() {
            self.grow()?;
        }
        self.put(name, found)
    }

    /// Takes a name out.
    pub fn remove(&mut self, name: &Name)
        ensures { (q : List ℕ) → named self.new q ≡ cond (bytes_eq name.now q) None (named self.old q) }
    {
        match self.chains.seat(name) {
            Seat::Own(number) => self.chains.set(number, name, None),
            _ => self.remove_beside(name),
        }
    }

    /// Puts the names of the chains into more slots.
    fn grow(&mut self) -> Result<(), NoMemory>
        ensures { (q : List ℕ) → named self.new q ≡ named self.old q }
    {
        if let Some(chains) = self.chains.grown(self.alloc)? {
            self.chains = chains;
        }
        Ok(())
    }

    /// Puts a name in, with the slots that there are.
    fn put(&mut self, name: &Name, found: Found) -> Result<(), NoMemory>
        ensures ok { OnOk result ((q : List ℕ) → named self.new q ≡ cond (bytes_eq name.now q) (Some found) (named self.old q)) }
        ensures err { OnErr result (self.new ≡ self.old) }
    {
        match self.chains.seat(name) {
            Seat::Own(number) => {
                self.chains.set(number, name, Some(found));
                Ok(())
            }
            Seat::Free => self.chains.put_first(name, Some(found)),
            Seat::Full => self.insert_beside(name, found),
        }
    }

    /// Puts a name into the map, which no chain has.
    fn insert_beside(&mut self, name: &Name, found: Found) -> Result<(), NoMemory>
        requires { told self.old.chains name.now ≡ None }
        ensures ok { OnOk result ((q : List ℕ) → named self.new q ≡ cond (bytes_eq name.now q) (Some found) (named self.old q)) }
        ensures err { OnErr result (self.new ≡ self.old) }
    {
        if self.others.insert(*name, found).is_err() {
            return Err(NoMemory);
        }
        Ok(())
    }

    /// Takes a name out of the map, which no chain has.
    fn remove_beside(&mut self, name: &Name)
        requires { told self.old.chains name.now ≡ None }
        ensures { (q : List ℕ) → named self.new q ≡ cond (bytes_eq name.now q) None (named self.old q) }
    {
        self.others.remove(name);
    }
}
