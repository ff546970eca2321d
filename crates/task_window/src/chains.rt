//! A log of links, with those of one key tied to each other.

ghost use Rattle.std.specs.Prelude.{◌≡◌, ℕ, ◌+◌, ◌^◌, ◌<◌, ◌≤◌, ◌++◌, [], ◌∷◌, length, OnOk, OnErr};
ghost use Rattle.task_window.specs.Chains.{ChainsValue, IsLatest, link_at};

use crate::links::Link;
use index_spaces::NoMemory;
use index_spaces::room::{push_within, reserve};
use std::alloc::Global;
use std::marker::Model;

/// Links in the order in which they were put, each tied to the one of its key before it.
#[derive(Drop)]
pub(crate) struct Chains {
    links: Vec<Link>,
    // by link: one more than the number of the one of its key before it, or 0
    earlier: Vec<u32>,
    // by key: one more than the number of its last link, or 0
    last: Vec<u32>,
}

impl Model for Chains {
    ghost use Rattle.std.specs.Prelude.{length};
    ghost use Rattle.task_window.specs.Chains.{ChainsValue};

    ghost Value = { ChainsValue };

    ghost use Rattle.std.specs.Prelude.{min};
    ghost use Rattle.std.specs.Vec.{vec_capacity};
    ghost use Rattle.task_window.specs.Chains.{AreChained};

    ghost view = { λ c. record { keys = length c.last.items; links = c.links.items; room = min (min (vec_capacity c.links) (vec_capacity c.earlier)) 4294967295 } };

    ghost invariant = { λ c. AreChained c.links.items c.earlier.items c.last.items };
}

impl Chains {
    /// No keys and no links.
    pub(crate) fn new(alloc: Global) -> Chains
        ensures keys { result.keys ≡ 0 }
        ensures links { result.links ≡ [] }
    {
        Chains {
            links: Vec::new(alloc),
            earlier: Vec::new(alloc),
            last: Vec::new(alloc),
        }
    }

    /// How many keys there are.
    pub(crate) fn keys(&self) -> usize
        ensures { result ≡ self.now.keys }
    {
        self.last.len()
    }

    /// Has this many keys, if it has not more. `NoMemory` changes nothing.
    pub(crate) fn add_keys(&mut self, keys: usize) -> Result<(), NoMemory>
        ensures links { self.new.links ≡ self.old.links }
        ensures room { self.new.room ≡ self.old.room }
        ensures keys { OnOk result ((keys ≤ self.new.keys) × (self.old.keys ≤ self.new.keys)) }
        ensures grown { self.old.keys ≤ self.new.keys }
        ensures bound { (n : ℕ) → self.old.keys ≤ n → keys ≤ n → self.new.keys ≤ n }
        ensures exact { OnOk result (self.old.keys ≤ keys → self.new.keys ≡ keys) }
        ensures err { OnErr result (self.new.keys ≡ self.old.keys) }
    {
        if keys <= self.last.len() {
            return Ok(());
        }
        match self.last.resize(keys, 0) {
            Ok(()) => Ok(()),
            Err(_) => Err(NoMemory),
        }
    }

    /// Makes room for so many more links, which have numbers below 2^32 - 1.
    pub(crate) fn reserve(&mut self, more: usize) -> Result<(), NoMemory>
        ensures links { self.new.links ≡ self.old.links }
        ensures keys { self.new.keys ≡ self.old.keys }
        ensures ok { OnOk result (length self.new.links + more ≤ self.new.room) }
    {
        if more > u32::MAX as usize || self.links.len() > u32::MAX as usize - more {
            return Err(NoMemory);
        }
        reserve(&mut self.earlier, more)?;
        reserve(&mut self.links, more)
    }

    /// Puts a link, for which there is room.
    pub(crate) fn put(&mut self, key: u32, value: u32)
        requires key { key < self.old.keys }
        requires room { length self.old.links < self.old.room }
        ensures links { self.new.links ≡ self.old.links ++ record { key = key; value = value } ∷ [] }
        ensures keys { self.new.keys ≡ self.old.keys }
        ensures room { self.old.room ≤ self.new.room }
        ensures few { length self.new.links < 2 ^ 32 }
    {
        let number = self.links.len() as u32;
        push_within(&mut self.earlier, self.last[key as usize]);
        push_within(&mut self.links, Link { key, value });
        self.last[key as usize] = number + 1;
    }

    /// One more than the number of the last link of a key, or 0.
    pub(crate) fn last(&self, key: u32) -> u32
        requires { key < self.now.keys }
        ensures { IsLatest self.now.links key (length self.now.links) result }
    {
        self.last[key as usize]
    }

    /// One more than the number of the link before this one that has its key, or 0.
    pub(crate) fn earlier(&self, link: u32) -> u32
        requires { link < length self.now.links }
        ensures { IsLatest self.now.links (link_at self.now.links link).key link result }
    {
        self.earlier[link as usize]
    }

    /// The value of a link.
    pub(crate) fn value(&self, link: u32) -> u32
        requires { link < length self.now.links }
        ensures { result ≡ (link_at self.now.links link).value }
    {
        self.links[link as usize].value
    }

    /// Takes all links out, and keeps the room for them.
    pub(crate) fn clear(&mut self)
        ensures links { self.new.links ≡ [] }
        ensures keys { self.new.keys ≡ self.old.keys }
    {
        self.links.clear();
        self.earlier.clear();
        self.last.fill(0);
    }
}
