//! Names in chains of slots.

ghost use Rattle.std.specs.Prelude.{◌≡◌, ℕ, true, List, Some, None, cond, length, option_copied, fold, slice_get, IfOk, IfSome, OnOk, OnErr};
ghost use Rattle.std.specs.Str.{bytes_eq};
ghost use Rattle.graph_indexes.specs.Names.{slot_of, hash_of, mixed, seat_of, seat_in, told, told_by, next_by, Copies};

use graph_terms::found::Found;
use graph_terms::name::Name;
use index_spaces::NoMemory;
use index_spaces::room::{filled, push, with_room};
use std::alloc::Global;
use std::marker::Model;

/// How many slots there are at first.
const SLOTS: usize = 512;

/// How many times as many slots there are next.
const MORE: usize = 16;

/// How many entries of a chain are looked at.
const STEPS: usize = 8;

/// A name and what it stands for: nothing, where it was taken out again.
#[derive(Clone, Copy)]
pub(crate) struct Entry {
    name: Name,
    found: Option<Found>,
    /// The number of the next entry of its chain.
    next: Option<u32>,
}

/// Where a name is.
#[derive(Clone, Copy)]
pub(crate) enum Seat {
    /// The entry of this number has it.
    Own(u32),
    /// Its chain has no such entry, and a place for one.
    Free,
    /// Its chain has no place for it, or there is no slot for one.
    Full,
}

/// A hash table in which the names of a slot are in one chain, the last one first, and a chain has a
/// place for few names.
#[derive(Drop)]
pub(crate) struct Chains {
    /// For each slot the number of the first entry of its chain.
    slots: Vec<Option<u32>>,
    entries: Vec<Entry>,
}

impl Model for Chains {
    ghost use Rattle.std.specs.Prelude.{length};
    ghost use Rattle.graph_indexes.specs.Names.{ChainsValue, AreChains};

    ghost Value = { ChainsValue };

    ghost view = { λ a. record { size = length a.slots.items; slots = a.slots.items; entries = a.entries.items } };

    ghost invariant = { λ a. AreChains (record { size = length a.slots.items; slots = a.slots.items; entries = a.entries.items }) };
}

impl Chains {
    /// No chains. They take no memory.
    pub(crate) fn new(alloc: Global) -> Chains
        ensures { (q : List ℕ) → told result q ≡ None }
    {
        Chains {
            slots: Vec::new(alloc),
            entries: Vec::new(alloc),
        }
    }

    /// No names, in so many slots, and with room for twice as many names.
    fn with_slots(alloc: Global, size: usize) -> Result<Chains, NoMemory>
        ensures { IfOk result (λ chains. (q : List ℕ) → told chains q ≡ None) }
    {
        let room = size.checked_mul(2).ok_or(NoMemory)?;
        let slots = filled(alloc, None, size)?;
        let entries = with_room(alloc, room)?;
        Ok(Chains { slots, entries })
    }

    /// Whether there are twice as many names as slots: then more slots make the chains shorter.
    pub(crate) fn is_crowded(&self) -> bool {
        self.entries.len() / 2 >= self.slots.len()
    }

    /// The same names in more slots. `None` where one of them has no place there, which does not
    /// come: each chain is a part of one from before.
    pub(crate) fn grown(&self, alloc: Global) -> Result<Option<Chains>, NoMemory>
        ensures { IfOk result (λ grown. IfSome grown (λ chains. (q : List ℕ) → told chains q ≡ told self.now q)) }
    {
        let size = match self.slots.len() {
            0 => SLOTS,
            slots => slots.checked_mul(MORE).ok_or(NoMemory)?,
        };
        let mut chains = Chains::with_slots(alloc, size)?;
        for entry in self.entries.as_slice() {
            if !self.copy_name(&mut chains, &entry.name)? {
                return Ok(None);
            }
        }
        Ok(Some(chains))
    }

    /// Puts a name into other chains, with what it stands for here. `false` where it has no place
    /// there, or is not here.
    fn copy_name(&self, chains: &mut Chains, name: &Name) -> Result<bool, NoMemory>
        ensures { IfOk result (λ copied. copied ≡ true → Copies self.now chains.old chains.new name.now) }
    {
        match (self.told(name), chains.seat(name)) {
            (Some(found), Seat::Free) => {
                chains.put_first(name, found)?;
                Ok(true)
            }
            _ => Ok(false),
        }
    }

    /// What a name stands for, where a chain has it: nothing, where it was taken out again.
    pub(crate) fn told(&self, name: &Name) -> Option<Option<Found>>
        ensures { result ≡ told self.now name.now }
    {
        match self.seat(name) {
            Seat::Own(number) => Some(self.told_by(number)),
            _ => None,
        }
    }

    /// Where a name is.
    pub(crate) fn seat(&self, name: &Name) -> Seat
        ensures { result ≡ seat_of self.now name.now }
    {
        match self.slots.get(slot_of(self.slots.len(), name)) {
            Some(first) => self.seat_in(*first, name),
            None => Seat::Full,
        }
    }

    /// Where a name is in the chain that begins with the entry of this number.
    fn seat_in(&self, first: Option<u32>, name: &Name) -> Seat
        ensures { result ≡ seat_in self.now.entries name.now STEPS first }
    {
        let mut link = first;
        for _turn in 0..STEPS {
            let Some(number) = link else {
                return Seat::Free;
            };
            let Some(entry) = self.entry(number) else {
                return Seat::Free;
            };
            if entry.name == *name {
                return Seat::Own(number);
            }
            link = entry.next;
        }
        Seat::Full
    }

    /// The entry of a number.
    fn entry(&self, number: u32) -> Option<&Entry>
        ensures { option_copied result ≡ slice_get self.now.entries number }
    {
        self.entries.get(number as usize)
    }

    /// What the entry of a number tells.
    fn told_by(&self, number: u32) -> Option<Found>
        ensures { result ≡ told_by (slice_get self.now.entries number) }
    {
        match self.entries.get(number as usize) {
            Some(entry) => entry.found,
            None => None,
        }
    }

    /// The number behind the entry of a number in its chain.
    fn next_of(&self, number: u32) -> Option<u32>
        ensures { result ≡ next_by (slice_get self.now.entries number) }
    {
        match self.entries.get(number as usize) {
            Some(entry) => entry.next,
            None => None,
        }
    }

    /// Puts a name that has a place in its chain before the others there. `NoMemory` leaves the
    /// chains as they were.
    pub(crate) fn put_first(&mut self, name: &Name, found: Option<Found>) -> Result<(), NoMemory>
        requires { seat_of self.old name.now ≡ Seat.Free }
        ensures ok { OnOk result ((q : List ℕ) → told self.new q ≡ cond (bytes_eq name.now q) (Some found) (told self.old q)) }
        ensures err { OnErr result (self.new ≡ self.old) }
    {
        let number = self.entries.len();
        // A slot holds 32 bits.
        if number > 4_294_967_295 {
            return Err(NoMemory);
        }
        let slot = slot_of(self.slots.len(), name);
        let entry = Entry {
            name: *name,
            found,
            next: self.slots[slot],
        };
        push(&mut self.entries, entry)?;
        self.slots[slot] = Some(number as u32);
        Ok(())
    }

    /// Changes what a name stands for, which has the entry of this number.
    pub(crate) fn set(&mut self, number: u32, name: &Name, found: Option<Found>)
        requires { seat_of self.old name.now ≡ Seat.Own number }
        ensures { (q : List ℕ) → told self.new q ≡ cond (bytes_eq name.now q) (Some found) (told self.old q) }
    {
        let next = self.next_of(number);
        self.entries[number as usize] = Entry {
            name: *name,
            found,
            next,
        };
    }
}

/// The slot of a name among so many: its hash, brought to their number by multiplication.
fn slot_of(slots: usize, name: &Name) -> usize
    ensures { result ≡ slot_of slots name.now }
{
    ((hash_of(name) / 4_294_967_296).wrapping_mul(slots as u64) / 4_294_967_296) as usize
}

/// The hash of a name. Most names have no more bytes than those of its first number.
fn hash_of(name: &Name) -> u64
    ensures { result ≡ hash_of name.now }
{
    let hash = mixed(0, name.front());
    let bytes = name.bytes();
    if bytes.len() <= 8 {
        return hash;
    }
    mixed_all(hash, &bytes[8..])
}

/// A hash with more bytes.
fn mixed_all(hash: u64, bytes: &[u8]) -> u64
    ensures { result ≡ fold mixed hash bytes.now }
{
    let mut all = hash;
    for byte in bytes {
        all = mixed(all, u64::from(*byte));
    }
    all
}

/// A hash with one more digit.
fn mixed(hash: u64, digit: u64) -> u64
    ensures { result ≡ mixed hash digit }
{
    hash.wrapping_add(digit)
        .wrapping_mul(11_400_714_819_323_198_485)
}
