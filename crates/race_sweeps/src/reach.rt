//! Which lines of a slice the lines before them reach.

ghost use Rattle.std.specs.Prelude.{◌≡◌, ℕ, ◌+◌, ◌*◌, ◌/◌, ◌<◌, ◌≤◌, ◌⊎◌, true, length, slice_index, slice_set, IfOk};
ghost use Rattle.std.specs.Int.RustNames.{bit_or};
ghost use Rattle.sweep_base.specs.Bits.{bit_in};
ghost use Rattle.race_sweeps.specs.Reach.{AreReachedOrSelf, IsReach, IsBounded};
ghost use Rattle.conflict_classes.specs.Table.{IsTable};

use conflict_classes::lookups::Table;
use graph_meaning::laws::edges_between_lines;
use graph_model::graph::Graph;
use index_spaces::NoMemory;
use index_spaces::room::filled;
use std::alloc::Global;

/// For each place the lines of a slice that the line there has a path to, as far as was looked. Of
/// 64 places some word may have bits only where their block is marked, so that a sweep passes over
/// all other blocks.
#[derive(Drop)]
pub(crate) struct Reach {
    pub(crate) words: Vec<u64>,
    pub(crate) blocks: Vec<bool>,
}

impl Reach {
    /// Words for so many places.
    pub(crate) fn new(alloc: Global, places: usize) -> Result<Reach, NoMemory>
        ensures { IfOk result (IsBounded places) }
    {
        Ok(Reach {
            words: filled(alloc, 0, places)?,
            blocks: filled(alloc, false, places / 64 + 1)?,
        })
    }

    /// The lines of the slice that the line at a place reaches.
    pub(crate) fn word(&self, place: u32) -> u64
        requires { place < length self.now.words.items }
        ensures { result ≡ slice_index self.now.words.items place }
    {
        self.words[place as usize]
    }

    /// Looks from the end of a slice down to a place for what reaches these lines of the slice.
    pub(crate) fn sweep(
        &mut self,
        graph: &Graph,
        table: &Table,
        first: u32,
        end: u32,
        targets: u64,
        stop: u32,
    )
        requires table { IsTable graph.now table.now }
        requires bounded { IsBounded (length table.now.lines.items) self.old }
        requires begins { first < end }
        requires end { end ≤ length table.now.lines.items }
        requires slice { end ≤ first + 64 }
        ensures reach { IsReach graph.now table.now.lines.items first self.new.words.items }
        ensures bounded { IsBounded (length table.now.lines.items) self.new }
    {
        self.clear();
        self.blocks[first as usize / 64] = true;
        let mut block = (end - 1) / 64 + 1;
        while block > stop / 64 {
            block -= 1;
            if self.blocks[block as usize] {
                self.sweep_block(graph, table, first, end, targets, block, stop);
            }
        }
    }

    /// The same in a block.
    fn sweep_block(
        &mut self,
        graph: &Graph,
        table: &Table,
        first: u32,
        end: u32,
        targets: u64,
        block: u32,
        stop: u32,
    )
        requires table { IsTable graph.now table.now }
        requires bounded { IsBounded (length table.now.lines.items) self.old }
        requires block { 64 * block < end }
        requires end { end ≤ length table.now.lines.items }
        requires slice { end ≤ first + 64 }
        requires reach { IsReach graph.now table.now.lines.items first self.old.words.items }
        ensures reach { IsReach graph.now table.now.lines.items first self.new.words.items }
        ensures bounded { IsBounded (length table.now.lines.items) self.new }
    {
        let begin = 64 * block;
        let mut place = begin + 64.min(end - begin);
        while place > begin {
            place -= 1;
            let word = self.words[place as usize] | own_bit(first, place, targets);
            if word != 0 {
                self.pass(graph, table, place, word, stop);
            }
        }
    }

    /// Tells the sources of a line, from a place on, what it reaches.
    fn pass(&mut self, graph: &Graph, table: &Table, place: u32, word: u64, stop: u32)
        requires table { IsTable graph.now table.now }
        requires place { place < length table.now.lines.items }
        requires bounded { IsBounded (length table.now.lines.items) self.old }
        ensures reach { (first : ℕ) → IsReach graph.now table.now.lines.items first self.old.words.items
            → AreReachedOrSelf graph.now table.now.lines.items first place word
            → IsReach graph.now table.now.lines.items first self.new.words.items }
        ensures bounded { IsBounded (length table.now.lines.items) self.new }
    {
        edges_between_lines();
        let _ = graph.lines();
        let edges = graph.edges_into(table.lines[place as usize]);
        for edge in edges {
            let source = table.places[edge.from as usize];
            if source >= stop {
                self.add(source, word);
            }
        }
    }

    /// Adds bits to the word of a place.
    fn add(&mut self, place: u32, word: u64)
        requires place { place < length self.old.words.items }
        requires bounded { IsBounded (length self.old.words.items) self.old }
        ensures words { self.new.words.items ≡ slice_set self.old.words.items place (bit_or (slice_index self.old.words.items place) word) }
        ensures bounded { IsBounded (length self.old.words.items) self.new }
    {
        self.words[place as usize] |= word;
        self.blocks[place as usize / 64] = true;
    }

    /// Clears all words.
    fn clear(&mut self)
        requires { IsBounded (length self.old.words.items) self.old }
        ensures bounded { IsBounded (length self.old.words.items) self.new }
        ensures none { (x : ℕ) → slice_index self.new.words.items x ≡ 0 }
    {
        for block in 0..self.blocks.len() {
            if self.blocks[block] {
                self.clear_block(block);
            }
        }
    }

    /// Clears the words of a block.
    fn clear_block(&mut self, block: usize)
        requires bounded { IsBounded (length self.old.words.items) self.old }
        requires block { block < length self.old.blocks.items }
        ensures bounded { IsBounded (length self.old.words.items) self.new }
        ensures none { (x : ℕ) → x / 64 ≡ block → slice_index self.new.words.items x ≡ 0 }
        ensures kept { (x : ℕ) → slice_index self.old.words.items x ≡ 0 → slice_index self.new.words.items x ≡ 0 }
    {
        let begin = 64 * block;
        let end = begin + 64.min(self.words.len() - begin);
        for place in begin..end {
            self.words[place] = 0;
        }
        self.blocks[block] = false;
    }
}

/// The bit of a place, where it is in a slice and its line is one of these.
fn own_bit(first: u32, place: u32, targets: u64) -> u64
    requires { place < first + 64 }
    ensures { (b : ℕ) → b < 64 → bit_in result b ≡ true → first + b ≡ place }
{
    if place < first {
        return 0;
    }
    targets & 1 << (place - first)
}

/// The bits of a slice behind a place.
pub(crate) fn behind(first: u32, place: u32) -> u64
    requires { place < first + 64 }
    ensures { (b : ℕ) → b < 64 → place < first + b → bit_in result b ≡ true }
{
    if place < first {
        return u64::MAX;
    }
    let shift = place - first;
    u64::MAX << shift & !(1 << shift)
}
