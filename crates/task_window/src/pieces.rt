//! Which tasks used each piece last.

ghost use Rattle.std.specs.Prelude.{◌≡◌, ℕ, ◌+◌, ◌^◌, ◌<◌, ◌≤◌, ◌++◌, [], ◌∷◌, true, cond, List, length, drop, slice_index, slice_set, vec_len, OnOk, OnErr, IfOk};
ghost use Rattle.std.specs.Vec.{vec_capacity};
ghost use Rattle.task_order.specs.declared.access.Access.{Access as TheAccess};
ghost use Rattle.task_window.specs.Pieces.{ArePieces, AreNotedOf, AreWithin, HasPieceRoom, Collects, IsMet, IsMetIn, IsMetBy, IsReaderFrom, reads_of, tasks_of};

use crate::chains::Chains;
use index_spaces::NoMemory;
use index_spaces::room::{push, push_within, reserve};
use std::alloc::Global;
use task_order::access::Access;

/// The accesses of the tasks, and for each piece which tasks used it last.
#[derive(Drop)]
pub(crate) struct Pieces {
    /// By piece: one more than the last task that may change it, or 0.
    pub(crate) writer: Vec<u32>,
    /// From a piece to a task that reads it.
    pub(crate) readers: Chains,
    /// By task: how many accesses it has.
    pub(crate) sizes: Vec<usize>,
    /// The accesses of all tasks, one task after the other.
    pub(crate) accesses: Vec<Access>,
}

impl Pieces {
    /// No pieces and no tasks.
    pub(crate) fn new(alloc: Global) -> Pieces
        ensures pieces { ArePieces result }
        ensures none { result.readers.keys ≡ 0 }
        ensures tasks { tasks_of result ≡ [] }
    {
        Pieces {
            writer: Vec::new(alloc),
            readers: Chains::new(alloc),
            sizes: Vec::new(alloc),
            accesses: Vec::new(alloc),
        }
    }

    /// How many pieces there are.
    pub(crate) fn count(&self) -> u32
        requires { ArePieces self.now }
        ensures { result ≡ self.now.readers.keys }
    {
        self.readers.keys() as u32
    }

    /// Adds pieces, so that there are so many.
    pub(crate) fn add_pieces(&mut self, pieces: u32) -> Result<(), NoMemory>
        requires pieces { ArePieces self.old }
        requires more { self.old.readers.keys ≤ pieces }
        ensures pieces { ArePieces self.new }
        ensures tasks { tasks_of self.new ≡ tasks_of self.old }
        ensures ok { OnOk result (self.new.readers.keys ≡ pieces) }
        ensures err { OnErr result (self.new.readers.keys ≡ self.old.readers.keys) }
    {
        let pieces = pieces as usize;
        lengthen(&mut self.writer, pieces)?;
        self.readers.add_keys(pieces)
    }

    /// Puts the tasks into a list that a next one with these accesses has to wait for.
    pub(crate) fn collect(
        &self,
        accesses: &[Access],
        sources: &mut Vec<u32>,
    ) -> Result<(), NoMemory>
        requires pieces { ArePieces self.now }
        requires within { AreWithin self.now.readers.keys accesses.now }
        ensures { OnOk result (Collects sources.old.items sources.new.items
            (IsMetBy (tasks_of self.now) accesses.now (length accesses.now))) }
    {
        for access in accesses {
            self.collect_access(*access, sources)?;
        }
        Ok(())
    }

    /// The same for one access.
    fn collect_access(&self, access: Access, sources: &mut Vec<u32>) -> Result<(), NoMemory>
        requires pieces { ArePieces self.now }
        requires within { access.first + access.count ≤ self.now.readers.keys }
        ensures { OnOk result (Collects sources.old.items sources.new.items
            (IsMetIn (tasks_of self.now) access.first (access.first + access.count) access.writes)) }
    {
        for piece in access.first..access.first + access.count {
            self.collect_piece(piece, access.writes, sources)?;
        }
        Ok(())
    }

    /// The same for one piece.
    fn collect_piece(
        &self,
        piece: u32,
        writes: bool,
        sources: &mut Vec<u32>,
    ) -> Result<(), NoMemory>
        requires pieces { ArePieces self.now }
        requires known { piece < self.now.readers.keys }
        ensures { OnOk result (Collects sources.old.items sources.new.items (IsMet (tasks_of self.now) piece writes)) }
    {
        let writer = self.writer[piece as usize];
        collect_writer(writer, sources)?;
        if !writes {
            return Ok(());
        }
        self.collect_readers(piece, writer, sources)
    }

    /// The tasks that read a piece and are not below a number.
    fn collect_readers(
        &self,
        piece: u32,
        writer: u32,
        sources: &mut Vec<u32>,
    ) -> Result<(), NoMemory>
        requires pieces { ArePieces self.now }
        requires known { piece < self.now.readers.keys }
        ensures { OnOk result (Collects sources.old.items sources.new.items (IsReaderFrom self.now.readers.links 0 piece writer)) }
    {
        let mut link = self.readers.last(piece);
        while link > 0 {
            let reader = self.readers.value(link - 1);
            if reader < writer {
                return Ok(());
            }
            push_new(sources, reader)?;
            link = self.readers.earlier(link - 1);
        }
        Ok(())
    }

    /// Makes room for a task with these accesses.
    pub(crate) fn reserve(&mut self, accesses: &[Access]) -> Result<(), NoMemory>
        requires { ArePieces self.old }
        ensures pieces { ArePieces self.new }
        ensures tasks { tasks_of self.new ≡ tasks_of self.old }
        ensures keys { self.new.readers.keys ≡ self.old.readers.keys }
        ensures sizes { self.new.sizes.items ≡ self.old.sizes.items }
        ensures room { OnOk result (HasPieceRoom self.new accesses.now) }
    {
        let reads = count_reads(accesses)?;
        self.readers.reserve(reads)?;
        reserve(&mut self.sizes, 1)?;
        reserve(&mut self.accesses, accesses.len())
    }

    /// The next task has these accesses.
    pub(crate) fn insert(&mut self, task: u32, accesses: &[Access])
        requires pieces { ArePieces self.old }
        requires number { task ≡ length (tasks_of self.old) }
        requires few { task < 2 ^ 31 }
        requires within { AreWithin self.old.readers.keys accesses.now }
        requires room { HasPieceRoom self.old accesses.now }
        ensures pieces { ArePieces self.new }
        ensures keys { self.new.readers.keys ≡ self.old.readers.keys }
        ensures tasks { tasks_of self.new ≡ tasks_of self.old ++ accesses.now ∷ [] }
    {
        push_within(&mut self.sizes, accesses.len());
        for access in accesses {
            push_within(&mut self.accesses, *access);
            self.note(task, *access);
        }
    }

    /// A task has one access more.
    fn note(&mut self, task: u32, access: Access)
        requires within { access.first + access.count ≤ self.old.readers.keys }
        requires keys { (self.old.readers.keys < 2 ^ 32) × (self.old.readers.keys ≤ length self.old.writer.items) }
        requires few { task < 2 ^ 31 }
        requires room { length self.old.readers.links + cond access.writes 0 access.count ≤ self.old.readers.room }
        ensures same { self.new ≡ record self.old { writer = self.new.writer; readers = self.new.readers } }
        ensures keys { self.new.readers.keys ≡ self.old.readers.keys }
        ensures size { length self.new.writer.items ≡ length self.old.writer.items }
        ensures links { length self.new.readers.links ≡ length self.old.readers.links + cond access.writes 0 access.count }
        ensures room { self.old.readers.room ≤ self.new.readers.room }
        ensures noted { (tasks : List (List TheAccess)) (of : List TheAccess) → length tasks ≡ task
            → AreNotedOf (tasks ++ of ∷ []) self.old.writer.items self.old.readers.links
            → AreNotedOf (tasks ++ (of ++ access ∷ []) ∷ []) self.new.writer.items self.new.readers.links }
    {
        for piece in access.first..access.first + access.count {
            self.note_piece(task, piece, access.writes);
        }
    }

    /// A task uses a piece.
    fn note_piece(&mut self, task: u32, piece: u32, writes: bool)
        requires known { (piece < length self.old.writer.items) × (piece < self.old.readers.keys) }
        requires few { task < 2 ^ 31 }
        requires room { length self.old.readers.links + cond writes 0 1 ≤ self.old.readers.room }
        ensures same { self.new ≡ record self.old { writer = self.new.writer; readers = self.new.readers } }
        ensures keys { self.new.readers.keys ≡ self.old.readers.keys }
        ensures room { self.old.readers.room ≤ self.new.readers.room }
        ensures writer { self.new.writer.items ≡ cond writes (slice_set self.old.writer.items piece (task + 1)) self.old.writer.items }
        ensures links { self.new.readers.links ≡ cond writes self.old.readers.links
            (self.old.readers.links ++ record { key = piece; value = task } ∷ []) }
    {
        if writes {
            self.writer[piece as usize] = task + 1;
        } else {
            self.readers.put(piece, task);
        }
    }

    /// Takes all tasks out.
    pub(crate) fn clear(&mut self)
        requires { ArePieces self.old }
        ensures pieces { ArePieces self.new }
        ensures keys { self.new.readers.keys ≡ self.old.readers.keys }
        ensures tasks { tasks_of self.new ≡ [] }
    {
        self.writer.fill(0);
        self.readers.clear();
        self.sizes.clear();
        self.accesses.clear();
    }
}

/// Puts the task before a number into a list, if the number is not 0.
fn collect_writer(writer: u32, sources: &mut Vec<u32>) -> Result<(), NoMemory>
    ensures { OnOk result (Collects sources.old.items sources.new.items (λ i. i + 1 ≡ writer)) }
{
    if writer == 0 {
        return Ok(());
    }
    push_new(sources, writer - 1)
}

/// Puts a task at the end of a list, if it does not stand there.
fn push_new(sources: &mut Vec<u32>, task: u32) -> Result<(), NoMemory>
    ensures { OnOk result (Collects sources.old.items sources.new.items (λ i. i ≡ task)) }
{
    let count = sources.len();
    if count > 0 && sources[count - 1] == task {
        return Ok(());
    }
    push(sources, task)
}

/// How many pieces these accesses only read.
fn count_reads(accesses: &[Access]) -> Result<usize, NoMemory>
    ensures { IfOk result (λ n. n ≡ reads_of accesses.now) }
{
    let mut reads: usize = 0;
    for access in accesses {
        if reads > u32::MAX as usize {
            return Err(NoMemory);
        }
        reads += reads_in(*access);
    }
    Ok(reads)
}

/// How many pieces an access only reads.
fn reads_in(access: Access) -> usize
    ensures value { result ≡ cond access.writes 0 access.count }
    ensures few { result < 2 ^ 32 }
{
    if access.writes {
        0
    } else {
        access.count as usize
    }
}

/// A table with at least so many items, 0 where it had none.
fn lengthen(items: &mut Vec<u32>, count: usize) -> Result<(), NoMemory>
    ensures same { (k : ℕ) → slice_index items.new.items k ≡ slice_index items.old.items k }
    ensures longer { length items.old.items ≤ length items.new.items }
    ensures ok { OnOk result (count ≤ length items.new.items) }
{
    if items.len() < count {
        return match items.resize(count, 0) {
            Ok(()) => Ok(()),
            Err(_) => Err(NoMemory),
        };
    }
    Ok(())
}
