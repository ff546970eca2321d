//! What a graph is: declarations and lines, and which items fit.

mod call_sizes;
mod calls;
mod data;
mod faults;
mod quantities;
mod sizes;
pub(crate) mod words;

ghost use Rattle.std.specs.Prelude.{◌≡◌, ◌≤◌, Some, position, IfSome};
ghost use Rattle.std.specs.Str.{bytes_eq};
ghost use Rattle.graph_terms.specs.Graph.{upgraded_format};

use graph_indexes::counts::Counts;
use graph_indexes::mark::Mark;
use graph_indexes::names::Names;
use graph_indexes::rows::Rows;
use graph_indexes::tables::Tables;
use graph_items::edges::list_edges;
use graph_terms::access::{Accesses, in_format, verb_accesses};
use graph_terms::decl::{BarrierInfo, ColumnInfo, Decl};
use graph_terms::format::Format;
use graph_terms::found::Found;
use graph_terms::limits::{
    MAX_BARRIERS_OF_THREE, MAX_COLUMNS_OF_THREE, MAX_LINES_OF_THREE, MAX_LOCKS_OF_THREE,
};
use graph_terms::name::Name;
use graph_terms::verb::{Access, Edge, Line, Verb};
use graph_terms::why::Why;
use index_spaces::NoMemory;
use index_spaces::room::{push_within, reserve};
use index_spaces::space::Space;
use std::alloc::Global;
use std::marker::Model;

/// The quantities of the graph without items: its text is the first line.
const EMPTY: Counts = Counts {
    text: 8,
    spaces: 0,
    insts: 0,
    columns: 0,
    cells: 0,
    locks: 0,
    barriers: 0,
    lines: 0,
    edges: 0,
};

/// A graph, seen as its format, its declarations and its lines.
pub struct Graph {
    format: Format,
    decls: Vec<Decl>,
    lines: Vec<Line>,
    /// For each line what it reads and writes of columns of instances.
    accesses: Vec<Accesses>,
    tables: Tables,
    names: Names,
    rows: Rows,
    counts: Counts,
    /// The edges of the last line, whose room serves the next one.
    given: Vec<Edge>,
}

impl Drop for Graph {
    // Written out, it is one call at each exit of a function that owns a graph: a derived one is
    // proved there again, list by list.
    fn drop(self) {
        let Graph {
            format: _,
            decls: _,
            lines: _,
            accesses: _,
            tables: _,
            names: _,
            rows: _,
            counts: _,
            given: _,
        } = self;
    }
}

impl Model for Graph {
    ghost use Rattle.std.specs.Prelude.{◌≡◌, map};
    ghost use Rattle.graph_terms.specs.Graph.{GraphValue};
    ghost use Rattle.graph_terms.specs.Access.{kept_accesses};

    ghost Value = { GraphValue };

    ghost use Rattle.graph_terms.specs.Fits.{IsGraph};
    ghost use Rattle.graph_indexes.specs.Tables.{tables_of, IsWithinLimits};
    ghost use Rattle.graph_indexes.specs.Names.{AreNamesOf};
    ghost use Rattle.graph_indexes.specs.Rows.{AreRowsOf};
    ghost use Rattle.graph_indexes.specs.Counts.{counts_of};

    ghost view = { λ a. record { format = a.format; decls = a.decls.items; lines = a.lines.items } };

    ghost invariant = { λ a. record {
      fits : IsGraph (record { format = a.format; decls = a.decls.items; lines = a.lines.items });
      accesses : a.accesses.items ≡ map (λ l. kept_accesses l.verb) a.lines.items;
      tables : a.tables ≡ tables_of a.decls.items;
      limits : IsWithinLimits (record { format = a.format; decls = a.decls.items; lines = a.lines.items });
      names : AreNamesOf (record { format = a.format; decls = a.decls.items; lines = a.lines.items }) a.names;
      rows : AreRowsOf (record { format = a.format; decls = a.decls.items; lines = a.lines.items }) a.rows;
      counts : a.counts ≡ counts_of (record { format = a.format; decls = a.decls.items; lines = a.lines.items });
    } };
}

impl Graph {
    ghost use Rattle.std.specs.Prelude.{◌≡◌, [], length, ◌<◌, ◌≤◌, slice_get, position, true, false, None, OnOk, OnErr, IfOk, IfSome, IsTrue, MatchOption, option_map};
    ghost use Rattle.graph_terms.specs.declared.format.Format.TheVariants.{One, Three};
    ghost use Rattle.graph_terms.specs.Format.{has_since};
    ghost use Rattle.graph_terms.specs.Name.{is_name_in};
    ghost use Rattle.graph_terms.specs.Graph.{written_in, upgraded_format, upgraded, verb_at, named_spaces, space_of, columns, locks, barriers, space_at, column_space, never_comes, line_passes, is_shared, ends_user, is_release_of};
    ghost use Rattle.std.specs.List.{list_any};
    ghost use Rattle.graph_indexes.specs.Rows.{mark_of};
    ghost use Rattle.graph_terms.specs.Edges.{edges_into, edges_out_of};
    ghost use Rattle.graph_terms.specs.Access.{accesses, verb_accesses, kept_accesses};
    ghost use Rattle.std.specs.Option.{option_map_or};
    ghost use Rattle.graph_indexes.specs.Counts.{counts_of};
    ghost use Rattle.graph_terms.specs.Names.{StandsFor, found_decl, is_inst_named, is_column_named};
    ghost use Rattle.graph_terms.specs.Fits.{IsGraph, IsDecl, is_decl_named, IsLine, decl_fault, line_fault, with_decl, with_line, is_used};

    /// The graph of format 1 with no declaration and no line. It takes no memory.
    pub fn new(alloc: Global) -> Graph
        ensures { result ≡ record { format = One; decls = []; lines = [] } }
    {
        Graph::of_format(alloc, Format::One)
    }

    /// The graph of a format with no declaration and no line. It takes no memory.
    pub fn of_format(alloc: Global, format: Format) -> Graph
        ensures { result ≡ record { format = format; decls = []; lines = [] } }
    {
        Graph {
            format,
            decls: Vec::new(alloc),
            lines: Vec::new(alloc),
            accesses: Vec::new(alloc),
            tables: Tables::new(alloc),
            names: Names::new(alloc),
            rows: Rows::new(alloc),
            counts: EMPTY,
            given: Vec::new(alloc),
        }
    }

    /// Puts a declaration at the end, before any line. `NoMemory` leaves the graph as it was.
    pub fn add_decl(&mut self, decl: Decl) -> Result<(), NoMemory>
        requires is_decl { IsDecl decl }
        requires named { IsTrue (is_decl_named self.old.format decl) }
        requires fits { decl_fault self.old decl ≡ None }
        requires first { self.old.lines ≡ [] }
        ensures ok { OnOk result (self.new ≡ with_decl self.old decl) }
        ensures err { OnErr result (self.new ≡ self.old) }
    {
        let counts = self.counts_with_decl(&decl);
        self.push_decl(decl, counts)
    }

    /// Puts a declaration at the end, before any line, where it fits; else the first reason that
    /// refuses it, and the graph stays as it was. `NoMemory` leaves it so too.
    pub fn offer_decl(&mut self, decl: Decl) -> Result<Option<Why>, NoMemory>
        requires is_decl { decl_fault self.old decl ≡ None → IsDecl decl }
        requires named { decl_fault self.old decl ≡ None → IsTrue (is_decl_named self.old.format decl) }
        requires first { self.old.lines ≡ [] }
        ensures fault { IfOk result (λ why. why ≡ decl_fault self.old decl) }
        ensures added { OnOk result (decl_fault self.old decl ≡ None → self.new ≡ with_decl self.old decl) }
        ensures stays { IfOk result (λ why. IfSome why (λ w. self.new ≡ self.old)) }
        ensures err { OnErr result (self.new ≡ self.old) }
    {
        let counts = self.counts_with_decl(&decl);
        let fault = self.decl_fault_by(&decl, &counts);
        if fault.is_none() {
            self.push_decl(decl, counts)?;
        }
        Ok(fault)
    }

    /// Puts a declaration at the end, by the quantities with it. `NoMemory` leaves the graph as it
    /// was. In its callers, since a declaration is long and would be copied.
    #[inline(always)]
    fn push_decl(&mut self, decl: Decl, counts: Counts) -> Result<(), NoMemory>
        requires is_decl { IsDecl decl }
        requires named { IsTrue (is_decl_named self.old.format decl) }
        requires fits { decl_fault self.old decl ≡ None }
        requires first { self.old.lines ≡ [] }
        requires counts { counts ≡ counts_of (with_decl self.old decl) }
        ensures ok { OnOk result (self.new ≡ with_decl self.old decl) }
        ensures err { OnErr result (self.new ≡ self.old) }
    {
        let found = self.found_decl(&decl);
        let name = *decl.name();
        let place = self.decls.len() as u32;
        reserve(&mut self.decls, 1)?;
        self.names.insert(&name, found)?;
        if let Err(error) = self.tables.add(&decl, place) {
            self.names.remove(&name);
            return Err(error);
        }
        push_within(&mut self.decls, decl);
        self.counts = counts;
        Ok(())
    }

    /// Puts a line at the end. `NoMemory` leaves the graph as it was.
    pub fn add_line(&mut self, line: Line) -> Result<(), NoMemory>
        requires is_line { IsLine line }
        requires named { IsTrue (is_name_in self.old.format line.name) }
        requires fits { line_fault self.old line ≡ None }
        ensures ok { OnOk result (self.new ≡ with_line self.old line) }
        ensures err { OnErr result (self.new ≡ self.old) }
    {
        let accesses = verb_accesses(&line.verb);
        let counts = self.counts_with_line(&line);
        self.push_line(line, accesses, counts)
    }

    /// Puts a line at the end, where it fits; else the first reason that refuses it, and the graph
    /// stays as it was. `NoMemory` leaves it so too.
    pub fn offer_line(&mut self, line: Line) -> Result<Option<Why>, NoMemory>
        requires is_line { line_fault self.old line ≡ None → IsLine line }
        requires named { line_fault self.old line ≡ None → IsTrue (is_name_in self.old.format line.name) }
        ensures fault { IfOk result (λ why. why ≡ line_fault self.old line) }
        ensures added { OnOk result (line_fault self.old line ≡ None → self.new ≡ with_line self.old line) }
        ensures stays { IfOk result (λ why. IfSome why (λ w. self.new ≡ self.old)) }
        ensures err { OnErr result (self.new ≡ self.old) }
    {
        let accesses = verb_accesses(&line.verb);
        let counts = self.counts_with_line(&line);
        let fault = self.line_fault_by(&line, &accesses, &counts);
        if fault.is_none() {
            self.push_line(line, accesses, counts)?;
        }
        Ok(fault)
    }

    /// Puts a line at the end, by its accesses and the quantities with it. `NoMemory` leaves the
    /// graph as it was. In its callers, since a line is long and would be copied.
    #[inline(always)]
    fn push_line(&mut self, line: Line, accesses: Accesses, counts: Counts) -> Result<(), NoMemory>
        requires is_line { IsLine line }
        requires named { IsTrue (is_name_in self.old.format line.name) }
        requires fits { line_fault self.old line ≡ None }
        requires accesses { accesses ≡ kept_accesses line.verb }
        requires counts { counts ≡ counts_of (with_line self.old line) }
        ensures ok { OnOk result (self.new ≡ with_line self.old line) }
        ensures err { OnErr result (self.new ≡ self.old) }
    {
        list_edges(&mut self.given, &self.lines, &line)?;
        let found = Found::Line(self.lines.len() as u32);
        reserve(&mut self.lines, 1)?;
        reserve(&mut self.accesses, 1)?;
        self.names.insert(&line.name, found)?;
        if let Err(error) = self.rows.add(&line.verb, &self.given) {
            self.names.remove(&line.name);
            return Err(error);
        }
        push_within(&mut self.lines, line);
        push_within(&mut self.accesses, accesses);
        self.counts = counts;
        Ok(())
    }

    /// Which format it has.
    pub fn format(&self) -> Format
        ensures { result ≡ self.now.format }
    {
        self.format
    }

    /// The graph of format 2 with the same declarations and lines, or of format 3 where it has that.
    /// It takes no memory.
    pub fn upgrade(self) -> Graph
        ensures { result ≡ upgraded self }
    {
        let format = upgraded_format(self.format);
        self.written_in(format)
    }

    /// The graph of format 3 with the same declarations and lines. It takes no memory.
    pub fn write_in_three(self) -> Graph
        ensures { result ≡ written_in Three self }
    {
        self.written_in(Format::Three)
    }

    /// The graph of a later format with the same declarations and lines.
    fn written_in(mut self, format: Format) -> Graph
        requires { has_since self.format format ≡ true }
        ensures { result ≡ written_in format self }
    {
        self.format = format;
        self
    }

    /// How many declarations there are.
    pub fn decls(&self) -> u32
        ensures number { result ≡ length self.now.decls }
        ensures is_graph { IsGraph self.now }
    {
        self.decls.len() as u32
    }

    /// A declaration by its number.
    pub fn decl(&self, d: u32) -> &Decl
        requires { d < length self.now.decls }
        ensures decl { slice_get self.now.decls d ≡ Some result.now }
        ensures is_graph { IsGraph self.now }
    {
        &self.decls[d as usize]
    }

    /// How many lines there are.
    pub fn lines(&self) -> u32
        ensures number { result ≡ length self.now.lines }
        ensures few { result ≤ MAX_LINES_OF_THREE }
        ensures is_graph { IsGraph self.now }
    {
        self.lines.len() as u32
    }

    /// The name, the verb and the precondition of a line.
    pub fn line(&self, i: u32) -> &Line
        requires { i < length self.now.lines }
        ensures line { slice_get self.now.lines i ≡ Some result.now }
        ensures is_graph { IsGraph self.now }
    {
        &self.lines[i as usize]
    }

    /// How many spaces are declared.
    pub fn spaces(&self) -> u32
        ensures { result ≡ length (named_spaces self.now) }
    {
        self.tables.spaces() as u32
    }

    /// A space by its number.
    pub fn space(&self, s: u32) -> &Space
        requires { s < length (named_spaces self.now) }
        ensures { result.now ≡ space_at self.now s }
    {
        match self.space_decl(s) {
            Decl::Space { space, .. } => space,
            _ => unreachable!(),
        }
    }

    /// How many columns there are: the fields of all instances.
    pub fn columns(&self) -> u32
        ensures number { result ≡ length (columns self.now) }
        ensures few { result ≤ MAX_COLUMNS_OF_THREE }
    {
        self.tables.columns() as u32
    }

    /// The space of a column.
    pub fn column_space(&self, c: u32) -> &Space
        requires { c < length (columns self.now) }
        ensures { result.now ≡ column_space self.now c }
    {
        let column = self.tables.column(c);
        self.space(column.space)
    }

    /// The names of the instance and the field of a column.
    pub fn column_name(&self, c: u32) -> (Name, Name)
        requires { c < length (columns self.now) }
        ensures inst { option_map (λ x. x.inst) (slice_get (columns self.now) c) ≡ Some result.0 }
        ensures field { option_map (λ x. x.field) (slice_get (columns self.now) c) ≡ Some result.1 }
    {
        let column = self.column_info(c);
        (column.inst, column.field)
    }

    /// A column by its number.
    fn column_info(&self, c: u32) -> &ColumnInfo
        requires { c < length (columns self.now) }
        ensures { slice_get (columns self.now) c ≡ Some result.now }
    {
        self.tables.column(c)
    }

    /// How many reservations are declared.
    pub fn locks(&self) -> u32
        ensures number { result ≡ length (locks self.now) }
        ensures few { result ≤ MAX_LOCKS_OF_THREE }
    {
        self.tables.locks() as u32
    }

    /// How many barriers are declared.
    pub fn barriers(&self) -> u32
        ensures number { result ≡ length (barriers self.now) }
        ensures few { result ≤ MAX_BARRIERS_OF_THREE }
    {
        self.tables.barriers() as u32
    }

    /// The name of a space.
    pub fn space_name(&self, s: u32) -> Name
        requires { s < length (named_spaces self.now) }
        ensures { option_map (λ x. x.0) (slice_get (named_spaces self.now) s) ≡ Some result }
    {
        *self.name_of_space(s)
    }

    /// The name of a space, which is not copied.
    fn name_of_space(&self, s: u32) -> &Name
        requires { s < length (named_spaces self.now) }
        ensures { option_map (λ x. x.0) (slice_get (named_spaces self.now) s) ≡ Some result.now }
    {
        self.space_decl(s).name()
    }

    /// The name of a reservation.
    pub fn lock_name(&self, l: u32) -> Name
        requires { l < length (locks self.now) }
        ensures { slice_get (locks self.now) l ≡ Some result }
    {
        self.tables.lock_name(l)
    }

    /// A barrier by its number.
    pub fn barrier(&self, b: u32) -> &BarrierInfo
        requires { b < length (barriers self.now) }
        ensures { slice_get (barriers self.now) b ≡ Some result.now }
    {
        self.tables.barrier(b)
    }

    /// What a name stands for. `None` exactly where no item has the name.
    pub fn find(&self, name: &Name) -> Option<Found>
        ensures { MatchOption result (is_used self.now name.now ≡ false) (StandsFor self.now name.now) }
    {
        self.names.get(name)
    }

    /// The number of the column of this field of this instance. `None` exactly where no instance of
    /// this name has such a field.
    pub fn find_column(&self, inst: &Name, field: &Name) -> Option<u32>
        ensures { result ≡ position (is_column_named inst.now field.now) (columns self.now) }
    {
        if let Some(Found::Inst(d)) = self.find(inst) {
            if let Some(c) = self.column_of(d, inst, field) {
                return Some(c);
            }
        }
        self.tables.find_column(inst, field)
    }

    /// The number of the column of this field of the instance of this name, which declaration `d` is.
    fn column_of(&self, d: u32, inst: &Name, field: &Name) -> Option<u32>
        requires { position (is_inst_named inst.now) self.now.decls ≡ Some d }
        ensures { IfSome result (λ c. position (is_column_named inst.now field.now) (columns self.now) ≡ Some c) }
    {
        match &self.decls[d as usize] {
            Decl::Inst { fields, .. } => match field_place(fields.items.as_slice(), field) {
                Some(place) => Some(self.tables.first_column(d) + place),
                None => None,
            },
            _ => None,
        }
    }

    /// The edges that enter a line, by the lines that give them.
    pub fn edges_into(&self, i: u32) -> &[Edge]
        requires { i < length self.now.lines }
        ensures { result.now ≡ edges_into self.now i }
    {
        self.rows.edges_into(i)
    }

    /// The edges that leave a line, by the lines that give them.
    pub fn edges_from(&self, i: u32) -> &[Edge]
        requires { i < length self.now.lines }
        ensures { result.now ≡ edges_out_of self.now i }
    {
        self.rows.edges_from(i)
    }

    /// The access of number `k` of a line to columns of instances. `None` exactly where it has at most
    /// `k`; a call has none.
    pub fn access(&self, i: u32, k: u32) -> Option<Access>
        requires { i < length self.now.lines }
        ensures { result ≡ slice_get (accesses self.now i) k }
    {
        match self.verb_access(i, k) {
            Some(access) => Some(in_format(self.format, access)),
            None => None,
        }
    }

    /// The access of number `k` of a line, whatever the format is.
    fn verb_access(&self, i: u32, k: u32) -> Option<Access>
        requires { i < length self.now.lines }
        ensures { result ≡ slice_get (option_map_or verb_accesses (verb_at self.now i) []) k }
    {
        match self.accesses[i as usize].get(k as usize) {
            Some(access) => *access,
            None => None,
        }
    }

    /// Whether a line never comes: a user event that no line triggers or cancels, or a phase that
    /// is short of arrivals.
    pub fn never_comes(&self, i: u32) -> bool
        requires { i < length self.now.lines }
        ensures { result ≡ never_comes self.now i }
    {
        match &self.lines[i as usize].verb {
            Verb::User => !self.rows.mark(i).ended,
            Verb::Phase { barrier } => self.rows.mark(i).arrivals
                < u64::from(self.tables.barrier(*barrier).count),
            _ => false,
        }
    }

    /// Whether a line is an acquire that is shared.
    pub fn is_shared(&self, i: u32) -> bool
        requires { i < length self.now.lines }
        ensures { result ≡ line_passes is_shared self.now i }
    {
        match &self.line(i).verb {
            Verb::Acquire { shared, .. } => *shared,
            _ => false,
        }
    }

    /// Whether a line triggers or cancels this user event.
    pub fn is_ended(&self, i: u32) -> bool
        requires { i < length self.now.lines }
        ensures { result ≡ list_any (λ l. ends_user i l.verb) self.now.lines }
    {
        self.mark(i).ended
    }

    /// Whether a line releases what this line acquires.
    pub fn is_released(&self, i: u32) -> bool
        requires { i < length self.now.lines }
        ensures { result ≡ list_any (λ l. is_release_of i l.verb) self.now.lines }
    {
        self.mark(i).released
    }

    /// The declaration of a space.
    fn space_decl(&self, s: u32) -> &Decl
        requires { s < length (named_spaces self.now) }
        ensures { space_of result.now ≡ slice_get (named_spaces self.now) s }
    {
        &self.decls[self.tables.space_place(s) as usize]
    }

    /// What later lines have done to a line.
    fn mark(&self, i: u32) -> Mark
        ensures mark { result ≡ mark_of self.now i }
        ensures few { result.arrivals ≤ 4294967296 }
    {
        self.rows.mark(i)
    }

    /// What the name of the next declaration stands for.
    fn found_decl(&self, decl: &Decl) -> Found
        ensures { result ≡ found_decl self.now decl.now }
    {
        match decl {
            Decl::Space { .. } => Found::Space(self.spaces()),
            Decl::Inst { .. } => Found::Inst(self.decls()),
            Decl::Data { .. } => Found::Data(self.decls()),
            Decl::Lock { .. } => Found::Lock(self.locks()),
            Decl::Barrier { .. } => Found::Barrier(self.barriers()),
        }
    }
}

/// The place of a name among the fields of an instance or of data, where it is below that of the most columns.
fn field_place(fields: &[Name], wanted: &Name) -> Option<u32>
    ensures { IfSome result (λ place. (place ≤ MAX_COLUMNS_OF_THREE) × (position (λ f. bytes_eq f wanted.now) fields.now ≡ Some place)) }
{
    match name_place(fields, wanted) {
        Some(place) if place <= MAX_COLUMNS_OF_THREE as usize => Some(place as u32),
        _ => None,
    }
}

fn name_place(names: &[Name], wanted: &Name) -> Option<usize>
    ensures { result ≡ position (λ n. bytes_eq n wanted.now) names.now }
{
    names.iter().position(|name| *name == *wanted)
}

/// The format in which a graph of this format is written anew.
fn upgraded_format(format: Format) -> Format
    ensures { result ≡ upgraded_format format }
{
    match format {
        Format::Three => Format::Three,
        _ => Format::Two,
    }
}
