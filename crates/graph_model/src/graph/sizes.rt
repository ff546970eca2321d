//! How long the lines of a graph's text are.

ghost use Rattle.std.specs.Prelude.{◌≡◌, ◌+◌, ◌≤◌, length};
ghost use Rattle.graph_terms.specs.Table.{kind_words};
ghost use Rattle.graph_terms.specs.Spelling.{op_word};
ghost use Rattle.graph_indexes.specs.Counts.{words_size};

use super::Graph;
use crate::graph::words::{fields_size, intervals_size, name_size, number_size, word_size};
use graph_terms::decl::Decl;
use graph_terms::lists::EventList;
use graph_terms::table::{Kind, MOST_PLACES, Parts, Place};
use graph_terms::verb::{Line, Verb};
use index_spaces::Op;

impl Graph {
    ghost use Rattle.std.specs.Prelude.{◌≡◌, ◌+◌, ◌≤◌, None, length, map, zip};
    ghost use Rattle.graph_indexes.specs.Counts.{words_size};
    ghost use Rattle.graph_terms.specs.Table.{verb_kind, part_in, parts_from};
    ghost use Rattle.graph_terms.specs.Spelling.{spelled, space_name, column_name, lock_name, barrier_name, line_name, op_word, decl_words, place_word, placed_words, verb_words, on_words, line_words};

    /// The line of a declaration, with its newline.
    pub(super) fn decl_size(&self, decl: &Decl) -> u64
        ensures size { result ≡ length (spelled (decl_words self.now decl.now)) }
        ensures few { result ≤ 549755813888 }
    {
        match decl {
            Decl::Space { name, space } => {
                word_size(b"space") + name_size(name) + intervals_size(space)
            }
            Decl::Inst {
                name,
                space,
                fields,
            } => {
                word_size(b"inst") + name_size(name) + self.space_size(*space) + fields_size(fields)
            }
            Decl::Data {
                name,
                space,
                fields,
            } => {
                word_size(b"data") + name_size(name) + self.space_size(*space) + fields_size(fields)
            }
            Decl::Lock { name } => word_size(b"lock") + name_size(name),
            Decl::Barrier {
                name,
                count,
                op,
                first,
            } => {
                word_size(b"barrier")
                    + name_size(name)
                    + number_size(u64::from(*count))
                    + op_size(*op)
                    + number_size(*first)
            }
        }
    }

    /// A line, with its newline.
    pub(super) fn line_size(&self, line: &Line) -> u64
        ensures size { result ≡ length (spelled (line_words self.now line.now)) }
        ensures few { result ≤ 2000000000000 }
    {
        name_size(&line.name)
            + word_size(b"=")
            + self.verb_size(&line.verb)
            + self.on_size(&line.on)
    }

    fn on_size(&self, on: &EventList) -> u64
        ensures size { result ≡ words_size (on_words self.now on.now) }
        ensures few { result ≤ 274877906890 }
    {
        if on.len() == 0 {
            return 0;
        }
        word_size(b"on") + self.events_size(on.as_slice())
    }

    /// The words of a verb. Those of fills, copies and reductions, which are many, are not looked up in
    /// the table.
    fn verb_size(&self, verb: &Verb) -> u64
        ensures size { result ≡ words_size (verb_words self.now verb.now) }
        ensures few { result ≤ 1000000000000 }
    {
        match *verb {
            Verb::Fill {
                target,
                space,
                value,
            } => {
                word_size(b"fill")
                    + self.column_size(target)
                    + self.space_size(space)
                    + number_size(value)
            }
            Verb::Copy {
                source,
                target,
                space,
            } => {
                word_size(b"copy")
                    + self.column_size(source)
                    + self.column_size(target)
                    + self.space_size(space)
            }
            Verb::Reduce {
                op,
                source,
                target,
                space,
            } => {
                word_size(b"reduce")
                    + op_size(op)
                    + self.column_size(source)
                    + self.column_size(target)
                    + self.space_size(space)
            }
            _ => self.listed_size(verb),
        }
    }

    /// The same by the table of kinds.
    fn listed_size(&self, verb: &Verb) -> u64
        ensures size { result ≡ words_size (verb_words self.now verb.now) }
        ensures few { result ≤ 1000000000000 }
    {
        match verb.kind() {
            Some(kind) => fixed_size(kind) + self.places_size(kind.places(), &verb.parts()),
            None => self.kindless_size(verb),
        }
    }

    /// The words of a merge or a call.
    fn kindless_size(&self, verb: &Verb) -> u64
        requires { verb_kind verb.now ≡ None }
        ensures size { result ≡ words_size (verb_words self.now verb.now) }
        ensures few { result ≤ 1000000000000 }
    {
        match verb {
            Verb::Merge { events } => word_size(b"merge")
                + self.events_size(events.items.as_slice()),
            Verb::MergeIgnore { events } => {
                word_size(b"mergei") + self.events_size(events.items.as_slice())
            }
            Verb::Call { call } => self.call_size(call),
            _ => unreachable!(),
        }
    }

    /// The words that stand in places.
    fn places_size(&self, places: &[Place], parts: &Parts) -> u64
        requires { length places.now ≤ MOST_PLACES }
        ensures size { result ≡ words_size (placed_words self.now (zip places.now (parts_from 0 places.now parts.now))) }
        ensures few { result ≤ 640 }
    {
        let mut rest = places;
        let mut n = 0;
        let mut size = 0;
        while let [place, others @ ..] = rest {
            size += self.place_size(*place, parts, n);
            rest = others;
            n += 1;
        }
        size
    }

    fn place_size(&self, place: Place, parts: &Parts, n: usize) -> u64
        ensures size { result ≡ length (place_word self.now place (part_in place n parts.now)) + 1 }
        ensures few { result ≤ 128 }
    {
        match place {
            Place::User => self.event_size(parts.number(n)),
            Place::Phase => self.event_size(parts.number(n)),
            Place::Acquire => self.event_size(parts.number(n)),
            Place::Lock => self.lock_size(parts.number(n)),
            Place::Barrier => self.barrier_size(parts.number(n)),
            Place::Space => self.space_size(parts.number(n)),
            Place::Value => number_size(parts.value(n)),
            Place::Times => word_size(b"times"),
            Place::Shared => word_size(b"shared"),
            Place::Weight => number_size(u64::from(parts.number(n))),
            Place::Column(..) => self.column_size(parts.number(n)),
        }
    }

    fn events_size(&self, events: &[u32]) -> u64
        requires { length events.now ≤ u32.MAX }
        ensures size { result ≡ words_size (map (line_name self.now) events.now) }
        ensures few { result ≤ 274877906880 }
    {
        let mut size = 0;
        for event in events {
            size += self.event_size(*event);
        }
        size
    }

    fn event_size(&self, i: u32) -> u64
        ensures size { result ≡ length (line_name self.now i) + 1 }
        ensures few { result ≤ 64 }
    {
        if i >= self.lines() {
            return 1;
        }
        name_size(&self.line(i).name)
    }

    fn column_size(&self, c: u32) -> u64
        ensures size { result ≡ length (column_name self.now c) + 1 }
        ensures few { result ≤ 128 }
    {
        if c >= self.columns() {
            return 1;
        }
        let column = self.column_info(c);
        name_size(&column.inst) + name_size(&column.field)
    }

    pub(super) fn space_size(&self, s: u32) -> u64
        ensures size { result ≡ length (space_name self.now s) + 1 }
        ensures few { result ≤ 64 }
    {
        if s >= self.spaces() {
            return 1;
        }
        name_size(self.name_of_space(s))
    }

    fn lock_size(&self, l: u32) -> u64
        ensures size { result ≡ length (lock_name self.now l) + 1 }
        ensures few { result ≤ 64 }
    {
        if l >= self.locks() {
            return 1;
        }
        name_size(&self.lock_name(l))
    }

    fn barrier_size(&self, b: u32) -> u64
        ensures size { result ≡ length (barrier_name self.now b) + 1 }
        ensures few { result ≤ 64 }
    {
        if b >= self.barriers() {
            return 1;
        }
        name_size(&self.barrier(b).name)
    }
}

fn op_size(op: Op) -> u64
    ensures { result ≡ length (op_word op) + 1 }
{
    match op {
        Op::Sum => word_size(b"sum"),
        Op::Min => word_size(b"min"),
        Op::Max => word_size(b"max"),
    }
}

/// The words that the lines of a kind begin with.
fn fixed_size(kind: Kind) -> u64
    ensures size { result ≡ words_size (kind_words kind) }
    ensures few { result ≤ 32 }
{
    let mut rest = kind.words();
    let mut size = 0;
    while let [word, others @ ..] = rest {
        size += word.len() as u64 + 1;
        rest = others;
    }
    size
}
