//! The columns of a graph, each at home or moved out for an operation.

ghost use Rattle.std.specs.Prelude.{◌≡◌, ◌<◌, ◌≤◌, ◌++◌, [], ◌∷◌, vec_len, IfOk};
ghost use Rattle.std.specs.Vec.{vec_capacity};

use graph_model::graph::Graph;
use graph_terms::lists::ColumnList;
use index_spaces::NoMemory;
use index_spaces::column::Column;
use index_spaces::room::{push_within, with_room};
use std::alloc::Global;
use std::marker::Model;

/// The columns of a graph by their numbers, each at home or out.
#[derive(Drop)]
pub struct Homes {
    places: Vec<Option<Column>>,
    /// Room for the list that the columns end in.
    room: Vec<Column>,
}

impl Model for Homes {
    ghost use Rattle.std.specs.Prelude.{◌≡◌, ◌<◌, ◌≤◌, ◌^◌, List, [], Option, length, vec_len};
    ghost use Rattle.std.specs.Vec.{vec_capacity};
    ghost use Rattle.index_spaces.specs.Column.{ColumnValue};

    ghost Value = { List (Option ColumnValue) };

    ghost view = { λ a. a.places.items };

    ghost invariant = { λ a. (a.room.items ≡ []) × (length a.places.items ≤ vec_capacity a.room) × (length a.places.items < 2 ^ 32) };
}

impl Homes {
    ghost use Rattle.std.specs.Prelude.{◌≡◌, ◌<◌, length, map, not, is_some, Some, None, slice_get, slice_index_or, slice_set, All, IsSome, IfOk};
    ghost use Rattle.graph_meaning.specs.Effect.{zero_cells};
    ghost use Rattle.line_effects.specs.Homes.{all_home};

    /// The columns of a graph, all at home, each cell 0.
    pub fn zeroed(alloc: Global, graph: &Graph) -> Result<Homes, NoMemory>
        ensures { IfOk result (λ homes. homes ≡ all_home graph.now zero_cells) }
    {
        let count = graph.columns();
        let room = with_room(alloc, count as usize)?;
        let mut places = with_room(alloc, count as usize)?;
        for c in 0..count {
            let column = Column::zeroed(alloc, graph.column_space(c))?;
            push_within(&mut places, Some(column));
        }
        Ok(Homes { places, room })
    }

    /// Whether a column is out.
    pub fn is_out(&self, c: u32) -> bool
        requires { c < length self.now }
        ensures { result ≡ not (is_some (slice_index_or self.now c None)) }
    {
        self.places[c as usize].is_none()
    }

    /// Moves a column out. None exactly where it is out.
    pub fn take(&mut self, c: u32) -> Option<Column>
        requires { c < length self.old }
        ensures column { result ≡ slice_index_or self.old c None }
        ensures homes { self.new ≡ slice_set self.old c None }
    {
        self.places[c as usize].take()
    }

    /// Puts a column at home that is out.
    pub fn give(&mut self, c: u32, column: Column)
        requires { slice_get self.old c ≡ Some None }
        ensures { self.new ≡ slice_set self.old c (Some column) }
    {
        self.places[c as usize] = Some(column);
    }

    /// The columns, which are all at home, by their numbers. It takes no memory.
    pub fn into_columns(self) -> ColumnList
        requires { All (λ place. IsSome place) self }
        ensures { self ≡ map (λ column. Some column) result }
    {
        let Homes { places, mut room } = self;
        for place in places {
            if let Some(column) = place {
                push_within(&mut room, column);
            }
        }
        ColumnList { items: room }
    }
}
