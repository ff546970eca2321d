//! What a graph keeps beside its declarations to answer by number.

ghost use Rattle.std.specs.Prelude.{◌≡◌, ◌<◌, ◌++◌, [], ◌∷◌, ◌≤◌, length, map, position, slice_get, IfSome, OnOk, OnErr};
ghost use Rattle.graph_terms.specs.Names.{is_column_named};
ghost use Rattle.graph_indexes.specs.Tables.{tables_of, items_with, tables_with};

use graph_terms::decl::{BarrierInfo, ColumnInfo, Decl};
use graph_terms::limits::MAX_COLUMNS_OF_THREE;
use graph_terms::lists::NameList;
use graph_terms::name::Name;
use index_spaces::NoMemory;
use index_spaces::room::{push, push_within, reserve};
use std::alloc::Global;
use std::marker::Model;

/// As many columns as a `u32` counts.
const MOST_COLUMNS: usize = 4_294_967_295;

/// The spaces, columns, reservations and barriers by their numbers.
#[derive(Drop)]
pub struct Tables {
    /// For each space the place of its declaration.
    space_places: Vec<u32>,
    /// For each declaration how many columns of instances are before it.
    first_columns: Vec<u32>,
    column_infos: Vec<ColumnInfo>,
    /// For each declaration how many columns of data are before it.
    first_data_columns: Vec<u32>,
    data_infos: Vec<ColumnInfo>,
    lock_names: Vec<Name>,
    barrier_infos: Vec<BarrierInfo>,
}

impl Model for Tables {
    ghost use Rattle.graph_terms.specs.Names.{is_column_named};
    ghost use Rattle.graph_indexes.specs.Tables.{TablesValue};

    ghost Value = { TablesValue };

    ghost view = { λ a. record {
      space_places = a.space_places.items;
      first_columns = a.first_columns.items;
      column_infos = a.column_infos.items;
      first_data_columns = a.first_data_columns.items;
      data_infos = a.data_infos.items;
      lock_names = a.lock_names.items;
      barrier_infos = a.barrier_infos.items;
    } };
}

impl Tables {
    /// The tables of no declarations. They take no memory.
    pub fn new(alloc: Global) -> Tables
        ensures { result ≡ tables_of [] }
    {
        Tables {
            space_places: Vec::new(alloc),
            first_columns: Vec::new(alloc),
            column_infos: Vec::new(alloc),
            first_data_columns: Vec::new(alloc),
            data_infos: Vec::new(alloc),
            lock_names: Vec::new(alloc),
            barrier_infos: Vec::new(alloc),
        }
    }

    /// How many spaces there are.
    pub fn spaces(&self) -> usize
        ensures { result ≡ length self.now.space_places }
    {
        self.space_places.len()
    }

    /// How many columns of instances there are.
    pub fn columns(&self) -> usize
        ensures { result ≡ length self.now.column_infos }
    {
        self.column_infos.len()
    }

    /// How many columns of data there are.
    pub fn data_columns(&self) -> usize
        ensures { result ≡ length self.now.data_infos }
    {
        self.data_infos.len()
    }

    /// How many reservations there are.
    pub fn locks(&self) -> usize
        ensures { result ≡ length self.now.lock_names }
    {
        self.lock_names.len()
    }

    /// How many barriers there are.
    pub fn barriers(&self) -> usize
        ensures { result ≡ length self.now.barrier_infos }
    {
        self.barrier_infos.len()
    }

    /// The place of the declaration of a space.
    pub fn space_place(&self, s: u32) -> u32
        requires { s < length self.now.space_places }
        ensures { slice_get self.now.space_places s ≡ Some result }
    {
        self.space_places[s as usize]
    }

    /// How many columns of instances are before a declaration.
    pub fn first_column(&self, d: u32) -> u32
        requires { d < length self.now.first_columns }
        ensures { slice_get self.now.first_columns d ≡ Some result }
    {
        self.first_columns[d as usize]
    }

    /// How many columns of data are before a declaration.
    pub fn first_data_column(&self, d: u32) -> u32
        requires { d < length self.now.first_data_columns }
        ensures { slice_get self.now.first_data_columns d ≡ Some result }
    {
        self.first_data_columns[d as usize]
    }

    /// A column of an instance by its number.
    pub fn column(&self, c: u32) -> &ColumnInfo
        requires { c < length self.now.column_infos }
        ensures { slice_get self.now.column_infos c ≡ Some result.now }
    {
        &self.column_infos[c as usize]
    }

    /// A column of data by its number.
    pub fn data_column(&self, c: u32) -> &ColumnInfo
        requires { c < length self.now.data_infos }
        ensures { slice_get self.now.data_infos c ≡ Some result.now }
    {
        &self.data_infos[c as usize]
    }

    /// The name of a reservation.
    pub fn lock_name(&self, l: u32) -> Name
        requires { l < length self.now.lock_names }
        ensures { slice_get self.now.lock_names l ≡ Some result }
    {
        self.lock_names[l as usize]
    }

    /// A barrier by its number.
    pub fn barrier(&self, b: u32) -> &BarrierInfo
        requires { b < length self.now.barrier_infos }
        ensures { slice_get self.now.barrier_infos b ≡ Some result.now }
    {
        &self.barrier_infos[b as usize]
    }

    /// The number of the column of this field of this instance. `None` exactly where there is none.
    /// All columns are looked through.
    pub fn find_column(&self, inst: &Name, field: &Name) -> Option<u32>
        requires { length self.now.column_infos ≤ MAX_COLUMNS_OF_THREE }
        ensures { result ≡ position (is_column_named inst.now field.now) self.now.column_infos }
    {
        match column_place(&self.column_infos, inst, field) {
            Some(place) => Some(place as u32),
            None => None,
        }
    }

    /// The number of the column of this field of this data. `None` exactly where there is none.
    /// All columns of data are looked through.
    pub fn find_data_column(&self, name: &Name, field: &Name) -> Option<u32>
        requires { length self.now.data_infos ≤ MAX_COLUMNS_OF_THREE }
        ensures { result ≡ position (is_column_named name.now field.now) self.now.data_infos }
    {
        match column_place(&self.data_infos, name, field) {
            Some(place) => Some(place as u32),
            None => None,
        }
    }

    /// Adds a declaration that stands at `place`. `NoMemory` leaves the tables as they were.
    pub fn add(&mut self, decl: &Decl, place: u32) -> Result<(), NoMemory>
        ensures ok { OnOk result (self.new ≡ tables_with self.old decl.now place) }
        ensures err { OnErr result (self.new ≡ self.old) }
    {
        if self.column_infos.len() > MOST_COLUMNS || self.data_infos.len() > MOST_COLUMNS {
            return Err(NoMemory);
        }
        let first = self.column_infos.len() as u32;
        let first_data = self.data_infos.len() as u32;
        push(&mut self.first_columns, first)?;
        if let Err(error) = push(&mut self.first_data_columns, first_data) {
            let _ = self.first_columns.pop();
            return Err(error);
        }
        if let Err(error) = self.add_items(decl, place) {
            let _ = self.first_columns.pop();
            let _ = self.first_data_columns.pop();
            return Err(error);
        }
        Ok(())
    }

    /// Adds what a declaration brings.
    fn add_items(&mut self, decl: &Decl, place: u32) -> Result<(), NoMemory>
        ensures ok { OnOk result (self.new ≡ items_with self.old decl.now place) }
        ensures err { OnErr result (self.new ≡ self.old) }
    {
        match decl {
            Decl::Space { .. } => push(&mut self.space_places, place),
            Decl::Inst {
                name,
                space,
                fields,
            } => add_columns(&mut self.column_infos, name, *space, fields),
            Decl::Data {
                name,
                space,
                fields,
            } => add_columns(&mut self.data_infos, name, *space, fields),
            Decl::Lock { name } => push(&mut self.lock_names, *name),
            Decl::Barrier {
                name,
                count,
                op,
                first,
            } => {
                let info = BarrierInfo {
                    name: *name,
                    count: *count,
                    op: *op,
                    first: *first,
                };
                push(&mut self.barrier_infos, info)
            }
        }
    }
}

/// Adds a column for each field.
fn add_columns(
    columns: &mut Vec<ColumnInfo>,
    inst: &Name,
    space: u32,
    fields: &NameList,
) -> Result<(), NoMemory>
    ensures ok { OnOk result (columns.new.items ≡ columns.old.items
        ++ map (λ f. record { inst = inst.now; field = f; space = space }) fields.now) }
    ensures err { OnErr result (columns.new.items ≡ columns.old.items) }
{
    let names = fields.items.as_slice();
    reserve(columns, names.len())?;
    for field in names {
        let info = ColumnInfo {
            inst: *inst,
            field: *field,
            space,
        };
        push_within(columns, info);
    }
    Ok(())
}

fn column_place(columns: &[ColumnInfo], inst: &Name, field: &Name) -> Option<usize>
    ensures value { result ≡ position (is_column_named inst.now field.now) columns.now }
    ensures within { IfSome result (λ place. place < length columns.now) }
{
    columns
        .iter()
        .position(|column| column.inst == *inst && column.field == *field)
}
