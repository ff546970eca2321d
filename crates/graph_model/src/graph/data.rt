//! The columns of data, and the columns of both kinds.

use super::{Graph, field_place};
use graph_terms::decl::Decl;
use graph_terms::found::Found;
use graph_terms::limits::MAX_COLUMNS_OF_THREE;
use graph_terms::name::Name;
use index_spaces::space::Space;

impl Graph {
    ghost use Rattle.std.specs.Prelude.{◌≡◌, ◌<◌, ◌≤◌, ◌+◌, Some, IfSome, length, option_map, position, slice_get};
    ghost use Rattle.graph_terms.specs.Graph.{columns, data_columns, data_space};
    ghost use Rattle.graph_terms.specs.Names.{is_column_named, is_data_named};
    ghost use Rattle.graph_model.specs.Columns.{all_columns, any_space};

    /// How many columns of data there are: the fields of all data.
    pub fn data_columns(&self) -> u32
        ensures number { result ≡ length (data_columns self.now) }
        ensures few { result ≤ MAX_COLUMNS_OF_THREE }
    {
        self.tables.data_columns() as u32
    }

    /// The space of a column of data.
    pub fn data_space(&self, c: u32) -> &Space
        requires { c < length (data_columns self.now) }
        ensures { result.now ≡ data_space self.now c }
    {
        let column = self.tables.data_column(c);
        self.space(column.space)
    }

    /// The names of the data and the field of a column of data.
    pub fn data_column_name(&self, c: u32) -> (Name, Name)
        requires { c < length (data_columns self.now) }
        ensures owner { option_map (λ x. x.inst) (slice_get (data_columns self.now) c) ≡ Some result.0 }
        ensures field { option_map (λ x. x.field) (slice_get (data_columns self.now) c) ≡ Some result.1 }
    {
        let column = self.tables.data_column(c);
        (column.inst, column.field)
    }

    /// The number of the column of this field of this data, among the columns of data. `None` exactly
    /// where no data of this name has such a field.
    pub fn find_data_column(&self, name: &Name, field: &Name) -> Option<u32>
        ensures { result ≡ position (is_column_named name.now field.now) (data_columns self.now) }
    {
        if let Some(Found::Data(d)) = self.find(name) {
            if let Some(c) = self.data_column_of(d, name, field) {
                return Some(c);
            }
        }
        self.tables.find_data_column(name, field)
    }

    /// The number of the column of this field of the data of this name, which declaration `d` is.
    fn data_column_of(&self, d: u32, name: &Name, field: &Name) -> Option<u32>
        requires { position (is_data_named name.now) self.now.decls ≡ Some d }
        ensures { IfSome result (λ c. position (is_column_named name.now field.now) (data_columns self.now) ≡ Some c) }
    {
        match &self.decls[d as usize] {
            Decl::Data { fields, .. } => match field_place(fields.items.as_slice(), field) {
                Some(place) => Some(self.tables.first_data_column(d) + place),
                None => None,
            },
            _ => None,
        }
    }

    /// How many columns there are of both kinds. Those of data are numbered behind the others.
    pub fn all_columns(&self) -> u32
        ensures number { result ≡ length (columns self.now) + length (data_columns self.now) }
        ensures few { result ≤ MAX_COLUMNS_OF_THREE }
    {
        (self.tables.columns() + self.tables.data_columns()) as u32
    }

    /// The space of a column by its number among all columns.
    pub fn any_column_space(&self, c: u32) -> &Space
        requires { c < length (columns self.now) + length (data_columns self.now) }
        ensures { result.now ≡ any_space self.now c }
    {
        let columns = self.columns();
        if c < columns {
            self.column_space(c)
        } else {
            self.data_space(c - columns)
        }
    }

    /// The names of the instance or the data and of the field of a column, by its number among all
    /// columns.
    pub fn any_column_name(&self, c: u32) -> (Name, Name)
        requires { c < length (columns self.now) + length (data_columns self.now) }
        ensures owner { option_map (λ x. x.inst) (slice_get (all_columns self.now) c) ≡ Some result.0 }
        ensures field { option_map (λ x. x.field) (slice_get (all_columns self.now) c) ≡ Some result.1 }
    {
        let columns = self.columns();
        if c < columns {
            self.column_name(c)
        } else {
            self.data_column_name(c - columns)
        }
    }
}
