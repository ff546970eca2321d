//! Columns that a kernel reads.

ghost use Rattle.std.specs.Prelude.{◌≡◌, Some, IsSome};
ghost use Rattle.index_spaces.specs.Space.{IsSpace};
ghost use Rattle.index_spaces.specs.Held.{held_at};

use index_spaces::column::ColumnView;
use index_spaces::held::Held;

/// What a kernel sees of the column that is held under a number.
pub(crate) fn source(held: &Held, c: u32) -> ColumnView<'_>
    requires { IsSome (held_at held.now c) }
    ensures column { held_at held.now c ≡ Some result }
    ensures is_space { IsSpace result.space }
{
    let column = held.view(c).unwrap();
    let _ = column.space().intervals();
    column
}
