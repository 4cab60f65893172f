//! Whether cells and rows are the same.
ghost use Rattle.std.specs.Prelude.{◌≡◌};
ghost use Rattle.std.specs.Cmp.Lexicographic.{pointwise};
ghost use Rattle.sql_table.specs.Same.{cell_same};

use crate::cell::Cell;
use crate::shared::Shared;
use ev_list::Same;

#[cycle(same)]
#[tactic(auto, using(crate::specs::SameLaws::null_null, crate::specs::SameLaws::null_val, crate::specs::SameLaws::val_null, crate::specs::SameLaws::val_val, crate::specs::SameLaws::same_rows, crate::specs::SameLaws::same_arrays, crate::specs::SameLaws::null_row, crate::specs::SameLaws::null_array, crate::specs::SameLaws::val_row, crate::specs::SameLaws::val_array, crate::specs::SameLaws::row_null, crate::specs::SameLaws::row_val, crate::specs::SameLaws::row_array, crate::specs::SameLaws::array_null, crate::specs::SameLaws::array_val, crate::specs::SameLaws::array_row))]
fn are_same(left: &Cell, right: &Cell) -> bool
    ensures { result ≡ cell_same left.now right.now }
{
    match left {
        Cell::Null => match right {
            Cell::Null => true,
            Cell::Val(_) => false,
            Cell::Row(_) => false,
            Cell::Array(_) => false,
        },
        Cell::Val(a) => match right {
            Cell::Null => false,
            Cell::Val(b) => a.is_same(b),
            Cell::Row(_) => false,
            Cell::Array(_) => false,
        },
        Cell::Row(a) => match right {
            Cell::Null => false,
            Cell::Val(_) => false,
            Cell::Row(b) => all_same(a.as_slice(), b.as_slice()),
            Cell::Array(_) => false,
        },
        Cell::Array(a) => match right {
            Cell::Null => false,
            Cell::Val(_) => false,
            Cell::Row(_) => false,
            Cell::Array(b) => all_same(a.as_slice(), b.as_slice()),
        },
    }
}

#[cycle(same)]
fn all_same(left: &[Cell], right: &[Cell]) -> bool
    ensures { result ≡ pointwise cell_same left.now right.now }
{
    if left.len() != right.len() {
        return false;
    }
    for (i, cell) in left.iter().enumerate() {
        if let Some(other) = right.get(i)
            && !are_same(cell, other)
        {
            return false;
        }
    }
    true
}

impl Same for Cell {
    ghost use Rattle.sql_table.specs.SameLaws.{cell_exact};

    ghost same = { cell_same };

    ghost exact = { cell_exact };

    fn is_same(&self, other: &Cell) -> bool {
        are_same(self, other)
    }
}

impl<T: Same> Same for Shared<T> {
    ghost same = { T.same };

    ghost exact = { T.exact };

    fn is_same(&self, other: &Shared<T>) -> bool {
        self.get().is_same(other.get())
    }
}
