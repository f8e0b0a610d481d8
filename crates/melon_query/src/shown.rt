//! Rows as they are shown.
ghost use Rattle.std.specs.Prelude.{◌≡◌, IfOk};
ghost use Rattle.melon_raw.specs.Rows.{cell};
ghost use Rattle.melon_query.specs.Shown.{cells_at, shown_row};

use melon_raw::{Datum, Id, Raw};
use melon_schema::{List, Twin};
use std::alloc::{AllocError, Global};

/// A row as it is shown: its id, and its cells at the columns that are asked for.
#[derive(Debug, Drop)]
pub struct Shown {
    pub id: Id,
    pub cells: List<Datum>,
}

impl Twin for Shown {
    fn copy(&self, alloc: Global) -> Result<Shown, AllocError> {
        Ok(Shown {
            id: self.id.copy(alloc)?,
            cells: self.cells.copy(alloc)?,
        })
    }

    fn same(&self, other: &Shown) -> bool {
        self.id.same(&other.id) && self.cells.same(&other.cells)
    }
}

/// A copy of a cell; a place past the end is null.
fn cell_copy(alloc: Global, row: &Raw, column: usize) -> Result<Datum, AllocError>
    ensures { IfOk result (λ copy. copy ≡ cell row.now column) }
{
    let cells = row.cells.as_slice();
    if column < cells.len() {
        cells[column].copy(alloc)
    } else {
        Ok(Datum::Null)
    }
}

fn cells_at(alloc: Global, columns: &[usize], row: &Raw) -> Result<List<Datum>, AllocError>
    ensures { IfOk result (λ cells. cells ≡ cells_at columns.now row.now) }
{
    let mut cells = List::from_vec(Vec::with_capacity(alloc, columns.len())?);
    for column in columns {
        cells.push(cell_copy(alloc, row, *column)?)?;
    }
    Ok(cells)
}

impl Shown {
    /// A row as it is shown with these columns. A column past the last is null.
    pub fn of(alloc: Global, columns: &[usize], row: &Raw) -> Result<Shown, AllocError>
        ensures { IfOk result (λ shown. shown ≡ shown_row columns.now row.now) }
    {
        Ok(Shown {
            id: row.id.copy(alloc)?,
            cells: cells_at(alloc, columns, row)?,
        })
    }
}
