ghost use Rattle.std.specs.Prelude.{◌≡◌, ◌<◌, map, length, slice_set, IfOk, OnOk, OnErr};
ghost use Rattle.melon_raw.specs.declared.datum.Datum.TheVariants.{Null};
ghost use Rattle.melon_raw.specs.Datum.{fit};
ghost use Rattle.melon_raw.specs.Rows.{is_visible, column_at, Fits};
ghost use Rattle.melon_raw.specs.Same.{row_eq};
ghost use Rattle.melon_raw.specs.Edits.{cells_from, row_created, edited_status, with_cell, row_edited, row_deleted, row_synced};

use crate::{Datum, Id, Marks, sanitise};
use melon_schema::{ColumnSchema, List, TableSchema, Twin};
use std::alloc::{AllocError, Global};

/// How a row stands to the server's: made here, edited here, marked as deleted here, or as it was synced.
#[derive(Clone, Copy, Debug, PartialEq, Eq)]
pub enum Status {
    Created,
    Updated,
    Deleted,
    Synced,
}

impl Twin for Status {
    fn copy(&self, _alloc: Global) -> Result<Status, AllocError> {
        Ok(*self)
    }

    fn same(&self, other: &Status) -> bool {
        *self == *other
    }
}

impl Status {
    /// The status after an edit that marks a column.
    fn edited(self) -> Status
        ensures { result ≡ edited_status self }
    {
        match self {
            Status::Created => Status::Created,
            Status::Updated | Status::Deleted | Status::Synced => Status::Updated,
        }
    }
}

/// The row of a record: one cell for each declared column of its table, and the columns edited since it was synced.
#[derive(Debug, Drop)]
pub struct Raw {
    pub id: Id,
    pub status: Status,
    pub marks: Marks,
    pub cells: List<Datum>,
}

fn defaults(alloc: Global, columns: &[ColumnSchema]) -> Result<Vec<Datum>, AllocError>
    ensures { IfOk result (λ cells. cells.items ≡ map (λ column. fit column Null) columns.now) }
{
    let mut cells = Vec::with_capacity(alloc, columns.len())?;
    for column in columns {
        cells.push(sanitise(alloc, column, Datum::Null))?;
    }
    Ok(cells)
}

/// Puts into a cell what its column keeps of a value. A place past the columns is left out.
fn put_cell(
    alloc: Global,
    columns: &[ColumnSchema],
    cells: &mut Vec<Datum>,
    place: usize,
    value: Datum,
)
    requires { length cells.old.items ≡ length columns.now }
    ensures { cells.new.items ≡ slice_set cells.old.items place (fit (column_at columns.now place) value) }
{
    if place < columns.len() {
        cells[place] = sanitise(alloc, &columns[place], value);
    }
}

fn cells_of(
    alloc: Global,
    columns: &[ColumnSchema],
    fields: Vec<(usize, Datum)>,
) -> Result<Vec<Datum>, AllocError>
    ensures { IfOk result (λ cells. cells.items ≡ cells_from fields.items 0 columns.now) }
{
    let mut left = fields;
    let mut cells = defaults(alloc, columns)?;
    while let Some((place, value)) = left.pop() {
        put_cell(alloc, columns, &mut cells, place, value);
    }
    Ok(cells)
}

impl Raw {
    /// Whether it is the same row: in id, status, marks and cells.
    pub fn is(&self, other: &Raw) -> bool
        ensures { result ≡ row_eq self.now other.now }
    {
        self.same(other)
    }

    /// Whether it isn't marked as deleted.
    pub fn is_visible(&self) -> bool
        ensures { result ≡ is_visible self.now.status }
    {
        match self.status {
            Status::Deleted => false,
            Status::Created | Status::Updated | Status::Synced => true,
        }
    }

    /// A new row of an app, with these values for the columns at these places. Of a place that stands twice the first
    /// value counts, and one past the columns is left out.
    pub fn created(
        alloc: Global,
        table: &TableSchema,
        id: Id,
        fields: List<(usize, Datum)>,
    ) -> Result<Raw, AllocError>
        ensures { IfOk result (λ row. row ≡ row_created table.now.columns id fields) }
    {
        let cells = cells_of(alloc, table.columns.as_slice(), fields.into_vec())?;
        Ok(Raw {
            id,
            status: Status::Created,
            marks: Marks::new(alloc),
            cells: List::from_vec(cells),
        })
    }

    /// Gives one column a value.
    pub fn edit(
        &mut self,
        alloc: Global,
        table: &TableSchema,
        column: usize,
        value: Datum,
    ) -> Result<(), AllocError>
        requires fits { Fits table.now.columns self.old }
        requires within { column < length table.now.columns }
        ensures ok { OnOk result (self.new ≡ row_edited table.now.columns column value self.old) }
        ensures err { OnErr result (self.new ≡ self.old) }
    {
        let value = sanitise(alloc, &table.columns.as_slice()[column], value);
        if self.cells.as_slice()[column].is(&value) {
            return Ok(());
        }
        self.take_value(column, value)
    }

    fn take_value(&mut self, column: usize, value: Datum) -> Result<(), AllocError>
        requires { column < length self.old.cells }
        ensures ok { OnOk result (self.new ≡ with_cell column value self.old) }
        ensures err { OnErr result (self.new ≡ self.old) }
    {
        self.marks.mark(column)?;
        self.cells.replace(column, value);
        self.status = self.status.edited();
        Ok(())
    }

    /// Marks it as deleted. It keeps its values and marks.
    pub fn mark_deleted(&mut self)
        ensures { self.new ≡ row_deleted self.old }
    {
        self.status = Status::Deleted;
    }

    /// The row as it stands once the server has it.
    pub fn synced_copy(&self, alloc: Global) -> Result<Raw, AllocError>
        ensures { IfOk result (λ row. row ≡ row_synced self.now) }
    {
        Ok(Raw {
            id: self.id.copy(alloc)?,
            status: Status::Synced,
            marks: Marks::new(alloc),
            cells: self.cells.copy(alloc)?,
        })
    }
}

impl Twin for Raw {
    fn copy(&self, alloc: Global) -> Result<Raw, AllocError> {
        Ok(Raw {
            id: self.id.copy(alloc)?,
            status: self.status,
            marks: self.marks.copy(alloc)?,
            cells: self.cells.copy(alloc)?,
        })
    }

    fn same(&self, other: &Raw) -> bool {
        self.id.same(&other.id)
            && self.status.same(&other.status)
            && self.marks.same(&other.marks)
            && self.cells.same(&other.cells)
    }
}
