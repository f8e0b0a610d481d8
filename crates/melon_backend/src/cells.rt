//! The row that a push puts for a record.
ghost use Rattle.std.specs.Prelude.{◌≡◌, ◌<◌, length, get_or, map, IfOk};
ghost use Rattle.std.specs.Option.{option_copied};
ghost use Rattle.std.specs.List.{range_with_len};
ghost use Rattle.melon_raw.specs.declared.datum.Datum.TheVariants.{Null};
ghost use Rattle.melon_wire.specs.Resolution.{value_in, born_cell};
ghost use Rattle.melon_log.specs.ServerRows.{is_live, cell_sent, made, overwritten, sent_to, deleted_at};

use melon_log::ServerRow;
use melon_raw::{Datum, Id, OpField, sanitise};
use melon_schema::{ColumnSchema, List, Twin};
use std::alloc::{AllocError, Global};

pub(crate) fn is_live(row: &ServerRow) -> bool
    ensures { result ≡ is_live row.now }
{
    row.deleted.is_none()
}

/// A copy of the cell of a column. A place past the end is null.
pub(crate) fn cell_copy(alloc: Global, row: &ServerRow, c: usize) -> Result<Datum, AllocError>
    ensures { IfOk result (λ value. value ≡ get_or row.now.cells c Null) }
{
    match row.cells.get(c) {
        Some(value) => value.copy(alloc),
        None => Ok(Datum::Null),
    }
}

/// The value that the fields have for a column.
fn value_in<'a>(fields: &'a [OpField], name: &str) -> Option<&'a Datum>
    ensures { option_copied result ≡ value_in fields.now name.now }
{
    for field in fields {
        if field.column.is(name) {
            return Some(&field.value);
        }
    }
    None
}

fn born_cell(alloc: Global, column: &ColumnSchema, fields: &[OpField]) -> Result<Datum, AllocError>
    ensures { IfOk result (λ cell. cell ≡ born_cell fields.now column.now) }
{
    let value = match value_in(fields, column.name.as_str()) {
        Some(value) => value.copy(alloc)?,
        None => Datum::Null,
    };
    Ok(sanitise(alloc, column, value))
}

fn born_cells(
    alloc: Global,
    columns: &[ColumnSchema],
    fields: &[OpField],
) -> Result<Vec<Datum>, AllocError>
    ensures { IfOk result (λ cells. cells.items ≡ map (born_cell fields.now) columns.now) }
{
    let mut cells = Vec::with_capacity(alloc, columns.len())?;
    for column in columns {
        cells.push(born_cell(alloc, column, fields)?)?;
    }
    Ok(cells)
}

fn made(
    alloc: Global,
    columns: &[ColumnSchema],
    id: &Id,
    revision: u64,
    fields: &[OpField],
) -> Result<ServerRow, AllocError>
    ensures { IfOk result (λ row. row ≡ made columns.now id.now revision fields.now) }
{
    let cells = born_cells(alloc, columns, fields)?;
    Ok(ServerRow {
        id: id.copy(alloc)?,
        created: revision,
        changed: revision,
        deleted: None,
        cells: List::from_vec(cells),
    })
}

fn cell_sent(
    alloc: Global,
    columns: &[ColumnSchema],
    row: &ServerRow,
    fields: &[OpField],
    c: usize,
) -> Result<Datum, AllocError>
    requires { c < length columns.now }
    ensures { IfOk result (λ cell. cell ≡ cell_sent columns.now row.now.cells fields.now c) }
{
    let column = &columns[c];
    match value_in(fields, column.name.as_str()) {
        Some(value) => Ok(sanitise(alloc, column, value.copy(alloc)?)),
        None => cell_copy(alloc, row, c),
    }
}

fn cells_sent(
    alloc: Global,
    columns: &[ColumnSchema],
    row: &ServerRow,
    fields: &[OpField],
) -> Result<Vec<Datum>, AllocError>
    ensures { IfOk result (λ cells. cells.items ≡ map (cell_sent columns.now row.now.cells fields.now) (range_with_len 0 (length columns.now))) }
{
    let mut cells = Vec::with_capacity(alloc, columns.len())?;
    for c in 0..columns.len() {
        cells.push(cell_sent(alloc, columns, row, fields, c)?)?;
    }
    Ok(cells)
}

fn overwritten(
    alloc: Global,
    columns: &[ColumnSchema],
    row: &ServerRow,
    revision: u64,
    fields: &[OpField],
) -> Result<ServerRow, AllocError>
    ensures { IfOk result (λ new. new ≡ overwritten columns.now row.now revision fields.now) }
{
    let cells = cells_sent(alloc, columns, row, fields)?;
    Ok(ServerRow {
        id: row.id.copy(alloc)?,
        created: row.created,
        changed: revision,
        deleted: None,
        cells: List::from_vec(cells),
    })
}

/// The row of a record to which fields are sent.
pub(crate) fn sent_to(
    alloc: Global,
    columns: &[ColumnSchema],
    id: &Id,
    row: Option<&ServerRow>,
    revision: u64,
    fields: &[OpField],
) -> Result<ServerRow, AllocError>
    ensures { IfOk result (λ new. new ≡ sent_to columns.now id.now (option_copied row.entry) revision fields.now) }
{
    match row {
        None => made(alloc, columns, id, revision, fields),
        Some(row) => {
            if is_live(row) {
                return overwritten(alloc, columns, row, revision, fields);
            }
            made(alloc, columns, id, revision, fields)
        }
    }
}

/// The row once it is deleted.
pub(crate) fn deleted_at(
    alloc: Global,
    row: &ServerRow,
    revision: u64,
) -> Result<ServerRow, AllocError>
    ensures { IfOk result (λ new. new ≡ deleted_at revision row.now) }
{
    Ok(ServerRow {
        id: row.id.copy(alloc)?,
        created: row.created,
        changed: row.changed,
        deleted: Some(revision),
        cells: List::new(alloc),
    })
}
