//! What a remote row makes of a local one, column by column, and of a record without one.
ghost use Rattle.std.specs.Prelude.{◌≡◌, ℕ, ◌<◌, length, map, IfOk};
ghost use Rattle.std.specs.Option.{option_copied};
ghost use Rattle.std.specs.List.{range_with_len};
ghost use Rattle.melon_raw.specs.Rows.{Fits, cell};
ghost use Rattle.melon_wire.specs.Resolution.{value_in, resolved_cell, row_resolved, born_cell, row_born};

use melon_raw::{Datum, Id, Marks, OpField, Raw, Status, sanitise};
use melon_schema::{ColumnSchema, List, TableSchema, Twin};
use melon_wire::Remote;
use std::alloc::{AllocError, Global};

/// The value that the fields have for a column.
fn value_in<'a>(fields: &'a [OpField], name: &str) -> Option<&'a Datum>
    ensures { option_copied result ≡ value_in fields.now name.now }
{
    for field in fields {
        if field.column.is(name) {
            return Some(&field.value);
        }
    }
    None
}

fn resolved_cell(
    alloc: Global,
    columns: &[ColumnSchema],
    local: &Raw,
    fields: &[OpField],
    c: usize,
) -> Result<Datum, AllocError>
    requires within { c < length columns.now }
    requires fits { Fits columns.now local.now }
    ensures { IfOk result (λ cell. cell ≡ resolved_cell columns.now local.now fields.now c) }
{
    let cell = &local.cells.as_slice()[c];
    if local.marks.has(c) {
        return cell.copy(alloc);
    }
    let column = &columns[c];
    match value_in(fields, column.name.as_str()) {
        Some(value) => Ok(sanitise(alloc, column, value.copy(alloc)?)),
        None => cell.copy(alloc),
    }
}

fn resolved_cells(
    alloc: Global,
    columns: &[ColumnSchema],
    local: &Raw,
    fields: &[OpField],
) -> Result<Vec<Datum>, AllocError>
    requires { Fits columns.now local.now }
    ensures { IfOk result (λ cells. cells.items ≡ map (resolved_cell columns.now local.now fields.now) (range_with_len 0 (length columns.now))) }
{
    let mut cells = Vec::with_capacity(alloc, columns.len())?;
    for c in 0..columns.len() {
        cells.push(resolved_cell(alloc, columns, local, fields, c)?)?;
    }
    Ok(cells)
}

/// The local row with what remote fields make of each of its columns.
pub(crate) fn resolved(
    alloc: Global,
    columns: &[ColumnSchema],
    local: &Raw,
    fields: &[OpField],
) -> Result<Raw, AllocError>
    requires { Fits columns.now local.now }
    ensures { IfOk result (λ row. row ≡ row_resolved columns.now local.now fields.now) }
{
    let cells = resolved_cells(alloc, columns, local, fields)?;
    Ok(Raw {
        id: local.id.copy(alloc)?,
        status: local.status,
        marks: local.marks.copy(alloc)?,
        cells: List::from_vec(cells),
    })
}

/// The local row after a remote row of the same record was taken into it. A column that was edited here stays as it is,
/// and so does one that the remote row lacks; any other takes the remote value, as the column keeps it. The id, the status
/// and the marks stay.
pub fn resolve(
    alloc: Global,
    table: &TableSchema,
    local: &Raw,
    remote: &Remote,
) -> Result<Raw, AllocError>
    requires { Fits table.now.columns local.now }
    ensures row { IfOk result (λ row. row ≡ row_resolved table.now.columns local.now remote.now.fields) }
    ensures columns { IfOk result (λ row. (c : ℕ) → c < length table.now.columns → cell row c ≡ resolved_cell table.now.columns local.now remote.now.fields c) }
{
    resolved(
        alloc,
        table.columns.as_slice(),
        local,
        remote.fields.as_slice(),
    )
}

fn born_cell(alloc: Global, column: &ColumnSchema, fields: &[OpField]) -> Result<Datum, AllocError>
    ensures { IfOk result (λ cell. cell ≡ born_cell fields.now column.now) }
{
    let value = match value_in(fields, column.name.as_str()) {
        Some(value) => value.copy(alloc)?,
        None => Datum::Null,
    };
    Ok(sanitise(alloc, column, value))
}

fn born_cells(
    alloc: Global,
    columns: &[ColumnSchema],
    fields: &[OpField],
) -> Result<Vec<Datum>, AllocError>
    ensures { IfOk result (λ cells. cells.items ≡ map (born_cell fields.now) columns.now) }
{
    let mut cells = Vec::with_capacity(alloc, columns.len())?;
    for column in columns {
        cells.push(born_cell(alloc, column, fields)?)?;
    }
    Ok(cells)
}

/// The row of a record that has none yet, from remote fields.
pub(crate) fn born(
    alloc: Global,
    columns: &[ColumnSchema],
    id: &Id,
    fields: &[OpField],
) -> Result<Raw, AllocError>
    ensures { IfOk result (λ row. row ≡ row_born columns.now id.now fields.now) }
{
    let cells = born_cells(alloc, columns, fields)?;
    Ok(Raw {
        id: id.copy(alloc)?,
        status: Status::Synced,
        marks: Marks::new(alloc),
        cells: List::from_vec(cells),
    })
}
