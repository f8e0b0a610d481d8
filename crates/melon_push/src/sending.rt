//! What is sent of a fetch.
ghost use Rattle.std.specs.Prelude.{◌≡◌, map, IfOk};
ghost use Rattle.melon_raw.specs.Rows.{cell};
ghost use Rattle.melon_wire.specs.Collected.{IsFetch};
ghost use Rattle.melon_wire.specs.Sent.{field_of, sent_of};
ghost use Rattle.melon_push.specs.Fetching.{remote_by, table_sent, sent_from, fetch_seen};

use crate::lookup::declared_at;
use crate::ordering::{columns_by_name, name_at, tables_by_name};
use crate::runs::{Runs, all_of, is_nothing, split_run};
use melon_raw::{Datum, Id, OpField, Raw};
use melon_schema::{AppSchema, ColumnSchema, List, TableSchema, Text, Twin};
use melon_wire::{Changes, Fetch, Gone, Held, Remote, TableChanges};
use std::alloc::{AllocError, Global};

/// A copy of the cell of a column. A place past the end is null.
fn cell_copy(alloc: Global, row: &Raw, c: usize) -> Result<Datum, AllocError>
    ensures { IfOk result (λ value. value ≡ cell row.now c) }
{
    match row.cells.get(c) {
        Some(value) => value.copy(alloc),
        None => Ok(Datum::Null),
    }
}

fn field_of(
    alloc: Global,
    columns: &[ColumnSchema],
    row: &Raw,
    c: usize,
) -> Result<OpField, AllocError>
    ensures { IfOk result (λ field. field ≡ field_of columns.now row.now c) }
{
    Ok(OpField {
        column: Text::new(alloc, name_at(columns, c))?,
        value: cell_copy(alloc, row, c)?,
    })
}

/// The row with its columns in this order.
fn remote_by(
    alloc: Global,
    columns: &[ColumnSchema],
    order: &[usize],
    row: &Raw,
) -> Result<Remote, AllocError>
    ensures { IfOk result (λ remote. remote ≡ remote_by columns.now order.now row.now) }
{
    let mut fields = List::from_vec(Vec::with_capacity(alloc, order.len())?);
    for c in order {
        fields.push(field_of(alloc, columns, row, *c)?)?;
    }
    let id = row.id.copy(alloc)?;
    Ok(Remote { id, fields })
}

fn rows_sent(
    alloc: Global,
    columns: &[ColumnSchema],
    order: &[usize],
    held: &[Held],
) -> Result<List<Remote>, AllocError>
    ensures { IfOk result (λ rows. rows ≡ map (λ h. remote_by columns.now order.now h.row) held.now) }
{
    let mut rows = List::from_vec(Vec::with_capacity(alloc, held.len())?);
    for one in held {
        rows.push(remote_by(alloc, columns, order, &one.row)?)?;
    }
    Ok(rows)
}

fn ids_sent(alloc: Global, gone: &[Gone]) -> Result<List<Id>, AllocError>
    ensures { IfOk result (λ ids. ids ≡ map (λ g. g.id) gone.now) }
{
    let mut ids = List::from_vec(Vec::with_capacity(alloc, gone.len())?);
    for one in gone {
        ids.push(one.id.copy(alloc)?)?;
    }
    Ok(ids)
}

/// What is sent of one table.
fn table_sent(
    alloc: Global,
    table: &TableSchema,
    run: &Runs<'_>,
) -> Result<TableChanges, AllocError>
    ensures { IfOk result (λ sent. sent ≡ table_sent table.now (fetch_seen run.now)) }
{
    let columns = table.columns.as_slice();
    let order = columns_by_name(alloc, columns)?;
    Ok(TableChanges {
        table: table.name.copy(alloc)?,
        created: rows_sent(alloc, columns, order.as_slice(), run.created)?,
        updated: rows_sent(alloc, columns, order.as_slice(), run.updated)?,
        deleted: ids_sent(alloc, run.deleted)?,
    })
}

/// What is sent of each table of which something is, in the order in which the tables are declared.
fn tables_sent(
    alloc: Global,
    schema: &AppSchema,
    fetch: &Fetch,
) -> Result<Vec<TableChanges>, AllocError>
    requires { IsFetch fetch.now }
    ensures { IfOk result (λ sent. sent.items ≡ sent_from schema.now.tables fetch.now 0) }
{
    let mut left = all_of(fetch);
    let mut sent = Vec::new(alloc);
    for table in 0..schema.len() {
        let (run, past) = split_run(left, table);
        left = past;
        if is_nothing(&run) {
            continue;
        }
        sent.push(table_sent(alloc, declared_at(schema, table), &run)?)?;
    }
    Ok(sent)
}

/// What is sent of a fetch: the tables of which something is sent, ascending by name, each row with its id and all its
/// cells, ascending by column, and without status and marks.
#[tactic(auto, unfolding(melon_wire::specs::Sent::sent_of))]
pub fn outgoing(alloc: Global, schema: &AppSchema, fetch: &Fetch) -> Result<Changes, AllocError>
    requires { IsFetch fetch.now }
    ensures { IfOk result (λ changes. changes ≡ sent_of schema.now.tables fetch.now) }
{
    let sent = tables_sent(alloc, schema, fetch)?;
    let tables = tables_by_name(alloc, sent)?;
    Ok(Changes {
        tables: List::from_vec(tables),
    })
}
