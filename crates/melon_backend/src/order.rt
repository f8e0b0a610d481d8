//! Columns and tables, ascending by name.
ghost use Rattle.std.specs.Prelude.{◌≡◌, ◌<◌, length, IfOk, OnOk};
ghost use Rattle.std.specs.List.{prefix_len};
ghost use Rattle.melon_raw.specs.Order.{is_below};
ghost use Rattle.melon_raw.specs.Rows.{column_at, table_at};
ghost use Rattle.melon_wire.specs.Sent.{put_by_name};
ghost use Rattle.melon_log.specs.Pulled.{places_by_name, tables_by_name};

use melon_schema::{AppSchema, ColumnSchema, TableSchema};
use std::alloc::{AllocError, Global};
use std::cmp::Ordering;

/// Whether a name stands before another, by their bytes.
fn is_below(name: &str, other: &str) -> bool
    ensures { result ≡ is_below name.now other.now }
{
    name.cmp(other) == Ordering::Less
}

/// The declared table at a place.
pub(crate) fn declared_at(schema: &AppSchema, table: usize) -> &TableSchema
    requires { table < length schema.now.tables }
    ensures { result.now ≡ table_at schema.now.tables table }
{
    schema.at(table)
}

// ---- columns

/// The name of the column at a place.
pub(crate) fn name_at(columns: &[ColumnSchema], c: usize) -> &str
    ensures { result.now ≡ (column_at columns.now c).name }
{
    match columns.get(c) {
        Some(column) => column.name.as_str(),
        None => "",
    }
}

fn stands_before(columns: &[ColumnSchema], place: usize, c: usize) -> bool
    ensures { result ≡ is_below (column_at columns.now place).name (column_at columns.now c).name }
{
    is_below(name_at(columns, place), name_at(columns, c))
}

/// How many of these columns, from the front on, have names before that of the column at `c`.
fn columns_before(columns: &[ColumnSchema], places: &[usize], c: usize) -> usize
    ensures { result ≡ prefix_len (λ d. is_below (column_at columns.now d).name (column_at columns.now c).name) places.now }
{
    places
        .iter()
        .take_while(|place| stands_before(columns, **place, c))
        .count()
}

fn put_column(columns: &[ColumnSchema], places: &mut Vec<usize>, c: usize) -> Result<(), AllocError>
    ensures { OnOk result (places.new.items ≡ put_by_name (λ d. (column_at columns.now d).name) c places.old.items) }
{
    let at = columns_before(columns, places.as_slice(), c);
    places.insert(at, c)?;
    Ok(())
}

/// The places of the columns, ascending by the columns' names.
pub(crate) fn columns_by_name(
    alloc: Global,
    columns: &[ColumnSchema],
) -> Result<Vec<usize>, AllocError>
    ensures { IfOk result (λ places. places.items ≡ places_by_name columns.now) }
{
    let mut places = Vec::with_capacity(alloc, columns.len())?;
    for c in (0..columns.len()).rev() {
        put_column(columns, &mut places, c)?;
    }
    Ok(places)
}

// ---- tables

fn table_name(schema: &AppSchema, table: usize) -> &str
    ensures { result.now ≡ (table_at schema.now.tables table).name }
{
    if table < schema.len() {
        return declared_at(schema, table).name.as_str();
    }
    ""
}

fn table_before(schema: &AppSchema, place: usize, table: usize) -> bool
    ensures { result ≡ is_below (table_at schema.now.tables place).name (table_at schema.now.tables table).name }
{
    is_below(table_name(schema, place), table_name(schema, table))
}

/// How many of these tables, from the front on, have names before that of the table at `table`.
fn tables_before(schema: &AppSchema, places: &[usize], table: usize) -> usize
    ensures { result ≡ prefix_len (λ d. is_below (table_at schema.now.tables d).name (table_at schema.now.tables table).name) places.now }
{
    places
        .iter()
        .take_while(|place| table_before(schema, **place, table))
        .count()
}

fn put_table(schema: &AppSchema, places: &mut Vec<usize>, table: usize) -> Result<(), AllocError>
    ensures { OnOk result (places.new.items ≡ put_by_name (λ d. (table_at schema.now.tables d).name) table places.old.items) }
{
    let at = tables_before(schema, places.as_slice(), table);
    places.insert(at, table)?;
    Ok(())
}

/// The places of the tables, ascending by the tables' names.
pub(crate) fn tables_by_name(alloc: Global, schema: &AppSchema) -> Result<Vec<usize>, AllocError>
    ensures { IfOk result (λ places. places.items ≡ tables_by_name schema.now.tables) }
{
    let mut places = Vec::with_capacity(alloc, schema.len())?;
    for table in (0..schema.len()).rev() {
        put_table(schema, &mut places, table)?;
    }
    Ok(places)
}
