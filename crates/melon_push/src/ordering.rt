//! Columns and tables, ascending by name.
ghost use Rattle.std.specs.Prelude.{◌≡◌, IfOk, OnOk, length};
ghost use Rattle.std.specs.List.{prefix_len, range_with_len};
ghost use Rattle.melon_raw.specs.Order.{is_below};
ghost use Rattle.melon_raw.specs.Rows.{column_at};
ghost use Rattle.melon_wire.specs.Sent.{put_by_name, by_name};
ghost use Rattle.melon_push.specs.Fetching.{columns_by_name};

use melon_schema::ColumnSchema;
use melon_wire::TableChanges;
use std::alloc::{AllocError, Global};
use std::cmp::Ordering;

/// Whether a name stands before another, by their bytes.
fn is_below(name: &str, other: &str) -> bool
    ensures { result ≡ is_below name.now other.now }
{
    name.cmp(other) == Ordering::Less
}

/// The name of the column at a place.
pub fn name_at(columns: &[ColumnSchema], c: usize) -> &str
    ensures { result.now ≡ (column_at columns.now c).name }
{
    match columns.get(c) {
        Some(column) => column.name.as_str(),
        None => "",
    }
}

fn stands_before(columns: &[ColumnSchema], place: usize, c: usize) -> bool
    ensures { result ≡ is_below (column_at columns.now place).name (column_at columns.now c).name }
{
    is_below(name_at(columns, place), name_at(columns, c))
}

/// How many of these columns, from the front on, have names before that of the column at `c`.
fn columns_before(columns: &[ColumnSchema], places: &[usize], c: usize) -> usize
    ensures { result ≡ prefix_len (λ d. is_below (column_at columns.now d).name (column_at columns.now c).name) places.now }
{
    places
        .iter()
        .take_while(|place| stands_before(columns, **place, c))
        .count()
}

fn put_column(columns: &[ColumnSchema], places: &mut Vec<usize>, c: usize) -> Result<(), AllocError>
    ensures { OnOk result (places.new.items ≡ put_by_name (λ d. (column_at columns.now d).name) c places.old.items) }
{
    let at = columns_before(columns, places.as_slice(), c);
    places.insert(at, c)?;
    Ok(())
}

/// The places of the columns, ascending by the columns' names.
pub fn columns_by_name(alloc: Global, columns: &[ColumnSchema]) -> Result<Vec<usize>, AllocError>
    ensures { IfOk result (λ places. places.items ≡ columns_by_name columns.now) }
{
    let mut places = Vec::with_capacity(alloc, columns.len())?;
    for c in (0..columns.len()).rev() {
        put_column(columns, &mut places, c)?;
    }
    Ok(places)
}

/// How many of these tables, from the front on, have names before this one.
fn tables_before(tables: &[TableChanges], name: &str) -> usize
    ensures { result ≡ prefix_len (λ t. is_below t.table name.now) tables.now }
{
    tables
        .iter()
        .take_while(|sent| is_below(sent.table.as_str(), name))
        .count()
}

fn put_table(tables: &mut Vec<TableChanges>, sent: TableChanges) -> Result<(), AllocError>
    ensures { OnOk result (tables.new.items ≡ put_by_name (λ t. t.table) sent tables.old.items) }
{
    let at = tables_before(tables.as_slice(), sent.table.as_str());
    tables.insert(at, sent)?;
    Ok(())
}

/// The tables, ascending by name.
pub fn tables_by_name(
    alloc: Global,
    tables: Vec<TableChanges>,
) -> Result<Vec<TableChanges>, AllocError>
    ensures { IfOk result (λ sorted. sorted.items ≡ by_name (λ t. t.table) tables.items) }
{
    let mut left = tables;
    let mut sorted = Vec::with_capacity(alloc, left.len())?;
    while let Some(sent) = left.pop() {
        put_table(&mut sorted, sent)?;
    }
    Ok(sorted)
}
