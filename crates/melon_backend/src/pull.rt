//! What a pull tells: the rows that were touched since, found by their stamps.
ghost use Rattle.std.specs.Prelude.{◌≡◌, ◌++◌, ◌<◌, [], length, get_or, map, filter, IfOk, OnOk, option_to_list};
ghost use Rattle.std.specs.Option.{option_copied};
ghost use Rattle.std.specs.List.{filter_map, AllByRecursion};
ghost use Rattle.std.specs.List.Sorted.{IsStrictlySortedBy};
ghost use Rattle.melon_raw.specs.Rows.{table_at};
ghost use Rattle.melon_log.specs.ServerRows.{is_touched, ServerRows};
ghost use Rattle.melon_log.specs.Pulled.{field_at, is_new, is_edited, is_gone, table_told, changes_told};
ghost use Rattle.melon_backend.specs.Inside.{stamp_cmp, rows_in, tables_rows, IsKept, AreKept};
ghost use Rattle.melon_backend.specs.Pulling.{touched_row, if_last, fresh, is_after, told_by};

use crate::cells::{cell_copy, is_live};
use crate::order::{columns_by_name, declared_at, name_at, tables_by_name};
use crate::table::{ServerTable, Stamp, greatest};
use melon_log::ServerRow;
use melon_raw::{Id, OpField};
use melon_schema::{AppSchema, ColumnSchema, List, TableSchema, Text, Twin};
use melon_wire::keyed::{Keyed, sort_keyed};
use melon_wire::{Changes, Remote, TableChanges};
use std::alloc::{AllocError, Global};

/// A row that was touched.
#[derive(Clone, Copy)]
struct Touched<'a> {
    row: &'a ServerRow,
}

impl<'a> Keyed for Touched<'a> {
    ghost use Rattle.melon_wire.specs.Keys.{key_at};

    ghost key_of = { λ t. key_at 0 t.row.now.id };

    fn table(&self) -> usize {
        0
    }

    fn id(&self) -> &Id {
        &self.row.id
    }
}

// ---- touched rows

fn if_last(row: &ServerRow, revision: u64) -> Option<&ServerRow>
    ensures { option_copied result ≡ if_last revision row.now }
{
    if greatest(row) == revision {
        return Some(row);
    }
    None
}

/// The row of a stamp, unless its revision is another: then the stamp is left of a push that was not kept.
fn fresh<'a>(table: &'a ServerTable, stamp: &Stamp) -> Option<&'a ServerRow>
    requires { IsKept table.now }
    ensures { option_copied result ≡ fresh (rows_in table.now) stamp.now }
{
    match table.get(&stamp.id) {
        None => None,
        Some(row) => if_last(row, stamp.revision),
    }
}

fn push_fresh<'a>(
    found: &mut Vec<Touched<'a>>,
    table: &'a ServerTable,
    stamp: &Stamp,
) -> Result<(), AllocError>
    requires { IsKept table.now }
    ensures { OnOk result (map touched_row found.new.items ≡ map touched_row found.old.items ++ option_to_list (fresh (rows_in table.now) stamp.now)) }
{
    if let Some(row) = fresh(table, stamp) {
        found.push(Touched { row })?;
    }
    Ok(())
}

/// The rows of the stamps after a revision, in the order of the stamps.
fn found_after<'a>(
    alloc: Global,
    table: &'a ServerTable,
    t: u64,
) -> Result<Vec<Touched<'a>>, AllocError>
    requires { IsKept table.now }
    ensures found { IfOk result (λ found. map touched_row found.items ≡ filter_map (fresh (rows_in table.now)) (filter (is_after t) table.now.stamps.keys)) }
    ensures ordered { OnOk result (IsStrictlySortedBy stamp_cmp table.now.stamps.keys) }
{
    let mut found = Vec::new(alloc);
    for stamp in &table.stamps {
        if stamp.revision <= t {
            return Ok(found);
        }
        push_fresh(&mut found, table, stamp)?;
    }
    Ok(found)
}

/// The rows that were touched after a revision, ascending by id.
fn touched_after<'a>(
    alloc: Global,
    table: &'a ServerTable,
    t: u64,
) -> Result<Vec<Touched<'a>>, AllocError>
    requires { IsKept table.now }
    ensures { IfOk result (λ found. map touched_row found.items ≡ filter (is_touched t) (rows_in table.now)) }
{
    let mut found = found_after(alloc, table, t)?;
    sort_keyed(&mut found)?;
    Ok(found)
}

// ---- rows as they are told

fn field_at(
    alloc: Global,
    columns: &[ColumnSchema],
    row: &ServerRow,
    c: usize,
) -> Result<OpField, AllocError>
    ensures { IfOk result (λ field. field ≡ field_at columns.now row.now.cells c) }
{
    Ok(OpField {
        column: Text::new(alloc, name_at(columns, c))?,
        value: cell_copy(alloc, row, c)?,
    })
}

/// The row with its columns in this order.
fn told_by(
    alloc: Global,
    columns: &[ColumnSchema],
    order: &[usize],
    row: &ServerRow,
) -> Result<Remote, AllocError>
    ensures { IfOk result (λ remote. remote ≡ told_by columns.now order.now row.now) }
{
    let mut fields = List::from_vec(Vec::with_capacity(alloc, order.len())?);
    for c in order {
        fields.push(field_at(alloc, columns, row, *c)?)?;
    }
    let id = row.id.copy(alloc)?;
    Ok(Remote { id, fields })
}

fn is_new(t: u64, row: &ServerRow) -> bool
    ensures { result ≡ is_new t row.now }
{
    is_live(row) && row.created > t
}

fn is_edited(t: u64, row: &ServerRow) -> bool
    ensures { result ≡ is_edited t row.now }
{
    is_live(row) && row.created <= t && row.changed > t
}

fn is_gone(t: u64, row: &ServerRow) -> bool
    ensures { result ≡ is_gone t row.now }
{
    row.deleted.unwrap_or(0) > t
}

fn new_rows(
    alloc: Global,
    columns: &[ColumnSchema],
    order: &[usize],
    t: u64,
    found: &[Touched<'_>],
) -> Result<List<Remote>, AllocError>
    ensures { IfOk result (λ rows. rows ≡ map (told_by columns.now order.now) (filter (is_new t) (map touched_row found.now))) }
{
    let mut rows = List::new(alloc);
    for one in found {
        if is_new(t, one.row) {
            rows.push(told_by(alloc, columns, order, one.row)?)?;
        }
    }
    Ok(rows)
}

fn edited_rows(
    alloc: Global,
    columns: &[ColumnSchema],
    order: &[usize],
    t: u64,
    found: &[Touched<'_>],
) -> Result<List<Remote>, AllocError>
    ensures { IfOk result (λ rows. rows ≡ map (told_by columns.now order.now) (filter (is_edited t) (map touched_row found.now))) }
{
    let mut rows = List::new(alloc);
    for one in found {
        if is_edited(t, one.row) {
            rows.push(told_by(alloc, columns, order, one.row)?)?;
        }
    }
    Ok(rows)
}

fn gone_ids(alloc: Global, t: u64, found: &[Touched<'_>]) -> Result<List<Id>, AllocError>
    ensures { IfOk result (λ ids. ids ≡ map (λ r. r.id) (filter (is_gone t) (map touched_row found.now))) }
{
    let mut ids = List::new(alloc);
    for one in found {
        if is_gone(t, one.row) {
            ids.push(one.row.id.copy(alloc)?)?;
        }
    }
    Ok(ids)
}

// ---- the whole

/// What is told of touched rows.
fn lists_told(
    alloc: Global,
    table: &TableSchema,
    t: u64,
    found: &[Touched<'_>],
) -> Result<TableChanges, AllocError>
    ensures { IfOk result (λ told. told ≡ table_told t table.now (map touched_row found.now)) }
{
    let columns = table.columns.as_slice();
    let order = columns_by_name(alloc, columns)?;
    Ok(TableChanges {
        table: table.name.copy(alloc)?,
        created: new_rows(alloc, columns, order.as_slice(), t, found)?,
        updated: edited_rows(alloc, columns, order.as_slice(), t, found)?,
        deleted: gone_ids(alloc, t, found)?,
    })
}

/// What is told of one table.
fn table_told(
    alloc: Global,
    table: &TableSchema,
    rows: &ServerTable,
    t: u64,
) -> Result<TableChanges, AllocError>
    requires { IsKept rows.now }
    ensures { IfOk result (λ told. told ≡ table_told t table.now (rows_in rows.now)) }
{
    let found = touched_after(alloc, rows, t)?;
    lists_told(alloc, table, t, found.as_slice())
}

/// The same of the table at a place.
fn told_at(
    alloc: Global,
    schema: &AppSchema,
    tables: &[ServerTable],
    t: u64,
    i: usize,
) -> Result<TableChanges, AllocError>
    requires kept { AreKept tables.now }
    requires declared { length tables.now ≡ length schema.now.tables }
    requires within { i < length schema.now.tables }
    ensures { IfOk result (λ told. told ≡ table_told t (table_at schema.now.tables i) (get_or (tables_rows tables.now) i [])) }
{
    table_told(alloc, declared_at(schema, i), &tables[i], t)
}

/// What is told of the tables at these places.
fn tables_told(
    alloc: Global,
    schema: &AppSchema,
    tables: &[ServerTable],
    t: u64,
    order: &[usize],
) -> Result<List<TableChanges>, AllocError>
    requires kept { AreKept tables.now }
    requires declared { length tables.now ≡ length schema.now.tables }
    requires within { AllByRecursion (λ i. i < length schema.now.tables) order.now }
    ensures { IfOk result (λ told. told ≡ map (λ i. table_told t (table_at schema.now.tables i) (get_or (tables_rows tables.now) i [])) order.now) }
{
    let mut told = List::new(alloc);
    let mut left = order;
    while let Some((i, later)) = left.split_first() {
        told.push(told_at(alloc, schema, tables, t, *i)?)?;
        left = later;
    }
    Ok(told)
}

/// What is told of all tables, ascending by name.
pub(crate) fn changes_told(
    alloc: Global,
    schema: &AppSchema,
    tables: &[ServerTable],
    t: u64,
) -> Result<Changes, AllocError>
    requires kept { AreKept tables.now }
    requires declared { length tables.now ≡ length schema.now.tables }
    ensures { IfOk result (λ changes. changes ≡ changes_told schema.now.tables (tables_rows tables.now) t) }
{
    let order = tables_by_name(alloc, schema)?;
    let tables = tables_told(alloc, schema, tables, t, order.as_slice())?;
    Ok(Changes { tables })
}
