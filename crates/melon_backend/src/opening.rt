//! The rows and values that are kept, read under a schema.
ghost use Rattle.std.specs.Prelude.{◌≡◌, ◌<◌, ◌+◌, ◌++◌, [], length, get_or, IfOk, IfErr, OnOk, MatchResult, option_and_then, Ok, Err};
ghost use Rattle.std.specs.Option.{option_copied};
ghost use Rattle.melon_schema.specs.Refusals.{Answers};
ghost use Rattle.melon_schema.specs.Faults.{Gives, Fails, or_fault};
ghost use Rattle.melon_raw.specs.Rows.{table_at};
ghost use Rattle.melon_outside.specs.declared.kept.OpenFault.TheVariants.{BadRow};
ghost use Rattle.melon_log.specs.ServerRows.{at_id};
ghost use Rattle.melon_backend.specs.Bodies.{kept_row, row_bytes};
ghost use Rattle.melon_backend.specs.Rows.{with_put, live_one, weight_of};
ghost use Rattle.melon_backend.specs.Inside.{tables_rows, AreKept};
ghost use Rattle.melon_backend.specs.Backends.{with_id, row_kept, row_opened, no_rows, rows_opened, value_in, same_version, unless_kept, missing_values, batch_if_any};
ghost use Rattle.melon_backend.specs.Opened.{IsOpenedSoFar, HasBytes, IsOfKept};

use crate::body::{body_of, read_body};
use crate::cells::is_live;
use crate::order::declared_at;
use crate::put::Put;
use crate::table::ServerTable;
use melon_log::ServerRow;
use melon_outside::{KeptBatch, KeptRow, KeptValue, OpenFault};
use melon_raw::Id;
use melon_schema::{AppSchema, List, Refusal, TableSchema, Text, Twin};
use std::alloc::{AllocError, Global};

/// Tables with the rows that were read so far, the bytes of their bodies, and how many of them are live.
#[derive(Drop)]
pub(crate) struct Opened {
    pub(crate) tables: Vec<ServerTable>,
    pub(crate) stored: u64,
    pub(crate) live: u64,
}

/// The sum. One past the end of its type is answered as want of memory.
pub(crate) fn sum(total: u64, more: u64) -> Result<u64, AllocError>
    ensures { IfOk result (λ s. s ≡ total + more) }
{
    match total.checked_add(more) {
        Some(sum) => Ok(sum),
        None => Err(AllocError),
    }
}

pub(crate) fn size_of(
    alloc: Global,
    table: &TableSchema,
    row: Option<&ServerRow>,
) -> Result<u64, AllocError>
    ensures { IfOk result (λ size. size ≡ weight_of (row_bytes table.now) (option_copied row.entry)) }
{
    match row {
        Some(row) => Ok(body_of(alloc, table, row)?.len() as u64),
        None => Ok(0),
    }
}

pub(crate) fn one_if_live(row: Option<&ServerRow>) -> u64
    ensures { result ≡ weight_of live_one (option_copied row.entry) }
{
    match row {
        Some(row) => u64::from(is_live(row)),
        None => 0,
    }
}

/// The row of a table whose body is kept so, under its id.
fn decoded(alloc: Global, table: &TableSchema, kept: &KeptRow) -> Result<ServerRow, Refusal>
    ensures answer { Answers result (option_and_then (with_id kept.now.id) (kept_row table.now kept.now.body)) }
    ensures size { IfOk result (λ row. row_bytes table.now row ≡ length kept.now.body) }
{
    let row = read_body(alloc, kept.body.as_slice(), table)?;
    if row.id.as_str() == kept.id.as_str() {
        return Ok(row);
    }
    Err(Refusal::Form)
}

/// The table's place and the row that is kept so.
fn found(alloc: Global, schema: &AppSchema, kept: &KeptRow) -> Result<Put, Refusal>
    ensures answer { Answers result (row_kept schema.now.tables kept.now) }
    ensures within { IfOk result (λ p. p.table < length schema.now.tables) }
    ensures size { IfOk result (HasBytes schema.now.tables kept.now) }
{
    let table = schema.table(kept.table.as_str()).ok_or(Refusal::Form)?;
    let row = decoded(alloc, declared_at(schema, table), kept)?;
    Ok(Put { table, row })
}

fn bad_row(alloc: Global, kept: &KeptRow) -> Result<OpenFault, AllocError>
    ensures { IfOk result (λ fault. fault ≡ BadRow kept.now.table kept.now.id) }
{
    Ok(OpenFault::BadRow {
        table: kept.table.copy(alloc)?,
        id: kept.id.copy(alloc)?,
    })
}

/// The same, or the fault of a row that is none.
fn row_or_bad(alloc: Global, schema: &AppSchema, kept: &KeptRow) -> Result<Put, OpenFault>
    ensures answer { Gives OpenFault.Memory result (or_fault (row_kept schema.now.tables kept.now) (BadRow kept.now.table kept.now.id)) }
    ensures within { IfOk result (λ p. p.table < length schema.now.tables) }
    ensures size { IfOk result (HasBytes schema.now.tables kept.now) }
    ensures fault { IfErr result IsOfKept }
{
    match found(alloc, schema, kept) {
        Ok(found) => Ok(found),
        Err(Refusal::Form) => Err(bad_row(alloc, kept)?),
        Err(Refusal::Memory) => Err(OpenFault::Memory),
    }
}

/// Puts a row into its table, for which room is made first.
fn put_now(tables: &mut Vec<ServerTable>, alloc: Global, put: Put) -> Result<(), AllocError>
    requires kept { AreKept tables.old.items }
    requires within { put.table < length tables.old.items }
    ensures kept { AreKept tables.new.items }
    ensures long { length tables.new.items ≡ length tables.old.items }
    ensures rows { OnOk result (tables_rows tables.new.items ≡ with_put (tables_rows tables.old.items) put) }
{
    let Put { table, row } = put;
    let place = &mut tables[table];
    place.ready(alloc, &row)?;
    place.put(row);
    Ok(())
}

/// The row now of a record.
pub(crate) fn row_now<'a>(tables: &'a [ServerTable], table: usize, id: &Id) -> Option<&'a ServerRow>
    requires kept { AreKept tables.now }
    requires within { table < length tables.now }
    ensures { option_copied result ≡ at_id id.now (get_or (tables_rows tables.now) table []) }
{
    tables[table].get(id)
}

/// One row more, which was found under what is kept.
fn put_opened(
    opened: &mut Opened,
    alloc: Global,
    schema: &AppSchema,
    kept: &KeptRow,
    put: Put,
) -> Result<(), AllocError>
    requires within { put.table < length schema.now.tables }
    requires size { HasBytes schema.now.tables kept.now put }
    requires so_far { IsOpenedSoFar schema.now.tables opened.old }
    ensures rows { OnOk result (tables_rows opened.new.tables.items ≡ with_put (tables_rows opened.old.tables.items) put) }
    ensures so_far { OnOk result (IsOpenedSoFar schema.now.tables opened.new) }
{
    let was = row_now(opened.tables.as_slice(), put.table, &put.row.id);
    let gone = size_of(alloc, declared_at(schema, put.table), was)?;
    let dead = one_if_live(was);
    let stored = sum(opened.stored, kept.body.len() as u64)?;
    let live = sum(opened.live, one_if_live(Some(&put.row)))?;
    put_now(&mut opened.tables, alloc, put)?;
    opened.stored = stored - gone;
    opened.live = live - dead;
    Ok(())
}

/// One kept row more.
fn open_row(
    opened: &mut Opened,
    alloc: Global,
    schema: &AppSchema,
    kept: &KeptRow,
) -> Result<(), OpenFault>
    requires { IsOpenedSoFar schema.now.tables opened.old }
    ensures rows { MatchResult result (λ _. row_opened schema.now.tables (tables_rows opened.old.tables.items) kept.now ≡ Ok (tables_rows opened.new.tables.items)) (λ f. Fails OpenFault.Memory f (row_opened schema.now.tables (tables_rows opened.old.tables.items) kept.now)) }
    ensures so_far { OnOk result (IsOpenedSoFar schema.now.tables opened.new) }
    ensures fault { IfErr result IsOfKept }
{
    let found = row_or_bad(alloc, schema, kept)?;
    put_opened(opened, alloc, schema, kept, found)?;
    Ok(())
}

fn no_tables(alloc: Global, schema: &AppSchema) -> Result<Vec<ServerTable>, AllocError>
    ensures kept { IfOk result (λ tables. AreKept tables.items) }
    ensures rows { IfOk result (λ tables. tables_rows tables.items ≡ no_rows schema.now.tables) }
{
    let mut tables = Vec::with_capacity(alloc, schema.len())?;
    while tables.len() < schema.len() {
        tables.push(ServerTable::new(alloc))?;
    }
    Ok(tables)
}

fn none_opened(alloc: Global, schema: &AppSchema) -> Result<Opened, AllocError>
    ensures rows { IfOk result (λ o. tables_rows o.tables.items ≡ no_rows schema.now.tables) }
    ensures so_far { IfOk result (IsOpenedSoFar schema.now.tables) }
{
    Ok(Opened {
        tables: no_tables(alloc, schema)?,
        stored: 0,
        live: 0,
    })
}

/// All rows that are kept.
pub(crate) fn open_rows(
    alloc: Global,
    schema: &AppSchema,
    rows: &[KeptRow],
) -> Result<Opened, OpenFault>
    ensures rows { MatchResult result (λ o. rows_opened schema.now.tables rows.now ≡ Ok (tables_rows o.tables.items)) (λ f. Fails OpenFault.Memory f (rows_opened schema.now.tables rows.now)) }
    ensures so_far { IfOk result (IsOpenedSoFar schema.now.tables) }
    ensures fault { IfErr result IsOfKept }
{
    let mut opened = none_opened(alloc, schema)?;
    let mut left = rows;
    while let Some((kept, later)) = left.split_first() {
        open_row(&mut opened, alloc, schema, kept)?;
        left = later;
    }
    Ok(opened)
}

/// The value that is kept under a name.
pub(crate) fn value_in(values: &[KeptValue], name: &str) -> Option<u64>
    ensures { result ≡ value_in name.now values.now }
{
    for value in values {
        if value.name.is(name) {
            return Some(value.number);
        }
    }
    None
}

/// The version that is kept is this one, where one is kept.
pub(crate) fn same_version(stored: Option<u64>, version: u64) -> Result<(), OpenFault>
    ensures same { MatchResult result (λ _. same_version stored version ≡ Ok tt) (λ f. same_version stored version ≡ Err f) }
    ensures fault { IfErr result IsOfKept }
{
    match stored {
        None => Ok(()),
        Some(stored) => {
            if stored == version {
                return Ok(());
            }
            Err(OpenFault::Version { stored })
        }
    }
}

fn push_missing(
    missing: &mut List<KeptValue>,
    alloc: Global,
    name: &str,
    number: u64,
    kept: Option<u64>,
) -> Result<(), AllocError>
    ensures { OnOk result (missing.new ≡ missing.old ++ unless_kept name.now number kept) }
{
    if kept.is_none() {
        missing.push(KeptValue {
            name: Text::new(alloc, name)?,
            number,
        })?;
    }
    Ok(())
}

/// The values that have no value yet.
pub(crate) fn missing_values(
    alloc: Global,
    version: u64,
    values: &[KeptValue],
) -> Result<List<KeptValue>, AllocError>
    ensures { IfOk result (λ missing. missing ≡ missing_values version values.now) }
{
    let mut missing = List::new(alloc);
    let kept_revision = value_in(values, "revision");
    push_missing(&mut missing, alloc, "revision", 1, kept_revision)?;
    let kept_version = value_in(values, "schema_version");
    push_missing(&mut missing, alloc, "schema_version", version, kept_version)?;
    Ok(missing)
}

/// What the keeper is asked for these values, if there are any.
pub(crate) fn batch_if_any(alloc: Global, values: List<KeptValue>) -> Option<KeptBatch>
    ensures { result ≡ batch_if_any values }
{
    if values.is_empty() {
        return None;
    }
    Some(KeptBatch {
        clear: false,
        removes: List::new(alloc),
        puts: List::new(alloc),
        values,
    })
}
