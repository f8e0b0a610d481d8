//! The rows and values that are kept, read under a schema.
ghost use Rattle.std.specs.Prelude.{◌≡◌, ◌<◌, ◌++◌, [], length, get_or, set, drop, IfOk, IfErr, OnOk, MatchResult, option_and_then, Ok, Err};
ghost use Rattle.melon_schema.specs.Refusals.{Answers};
ghost use Rattle.melon_schema.specs.Faults.{Gives, Fails, or_fault};
ghost use Rattle.melon_raw.specs.Rows.{Fits, table_at, at_id, put_row};
ghost use Rattle.melon_raw.specs.Decoding.{kept_row, IsRowOf};
ghost use Rattle.melon_table.specs.Seen.{rows_of, columns_of};
ghost use Rattle.melon_outside.specs.declared.kept.OpenFault.TheVariants.{BadRow};
ghost use Rattle.melon_board.specs.Opening.{with_id, row_kept, with_row, row_opened, no_rows, rows_opened, value_in, same_version, unless_kept, missing_values, batch_if_any};
ghost use Rattle.melon_board.specs.Opened.{IsLaidOut, IsOfKept, row_is};

use crate::draft::{declared_at, size_of, sum};
use melon_outside::{KeptBatch, KeptRow, KeptValue, OpenFault};
use melon_raw::Raw;
use melon_schema::{AppSchema, List, Refusal, TableSchema, Text, Twin};
use melon_table::Tables;
use std::alloc::{AllocError, Global};

/// Tables with the rows that were read so far, and the bytes of these rows.
#[derive(Debug, Drop)]
pub struct Opened {
    pub tables: Tables,
    pub stored: u64,
}

/// The row that the bytes are the encoding of.
fn read_row(alloc: Global, bytes: &[u8], table: &TableSchema) -> Result<Raw, Refusal>
    ensures { Answers result (kept_row table.now bytes.now) }
{
    match Raw::decode(alloc, bytes, table)? {
        Some(row) => Ok(row),
        None => Err(Refusal::Form),
    }
}

/// The row of a table whose encoding is kept so, under its id.
fn decoded(alloc: Global, table: &TableSchema, kept: &KeptRow) -> Result<Raw, Refusal>
    ensures answer { Answers result (option_and_then (with_id kept.now.id) (kept_row table.now kept.now.body)) }
    ensures row { IfOk result (λ row. IsRowOf table.now kept.now.body row) }
{
    let row = read_row(alloc, kept.body.as_slice(), table)?;
    if row.id.as_str() == kept.id.as_str() {
        return Ok(row);
    }
    Err(Refusal::Form)
}

/// The table's place and the row that is kept so.
fn found(alloc: Global, schema: &AppSchema, kept: &KeptRow) -> Result<(usize, Raw), Refusal>
    ensures answer { Answers result (row_kept schema.now.tables kept.now) }
    ensures within { IfOk result (λ f. f.0 < length schema.now.tables) }
    ensures row { IfOk result (λ f. row_is schema.now.tables kept.now f) }
{
    let place = schema.table(kept.table.as_str()).ok_or(Refusal::Form)?;
    let row = decoded(alloc, declared_at(schema, place), kept)?;
    Ok((place, row))
}

fn bad_row(alloc: Global, kept: &KeptRow) -> Result<OpenFault, AllocError>
    ensures { IfOk result (λ fault. fault ≡ BadRow kept.now.table kept.now.id) }
{
    Ok(OpenFault::BadRow {
        table: kept.table.copy(alloc)?,
        id: kept.id.copy(alloc)?,
    })
}

/// The same, or the fault of a row that is none.
fn row_or_bad(alloc: Global, schema: &AppSchema, kept: &KeptRow) -> Result<(usize, Raw), OpenFault>
    ensures answer { Gives OpenFault.Memory result (or_fault (row_kept schema.now.tables kept.now) (BadRow kept.now.table kept.now.id)) }
    ensures within { IfOk result (λ f. f.0 < length schema.now.tables) }
    ensures row { IfOk result (λ f. row_is schema.now.tables kept.now f) }
    ensures fault { IfErr result IsOfKept }
{
    match found(alloc, schema, kept) {
        Ok(found) => Ok(found),
        Err(Refusal::Form) => Err(bad_row(alloc, kept)?),
        Err(Refusal::Memory) => Err(OpenFault::Memory),
    }
}

/// Puts a row into its table, for which room is made first.
fn put_row(tables: &mut Tables, table: usize, row: Raw) -> Result<Option<Raw>, AllocError>
    requires within { table < length tables.old }
    requires fits { Fits (get_or (columns_of tables.old) table []) row }
    ensures was { IfOk result (λ was. was ≡ at_id row.id (get_or (rows_of tables.old) table [])) }
    ensures rows { OnOk result (rows_of tables.new ≡ set (rows_of tables.old) table (put_row row (get_or (rows_of tables.old) table []))) }
    ensures columns { columns_of tables.new ≡ columns_of tables.old }
{
    let place = tables.of_mut(table);
    place.room(1)?;
    Ok(place.put(row))
}

/// One row more, which was found under what is kept.
fn put_opened(
    opened: &mut Opened,
    alloc: Global,
    schema: &AppSchema,
    kept: &KeptRow,
    found: (usize, Raw),
) -> Result<(), AllocError>
    requires within { found.0 < length schema.now.tables }
    requires row { row_is schema.now.tables kept.now found }
    requires so_far { IsLaidOut schema.now.tables opened.old }
    ensures rows { OnOk result (rows_of opened.new.tables ≡ with_row (rows_of opened.old.tables) found) }
    ensures so_far { OnOk result (IsLaidOut schema.now.tables opened.new) }
{
    let (table, row) = found;
    let total = sum(opened.stored, kept.body.len() as u64)?;
    let replaced = put_row(&mut opened.tables, table, row)?;
    let gone = size_of(alloc, declared_at(schema, table), &replaced)?;
    opened.stored = total - gone;
    Ok(())
}

/// One kept row more.
fn open_row(
    opened: &mut Opened,
    alloc: Global,
    schema: &AppSchema,
    kept: &KeptRow,
) -> Result<(), OpenFault>
    requires { IsLaidOut schema.now.tables opened.old }
    ensures rows { MatchResult result (λ _. row_opened schema.now.tables (rows_of opened.old.tables) kept.now ≡ Ok (rows_of opened.new.tables)) (λ f. Fails OpenFault.Memory f (row_opened schema.now.tables (rows_of opened.old.tables) kept.now)) }
    ensures so_far { OnOk result (IsLaidOut schema.now.tables opened.new) }
    ensures fault { IfErr result IsOfKept }
{
    let found = row_or_bad(alloc, schema, kept)?;
    put_opened(opened, alloc, schema, kept, found)?;
    Ok(())
}

fn none_opened(alloc: Global, schema: &AppSchema) -> Result<Opened, AllocError>
    ensures rows { IfOk result (λ o. rows_of o.tables ≡ no_rows schema.now.tables) }
    ensures so_far { IfOk result (IsLaidOut schema.now.tables) }
{
    Ok(Opened {
        tables: Tables::new(alloc, schema)?,
        stored: 0,
    })
}

/// All rows that are kept.
pub(crate) fn open_rows(
    alloc: Global,
    schema: &AppSchema,
    rows: &[KeptRow],
) -> Result<Opened, OpenFault>
    ensures rows { MatchResult result (λ o. rows_opened schema.now.tables rows.now ≡ Ok (rows_of o.tables)) (λ f. Fails OpenFault.Memory f (rows_opened schema.now.tables rows.now)) }
    ensures so_far { IfOk result (IsLaidOut schema.now.tables) }
    ensures fault { IfErr result IsOfKept }
{
    let mut opened = none_opened(alloc, schema)?;
    let mut left = rows;
    while let Some((kept, later)) = left.split_first() {
        open_row(&mut opened, alloc, schema, kept)?;
        left = later;
    }
    Ok(opened)
}

/// The value that is kept under a name.
pub(crate) fn value_in(values: &[KeptValue], name: &str) -> Option<u64>
    ensures { result ≡ value_in name.now values.now }
{
    for value in values {
        if value.name.is(name) {
            return Some(value.number);
        }
    }
    None
}

/// The version that is kept is this one, where one is kept.
pub(crate) fn same_version(stored: Option<u64>, version: u64) -> Result<(), OpenFault>
    ensures same { MatchResult result (λ _. same_version stored version ≡ Ok tt) (λ f. same_version stored version ≡ Err f) }
    ensures fault { IfErr result IsOfKept }
{
    match stored {
        None => Ok(()),
        Some(stored) => {
            if stored == version {
                return Ok(());
            }
            Err(OpenFault::Version { stored })
        }
    }
}

fn push_missing(
    missing: &mut List<KeptValue>,
    alloc: Global,
    name: &str,
    number: u64,
    kept: Option<u64>,
) -> Result<(), AllocError>
    ensures { OnOk result (missing.new ≡ missing.old ++ unless_kept name.now number kept) }
{
    if kept.is_none() {
        missing.push(KeptValue {
            name: Text::new(alloc, name)?,
            number,
        })?;
    }
    Ok(())
}

/// The values that have no value yet.
pub(crate) fn missing_values(
    alloc: Global,
    version: u64,
    values: &[KeptValue],
) -> Result<List<KeptValue>, AllocError>
    ensures { IfOk result (λ missing. missing ≡ missing_values version values.now) }
{
    let mut missing = List::new(alloc);
    let last = value_in(values, "last_pulled_at");
    push_missing(&mut missing, alloc, "last_pulled_at", 0, last)?;
    let kept = value_in(values, "schema_version");
    push_missing(&mut missing, alloc, "schema_version", version, kept)?;
    Ok(missing)
}

/// What the keeper is asked for these values, if there are any.
pub(crate) fn batch_if_any(alloc: Global, values: List<KeptValue>) -> Option<KeptBatch>
    ensures { result ≡ batch_if_any values }
{
    if values.is_empty() {
        return None;
    }
    Some(KeptBatch {
        clear: false,
        removes: List::new(alloc),
        puts: List::new(alloc),
        values,
    })
}
