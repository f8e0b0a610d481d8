//! The row that bytes are.
ghost use Rattle.std.specs.Prelude.{◌≡◌, ◌<◌, [], ◌∷◌, length, bytes_eq, IfOk, MatchOption};
ghost use Rattle.serde_json.specs.View.{view};
ghost use Rattle.melon_schema.specs.Json.{each};
ghost use Rattle.melon_schema.specs.Refusals.{Answers};
ghost use Rattle.melon_schema.specs.Places.{column_named};
ghost use Rattle.melon_schema.specs.Sound.{AreSound};
ghost use Rattle.melon_schema.specs.declared.schema.TableSchema.{TableSchema};
ghost use Rattle.melon_raw.specs.declared.raw.Raw.{Raw};
ghost use Rattle.melon_raw.specs.Rows.{Fits};
ghost use Rattle.melon_raw.specs.Encoding.{encoding};
ghost use Rattle.melon_raw.specs.Decoding.{status_named, pieces, marked_once, marks_named, marks_in, id_in, cell_in, row_in, if_encoded, kept_row, IsNoRow, IsRowOf};

use crate::datum::datum_of;
use crate::{Datum, Id, IdFault, Marks, Raw, Status, sanitise};
use melon_schema::reader::{json_of, text_at};
use melon_schema::{ColumnSchema, List, Refusal, TableSchema};
use serde_json::Value;
use std::alloc::{AllocError, Global};

fn status_named(word: &str) -> Result<Status, Refusal>
    ensures { Answers result (status_named word.now) }
{
    match word {
        "created" => Ok(Status::Created),
        "updated" => Ok(Status::Updated),
        "deleted" => Ok(Status::Deleted),
        "synced" => Ok(Status::Synced),
        _ => Err(Refusal::Form),
    }
}

fn id_of(alloc: Global, text: &str) -> Result<Id, Refusal>
    ensures { Answers result (id_in text.now) }
{
    match Id::read(alloc, text) {
        Ok(id) => Ok(id),
        Err(IdFault::Bad) => Err(Refusal::Form),
        Err(IdFault::Memory) => Err(Refusal::Memory),
    }
}

fn column_of(table: &TableSchema, name: &str) -> Result<usize, Refusal>
    ensures { Answers result (column_named name.now table.now.columns) }
{
    match table.column(name) {
        Some(column) => Ok(column),
        None => Err(Refusal::Form),
    }
}

/// What stands before the first comma, and after it.
fn cut(text: &str) -> Option<(&str, &str)>
    ensures { MatchOption result (pieces text.now ≡ text.now ∷ []) (λ parts. (pieces text.now ≡ parts.0.now ∷ pieces parts.1.now) × (length parts.1.now < length text.now)) }
{
    text.split_once(',')
}

fn mark_once(mut marks: Marks, column: usize) -> Result<Marks, Refusal>
    ensures { Answers result (marked_once column marks) }
{
    if marks.has(column) {
        return Err(Refusal::Form);
    }
    marks.push(column)?;
    Ok(marks)
}

fn marks_named(alloc: Global, table: &TableSchema, text: &str) -> Result<Marks, Refusal>
    ensures { Answers result (marks_named table.now.columns [] (pieces text.now)) }
{
    let mut marks = Marks::new(alloc);
    let mut left = text;
    while let Some((name, later)) = cut(left) {
        marks = mark_once(marks, column_of(table, name)?)?;
        left = later;
    }
    mark_once(marks, column_of(table, left)?)
}

fn marks_of(alloc: Global, table: &TableSchema, text: &str) -> Result<Marks, Refusal>
    ensures { Answers result (marks_in table.now.columns text.now) }
{
    if text.is_empty() {
        return Ok(Marks::new(alloc));
    }
    marks_named(alloc, table, text)
}

fn cell_of(alloc: Global, json: &Value, column: &ColumnSchema) -> Result<Datum, Refusal>
    ensures { Answers result (cell_in (view json.now) column.now) }
{
    match json.get(column.name.as_str()) {
        Some(value) => Ok(sanitise(alloc, column, datum_of(alloc, value)?)),
        None => Err(Refusal::Form),
    }
}

fn cells_of(alloc: Global, json: &Value, columns: &[ColumnSchema]) -> Result<List<Datum>, Refusal>
    ensures { Answers result (each (cell_in (view json.now)) columns.now) }
{
    let mut cells = List::new(alloc);
    for column in columns {
        cells.push(cell_of(alloc, json, column)?)?;
    }
    Ok(cells)
}

/// The row whose parts stand in an object.
#[tactic(auto, unfolding(crate::specs::Decoding::row_in))]
fn row_of(alloc: Global, json: &Value, table: &TableSchema) -> Result<Raw, Refusal>
    ensures { Answers result (row_in table.now.columns (view json.now)) }
{
    let text = text_at(alloc, json, "id")?;
    let id = id_of(alloc, text.as_str())?;
    let word = text_at(alloc, json, "_status")?;
    let status = status_named(word.as_str())?;
    let names = text_at(alloc, json, "_changed")?;
    let marks = marks_of(alloc, table, names.as_str())?;
    let cells = cells_of(alloc, json, table.columns.as_slice())?;
    Ok(Raw {
        id,
        status,
        marks,
        cells,
    })
}

fn is_encoded(
    alloc: Global,
    table: &TableSchema,
    row: &Raw,
    bytes: &[u8],
) -> Result<bool, AllocError>
    ensures { IfOk result (λ same. same ≡ bytes_eq (encoding table.now row.now) bytes.now) }
{
    let written = row.encode(alloc, table)?;
    Ok(written.as_slice() == bytes)
}

#[tactic(auto, unfolding(crate::specs::Decoding::kept_row))]
fn kept_row(alloc: Global, bytes: &[u8], table: &TableSchema) -> Result<Raw, Refusal>
    ensures { Answers result (kept_row table.now bytes.now) }
{
    let json = json_of(alloc, bytes)?;
    let row = row_of(alloc, &json, table)?;
    if is_encoded(alloc, table, &row, bytes)? {
        return Ok(row);
    }
    Err(Refusal::Form)
}

impl Raw {
    /// The row that the bytes are the encoding of, or none. Where the columns are those of a schema that was read,
    /// each row that fits them is found.
    pub fn decode(
        alloc: Global,
        bytes: &[u8],
        table: &TableSchema,
    ) -> Result<Option<Raw>, AllocError>
        ensures is { IfOk result (λ found. found ≡ kept_row table.now bytes.now) }
        ensures exact { IfOk result (λ found. MatchOption found (IsNoRow table.now bytes.now) (IsRowOf table.now bytes.now)) }
    {
        match kept_row(alloc, bytes, table) {
            Ok(row) => Ok(Some(row)),
            Err(Refusal::Form) => Ok(None),
            Err(Refusal::Memory) => Err(AllocError),
        }
    }
}

/// Rows that fit have one encoding each.
pub fn encoding_is_unique()
    ensures { (table : TableSchema) (row other : Raw) → AreSound table.columns → Fits table.columns row → Fits table.columns other → encoding table row ≡ encoding table other → row ≡ other }
{}
