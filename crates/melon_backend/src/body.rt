//! The body that a server row is kept as, and the row that a body is.
ghost use Rattle.std.specs.Prelude.{◌≡◌, ◌++◌, map, IfOk, OnOk, bytes_eq, option_to_list};
ghost use Rattle.serde_json.specs.View.{view};
ghost use Rattle.melon_schema.specs.Json.{each};
ghost use Rattle.melon_schema.specs.Refusals.{Answers};
ghost use Rattle.melon_raw.specs.Decoding.{id_in, cell_in};
ghost use Rattle.melon_backend.specs.Bodies.{revision_data, deletion_data, row_data, body_data, body, rows_data, rows_text, revision_of, revision_at, deletion_of, deletion_at, cells_in, row_in, kept_row};
ghost use Rattle.melon_backend.specs.Inside.{shown, rows_in};

use crate::table::ServerTable;
use melon_log::ServerRow;
use melon_raw::datum::datum_of;
use melon_raw::encoding::put_cells;
use melon_raw::{Datum, Id, IdFault, sanitise};
use melon_schema::reader::{json_of, text_at};
use melon_schema::{ColumnSchema, List, Refusal, TableSchema};
use serde_json::{Map, Value, put};
use std::alloc::{AllocError, Global};
use std::collections::BTreeMap;

// ---- written

fn row_json(alloc: Global, columns: &[ColumnSchema], row: &ServerRow) -> Result<Value, AllocError>
    ensures { IfOk result (λ json. view json ≡ row_data columns.now row.now) }
{
    let id = Value::try_from_str(alloc, row.id.as_str())?;
    let mut members = Map::new(alloc);
    put(&mut members, alloc, "id", id)?;
    put_cells(&mut members, alloc, columns, row.cells.as_slice())?;
    Ok(Value::from(members))
}

fn deletion_json(deleted: Option<u64>) -> Value
    ensures { view result ≡ deletion_data deleted }
{
    match deleted {
        None => Value::from(()),
        Some(revision) => Value::from(revision),
    }
}

fn body_json(alloc: Global, table: &TableSchema, row: &ServerRow) -> Result<Value, AllocError>
    ensures { IfOk result (λ json. view json ≡ body_data table.now.columns row.now) }
{
    let inner = row_json(alloc, table.columns.as_slice(), row)?;
    let mut members = Map::new(alloc);
    put(&mut members, alloc, "changed", Value::from(row.changed))?;
    put(&mut members, alloc, "created", Value::from(row.created))?;
    put(&mut members, alloc, "deleted", deletion_json(row.deleted))?;
    put(&mut members, alloc, "row", inner)?;
    Ok(Value::from(members))
}

/// The body: the row's revisions, and the row, as compact JSON.
#[tactic(auto, unfolding(crate::specs::Bodies::body))]
pub(crate) fn body_of(
    alloc: Global,
    table: &TableSchema,
    row: &ServerRow,
) -> Result<Vec<u8>, AllocError>
    ensures { IfOk result (λ bytes. bytes.items ≡ body table.now row.now) }
{
    let json = body_json(alloc, table, row)?;
    let text = json.to_string(alloc)?;
    let _utf8 = text.as_str();
    Ok(text.into_bytes())
}

fn push_body(
    items: &mut Vec<Value>,
    alloc: Global,
    table: &TableSchema,
    row: &Option<ServerRow>,
) -> Result<(), AllocError>
    ensures { OnOk result (map view items.new.items ≡ map view items.old.items ++ map (body_data table.now.columns) (option_to_list row.now)) }
{
    if let Some(row) = row {
        items.push(body_json(alloc, table, row)?)?;
    }
    Ok(())
}

fn bodies_json(
    alloc: Global,
    table: &TableSchema,
    places: &BTreeMap<String, Option<ServerRow>>,
) -> Result<Value, AllocError>
    ensures { IfOk result (λ json. view json ≡ rows_data table.now.columns (shown places.now.entries)) }
{
    let mut items = Vec::new(alloc);
    for (_, row) in places {
        push_body(&mut items, alloc, table, row)?;
    }
    Ok(Value::from(items))
}

/// The bodies of a table's rows as one array.
#[tactic(auto, unfolding(crate::specs::Bodies::rows_text))]
pub(crate) fn rows_text(
    alloc: Global,
    table: &TableSchema,
    rows: &ServerTable,
) -> Result<Vec<u8>, AllocError>
    ensures { IfOk result (λ bytes. bytes.items ≡ rows_text table.now (rows_in rows.now)) }
{
    let json = bodies_json(alloc, table, &rows.places)?;
    let text = json.to_string(alloc)?;
    let _utf8 = text.as_str();
    Ok(text.into_bytes())
}

// ---- read

fn revision_of(json: &Value) -> Result<u64, Refusal>
    ensures { Answers result (revision_of (view json.now)) }
{
    match json.as_u64() {
        Some(revision) if revision != 0 => Ok(revision),
        _ => Err(Refusal::Form),
    }
}

fn revision_at(json: &Value, key: &str) -> Result<u64, Refusal>
    ensures { Answers result (revision_at key.now (view json.now)) }
{
    match json.get(key) {
        Some(value) => revision_of(value),
        None => Err(Refusal::Form),
    }
}

fn deletion_of(json: &Value) -> Result<Option<u64>, Refusal>
    ensures { Answers result (deletion_of (view json.now)) }
{
    match json {
        Value::Null => Ok(None),
        Value::Number(_) => Ok(Some(revision_of(json)?)),
        Value::Bool(_) => Err(Refusal::Form),
        Value::String(_) => Err(Refusal::Form),
        Value::Array(_) => Err(Refusal::Form),
        Value::Object(_) => Err(Refusal::Form),
    }
}

fn deletion_at(json: &Value, key: &str) -> Result<Option<u64>, Refusal>
    ensures { Answers result (deletion_at key.now (view json.now)) }
{
    match json.get(key) {
        Some(value) => deletion_of(value),
        None => Err(Refusal::Form),
    }
}

fn id_of(alloc: Global, text: &str) -> Result<Id, Refusal>
    ensures { Answers result (id_in text.now) }
{
    match Id::read(alloc, text) {
        Ok(id) => Ok(id),
        Err(IdFault::Bad) => Err(Refusal::Form),
        Err(IdFault::Memory) => Err(Refusal::Memory),
    }
}

fn cell_of(alloc: Global, json: &Value, column: &ColumnSchema) -> Result<Datum, Refusal>
    ensures { Answers result (cell_in (view json.now) column.now) }
{
    match json.get(column.name.as_str()) {
        Some(value) => Ok(sanitise(alloc, column, datum_of(alloc, value)?)),
        None => Err(Refusal::Form),
    }
}

fn each_cell(alloc: Global, json: &Value, columns: &[ColumnSchema]) -> Result<List<Datum>, Refusal>
    ensures { Answers result (each (cell_in (view json.now)) columns.now) }
{
    let mut cells = List::new(alloc);
    for column in columns {
        cells.push(cell_of(alloc, json, column)?)?;
    }
    Ok(cells)
}

fn cells_of(
    alloc: Global,
    json: &Value,
    columns: &[ColumnSchema],
    deleted: Option<u64>,
) -> Result<List<Datum>, Refusal>
    ensures { Answers result (cells_in columns.now deleted (view json.now)) }
{
    match deleted {
        None => each_cell(alloc, json, columns),
        Some(_) => Ok(List::new(alloc)),
    }
}

/// The row whose parts stand in an object.
#[tactic(auto, unfolding(crate::specs::Bodies::row_in))]
fn row_of(alloc: Global, json: &Value, columns: &[ColumnSchema]) -> Result<ServerRow, Refusal>
    ensures { Answers result (row_in columns.now (view json.now)) }
{
    let changed = revision_at(json, "changed")?;
    let created = revision_at(json, "created")?;
    let deleted = deletion_at(json, "deleted")?;
    let inner = json.get("row").ok_or(Refusal::Form)?;
    let text = text_at(alloc, inner, "id")?;
    let id = id_of(alloc, text.as_str())?;
    let cells = cells_of(alloc, inner, columns, deleted)?;
    Ok(ServerRow {
        id,
        created,
        changed,
        deleted,
        cells,
    })
}

fn is_body(
    alloc: Global,
    table: &TableSchema,
    row: &ServerRow,
    bytes: &[u8],
) -> Result<bool, AllocError>
    ensures { IfOk result (λ same. same ≡ bytes_eq (body table.now row.now) bytes.now) }
{
    let written = body_of(alloc, table, row)?;
    Ok(written.as_slice() == bytes)
}

/// The row that the bytes are the body of.
#[tactic(auto, unfolding(crate::specs::Bodies::kept_row))]
pub(crate) fn read_body(
    alloc: Global,
    bytes: &[u8],
    table: &TableSchema,
) -> Result<ServerRow, Refusal>
    ensures { Answers result (kept_row table.now bytes.now) }
{
    let json = json_of(alloc, bytes)?;
    let row = row_of(alloc, &json, table.columns.as_slice())?;
    if is_body(alloc, table, &row, bytes)? {
        return Ok(row);
    }
    Err(Refusal::Form)
}
