//! The bytes that a row is kept as.
ghost use Rattle.std.specs.Prelude.{◌≡◌, IfOk, OnOk, string_bytes};
ghost use Rattle.std.specs.Str.{IsUtf8};
ghost use Rattle.serde_json.specs.View.{view, members_view};
ghost use Rattle.melon_raw.specs.Rows.{column_at};
ghost use Rattle.melon_raw.specs.Encoding.{status_word, marks_text, datum_data, with_cells, row_data, encoding};

use crate::{Datum, Raw, Status};
use melon_schema::{ColumnSchema, TableSchema};
use serde_json::{Map, Value, put};
use std::alloc::{AllocError, Global};

impl Status {
    /// Its word in stored and printed rows.
    pub fn word(self) -> &'static str
        ensures { result.now ≡ status_word self }
    {
        match self {
            Status::Created => "created",
            Status::Updated => "updated",
            Status::Deleted => "deleted",
            Status::Synced => "synced",
        }
    }
}

impl Datum {
    /// The value as JSON: null, a text, a number or a truth value.
    pub fn to_json(&self, alloc: Global) -> Result<Value, AllocError>
        ensures { IfOk result (λ v. view v ≡ datum_data self.now) }
    {
        match self {
            Datum::Null => Ok(Value::from(())),
            Datum::Words(text) => Ok(Value::try_from_str(alloc, text.as_str())?),
            Datum::Whole(number) => Ok(Value::from(*number)),
            Datum::Truth(truth) => Ok(Value::from(*truth)),
        }
    }
}

fn name_at(columns: &[ColumnSchema], place: usize) -> &str
    ensures { result.now ≡ (column_at columns.now place).name }
{
    match columns.get(place) {
        Some(column) => column.name.as_str(),
        None => "",
    }
}

/// The names of the columns at these places, joined by commas.
pub fn marks_text(
    alloc: Global,
    columns: &[ColumnSchema],
    marks: &[usize],
) -> Result<String, AllocError>
    ensures { IfOk result (λ text. string_bytes text ≡ marks_text columns.now marks.now) }
{
    let Some((first, more)) = marks.split_first() else {
        return Ok(String::new(alloc));
    };
    let mut text = String::from_str(alloc, name_at(columns, *first))?;
    for place in more {
        text.push_str(",")?;
        text.push_str(name_at(columns, *place))?;
    }
    Ok(text)
}

/// Puts each cell under its column's name.
pub fn put_cells(
    members: &mut Map<String, Value>,
    alloc: Global,
    columns: &[ColumnSchema],
    cells: &[Datum],
) -> Result<(), AllocError>
    ensures { OnOk result (members_view members.new.entries ≡ with_cells columns.now cells.now (members_view members.old.entries)) }
{
    for (column, cell) in columns.iter().zip(cells) {
        put(members, alloc, column.name.as_str(), cell.to_json(alloc)?)?;
    }
    Ok(())
}

impl Raw {
    /// The row as an object: `_changed`, `_status`, `id` and every declared column.
    pub fn to_json(&self, alloc: Global, table: &TableSchema) -> Result<Value, AllocError>
        ensures { IfOk result (λ v. view v ≡ row_data table.now.columns self.now) }
    {
        let columns = table.columns.as_slice();
        let marks = marks_text(alloc, columns, self.marks.as_slice())?;
        let mut members = Map::new(alloc);
        put(&mut members, alloc, "_changed", Value::from(marks))?;
        put(
            &mut members,
            alloc,
            "_status",
            Value::try_from_str(alloc, self.status.word())?,
        )?;
        put(
            &mut members,
            alloc,
            "id",
            Value::try_from_str(alloc, self.id.as_str())?,
        )?;
        put_cells(&mut members, alloc, columns, self.cells.as_slice())?;
        Ok(Value::from(members))
    }

    /// The bytes it is kept as: the compact text of its object.
    #[tactic(auto, unfolding(crate::specs::Encoding::encoding))]
    pub fn encode(&self, alloc: Global, table: &TableSchema) -> Result<Vec<u8>, AllocError>
        ensures bytes { IfOk result (λ bytes. bytes.items ≡ encoding table.now self.now) }
        ensures text { IfOk result (λ bytes. IsUtf8 bytes.items) }
    {
        let json = self.to_json(alloc, table)?;
        let text = json.to_string(alloc)?;
        let _utf8 = text.as_str();
        Ok(text.into_bytes())
    }
}
