ghost use Rattle.std.specs.Prelude.{◌≡◌, IfOk, ◌<◌, length};
ghost use Rattle.serde_json.specs.View.{view};
ghost use Rattle.melon_schema.specs.Refusals.{Answers};
ghost use Rattle.melon_raw.specs.Datum.{in_profile, datum_of, otherwise, kept, fit, datum_eq};

use melon_schema::reader::FromMember;
use melon_schema::{ColumnSchema, Kind, Refusal, Text, Twin};
use serde_json::Value;
use std::alloc::{AllocError, Global};

/// The value of a cell.
#[derive(Debug, Drop)]
pub enum Datum {
    Null,
    Words(Text),
    Whole(i64),
    Truth(bool),
}

/// A value for a column.
#[derive(Debug, Drop)]
pub struct OpField {
    pub column: Text,
    pub value: Datum,
}

fn is_in_profile(number: i64) -> bool
    ensures { result ≡ in_profile number }
{
    number >= -9007199254740991 && number <= 9007199254740991
}

impl Twin for Datum {
    fn copy(&self, alloc: Global) -> Result<Datum, AllocError> {
        match self {
            Datum::Null => Ok(Datum::Null),
            Datum::Words(text) => Ok(Datum::Words(text.copy(alloc)?)),
            Datum::Whole(number) => Ok(Datum::Whole(*number)),
            Datum::Truth(truth) => Ok(Datum::Truth(*truth)),
        }
    }

    fn same(&self, other: &Datum) -> bool {
        match (self, other) {
            (Datum::Null, Datum::Null) => true,
            (Datum::Words(ours), Datum::Words(theirs)) => ours.same(theirs),
            (Datum::Whole(ours), Datum::Whole(theirs)) => *ours == *theirs,
            (Datum::Truth(ours), Datum::Truth(theirs)) => *ours == *theirs,
            _ => false,
        }
    }
}

impl Datum {
    /// Whether it is the same value; null is null alone.
    pub fn is(&self, other: &Datum) -> bool
        ensures { result ≡ datum_eq self.now other.now }
    {
        match (self, other) {
            (Datum::Null, Datum::Null) => true,
            (Datum::Words(ours), Datum::Words(theirs)) => ours.is(theirs.as_str()),
            (Datum::Whole(ours), Datum::Whole(theirs)) => *ours == *theirs,
            (Datum::Truth(ours), Datum::Truth(theirs)) => *ours == *theirs,
            _ => false,
        }
    }
}

impl Twin for OpField {
    fn copy(&self, alloc: Global) -> Result<OpField, AllocError> {
        Ok(OpField {
            column: self.column.copy(alloc)?,
            value: self.value.copy(alloc)?,
        })
    }

    fn same(&self, other: &OpField) -> bool {
        self.column.same(&other.column) && self.value.same(&other.value)
    }
}

/// The value of a cell that the JSON is.
pub fn datum_of(alloc: Global, json: &Value) -> Result<Datum, Refusal>
    ensures { Answers result (datum_of (view json.now)) }
{
    match json {
        Value::Null => Ok(Datum::Null),
        Value::Bool(truth) => Ok(Datum::Truth(*truth)),
        Value::Number(number) => match number.as_i64() {
            Some(number) if is_in_profile(number) => Ok(Datum::Whole(number)),
            _ => Err(Refusal::Form),
        },
        Value::String(text) => Ok(Datum::Words(Text::new(alloc, text.as_str())?)),
        Value::Array(_) | Value::Object(_) => Err(Refusal::Form),
    }
}

fn otherwise(alloc: Global, kind: Kind, optional: bool) -> Datum
    ensures { result ≡ otherwise kind optional }
{
    if optional {
        return Datum::Null;
    }
    match kind {
        Kind::Words => Datum::Words(Text::empty(alloc)),
        Kind::Whole => Datum::Whole(0),
        Kind::Truth => Datum::Truth(false),
    }
}

fn kept(kind: Kind, value: Datum) -> Option<Datum>
    ensures { result ≡ kept kind value }
{
    match (kind, value) {
        (Kind::Words, Datum::Words(text)) => Some(Datum::Words(text)),
        (Kind::Whole, Datum::Whole(number)) if is_in_profile(number) => Some(Datum::Whole(number)),
        (Kind::Truth, Datum::Truth(truth)) => Some(Datum::Truth(truth)),
        (Kind::Truth, Datum::Whole(1)) => Some(Datum::Truth(true)),
        (Kind::Truth, Datum::Whole(0)) => Some(Datum::Truth(false)),
        _ => None,
    }
}

/// What a column holds after it was given a value.
pub fn sanitise(alloc: Global, column: &ColumnSchema, value: Datum) -> Datum
    ensures { result ≡ fit column.now value }
{
    match kept(column.kind, value) {
        Some(value) => value,
        None => otherwise(alloc, column.kind, column.optional),
    }
}

impl FromMember for OpField {
    ghost use Rattle.melon_raw.specs.Fields.{field_given};

    ghost member_form = { field_given };

    fn from_member(alloc: Global, key: &str, json: &Value) -> Result<OpField, Refusal> {
        let value = datum_of(alloc, json)?;
        let column = Text::new(alloc, key)?;
        Ok(OpField { column, value })
    }
}
