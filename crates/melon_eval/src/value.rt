//! Values of columns, read where they stand, and how they compare.
ghost use Rattle.std.specs.Prelude.{◌≡◌, get_or};
ghost use Rattle.melon_raw.specs.declared.datum.Datum.TheVariants as datum;
ghost use Rattle.melon_query.specs.Values.{value_at, value_cmp};
ghost use Rattle.melon_eval.specs.Seen.{datum_of};

use melon_query::Col;
use melon_raw::{Datum, Raw};
use std::cmp::Ordering;

/// A value of a column, read where it stands.
#[derive(Clone, Copy, Debug, Drop)]
pub enum Value<'a> {
    Null,
    Words(&'a str),
    Whole(i64),
    Truth(bool),
}

pub fn value_of(datum: &Datum) -> Value<'_>
    ensures { datum_of result ≡ datum.now }
{
    match datum {
        Datum::Null => Value::Null,
        Datum::Words(text) => Value::Words(text.as_str()),
        Datum::Whole(number) => Value::Whole(*number),
        Datum::Truth(truth) => Value::Truth(*truth),
    }
}

/// The value of a cell; a place past the end is null.
fn cell_at(cells: &[Datum], place: usize) -> Value<'_>
    ensures { datum_of result ≡ get_or cells.now place datum.Null }
{
    if place < cells.len() {
        value_of(&cells[place])
    } else {
        Value::Null
    }
}

/// The value of a column of a row.
pub fn value_at(column: Col, row: &Raw) -> Value<'_>
    ensures { datum_of result ≡ value_at column row.now }
{
    match column {
        Col::Id => Value::Words(row.id.as_str()),
        Col::Cell(place) => cell_at(row.cells.as_slice(), place),
    }
}

impl Value<'_> {
    /// Null first, numbers by value, texts by their bytes, false before true.
    pub fn compare(self, other: Value<'_>) -> Ordering
        ensures { result ≡ value_cmp (datum_of self.entry) (datum_of other.entry) }
    {
        match (self, other) {
            (Value::Null, Value::Null) => Ordering::Equal,
            (Value::Null, _) => Ordering::Less,
            (_, Value::Null) => Ordering::Greater,
            (Value::Words(a), Value::Words(b)) => a.cmp(b),
            (Value::Words(_), _) => Ordering::Less,
            (_, Value::Words(_)) => Ordering::Greater,
            (Value::Whole(a), Value::Whole(b)) => a.cmp(&b),
            (Value::Whole(_), Value::Truth(_)) => Ordering::Less,
            (Value::Truth(_), Value::Whole(_)) => Ordering::Greater,
            (Value::Truth(a), Value::Truth(b)) => a.cmp(&b),
        }
    }
}
