//! The values that an operation gives, by the places of their columns.
ghost use Rattle.std.specs.Prelude.{◌≡◌, ◌<◌, length};
ghost use Rattle.melon_schema.specs.Faults.{Gives};
ghost use Rattle.melon_raw.specs.Rows.{column_at};
ghost use Rattle.melon_change.specs.Rules.{unless_column};
ghost use Rattle.melon_change.specs.Batch.{first_name, fields_of, is_long, is_long_field, long_column};
ghost use Rattle.melon_change.specs.declared.rule.Rule.TheVariants.{LongText};

use crate::edit::{is_below, name_at};
use crate::rule::Rule;
use melon_raw::{Datum, OpField};
use melon_schema::{ColumnSchema, Kind, List, TableSchema, Text};
use std::alloc::Global;

/// The first of two names.
fn first_name(best: Option<Text>, name: Text) -> Option<Text>
    ensures { result ≡ first_name best name }
{
    match best {
        None => Some(name),
        Some(best) => {
            if is_below(name.as_str(), best.as_str()) {
                Some(name)
            } else {
                Some(best)
            }
        }
    }
}

/// The given values, by the places of their columns.
pub fn fields_of(
    alloc: Global,
    table: &TableSchema,
    set: List<OpField>,
) -> Result<List<(usize, Datum)>, Rule>
    ensures { Gives Rule.Memory result (fields_of table.now.columns set) }
{
    let mut fields = List::new(alloc);
    let mut unknown = None;
    for OpField { column, value } in set.into_vec() {
        match table.column(column.as_str()) {
            Some(place) => fields.push((place, value))?,
            None => unknown = first_name(unknown, column),
        }
    }
    match unknown {
        None => Ok(fields),
        Some(column) => Err(Rule::UnknownColumn { column }),
    }
}

fn is_long(kind: Kind, value: &Datum) -> bool
    ensures { result ≡ is_long kind value.now }
{
    match (kind, value) {
        (Kind::Words, Datum::Words(text)) => text.as_str().len() > 65536,
        (Kind::Words, _) => false,
        (Kind::Whole, _) => false,
        (Kind::Truth, _) => false,
    }
}

fn is_long_field(columns: &[ColumnSchema], field: &(usize, Datum)) -> bool
    ensures { result ≡ is_long_field columns.now field.now }
{
    match columns.get(field.0) {
        Some(column) => is_long(column.kind, &field.1),
        None => is_long(Kind::Words, &field.1),
    }
}

/// That no column of texts is given a text of more than 65536 bytes.
pub fn are_short(
    alloc: Global,
    columns: &[ColumnSchema],
    fields: &[(usize, Datum)],
) -> Result<(), Rule>
    ensures { Gives Rule.Memory result (unless_column (long_column columns.now fields.now) LongText) }
{
    let mut long = None;
    for field in fields {
        if is_long_field(columns, field) {
            long = first_name(long, Text::new(alloc, name_at(columns, field.0))?);
        }
    }
    match long {
        None => Ok(()),
        Some(column) => Err(Rule::LongText { column }),
    }
}
