//! Why what is listed is refused.
ghost use Rattle.std.specs.Prelude.{◌≡◌, ◌<◌, length, find, Some, IfOk, option_to_list};
ghost use Rattle.std.specs.List.{All, filter_map};
ghost use Rattle.std.specs.Option.{option_copied};
ghost use Rattle.melon_schema.specs.Faults.{Gives};
ghost use Rattle.melon_change.specs.Batch.{is_long};
ghost use Rattle.melon_wire.specs.Keys.{key_at};
ghost use Rattle.melon_pull.specs.Incoming.{declared_column, is_long_field, unless_any, fields_sent, repeated, long_text};
ghost use Rattle.melon_pull.specs.Listing.{tellings_seen, telling_seen, standing_seen, repeats, long_told};

use crate::PullFault;
use crate::listed::{InList, Listed};
use crate::lookup::declared_at;
use melon_raw::{Datum, Id, OpField};
use melon_schema::{AppSchema, ColumnSchema, Kind, TableSchema, Twin};
use melon_wire::keyed::first_again;
use std::alloc::{AllocError, Global};

// ---- repeated records

fn repeated(
    alloc: Global,
    schema: &AppSchema,
    table: usize,
    id: &Id,
) -> Result<PullFault, AllocError>
    requires { table < length schema.now.tables }
    ensures { IfOk result (λ fault. fault ≡ repeated schema.now.tables (key_at table id.now)) }
{
    Ok(PullFault::Repeated {
        table: declared_at(schema, table).name.copy(alloc)?,
        id: id.copy(alloc)?,
    })
}

/// That no record stands twice.
pub fn refuse_repeated(
    alloc: Global,
    schema: &AppSchema,
    listed: &[Listed<'_>],
) -> Result<(), PullFault>
    requires { All (λ t. t.key.table < length schema.now.tables) (tellings_seen listed.now) }
    ensures { Gives PullFault.Memory result (unless_any (repeats schema.now.tables (tellings_seen listed.now))) }
{
    match first_again(listed) {
        None => Ok(()),
        Some(one) => Err(repeated(alloc, schema, one.table, one.id)?),
    }
}

// ---- long texts

/// Whether a value is a text of more than 65536 bytes for a column of texts.
fn is_long(kind: Kind, value: &Datum) -> bool
    ensures { result ≡ is_long kind value.now }
{
    match (kind, value) {
        (Kind::Words, Datum::Words(text)) => text.as_str().len() > 65536,
        (Kind::Words, _) => false,
        (Kind::Whole, _) => false,
        (Kind::Truth, _) => false,
    }
}

fn declared_column<'a>(columns: &'a [ColumnSchema], name: &str) -> Option<&'a ColumnSchema>
    ensures { option_copied result ≡ declared_column columns.now name.now }
{
    for column in columns {
        if column.name.is(name) {
            return Some(column);
        }
    }
    None
}

#[tactic(auto, using(crate::proofs::Refused::never_long))]
fn is_long_field(columns: &[ColumnSchema], field: &OpField) -> bool
    ensures { result ≡ is_long_field columns.now field.now }
{
    if !is_long(Kind::Words, &field.value) {
        return false;
    }
    match declared_column(columns, field.column.as_str()) {
        Some(column) => is_long(column.kind, &field.value),
        None => false,
    }
}

fn long_field<'a>(columns: &[ColumnSchema], fields: &'a [OpField]) -> Option<&'a OpField>
    ensures { option_copied result ≡ find (is_long_field columns.now) fields.now }
{
    for field in fields {
        if is_long_field(columns, field) {
            return Some(field);
        }
    }
    None
}

fn fields_sent<'a>(list: InList<'a>) -> &'a [OpField]
    ensures { result.now ≡ fields_sent (standing_seen list.entry) }
{
    match list {
        InList::Created(fields) => fields,
        InList::Updated(fields) => fields,
        InList::Deleted => &[],
    }
}

fn long_text(
    alloc: Global,
    table: &TableSchema,
    id: &Id,
    field: &OpField,
) -> Result<PullFault, AllocError>
    ensures { IfOk result (λ fault. fault ≡ PullFault.LongText table.now.name id.now field.now.column) }
{
    Ok(PullFault::LongText {
        table: table.name.copy(alloc)?,
        id: id.copy(alloc)?,
        column: field.column.copy(alloc)?,
    })
}

/// The refusal of a record for the first long text that is sent of it.
fn long_told(
    alloc: Global,
    schema: &AppSchema,
    one: &Listed<'_>,
) -> Result<Option<PullFault>, AllocError>
    requires { one.now.table < length schema.now.tables }
    ensures { IfOk result (λ fault. fault ≡ long_told schema.now.tables (telling_seen one.now)) }
{
    let table = declared_at(schema, one.table);
    match long_field(table.columns.as_slice(), fields_sent(one.list)) {
        None => Ok(None),
        Some(field) => Ok(Some(long_text(alloc, table, one.id, field)?)),
    }
}

/// That no record is sent a long text.
pub fn refuse_long(
    alloc: Global,
    schema: &AppSchema,
    listed: &[Listed<'_>],
) -> Result<(), PullFault>
    requires { All (λ t. t.key.table < length schema.now.tables) (tellings_seen listed.now) }
    ensures { Gives PullFault.Memory result (unless_any (filter_map (long_told schema.now.tables) (tellings_seen listed.now))) }
{
    for one in listed {
        if let Some(fault) = long_told(alloc, schema, one)? {
            return Err(fault);
        }
    }
    Ok(())
}
