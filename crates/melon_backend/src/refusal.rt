//! Why a push is refused.
ghost use Rattle.std.specs.Prelude.{◌≡◌, ◌<◌, length, map, filter, find, fold, bytes_eq, IfOk, None, Some};
ghost use Rattle.std.specs.List.{All, AllByRecursion, flat_map, list_any};
ghost use Rattle.std.specs.Option.{option_copied};
ghost use Rattle.melon_schema.specs.Faults.{Gives};
ghost use Rattle.melon_schema.specs.declared.schema.TableSchema.{TableSchema};
ghost use Rattle.melon_log.specs.ServerRows.{is_touched};
ghost use Rattle.melon_log.specs.Log.{fields_sent};
ghost use Rattle.melon_wire.specs.Sent.{has_something};
ghost use Rattle.melon_log.specs.Verdict.{if_any, lesser, is_unknown, columns_sent, least_name, unknown_in, unknown, unless_one, is_newer, is_lost, is_long, is_long_field, has_long};
ghost use Rattle.melon_backend.specs.Listing.{standing_seen, naming_seen, namings_seen, conflict_named, gone_named, long_named, refused, IsOfTable};

use crate::cells::is_live;
use crate::listed::InList;
use crate::named::Named;
use crate::order::declared_at;
use crate::table::greatest;
use melon_log::{PushFault, ServerRow};
use melon_raw::{Datum, OpField};
use melon_schema::{AppSchema, ColumnSchema, Kind, TableSchema, Text, Twin};
use melon_wire::{Changes, Remote, TableChanges};
use std::alloc::{AllocError, Global};
use std::cmp::Ordering;

// ---- unknown names

fn is_unknown(table: &TableSchema, name: &str) -> bool
    ensures { result ≡ is_unknown table.now.columns name.now }
{
    !(name == "_status" || name == "_changed" || table.column(name).is_some())
}

fn lesser<'a>(least: Option<&'a Text>, name: &'a Text) -> Option<&'a Text>
    ensures { option_copied result ≡ lesser (option_copied least.entry) name.now }
{
    match least {
        None => Some(name),
        Some(least) => {
            if name.as_str().cmp(least.as_str()) == Ordering::Less {
                return Some(name);
            }
            Some(least)
        }
    }
}

fn least_in_fields<'a>(
    table: &TableSchema,
    least: Option<&'a Text>,
    fields: &'a [OpField],
) -> Option<&'a Text>
    ensures { option_copied result ≡ fold lesser (option_copied least.entry) (filter (is_unknown table.now.columns) (map (λ f. f.column) fields.now)) }
{
    let mut found = least;
    for field in fields {
        if is_unknown(table, field.column.as_str()) {
            found = lesser(found, &field.column);
        }
    }
    found
}

fn least_in_rows<'a>(
    table: &TableSchema,
    least: Option<&'a Text>,
    rows: &'a [Remote],
) -> Option<&'a Text>
    ensures { option_copied result ≡ fold lesser (option_copied least.entry) (filter (is_unknown table.now.columns) (flat_map (λ row. map (λ f. f.column) row.fields) rows.now)) }
{
    let mut found = least;
    for row in rows {
        found = least_in_fields(table, found, row.fields.as_slice());
    }
    found
}

/// The least column that is sent and that the table lacks.
fn least_unknown<'a>(table: &TableSchema, told: &'a TableChanges) -> Option<&'a Text>
    ensures { option_copied result ≡ least_name (filter (is_unknown table.now.columns) (columns_sent told.now)) }
{
    let created = least_in_rows(table, None, told.created.as_slice());
    least_in_rows(table, created, told.updated.as_slice())
}

fn unknown_name(alloc: Global, table: &Text, column: Text) -> Result<PushFault, AllocError>
    ensures { IfOk result (λ fault. fault ≡ PushFault.UnknownName table.now column) }
{
    Ok(PushFault::UnknownName {
        table: table.copy(alloc)?,
        column,
    })
}

pub(crate) fn has_something(told: &TableChanges) -> bool
    ensures { result ≡ has_something told.now }
{
    !(told.created.is_empty() && told.updated.is_empty() && told.deleted.is_empty())
}

fn unknown_table(alloc: Global, told: &TableChanges) -> Result<Option<PushFault>, AllocError>
    ensures { IfOk result (λ fault. fault ≡ unknown_in told.now None) }
{
    if !has_something(told) {
        return Ok(None);
    }
    Ok(Some(unknown_name(alloc, &told.table, Text::empty(alloc))?))
}

fn unknown_column(
    alloc: Global,
    table: &TableSchema,
    told: &TableChanges,
) -> Result<Option<PushFault>, AllocError>
    ensures { IfOk result (λ fault. fault ≡ unknown_in told.now (Some table.now)) }
{
    match least_unknown(table, told) {
        None => Ok(None),
        Some(column) => {
            let name = column.copy(alloc)?;
            Ok(Some(unknown_name(alloc, &told.table, name)?))
        }
    }
}

fn unknown_in(
    alloc: Global,
    schema: &AppSchema,
    told: &TableChanges,
) -> Result<Option<PushFault>, AllocError>
    ensures { IfOk result (λ fault. fault ≡ unknown schema.now.tables told.now) }
{
    match schema.named(told.table.as_str()) {
        None => unknown_table(alloc, told),
        Some(table) => unknown_column(alloc, table, told),
    }
}

/// That no name is sent that the schema lacks.
pub(crate) fn refuse_unknown(
    alloc: Global,
    schema: &AppSchema,
    changes: &Changes,
) -> Result<(), PushFault>
    ensures { Gives PushFault.Memory result (unless_one (unknown schema.now.tables) changes.now.tables) }
{
    for told in changes.tables.as_slice() {
        if let Some(fault) = unknown_in(alloc, schema, told)? {
            return Err(fault);
        }
    }
    Ok(())
}

// ---- conflicts

fn is_touched(t: u64, row: &ServerRow) -> bool
    ensures { result ≡ is_touched t row.now }
{
    row.created > t || row.changed > t || row.deleted.unwrap_or(0) > t
}

fn is_newer(t: u64, list: InList<'_>, row: &ServerRow) -> bool
    ensures { result ≡ is_newer t (standing_seen list.entry) row.now }
{
    match list {
        InList::Created(_) => is_touched(t, row),
        InList::Updated(_) => is_touched(t, row),
        InList::Deleted => is_live(row) && row.changed > t,
    }
}

fn conflict_of(
    alloc: Global,
    schema: &AppSchema,
    t: u64,
    one: &Named<'_>,
) -> Result<Option<PushFault>, AllocError>
    requires { one.now.table < length schema.now.tables }
    ensures { IfOk result (λ fault. fault ≡ conflict_named schema.now.tables t (naming_seen one.now)) }
{
    match one.row {
        None => Ok(None),
        Some(row) => {
            if !is_newer(t, one.list, row) {
                return Ok(None);
            }
            Ok(Some(PushFault::Conflict {
                table: declared_at(schema, one.table).name.copy(alloc)?,
                id: one.id.copy(alloc)?,
                revision: greatest(row),
            }))
        }
    }
}

fn refuse_conflict_of(
    alloc: Global,
    schema: &AppSchema,
    t: u64,
    one: &Named<'_>,
) -> Result<(), PushFault>
    requires { one.now.table < length schema.now.tables }
    ensures { Gives PushFault.Memory result (if_any (conflict_named schema.now.tables t (naming_seen one.now))) }
{
    match conflict_of(alloc, schema, t, one)? {
        None => Ok(()),
        Some(fault) => Err(fault),
    }
}

/// That no row is newer than the push knows.
fn refuse_conflicts(
    alloc: Global,
    schema: &AppSchema,
    t: u64,
    named: &[Named<'_>],
) -> Result<(), PushFault>
    requires { AllByRecursion (IsOfTable (length schema.now.tables)) (namings_seen named.now) }
    ensures { Gives PushFault.Memory result (unless_one (conflict_named schema.now.tables t) (namings_seen named.now)) }
{
    for one in named {
        refuse_conflict_of(alloc, schema, t, one)?;
    }
    Ok(())
}

// ---- deleted rows

fn is_lost(list: InList<'_>, row: &ServerRow) -> bool
    ensures { result ≡ is_lost (standing_seen list.entry) row.now }
{
    match list {
        InList::Created(_) => false,
        InList::Updated(_) => !is_live(row),
        InList::Deleted => false,
    }
}

fn gone_of(
    alloc: Global,
    schema: &AppSchema,
    t: u64,
    one: &Named<'_>,
) -> Result<Option<PushFault>, AllocError>
    requires { one.now.table < length schema.now.tables }
    ensures { IfOk result (λ fault. fault ≡ gone_named schema.now.tables t (naming_seen one.now)) }
{
    match one.row {
        None => Ok(None),
        Some(row) => {
            if !is_lost(one.list, row) {
                return Ok(None);
            }
            Ok(Some(PushFault::Gone {
                table: declared_at(schema, one.table).name.copy(alloc)?,
                id: one.id.copy(alloc)?,
                revision: greatest(row),
            }))
        }
    }
}

fn refuse_gone_of(
    alloc: Global,
    schema: &AppSchema,
    t: u64,
    one: &Named<'_>,
) -> Result<(), PushFault>
    requires { one.now.table < length schema.now.tables }
    ensures { Gives PushFault.Memory result (if_any (gone_named schema.now.tables t (naming_seen one.now))) }
{
    match gone_of(alloc, schema, t, one)? {
        None => Ok(()),
        Some(fault) => Err(fault),
    }
}

/// That no row that is sent as updated was deleted.
fn refuse_gone(
    alloc: Global,
    schema: &AppSchema,
    t: u64,
    named: &[Named<'_>],
) -> Result<(), PushFault>
    requires { AllByRecursion (IsOfTable (length schema.now.tables)) (namings_seen named.now) }
    ensures { Gives PushFault.Memory result (unless_one (gone_named schema.now.tables t) (namings_seen named.now)) }
{
    for one in named {
        refuse_gone_of(alloc, schema, t, one)?;
    }
    Ok(())
}

// ---- long texts

fn is_long(kind: Kind, value: &Datum) -> bool
    ensures { result ≡ is_long kind value.now }
{
    match (kind, value) {
        (Kind::Words, Datum::Words(text)) => text.as_str().len() > 65536,
        (Kind::Words, _) => false,
        (Kind::Whole, _) => false,
        (Kind::Truth, _) => false,
    }
}

fn column_of<'a>(columns: &'a [ColumnSchema], name: &str) -> Option<&'a ColumnSchema>
    ensures { option_copied result ≡ find (λ column. bytes_eq column.name name.now) columns.now }
{
    for column in columns {
        if column.name.is(name) {
            return Some(column);
        }
    }
    None
}

fn is_long_field(columns: &[ColumnSchema], field: &OpField) -> bool
    ensures { result ≡ is_long_field columns.now field.now }
{
    match column_of(columns, field.column.as_str()) {
        Some(column) => is_long(column.kind, &field.value),
        None => false,
    }
}

fn any_long(columns: &[ColumnSchema], fields: &[OpField]) -> bool
    ensures { result ≡ list_any (is_long_field columns.now) fields.now }
{
    for field in fields {
        if is_long_field(columns, field) {
            return true;
        }
    }
    false
}

fn has_long(columns: &[ColumnSchema], list: InList<'_>) -> bool
    ensures { result ≡ has_long columns.now (fields_sent (standing_seen list.entry)) }
{
    match list {
        InList::Created(fields) => any_long(columns, fields),
        InList::Updated(fields) => any_long(columns, fields),
        InList::Deleted => false,
    }
}

fn long_of(
    alloc: Global,
    schema: &AppSchema,
    one: &Named<'_>,
) -> Result<Option<PushFault>, AllocError>
    requires { one.now.table < length schema.now.tables }
    ensures { IfOk result (λ fault. fault ≡ long_named schema.now.tables (naming_seen one.now)) }
{
    let table = declared_at(schema, one.table);
    if !has_long(table.columns.as_slice(), one.list) {
        return Ok(None);
    }
    Ok(Some(PushFault::LongText {
        table: table.name.copy(alloc)?,
        id: one.id.copy(alloc)?,
    }))
}

fn refuse_long_of(alloc: Global, schema: &AppSchema, one: &Named<'_>) -> Result<(), PushFault>
    requires { one.now.table < length schema.now.tables }
    ensures { Gives PushFault.Memory result (if_any (long_named schema.now.tables (naming_seen one.now))) }
{
    match long_of(alloc, schema, one)? {
        None => Ok(()),
        Some(fault) => Err(fault),
    }
}

/// That no text is too long.
fn refuse_long(alloc: Global, schema: &AppSchema, named: &[Named<'_>]) -> Result<(), PushFault>
    requires { AllByRecursion (IsOfTable (length schema.now.tables)) (namings_seen named.now) }
    ensures { Gives PushFault.Memory result (unless_one (long_named schema.now.tables) (namings_seen named.now)) }
{
    for one in named {
        refuse_long_of(alloc, schema, one)?;
    }
    Ok(())
}

// ---- all of them

/// That nothing refuses the records of a push.
#[tactic(auto, unfolding(crate::specs::Listing::refused))]
pub(crate) fn refuse_named(
    alloc: Global,
    schema: &AppSchema,
    t: u64,
    named: &[Named<'_>],
) -> Result<(), PushFault>
    requires { AllByRecursion (IsOfTable (length schema.now.tables)) (namings_seen named.now) }
    ensures { Gives PushFault.Memory result (refused schema.now.tables t (namings_seen named.now)) }
{
    refuse_conflicts(alloc, schema, t, named)?;
    refuse_gone(alloc, schema, t, named)?;
    refuse_long(alloc, schema, named)?;
    Ok(())
}
