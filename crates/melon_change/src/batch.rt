//! The change set of a batch, or the first rule that it breaks.
ghost use Rattle.std.specs.Prelude.{◌≡◌, ◌+◌, ◌<◌, ◌≤◌, [], length, IfOk, IfSome, OnOk};
ghost use Rattle.std.specs.Option.{option_copied};
ghost use Rattle.melon_schema.specs.Faults.{Gives, or_fault};
ghost use Rattle.melon_schema.specs.Places.{table_named};
ghost use Rattle.melon_raw.specs.Rows.{at, at_id, Fits};
ghost use Rattle.melon_table.specs.Seen.{rows_of, columns_of, declared_columns};
ghost use Rattle.melon_table.specs.Kept.{IsKept};
ghost use Rattle.melon_change.specs.Rules.{fault_of, told_as};
ghost use Rattle.melon_change.specs.Changes.{key, key_of, columns_at, columns_in};
ghost use Rattle.melon_change.specs.Named.{is_named, NamesAlso};
ghost use Rattle.melon_change.specs.Batch.{record_at, visible, created_by, updated_by, deleted_by, destroyed_by, change_by, changes_behind, batch_of};
ghost use Rattle.melon_change.specs.declared.rule.Rule.TheVariants.{UnknownTable};

use crate::edit::updated;
use crate::fields::{are_short, fields_of};
use crate::named::{Named, name_record, none_named};
use crate::rule::Rule;
use crate::{BatchFault, Change, ChangeSet, Op};
use melon_raw::steps::new_counter;
use melon_raw::{Id, IdFault, OpField, Raw, Steps};
use melon_schema::{AppSchema, List, TableSchema, Text, Twin};
use melon_table::{Table, Tables};
use std::alloc::Global;
use std::marker::Brand;
use std::sync::ledger::{Blank, Ledger};

/// The place of the table of that name.
fn place_of(schema: &AppSchema, name: &Text) -> Result<usize, Rule>
    ensures place { Gives Rule.Memory result (or_fault (table_named name.now schema.now.tables) UnknownTable) }
    ensures within { IfOk result (λ place. place < length schema.now.tables) }
{
    schema.table(name.as_str()).ok_or(Rule::UnknownTable)
}

/// The declared table at a place.
fn declared_at(schema: &AppSchema, table: usize) -> &TableSchema
    requires { table < length schema.now.tables }
    ensures { result.now.columns ≡ columns_at schema.now.tables table }
{
    schema.at(table)
}

fn row_counted<'a, L: Ledger>(counter: Blank, table: &'a Table, id: &Id) -> Option<&'a Raw>
    requires name { counter.name ≡ L.name }
    requires parts { counter.parts ≡ L.parts }
    requires shared { 0 < counter.parts }
    ensures found { option_copied result ≡ at_id id.now table.now.rows }
    ensures kept { IsKept table.now.columns table.now.rows }
{
    let mut steps = Steps::<L>::open(counter);
    table.get(id, &mut steps)
}

/// The row of an id.
fn row_in<'a>(table: &'a Table, id: &Id) -> Option<&'a Raw>
    ensures found { option_copied result ≡ at_id id.now table.now.rows }
    ensures kept { IsKept table.now.columns table.now.rows }
{
    row_counted::<Brand>(new_counter(), table, id)
}

/// The row of a record.
fn row_at<'a>(tables: &'a Tables, table: usize, id: &Id) -> Option<&'a Raw>
    requires { table < length tables.now }
    ensures row { option_copied result ≡ at (rows_of tables.now) (key table id.now) }
    ensures fits { IfSome result (λ row. Fits (columns_in tables.now table) row.now) }
{
    row_in(tables.of(table), id)
}

/// The row of a record, where it is visible.
fn visible_at<'a>(tables: &'a Tables, table: usize, id: &Id) -> Option<&'a Raw>
    requires { table < length tables.now }
    ensures row { option_copied result ≡ visible (at (rows_of tables.now) (key table id.now)) }
    ensures fits { IfSome result (λ row. Fits (columns_in tables.now table) row.now) }
{
    match row_at(tables, table, id) {
        Some(row) => { if row.is_visible() { Some(row) } else { None } }
        None => None,
    }
}

/// The id of a record that no operation before this one names. It is named from now on.
fn record_at(alloc: Global, named: &mut Named, table: usize, id: &Text) -> Result<Id, Rule>
    requires { table < length named.old.items }
    ensures id { Gives Rule.Memory result (record_at (is_named named.old.items) table id.now) }
    ensures names { OnOk result (NamesAlso named.old.items named.new.items (key table id.now)) }
    ensures is { IfOk result (λ known. known ≡ id.now) }
    ensures len { length named.new.items ≡ length named.old.items }
{
    let id = match Id::read(alloc, id.as_str()) {
        Ok(id) => id,
        Err(IdFault::Bad) => return Err(Rule::BadId),
        Err(IdFault::Memory) => return Err(Rule::Memory),
    };
    if !name_record(alloc, named, table, &id)? {
        return Err(Rule::Twice);
    }
    Ok(id)
}

/// The change of a new record.
#[tactic(auto, unfolding(crate::specs::Batch::created_by))]
fn create(
    alloc: Global,
    tables: &Tables,
    schema: &AppSchema,
    named: &mut Named,
    name: &Text,
    id: &Text,
    set: List<OpField>,
) -> Result<Change, Rule>
    requires declared { columns_of tables.now ≡ declared_columns schema.now.tables }
    requires named { length named.old.items ≡ length schema.now.tables }
    ensures change { Gives Rule.Memory result (created_by schema.now.tables (rows_of tables.now) (is_named named.old.items) name.now id.now set) }
    ensures names { IfOk result (λ change. NamesAlso named.old.items named.new.items (key_of change)) }
    ensures len { length named.new.items ≡ length named.old.items }
{
    let table = place_of(schema, name)?;
    let declared = declared_at(schema, table);
    let fields = fields_of(alloc, declared, set)?;
    let id = record_at(alloc, named, table, id)?;
    if row_at(tables, table, &id).is_some() {
        return Err(Rule::Taken);
    }
    are_short(alloc, declared.columns.as_slice(), fields.as_slice())?;
    let after = Raw::created(alloc, declared, id.copy(alloc)?, fields)?;
    Ok(Change {
        table,
        id,
        before: None,
        after: Some(after),
    })
}

/// The change of a record that is given new values.
#[tactic(auto, unfolding(crate::specs::Batch::updated_by))]
fn update(
    alloc: Global,
    tables: &Tables,
    schema: &AppSchema,
    named: &mut Named,
    name: &Text,
    id: &Text,
    set: List<OpField>,
) -> Result<Change, Rule>
    requires declared { columns_of tables.now ≡ declared_columns schema.now.tables }
    requires named { length named.old.items ≡ length schema.now.tables }
    ensures change { Gives Rule.Memory result (updated_by schema.now.tables (rows_of tables.now) (is_named named.old.items) name.now id.now set) }
    ensures names { IfOk result (λ change. NamesAlso named.old.items named.new.items (key_of change)) }
    ensures len { length named.new.items ≡ length named.old.items }
{
    let table = place_of(schema, name)?;
    let declared = declared_at(schema, table);
    let fields = fields_of(alloc, declared, set)?;
    let id = record_at(alloc, named, table, id)?;
    let row = visible_at(tables, table, &id).ok_or(Rule::NoRow)?;
    are_short(alloc, declared.columns.as_slice(), fields.as_slice())?;
    let after = updated(alloc, declared.columns.as_slice(), row, fields)?;
    Ok(Change {
        table,
        id,
        before: Some(row.copy(alloc)?),
        after: Some(after),
    })
}

/// The change of a record that is marked as deleted.
#[tactic(auto, unfolding(crate::specs::Batch::deleted_by))]
fn mark_deleted(
    alloc: Global,
    tables: &Tables,
    schema: &AppSchema,
    named: &mut Named,
    name: &Text,
    id: &Text,
) -> Result<Change, Rule>
    requires declared { columns_of tables.now ≡ declared_columns schema.now.tables }
    requires named { length named.old.items ≡ length schema.now.tables }
    ensures change { Gives Rule.Memory result (deleted_by schema.now.tables (rows_of tables.now) (is_named named.old.items) name.now id.now) }
    ensures names { IfOk result (λ change. NamesAlso named.old.items named.new.items (key_of change)) }
    ensures len { length named.new.items ≡ length named.old.items }
{
    let table = place_of(schema, name)?;
    let id = record_at(alloc, named, table, id)?;
    let row = visible_at(tables, table, &id).ok_or(Rule::NoRow)?;
    let mut after = row.copy(alloc)?;
    after.mark_deleted();
    Ok(Change {
        table,
        id,
        before: Some(row.copy(alloc)?),
        after: Some(after),
    })
}

/// The change of a record that is removed.
#[tactic(auto, unfolding(crate::specs::Batch::destroyed_by))]
fn destroy(
    alloc: Global,
    tables: &Tables,
    schema: &AppSchema,
    named: &mut Named,
    name: &Text,
    id: &Text,
) -> Result<Change, Rule>
    requires declared { columns_of tables.now ≡ declared_columns schema.now.tables }
    requires named { length named.old.items ≡ length schema.now.tables }
    ensures change { Gives Rule.Memory result (destroyed_by schema.now.tables (rows_of tables.now) (is_named named.old.items) name.now id.now) }
    ensures names { IfOk result (λ change. NamesAlso named.old.items named.new.items (key_of change)) }
    ensures len { length named.new.items ≡ length named.old.items }
{
    let table = place_of(schema, name)?;
    let id = record_at(alloc, named, table, id)?;
    let row = row_at(tables, table, &id).ok_or(Rule::NoRow)?;
    Ok(Change {
        table,
        id,
        before: Some(row.copy(alloc)?),
        after: None,
    })
}

/// The fault of the operation of this number, which names this table and id.
fn fault_of(op: u64, table: Text, id: Text, rule: Rule) -> BatchFault
    ensures { result ≡ fault_of op table id rule }
{
    match rule {
        Rule::UnknownTable => BatchFault::UnknownTable { op, table, id },
        Rule::UnknownColumn { column } => {
            BatchFault::UnknownColumn {
                op,
                table,
                id,
                column,
            }
        }
        Rule::BadId => BatchFault::BadId { op, table, id },
        Rule::Twice => BatchFault::Twice { op, table, id },
        Rule::Taken => BatchFault::Taken { op, table, id },
        Rule::NoRow => BatchFault::NoRow { op, table, id },
        Rule::LongText { column } => {
            BatchFault::LongText {
                op,
                table,
                id,
                column,
            }
        }
        Rule::Memory => BatchFault::Memory,
    }
}

/// The change of one operation, or its fault under this number.
#[tactic(auto, using(crate::proofs::Batches::told_fault))]
fn prepare_op(
    alloc: Global,
    tables: &Tables,
    schema: &AppSchema,
    named: &mut Named,
    number: u64,
    op: Op,
) -> Result<Change, BatchFault>
    requires declared { columns_of tables.now ≡ declared_columns schema.now.tables }
    requires named { length named.old.items ≡ length schema.now.tables }
    ensures change { Gives BatchFault.Memory result (told_as number op (change_by schema.now.tables (rows_of tables.now) (is_named named.old.items) op)) }
    ensures names { IfOk result (λ change. NamesAlso named.old.items named.new.items (key_of change)) }
    ensures len { length named.new.items ≡ length named.old.items }
{
    match op {
        Op::Create { table, id, set } => {
            match create(alloc, tables, schema, named, &table, &id, set) {
                Ok(change) => Ok(change),
                Err(rule) => Err(fault_of(number, table, id, rule)),
            }
        }
        Op::Update { table, id, set } => {
            match update(alloc, tables, schema, named, &table, &id, set) {
                Ok(change) => Ok(change),
                Err(rule) => Err(fault_of(number, table, id, rule)),
            }
        }
        Op::MarkDeleted { table, id } => {
            match mark_deleted(alloc, tables, schema, named, &table, &id) {
                Ok(change) => Ok(change),
                Err(rule) => Err(fault_of(number, table, id, rule)),
            }
        }
        Op::Destroy { table, id } => {
            match destroy(alloc, tables, schema, named, &table, &id) {
                Ok(change) => Ok(change),
                Err(rule) => Err(fault_of(number, table, id, rule)),
            }
        }
    }
}

fn prepare_each(
    alloc: Global,
    tables: &Tables,
    schema: &AppSchema,
    ops: List<Op>,
) -> Result<List<Change>, BatchFault>
    requires declared { columns_of tables.now ≡ declared_columns schema.now.tables }
    requires few { length ops ≤ 100000 }
    ensures { Gives BatchFault.Memory result (changes_behind schema.now.tables (rows_of tables.now) [] ops) }
{
    let mut named = none_named(alloc, schema.len())?;
    let mut changes = List::from_vec(Vec::with_capacity(alloc, ops.len())?);
    for op in ops.into_vec() {
        let number = changes.len() as u64 + 1;
        changes.push(prepare_op(alloc, tables, schema, &mut named, number, op)?)?;
    }
    Ok(changes)
}

/// The change set of a batch, in the order of its operations, each judged on the rows before the batch. A batch of more
/// than 100000 operations is refused, and so is one with an operation that breaks a rule: the first such one is told, with
/// the first rule of `BatchFault` that it breaks.
#[tactic(auto, unfolding(crate::specs::Batch::batch_of))]
pub fn prepare(
    alloc: Global,
    tables: &Tables,
    schema: &AppSchema,
    ops: List<Op>,
) -> Result<ChangeSet, BatchFault>
    requires declared { columns_of tables.now ≡ declared_columns schema.now.tables }
    ensures batch { Gives BatchFault.Memory result (batch_of schema.now.tables (rows_of tables.now) ops) }
{
    if ops.len() > 100000 {
        return Err(BatchFault::TooMany {
            count: ops.len() as u64,
        });
    }
    let changes = prepare_each(alloc, tables, schema, ops)?;
    Ok(ChangeSet::from_list(changes))
}
