//! Changes objects and replies that are written as JSON.
ghost use Rattle.std.specs.Prelude.{◌≡◌, Ok, IfOk, OnOk};
ghost use Rattle.std.specs.Str.{IsUtf8};
ghost use Rattle.serde_json.specs.View.{view, members_view};
ghost use Rattle.melon_wire.specs.Reading.{changes_in, reply_in};
ghost use Rattle.melon_wire.specs.Writing.{with_fields, row_data, rows_data, ids_data, table_data, with_tables, changes_data, reply_data, changes_text, reply_text};
ghost use Rattle.melon_wire.specs.Forms.{IsChanges, IsReply};

use crate::{Changes, PullReply, Remote, TableChanges};
use melon_raw::{Id, OpField};
use serde_json::{Map, Value, put};
use std::alloc::{AllocError, Global};

fn put_fields(
    members: &mut Map<String, Value>,
    alloc: Global,
    fields: &[OpField],
) -> Result<(), AllocError>
    ensures { OnOk result (members_view members.new.entries ≡ with_fields fields.now (members_view members.old.entries)) }
{
    for field in fields {
        let value = field.value.to_json(alloc)?;
        put(members, alloc, field.column.as_str(), value)?;
    }
    Ok(())
}

fn row_json(alloc: Global, row: &Remote) -> Result<Value, AllocError>
    ensures { IfOk result (λ json. view json ≡ row_data row.now) }
{
    let id = Value::try_from_str(alloc, row.id.as_str())?;
    let mut members = Map::new(alloc);
    put(&mut members, alloc, "id", id)?;
    put_fields(&mut members, alloc, row.fields.as_slice())?;
    Ok(Value::from(members))
}

fn rows_json(alloc: Global, rows: &[Remote]) -> Result<Value, AllocError>
    ensures { IfOk result (λ json. view json ≡ rows_data rows.now) }
{
    let mut items = Vec::with_capacity(alloc, rows.len())?;
    for row in rows {
        items.push(row_json(alloc, row)?)?;
    }
    Ok(Value::from(items))
}

fn ids_json(alloc: Global, ids: &[Id]) -> Result<Value, AllocError>
    ensures { IfOk result (λ json. view json ≡ ids_data ids.now) }
{
    let mut items = Vec::with_capacity(alloc, ids.len())?;
    for id in ids {
        items.push(Value::try_from_str(alloc, id.as_str())?)?;
    }
    Ok(Value::from(items))
}

fn table_json(alloc: Global, table: &TableChanges) -> Result<Value, AllocError>
    ensures { IfOk result (λ json. view json ≡ table_data table.now) }
{
    let created = rows_json(alloc, table.created.as_slice())?;
    let deleted = ids_json(alloc, table.deleted.as_slice())?;
    let updated = rows_json(alloc, table.updated.as_slice())?;
    let mut members = Map::new(alloc);
    put(&mut members, alloc, "created", created)?;
    put(&mut members, alloc, "deleted", deleted)?;
    put(&mut members, alloc, "updated", updated)?;
    Ok(Value::from(members))
}

fn put_tables(
    members: &mut Map<String, Value>,
    alloc: Global,
    tables: &[TableChanges],
) -> Result<(), AllocError>
    ensures { OnOk result (members_view members.new.entries ≡ with_tables tables.now (members_view members.old.entries)) }
{
    for table in tables {
        let json = table_json(alloc, table)?;
        put(members, alloc, table.table.as_str(), json)?;
    }
    Ok(())
}

fn changes_json(alloc: Global, changes: &Changes) -> Result<Value, AllocError>
    ensures { IfOk result (λ json. view json ≡ changes_data changes.now) }
{
    let mut members = Map::new(alloc);
    put_tables(&mut members, alloc, changes.tables.as_slice())?;
    Ok(Value::from(members))
}

fn reply_json(alloc: Global, reply: &PullReply) -> Result<Value, AllocError>
    ensures { IfOk result (λ json. view json ≡ reply_data reply.now) }
{
    let changes = changes_json(alloc, &reply.changes)?;
    let mut members = Map::new(alloc);
    put(&mut members, alloc, "changes", changes)?;
    put(
        &mut members,
        alloc,
        "timestamp",
        Value::from(reply.timestamp),
    )?;
    Ok(Value::from(members))
}

/// The changes object as compact JSON. A changes object within the form is read back from it.
#[tactic(auto, unfolding(crate::specs::Writing::changes_text))]
pub fn write_changes(alloc: Global, changes: &Changes) -> Result<Vec<u8>, AllocError>
    ensures text { IfOk result (λ bytes. bytes.items ≡ changes_text changes.now) }
    ensures utf8 { IfOk result (λ bytes. IsUtf8 bytes.items) }
    ensures reads_back { IfOk result (λ bytes. IsChanges changes.now → changes_in bytes.items ≡ Ok changes.now) }
{
    let json = changes_json(alloc, changes)?;
    let text = json.to_string(alloc)?;
    let _utf8 = text.as_str();
    Ok(text.into_bytes())
}

/// The body of a reply as compact JSON. A reply within the form is read back from it.
#[tactic(auto, unfolding(crate::specs::Writing::reply_text))]
pub fn write_reply(alloc: Global, reply: &PullReply) -> Result<Vec<u8>, AllocError>
    ensures text { IfOk result (λ bytes. bytes.items ≡ reply_text reply.now) }
    ensures utf8 { IfOk result (λ bytes. IsUtf8 bytes.items) }
    ensures reads_back { IfOk result (λ bytes. IsReply reply.now → reply_in bytes.items ≡ Ok reply.now) }
{
    let json = reply_json(alloc, reply)?;
    let text = json.to_string(alloc)?;
    let _utf8 = text.as_str();
    Ok(text.into_bytes())
}
