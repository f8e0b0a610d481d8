//! Changes objects and replies that are read from JSON. Their texts are moved out of the JSON, and not copied.
ghost use Rattle.std.specs.Prelude.{◌≡◌, Ok, Err, codes, string_bytes, ℕ, List as Sequence, map, Some, None, option_map, bytes_eq, true, false, IfOk, MatchResult};
ghost use Rattle.serde_json.specs.View.{view, number_view, members_view};
ghost use Rattle.serde_json.specs.Find.{get_member, as_object};
ghost use Rattle.melon_schema.specs.Bytes.{json_of};
ghost use Rattle.melon_schema.specs.Faults.{Gives, Fails, or_fault, each_read};
ghost use Rattle.melon_schema.specs.Json.{named, list_of, count_of};
ghost use Rattle.melon_raw.specs.Datum.{whole_of};
ghost use Rattle.melon_wire.specs.Reading.{value_of, field_of, fields_of, id_in, id_at, row_of, id_of, items_in, items_at, table_of, changes_of, reply_of, changes_in, reply_in};
ghost use Rattle.melon_wire.specs.Standing.{has_ids};
ghost use Rattle.melon_wire.specs.declared.wire_fault.WireFault.TheVariants.{NotJson};

use crate::{Changes, PullReply, Remote, TableChanges, WireFault};
use melon_raw::{Datum, Id, OpField};
use melon_schema::names::{is_name, is_reserved_column};
use melon_schema::reader::{count_of, has_only, json_of};
use melon_schema::{List, Refusal, Text};
use serde_json::{Map, Number, Value};
use std::alloc::Global;

// ---- rows

fn whole_of(number: Number) -> Result<Datum, WireFault>
    ensures { Gives WireFault.Memory result (or_fault (whole_of (number_view number)) WireFault.Number) }
{
    match number.as_i64() {
        Some(number) if number >= -9007199254740991 && number <= 9007199254740991 => {
            Ok(Datum::Whole(number))
        }
        _ => Err(WireFault::Number),
    }
}

fn take_value(json: Value) -> Result<Datum, WireFault>
    ensures { Gives WireFault.Memory result (value_of (view json)) }
{
    match json {
        Value::Null => Ok(Datum::Null),
        Value::Bool(truth) => Ok(Datum::Truth(truth)),
        Value::Number(number) => whole_of(number),
        Value::String(text) => Ok(Datum::Words(Text::from_string(text))),
        Value::Array(_) => Ok(Datum::Null),
        Value::Object(_) => Ok(Datum::Null),
    }
}

fn take_field(column: String, json: Value) -> Result<OpField, WireFault>
    ensures { Gives WireFault.Memory result (field_of (string_bytes column, view json)) }
{
    let value = take_value(json)?;
    let column = Text::from_string(column);
    Ok(OpField { column, value })
}

fn take_fields(alloc: Global, members: Map<String, Value>) -> Result<List<OpField>, WireFault>
    ensures { Gives WireFault.Memory result (fields_of (members_view members.entries)) }
{
    let mut fields = List::new(alloc);
    for (key, value) in members {
        if !is_reserved_column(key.as_str()) {
            fields.push(take_field(key, value)?)?;
        }
    }
    Ok(fields)
}

fn read_id(alloc: Global, text: &str) -> Result<Id, WireFault>
    ensures { Gives WireFault.Memory result (id_in text.now) }
{
    Ok(Id::read(alloc, text)?)
}

/// The text under the key of the id, as an id.
fn id_at(alloc: Global, json: &Value) -> Result<Id, WireFault>
    ensures { Gives WireFault.Memory result (id_at (view json.now)) }
{
    match json.get("id").and_then(Value::as_str) {
        Some(text) => read_id(alloc, text),
        None => Err(WireFault::Form),
    }
}

fn take_members(json: Value) -> Result<Map<String, Value>, WireFault>
    ensures { MatchResult result (λ members. as_object (view json) ≡ Some (members_view members.entries)) (λ fault. (fault ≡ WireFault.Form) × (as_object (view json) ≡ None)) }
{
    match json {
        Value::Object(members) => Ok(members),
        _ => Err(WireFault::Form),
    }
}

#[tactic(auto, unfolding(crate::specs::Reading::row_of))]
fn take_row(alloc: Global, json: Value) -> Result<Remote, WireFault>
    ensures { Gives WireFault.Memory result (row_of (view json)) }
{
    let id = id_at(alloc, &json)?;
    let members = take_members(json)?;
    let fields = take_fields(alloc, members)?;
    Ok(Remote { id, fields })
}

fn take_rows(alloc: Global, items: Vec<Value>) -> Result<List<Remote>, WireFault>
    ensures { Gives WireFault.Memory result (each_read row_of (map view items.items)) }
{
    let mut rows = List::new(alloc);
    for item in items {
        rows.push(take_row(alloc, item)?)?;
    }
    Ok(rows)
}

fn id_of(alloc: Global, json: &Value) -> Result<Id, WireFault>
    ensures { Gives WireFault.Memory result (id_of (view json.now)) }
{
    match json.as_str() {
        Some(text) => read_id(alloc, text),
        None => Err(WireFault::Form),
    }
}

fn ids_of(alloc: Global, items: &[Value]) -> Result<List<Id>, WireFault>
    ensures { Gives WireFault.Memory result (each_read id_of (map view items.now)) }
{
    let mut ids = List::new(alloc);
    for item in items {
        ids.push(id_of(alloc, item)?)?;
    }
    Ok(ids)
}

// ---- tables

/// Takes the member of a key out of an object.
fn take_member(members: &mut Map<String, Value>, key: &str) -> Option<Value>
    ensures member { option_map view result ≡ get_member key.now (members_view members.old.entries) }
    ensures others { (name : Sequence ℕ) → bytes_eq name key.now ≡ false → get_member name (members_view members.new.entries) ≡ get_member name (members_view members.old.entries) }
{
    members.remove(key)
}

fn take_items(json: Value) -> Result<Vec<Value>, WireFault>
    ensures { MatchResult result (λ items. list_of (view json) ≡ Some (map view items.items)) (λ fault. (fault ≡ WireFault.Form) × (list_of (view json) ≡ None)) }
{
    match json {
        Value::Array(items) => Ok(items),
        _ => Err(WireFault::Form),
    }
}

fn items_of(alloc: Global, json: Option<Value>) -> Result<Vec<Value>, WireFault>
    ensures { MatchResult result (λ items. items_in (option_map view json) ≡ Some (map view items.items)) (λ fault. (fault ≡ WireFault.Form) × (items_in (option_map view json) ≡ None)) }
{
    match json {
        None => Ok(Vec::new(alloc)),
        Some(json) => take_items(json),
    }
}

/// Takes the list of a key, which may be missing, out of an object.
fn take_list(
    members: &mut Map<String, Value>,
    alloc: Global,
    key: &str,
) -> Result<Vec<Value>, WireFault>
    ensures items { MatchResult result (λ items. items_at key.now (members_view members.old.entries) ≡ Ok (map view items.items)) (λ fault. items_at key.now (members_view members.old.entries) ≡ Err fault) }
    ensures others { (name : Sequence ℕ) → bytes_eq name key.now ≡ false → get_member name (members_view members.new.entries) ≡ get_member name (members_view members.old.entries) }
{
    items_of(alloc, take_member(members, key))
}

#[tactic(auto, unfolding(crate::specs::Reading::table_of))]
fn take_table(alloc: Global, name: String, json: Value) -> Result<TableChanges, WireFault>
    ensures { Gives WireFault.Memory result (table_of (string_bytes name, view json)) }
{
    if !is_name(name.as_str()) {
        return Err(WireFault::Name);
    }
    if !has_only(&json, &["created", "deleted", "updated"]) {
        return Err(WireFault::Form);
    }
    let mut members = take_members(json)?;
    let new = take_list(&mut members, alloc, "created")?;
    let gone = take_list(&mut members, alloc, "deleted")?;
    let edited = take_list(&mut members, alloc, "updated")?;
    let created = take_rows(alloc, new)?;
    let deleted = ids_of(alloc, gone.as_slice())?;
    let updated = take_rows(alloc, edited)?;
    Ok(TableChanges {
        table: Text::from_string(name),
        created,
        updated,
        deleted,
    })
}

fn take_tables(alloc: Global, members: Map<String, Value>) -> Result<List<TableChanges>, WireFault>
    ensures { Gives WireFault.Memory result (each_read table_of (named (members_view members.entries))) }
{
    let mut tables = List::new(alloc);
    for (key, value) in members {
        tables.push(take_table(alloc, key, value)?)?;
    }
    Ok(tables)
}

// ---- the whole

/// The changes object that a JSON is.
#[tactic(auto, unfolding(crate::specs::Reading::changes_of))]
pub fn take_changes(alloc: Global, json: Value) -> Result<Changes, WireFault>
    ensures { Gives WireFault.Memory result (changes_of (view json)) }
{
    let tables = take_tables(alloc, take_members(json)?)?;
    Ok(Changes { tables })
}

fn timestamp_of(json: &Value) -> Result<u64, WireFault>
    ensures { Gives WireFault.Memory result (or_fault (count_of (view json.now)) WireFault.Number) }
{
    match count_of(json) {
        Ok(timestamp) => Ok(timestamp),
        Err(Refusal::Form) => Err(WireFault::Number),
        Err(Refusal::Memory) => Err(WireFault::Memory),
    }
}

#[tactic(auto, unfolding(crate::specs::Reading::reply_of))]
fn take_reply(alloc: Global, json: Value) -> Result<PullReply, WireFault>
    ensures { Gives WireFault.Memory result (reply_of (view json)) }
{
    let mut members = take_members(json)?;
    let content = take_member(&mut members, "changes").ok_or(WireFault::Form)?;
    let stamp = take_member(&mut members, "timestamp").ok_or(WireFault::Form)?;
    let changes = take_changes(alloc, content)?;
    let timestamp = timestamp_of(&stamp)?;
    Ok(PullReply { changes, timestamp })
}

fn json_in(alloc: Global, bytes: &[u8]) -> Result<Value, WireFault>
    ensures { MatchResult result (λ json. json_of bytes.now ≡ Some (view json)) (λ fault. Fails WireFault.Memory fault (or_fault (json_of bytes.now) NotJson)) }
{
    match json_of(alloc, bytes) {
        Ok(json) => Ok(json),
        Err(Refusal::Form) => Err(WireFault::NotJson),
        Err(Refusal::Memory) => Err(WireFault::Memory),
    }
}

/// The changes object that the bytes are. Its tables and the fields of each row ascend by name; a list that is missing is
/// empty. A list or an object in the place of a field's value is read as null. Names that no schema declares are read all
/// the same; `_status` and `_changed` are passed over. Other bytes give their first fault.
pub fn read_changes(alloc: Global, bytes: &[u8]) -> Result<Changes, WireFault>
    ensures changes { Gives WireFault.Memory result (changes_in bytes.now) }
    ensures ids { IfOk result (λ changes. has_ids changes ≡ true) }
{
    let json = json_in(alloc, bytes)?;
    take_changes(alloc, json)
}

/// The body of a reply to a pull that the bytes are. Keys beside `changes` and `timestamp` are ignored. The timestamp is
/// from 0 to 9007199254740991. Other bytes give their first fault, that of the timestamp after all others.
pub fn read_reply(alloc: Global, bytes: &[u8]) -> Result<PullReply, WireFault>
    ensures reply { Gives WireFault.Memory result (reply_in bytes.now) }
    ensures ids { IfOk result (λ reply. has_ids reply.changes ≡ true) }
{
    let json = json_in(alloc, bytes)?;
    take_reply(alloc, json)
}
