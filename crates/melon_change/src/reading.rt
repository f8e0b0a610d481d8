//! Operations that are read from JSON.
ghost use Rattle.std.specs.Prelude.{◌≡◌, ◌<◌, length, map, is_some, position, not, true, false, IfSome, option_and_then};
ghost use Rattle.serde_json.specs.View.{view, members_view};
ghost use Rattle.melon_schema.specs.Faults.{Gives};
ghost use Rattle.melon_schema.specs.Json.{each, named, text_at};
ghost use Rattle.melon_schema.specs.Refusals.{Answers};
ghost use Rattle.melon_raw.specs.Datum.{whole_in_profile};
ghost use Rattle.melon_change.specs.Forms.{value_of, field_of, set_of, create_of, update_of, delete_of, destroy_of, op_of, first_none, fault_in, ops_of};

use crate::{Op, OpsFault};
use melon_raw::OpField;
use melon_schema::reader::{FromJson, has_only, items_of, members_given, read_each, text_at};
use melon_schema::{List, Refusal};
use serde_json::{Map, Value};
use std::alloc::Global;

fn read_set(alloc: Global, json: &Value) -> Result<List<OpField>, Refusal>
    ensures { Answers result (set_of true (view json.now)) }
{
    match json.get("set") {
        Some(set) => members_given(alloc, set),
        None => Err(Refusal::Form),
    }
}

#[tactic(auto, unfolding(crate::specs::Forms::create_of))]
fn read_create(alloc: Global, json: &Value) -> Result<Op, Refusal>
    ensures { Answers result (create_of true (view json.now)) }
{
    if !has_only(json, &["create", "id", "set"]) {
        return Err(Refusal::Form);
    }
    let table = text_at(alloc, json, "create")?;
    let id = text_at(alloc, json, "id")?;
    let set = read_set(alloc, json)?;
    Ok(Op::Create { table, id, set })
}

#[tactic(auto, unfolding(crate::specs::Forms::update_of))]
fn read_update(alloc: Global, json: &Value) -> Result<Op, Refusal>
    ensures { Answers result (update_of true (view json.now)) }
{
    if !has_only(json, &["update", "id", "set"]) {
        return Err(Refusal::Form);
    }
    let table = text_at(alloc, json, "update")?;
    let id = text_at(alloc, json, "id")?;
    let set = read_set(alloc, json)?;
    Ok(Op::Update { table, id, set })
}

#[tactic(auto, unfolding(crate::specs::Forms::delete_of))]
fn read_delete(alloc: Global, json: &Value) -> Result<Op, Refusal>
    ensures { Answers result (delete_of (view json.now)) }
{
    if !has_only(json, &["delete", "id"]) {
        return Err(Refusal::Form);
    }
    let table = text_at(alloc, json, "delete")?;
    let id = text_at(alloc, json, "id")?;
    Ok(Op::MarkDeleted { table, id })
}

#[tactic(auto, unfolding(crate::specs::Forms::destroy_of))]
fn read_destroy(alloc: Global, json: &Value) -> Result<Op, Refusal>
    ensures { Answers result (destroy_of (view json.now)) }
{
    if !has_only(json, &["destroy", "id"]) {
        return Err(Refusal::Form);
    }
    let table = text_at(alloc, json, "destroy")?;
    let id = text_at(alloc, json, "id")?;
    Ok(Op::Destroy { table, id })
}

impl FromJson for Op {
    ghost form = { op_of true };

    fn from_json(alloc: Global, json: &Value) -> Result<Op, Refusal> {
        if json.get("create").is_some() {
            return read_create(alloc, json);
        }
        if json.get("update").is_some() {
            return read_update(alloc, json);
        }
        if json.get("delete").is_some() {
            return read_delete(alloc, json);
        }
        read_destroy(alloc, json)
    }
}

/// Whether it is the value of a column: exactly, or in its form alone.
fn is_value(json: &Value, exact: bool) -> bool
    ensures { result ≡ is_some (value_of exact (view json.now)) }
{
    match json {
        Value::Null | Value::Bool(_) | Value::String(_) => true,
        Value::Number(number) => !exact || is_in_profile(number.as_i64()),
        Value::Array(_) | Value::Object(_) => false,
    }
}

fn is_in_profile(number: Option<i64>) -> bool
    ensures { result ≡ is_some (option_and_then whole_in_profile number) }
{
    match number {
        Some(number) => number >= -9007199254740991 && number <= 9007199254740991,
        None => false,
    }
}

fn are_values(members: &Map<String, Value>, exact: bool) -> bool
    ensures { result ≡ is_some (each (λ m. field_of exact m.0 m.1) (named (members_view members.now.entries))) }
{
    for (_key, value) in members.iter() {
        if !is_value(value, exact) {
            return false;
        }
    }
    true
}

fn is_set(json: &Value, exact: bool) -> bool
    ensures { result ≡ is_some (set_of exact (view json.now)) }
{
    match json.get("set").and_then(Value::as_object) {
        Some(members) => are_values(members, exact),
        None => false,
    }
}

fn is_text_at(json: &Value, key: &str) -> bool
    ensures { result ≡ is_some (text_at key.now (view json.now)) }
{
    json.get(key).and_then(Value::as_str).is_some()
}

#[tactic(auto, unfolding(crate::specs::Forms::create_of))]
fn is_create(json: &Value, exact: bool) -> bool
    ensures { result ≡ is_some (create_of exact (view json.now)) }
{
    has_only(json, &["create", "id", "set"])
        && is_text_at(json, "create")
        && is_text_at(json, "id")
        && is_set(json, exact)
}

#[tactic(auto, unfolding(crate::specs::Forms::update_of))]
fn is_update(json: &Value, exact: bool) -> bool
    ensures { result ≡ is_some (update_of exact (view json.now)) }
{
    has_only(json, &["update", "id", "set"])
        && is_text_at(json, "update")
        && is_text_at(json, "id")
        && is_set(json, exact)
}

#[tactic(auto, unfolding(crate::specs::Forms::delete_of))]
fn is_delete(json: &Value) -> bool
    ensures { result ≡ is_some (delete_of (view json.now)) }
{
    has_only(json, &["delete", "id"]) && is_text_at(json, "delete") && is_text_at(json, "id")
}

#[tactic(auto, unfolding(crate::specs::Forms::destroy_of))]
fn is_destroy(json: &Value) -> bool
    ensures { result ≡ is_some (destroy_of (view json.now)) }
{
    has_only(json, &["destroy", "id"]) && is_text_at(json, "destroy") && is_text_at(json, "id")
}

/// Whether it is an operation: exactly, or in its form alone.
fn is_op(json: &Value, exact: bool) -> bool
    ensures { result ≡ is_some (op_of exact (view json.now)) }
{
    if json.get("create").is_some() {
        return is_create(json, exact);
    }
    if json.get("update").is_some() {
        return is_update(json, exact);
    }
    if json.get("delete").is_some() {
        return is_delete(json);
    }
    is_destroy(json)
}

fn first_refused(items: &[Value], exact: bool) -> Option<usize>
    ensures first { result ≡ position (λ item. not (is_some (op_of exact (view item)))) items.now }
    ensures within { IfSome result (λ i. i < length items.now) }
{
    items.iter().position(|item| !is_op(item, exact))
}

/// The first that is no operation.
fn first_none(items: &[Value], exact: bool) -> Option<usize>
    ensures first { result ≡ first_none exact (map view items.now) }
    ensures within { IfSome result (λ i. i < length items.now) }
{
    first_refused(items, exact)
}

fn fault_of(items: &[Value]) -> OpsFault
    ensures { result ≡ fault_in (first_none false (map view items.now)) (first_none true (map view items.now)) }
{
    match first_none(items, false) {
        Some(i) => OpsFault::Form { op: i as u64 + 1 },
        None => {
            match first_none(items, true) {
                Some(i) => OpsFault::Number { op: i as u64 + 1 },
                None => OpsFault::Form { op: 0 },
            }
        }
    }
}

/// The operations that a JSON lists. The fields of each ascend by their columns.
pub fn read_ops(alloc: Global, json: &Value) -> Result<List<Op>, OpsFault>
    ensures { Gives OpsFault.Memory result (ops_of (view json.now)) }
{
    match items_of(json) {
        None => Err(OpsFault::Form { op: 0 }),
        Some(items) => {
            match read_each(alloc, items) {
                Ok(ops) => Ok(ops),
                Err(Refusal::Memory) => Err(OpsFault::Memory),
                Err(Refusal::Form) => Err(fault_of(items)),
            }
        }
    }
}
