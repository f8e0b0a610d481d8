//! The form of a condition in JSON.
ghost use Rattle.std.specs.Prelude.{◌≡◌, map};
ghost use Rattle.serde_json.specs.View.{view};
ghost use Rattle.melon_schema.specs.Json.{each, list_at};
ghost use Rattle.melon_schema.specs.Refusals.{Answers};
ghost use Rattle.melon_raw.specs.Datum.{datum_of};
ghost use Rattle.melon_query.specs.QueryForm.{op_named, may_have_length, many_form, value_form, right_form, compare_form, cond_form};

use crate::CompareOp;
use melon_raw::Datum;
use melon_raw::datum::datum_of;
use melon_schema::reader::{has_only, items_of, text_at};
use melon_schema::{List, Refusal, Text};
use serde_json::Value;
use sqlite_items::Items;
use std::alloc::Global;

/// The right side of a comparison as it is written.
#[derive(Debug, Drop)]
pub enum RightForm {
    One(Datum),
    Many(List<Datum>),
    Other(Text),
}

/// A comparison as it is written.
#[derive(Debug, Drop)]
pub struct CompareForm {
    pub column: Text,
    pub op: CompareOp,
    pub right: RightForm,
}

/// A condition as it is written.
#[derive(Debug, Drop)]
pub enum CondForm {
    Compare(CompareForm),
    All(Items<CondForm>),
    Any(Items<CondForm>),
    On { table: Text, conds: Items<CondForm> },
}

fn op_named(word: &str) -> Result<CompareOp, Refusal>
    ensures { Answers result (op_named word.now) }
{
    match word {
        "eq" => Ok(CompareOp::Eq),
        "notEq" => Ok(CompareOp::NotEq),
        "gt" => Ok(CompareOp::Gt),
        "gte" => Ok(CompareOp::Gte),
        "weakGt" => Ok(CompareOp::WeakGt),
        "lt" => Ok(CompareOp::Lt),
        "lte" => Ok(CompareOp::Lte),
        "between" => Ok(CompareOp::Between),
        "oneOf" => Ok(CompareOp::OneOf),
        "notIn" => Ok(CompareOp::NotIn),
        "like" => Ok(CompareOp::Like),
        "notLike" => Ok(CompareOp::NotLike),
        "includes" => Ok(CompareOp::Includes),
        _ => Err(Refusal::Form),
    }
}

fn may_have_length(op: CompareOp, length: usize) -> bool
    ensures { result ≡ may_have_length op length }
{
    match op {
        CompareOp::Between => length == 2,
        CompareOp::OneOf | CompareOp::NotIn => true,
        CompareOp::Eq
        | CompareOp::NotEq
        | CompareOp::Gt
        | CompareOp::Gte
        | CompareOp::WeakGt
        | CompareOp::Lt
        | CompareOp::Lte
        | CompareOp::Like
        | CompareOp::NotLike
        | CompareOp::Includes => false,
    }
}

fn values_of(alloc: Global, items: &[Value]) -> Result<List<Datum>, Refusal>
    ensures { Answers result (each datum_of (map view items.now)) }
{
    let mut values = List::new(alloc);
    for item in items {
        values.push(datum_of(alloc, item)?)?;
    }
    Ok(values)
}

#[tactic(auto, unfolding(crate::specs::QueryForm::many_form))]
fn many_form(alloc: Global, op: CompareOp, items: &[Value]) -> Result<RightForm, Refusal>
    ensures { Answers result (many_form op (map view items.now)) }
{
    if !may_have_length(op, items.len()) {
        return Err(Refusal::Form);
    }
    let values = values_of(alloc, items)?;
    Ok(RightForm::Many(values))
}

fn value_form(alloc: Global, op: CompareOp, json: &Value) -> Result<RightForm, Refusal>
    ensures { Answers result (value_form op (view json.now)) }
{
    match items_of(json) {
        Some(items) => many_form(alloc, op, items),
        None => Ok(RightForm::One(datum_of(alloc, json)?)),
    }
}

fn right_form(alloc: Global, op: CompareOp, json: &Value) -> Result<RightForm, Refusal>
    ensures { Answers result (right_form op (view json.now)) }
{
    if has_only(json, &["column", "op", "value"]) {
        return match json.get("value") {
            Some(value) => value_form(alloc, op, value),
            None => Err(Refusal::Form),
        };
    }
    if has_only(json, &["column", "op", "other"]) {
        return Ok(RightForm::Other(text_at(alloc, json, "other")?));
    }
    Err(Refusal::Form)
}

#[tactic(auto, unfolding(crate::specs::QueryForm::compare_form))]
fn compare_form(alloc: Global, json: &Value) -> Result<CompareForm, Refusal>
    ensures { Answers result (compare_form (view json.now)) }
{
    let column = text_at(alloc, json, "column")?;
    let word = text_at(alloc, json, "op")?;
    let op = op_named(word.as_str())?;
    let right = right_form(alloc, op, json)?;
    Ok(CompareForm { column, op, right })
}

/// The condition that the JSON is, at a place where an `on` may stand or not.
#[cycle(forms)]
#[tactic(auto, using(crate::proofs::Forms::cond_form_is), unfolding(crate::specs::QueryForm::cond_by))]
pub(crate) fn cond_form(alloc: Global, json: &Value, may: bool) -> Result<CondForm, Refusal>
    ensures { Answers result (cond_form (view json.now) may) }
{
    if has_only(json, &["and"]) {
        return Ok(CondForm::All(conds_at(alloc, json, "and", may)?));
    }
    if has_only(json, &["or"]) {
        return Ok(CondForm::Any(conds_at(alloc, json, "or", may)?));
    }
    if !has_only(json, &["on", "is"]) {
        return Ok(CondForm::Compare(compare_form(alloc, json)?));
    }
    if !may {
        return Err(Refusal::Form);
    }
    let table = text_at(alloc, json, "on")?;
    let conds = conds_at(alloc, json, "is", false)?;
    Ok(CondForm::On { table, conds })
}

#[cycle(forms)]
fn conds_at(alloc: Global, json: &Value, key: &str, may: bool) -> Result<Items<CondForm>, Refusal>
    ensures { Answers result (list_at (λ d. cond_form d may) key.now (view json.now)) }
{
    let Some(value) = json.get(key) else {
        return Err(Refusal::Form);
    };
    match items_of(value) {
        Some(items) => conds_of(alloc, items, may),
        None => Err(Refusal::Form),
    }
}

#[cycle(forms)]
fn conds_of(alloc: Global, items: &[Value], may: bool) -> Result<Items<CondForm>, Refusal>
    ensures { Answers result (each (λ d. cond_form d may) (map view items.now)) }
{
    let mut conds = Items::new(alloc);
    for item in items {
        conds.push(cond_form(alloc, item, may)?)?;
    }
    Ok(conds)
}
