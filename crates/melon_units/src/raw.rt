ghost use Rattle.std.specs.Prelude.{◌≡◌, ◌<◌, IfOk, length};

use melon_raw::datum::datum_of;
use melon_raw::steps::{Steps, new_counter};
use melon_raw::{Datum, Id, IdFault, Raw, Status, sanitise};
use melon_schema::{ColumnSchema, Kind, List, TableSchema, Text, Twin};
use serde_json::Value;
use std::alloc::{AllocError, Global};
use std::marker::Brand;
use std::sync::ledger::{Blank, Ledger};
use std::test::Fail;

fn take_two<L: Ledger>(counter: Blank) -> u64
    requires name { counter.name ≡ L.name }
    requires parts { counter.parts ≡ L.parts }
    requires shared { 0 < counter.parts }
    ensures { result ≡ 2 }
{
    let mut steps = Steps::<L>::open(counter);
    steps.tick();
    steps.tick();
    2
}

fn opens_a_counter() -> u64
    ensures { result ≡ 2 }
{
    take_two::<Brand>(new_counter())
}

#[test]
fn a_counter_is_opened(rt: HostRuntime) {
    assert_eq!(rt; opens_a_counter(), 2);
}

fn column(
    alloc: Global,
    name: &str,
    kind: Kind,
    optional: bool,
) -> Result<ColumnSchema, AllocError> {
    Ok(ColumnSchema {
        name: Text::new(alloc, name)?,
        kind,
        optional,
        indexed: false,
    })
}

/// Posts with a title, a body, an optional score and whether they are pinned.
fn posts(alloc: Global) -> Result<TableSchema, AllocError>
    ensures { IfOk result (λ table. length table.columns ≡ 4) }
{
    let mut columns = List::new(alloc);
    columns.push(column(alloc, "title", Kind::Words, false)?)?;
    columns.push(column(alloc, "body", Kind::Words, false)?)?;
    columns.push(column(alloc, "score", Kind::Whole, true)?)?;
    columns.push(column(alloc, "pinned", Kind::Truth, false)?)?;
    Ok(TableSchema {
        name: Text::new(alloc, "posts")?,
        columns,
        associations: List::new(alloc),
    })
}

fn value_of(alloc: Global, text: &str) -> Result<Datum, Fail> {
    let json = Value::from_str(alloc, text)?;
    Ok(datum_of(alloc, &json)?)
}

fn keeps(
    alloc: Global,
    kind: Kind,
    optional: bool,
    value: Datum,
    kept: &Datum,
) -> Result<bool, Fail> {
    let column = column(alloc, "c", kind, optional)?;
    Ok(sanitise(alloc, &column, value).is(kept))
}

/// A column of that kind keeps the value so.
fn kept_as(alloc: Global, kind: Kind, optional: bool, value: &str, kept: &str) -> Result<(), Fail> {
    let given = value_of(alloc, value)?;
    let wanted = value_of(alloc, kept)?;
    if !keeps(alloc, kind, optional, given, &wanted)? {
        return Err(Fail::from(value));
    }
    Ok(())
}

#[test]
fn a_column_keeps_its_kind(rt: HostRuntime) -> Result<(), Fail> {
    kept_as(rt.alloc(), Kind::Words, true, "1", "null")?;
    kept_as(rt.alloc(), Kind::Words, false, "null", "\"\"")?;
    kept_as(rt.alloc(), Kind::Words, false, "\"a\"", "\"a\"")?;
    kept_as(rt.alloc(), Kind::Whole, false, "\"1\"", "0")?;
    kept_as(rt.alloc(), Kind::Whole, true, "true", "null")?;
    kept_as(
        rt.alloc(),
        Kind::Whole,
        false,
        "-9007199254740991",
        "-9007199254740991",
    )?;
    kept_as(rt.alloc(), Kind::Truth, true, "1", "true")?;
    kept_as(rt.alloc(), Kind::Truth, true, "0", "false")?;
    kept_as(rt.alloc(), Kind::Truth, true, "2", "null")?;
    kept_as(rt.alloc(), Kind::Truth, false, "\"true\"", "false")?;
    Ok(())
}

/// The text is an id, or has a bad form.
fn is_id(alloc: Global, text: &str, good: bool) -> Result<(), Fail> {
    let read = Id::read(alloc, text);
    if good != matches!(&read, Ok(_)) || good == matches!(&read, Err(IdFault::Bad)) {
        return Err(Fail::from(text));
    }
    Ok(())
}

#[test]
fn an_id_is_of_its_form(rt: HostRuntime) -> Result<(), Fail> {
    is_id(rt.alloc(), "p1", true)?;
    is_id(rt.alloc(), "a.B_-9", true)?;
    is_id(rt.alloc(), "", false)?;
    is_id(rt.alloc(), "a b", false)?;
    is_id(rt.alloc(), "ü", false)?;
    Ok(())
}

const KEPT: &str =
    r#"{"_changed":"","_status":"synced","body":"","id":"p1","pinned":false,"score":null,"title":"a"}"#;

fn kept_text(alloc: Global, row: &Raw, table: &TableSchema) -> Result<String, Fail> {
    let bytes = row.encode(alloc, table)?;
    Ok(String::from_utf8(bytes)?)
}

fn made(alloc: Global, table: &TableSchema) -> Result<Raw, Fail> {
    let mut fields = List::new(alloc);
    fields.push((3, Datum::Whole(1)))?;
    fields.push((0, value_of(alloc, r#""a \"quoted\"\n\u0001é""#)?))?;
    let id = Id::read(alloc, "p1")?;
    Ok(Raw::created(alloc, table, id, fields)?)
}

#[test]
fn a_row_is_made(rt: HostRuntime) -> Result<(), Fail> {
    let table = posts(rt.alloc())?;
    let row = made(rt.alloc(), &table)?;
    let text =
        r#"{"_changed":"","_status":"created","body":"","id":"p1","pinned":true,"score":null,"title":"a \"quoted\"\n\u0001é"}"#;
    assert_eq!(rt; kept_text(rt.alloc(), &row, &table)?.as_str(), text);
    Ok(())
}

#[test]
fn a_copy_is_the_same(rt: HostRuntime) -> Result<(), Fail> {
    let table = posts(rt.alloc())?;
    let mut row = made(rt.alloc(), &table)?;
    let copy = row.copy(rt.alloc())?;
    assert!(rt; copy.same(&row));
    row.mark_deleted();
    assert!(rt; !copy.same(&row));
    assert_eq!(rt; row.synced_copy(rt.alloc())?.status, Status::Synced);
    Ok(())
}

fn edited(
    alloc: Global,
    table: &TableSchema,
    place: usize,
    value: Datum,
) -> Result<Option<Raw>, Fail> {
    let Some(mut row) = Raw::decode(alloc, KEPT.as_bytes(), table)? else {
        return Ok(None);
    };
    if place < table.columns.len() {
        row.edit(alloc, table, place, value)?;
    }
    Ok(Some(row))
}

/// The kept post is this, once the value was put at the place.
fn edits_to(
    alloc: Global,
    table: &TableSchema,
    place: usize,
    value: &str,
    after: &str,
) -> Result<(), Fail> {
    let value = value_of(alloc, value)?;
    let row = edited(alloc, table, place, value)?.ok_or("no row")?;
    if kept_text(alloc, &row, table)?.as_str() != after {
        return Err(Fail::from(after));
    }
    Ok(())
}

#[test]
fn an_edit_marks_what_changes(rt: HostRuntime) -> Result<(), Fail> {
    let table = posts(rt.alloc())?;
    edits_to(rt.alloc(), &table, 0, "\"a\"", KEPT)?;
    edits_to(rt.alloc(), &table, 2, "\"1\"", KEPT)?;
    edits_to(
        rt.alloc(),
        &table,
        0,
        "\"mine\"",
        r#"{"_changed":"title","_status":"updated","body":"","id":"p1","pinned":false,"score":null,"title":"mine"}"#,
    )?;
    edits_to(
        rt.alloc(),
        &table,
        3,
        "1",
        r#"{"_changed":"pinned","_status":"updated","body":"","id":"p1","pinned":true,"score":null,"title":"a"}"#,
    )?;
    Ok(())
}

/// The text is no encoding of a row.
fn is_no_row(alloc: Global, table: &TableSchema, text: &str) -> Result<(), Fail> {
    if Raw::decode(alloc, text.as_bytes(), table)?.is_some() {
        return Err(Fail::from(text));
    }
    Ok(())
}

#[test]
fn only_encodings_are_decoded(rt: HostRuntime) -> Result<(), Fail> {
    let alloc = rt.alloc();
    let table = posts(alloc)?;
    is_no_row(alloc, &table, "")?;
    is_no_row(alloc, &table, "[]")?;
    is_no_row(
        alloc,
        &table,
        r#"{"_status":"synced","_changed":"","body":"","id":"p1","pinned":false,"score":null,"title":"a"}"#,
    )?;
    is_no_row(
        alloc,
        &table,
        r#"{"_changed":"", "_status":"synced","body":"","id":"p1","pinned":false,"score":null,"title":"a"}"#,
    )?;
    is_no_row(
        alloc,
        &table,
        r#"{"_changed":"title,title","_status":"updated","body":"","id":"p1","pinned":false,"score":null,"title":"a"}"#,
    )?;
    is_no_row(
        alloc,
        &table,
        r#"{"_changed":"none","_status":"updated","body":"","id":"p1","pinned":false,"score":null,"title":"a"}"#,
    )?;
    is_no_row(
        alloc,
        &table,
        r#"{"_changed":"title,","_status":"updated","body":"","id":"p1","pinned":false,"score":null,"title":"a"}"#,
    )?;
    is_no_row(
        alloc,
        &table,
        r#"{"_changed":"","_status":"new","body":"","id":"p1","pinned":false,"score":null,"title":"a"}"#,
    )?;
    is_no_row(
        alloc,
        &table,
        r#"{"_changed":"","_status":"synced","body":"","id":"p 1","pinned":false,"score":null,"title":"a"}"#,
    )?;
    is_no_row(
        alloc,
        &table,
        r#"{"_changed":"","_status":"synced","body":"","id":"p1","pinned":0,"score":null,"title":"a"}"#,
    )?;
    is_no_row(
        alloc,
        &table,
        r#"{"_changed":"","_status":"synced","body":"","id":"p1","pinned":false,"score":1.0,"title":"a"}"#,
    )?;
    is_no_row(
        alloc,
        &table,
        r#"{"_changed":"","_status":"synced","body":"","id":"p1","pinned":false,"score":9007199254740992,"title":"a"}"#,
    )?;
    is_no_row(
        alloc,
        &table,
        r#"{"_changed":"","_status":"synced","body":null,"id":"p1","pinned":false,"score":null,"title":"a"}"#,
    )?;
    is_no_row(
        alloc,
        &table,
        r#"{"_changed":"","_status":"synced","body":"","id":"p1","pinned":false,"title":"a"}"#,
    )?;
    is_no_row(
        alloc,
        &table,
        r#"{"_changed":"","_status":"synced","a":1,"body":"","id":"p1","pinned":false,"score":null,"title":"a"}"#,
    )?;
    Ok(())
}

#[test]
fn marks_are_decoded(rt: HostRuntime) -> Result<(), Fail> {
    let table = posts(rt.alloc())?;
    let marked =
        r#"{"_changed":"score,title","_status":"created","body":"","id":"p1","pinned":false,"score":7,"title":"a"}"#;
    let row = Raw::decode(rt.alloc(), marked.as_bytes(), &table)?.ok_or("no row")?;
    assert_eq!(rt; row.marks.as_slice(), [2, 0].as_slice());
    Ok(())
}
