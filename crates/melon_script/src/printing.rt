//! The texts of items.
ghost use Rattle.std.specs.Prelude.{◌≡◌, ◌++◌, map, IfOk, OnOk, string_bytes};
ghost use Rattle.serde_json.specs.View.{view, members_view};
ghost use Rattle.melon_script.specs.Printed.{list_text, quoted, with_commas, joined, open_text, close_text, holds_text, waits_text, nest_text, depth_text, next_text, free_text, write_text, fetch_text, rows_head, rows_text, with_fields, given_row_data, given_row_text, given_rows_text, given_text, emit_head, emit_text, still_text, drop_text, parent_head, parent_text, children_text, backend_text, server_head, server_text, group_word, detail_text, details_text, refused_head, refused_text, item_text, answer_text};

use crate::Answer;
use crate::item::{Detail, Given, GivenRow, Group, Item};
use melon_raw::{Id, OpField};
use melon_schema::List;
use serde_json::{Map, Value, put};
use std::alloc::{AllocError, Global};

fn list_text(alloc: Global, ids: &[Id]) -> Result<String, AllocError>
    ensures { IfOk result (λ text. string_bytes text ≡ list_text ids.now) }
{
    let mut items = Vec::new(alloc);
    for id in ids {
        items.push(Value::String(String::from_str(alloc, id.as_str())?))?;
    }
    Value::Array(items).to_string(alloc)
}

fn quoted(alloc: Global, text: &str) -> Result<String, AllocError>
    ensures { IfOk result (λ written. string_bytes written ≡ quoted text.now) }
{
    Value::String(String::from_str(alloc, text)?).to_string(alloc)
}

fn open_text(alloc: Global, app: &str, rows: u64, last: u64) -> Result<String, AllocError>
    ensures { IfOk result (λ text. string_bytes text ≡ open_text app.now rows last) }
{
    format!(in alloc; "open {app} rows {rows} last {last}\n")
}

fn close_text(alloc: Global, app: &str) -> Result<String, AllocError>
    ensures { IfOk result (λ text. string_bytes text ≡ close_text app.now) }
{
    format!(in alloc; "close {app}\n")
}

fn holds_text(alloc: Global, app: &str, writer: &str) -> Result<String, AllocError>
    ensures { IfOk result (λ text. string_bytes text ≡ holds_text app.now writer.now) }
{
    format!(in alloc; "enter {app} {writer} holds\n")
}

fn waits_text(alloc: Global, app: &str, writer: &str, before: u64) -> Result<String, AllocError>
    ensures { IfOk result (λ text. string_bytes text ≡ waits_text app.now writer.now before) }
{
    format!(in alloc; "enter {app} {writer} waits {before}\n")
}

fn nest_text(alloc: Global, app: &str, writer: &str, depth: u64) -> Result<String, AllocError>
    ensures { IfOk result (λ text. string_bytes text ≡ nest_text app.now writer.now depth) }
{
    format!(in alloc; "nest {app} {writer} depth {depth}\n")
}

fn depth_text(alloc: Global, app: &str, writer: &str, depth: u64) -> Result<String, AllocError>
    ensures { IfOk result (λ text. string_bytes text ≡ depth_text app.now writer.now depth) }
{
    format!(in alloc; "leave {app} {writer} depth {depth}\n")
}

fn next_text(alloc: Global, app: &str, writer: &str, next: &str) -> Result<String, AllocError>
    ensures { IfOk result (λ text. string_bytes text ≡ next_text app.now writer.now next.now) }
{
    format!(in alloc; "leave {app} {writer} next {next}\n")
}

fn free_text(alloc: Global, app: &str, writer: &str) -> Result<String, AllocError>
    ensures { IfOk result (λ text. string_bytes text ≡ free_text app.now writer.now) }
{
    format!(in alloc; "leave {app} {writer} free\n")
}

fn write_text(alloc: Global, app: &str, at: u64) -> Result<String, AllocError>
    ensures { IfOk result (λ text. string_bytes text ≡ write_text app.now at) }
{
    format!(in alloc; "write {app} at {at}\n")
}

fn fetch_text(alloc: Global, app: &str, ids: &[Id]) -> Result<String, AllocError>
    ensures { IfOk result (λ text. string_bytes text ≡ fetch_text app.now ids.now) }
{
    let list = list_text(alloc, ids)?;
    let list = list.as_str();
    format!(in alloc; "fetch {app} {list}\n")
}

/// Adds each behind a comma.
fn put_with_commas(out: &mut Vec<u8>, rows: &[List<u8>]) -> Result<(), AllocError>
    ensures { OnOk result (out.new.items ≡ out.old.items ++ with_commas rows.now) }
{
    for row in rows {
        out.push(b',')?;
        out.extend_from_slice(row.as_slice())?;
    }
    Ok(())
}

/// Adds them one after another, with commas between.
fn put_joined(out: &mut Vec<u8>, rows: &[List<u8>]) -> Result<(), AllocError>
    ensures { OnOk result (out.new.items ≡ out.old.items ++ joined rows.now) }
{
    match rows {
        [] => Ok(()),
        [first, rest @ ..] => {
            out.extend_from_slice(first.as_slice())?;
            put_with_commas(out, rest)
        }
    }
}

fn rows_head(alloc: Global, app: &str, table: &str) -> Result<String, AllocError>
    ensures { IfOk result (λ text. string_bytes text ≡ rows_head app.now table.now) }
{
    format!(in alloc; "rows {app} {table} [")
}

fn rows_text(
    alloc: Global,
    app: &str,
    table: &str,
    rows: &[List<u8>],
) -> Result<Vec<u8>, AllocError>
    ensures { IfOk result (λ out. out.items ≡ rows_text app.now table.now rows.now) }
{
    let mut out = rows_head(alloc, app, table)?.into_bytes();
    put_joined(&mut out, rows)?;
    out.extend_from_slice(b"]\n")?;
    Ok(out)
}

/// Puts each field's value under its column's name.
fn put_fields(
    members: &mut Map<String, Value>,
    alloc: Global,
    fields: &[OpField],
) -> Result<(), AllocError>
    ensures { OnOk result (members_view members.new.entries ≡ with_fields fields.now (members_view members.old.entries)) }
{
    for field in fields {
        put(
            members,
            alloc,
            field.column.as_str(),
            field.value.to_json(alloc)?,
        )?;
    }
    Ok(())
}

fn given_row_json(alloc: Global, row: &GivenRow) -> Result<Value, AllocError>
    ensures { IfOk result (λ json. view json ≡ given_row_data row.now) }
{
    let mut members = Map::new(alloc);
    let id = Value::try_from_str(alloc, row.id.as_str())?;
    put(&mut members, alloc, "id", id)?;
    put_fields(&mut members, alloc, row.fields.as_slice())?;
    Ok(Value::from(members))
}

/// The text of a row's object.
fn given_row_text(alloc: Global, row: &GivenRow) -> Result<String, AllocError>
    ensures { IfOk result (λ text. string_bytes text ≡ given_row_text row.now) }
{
    let json = given_row_json(alloc, row)?;
    json.to_string(alloc)
}

/// Adds each behind a comma.
fn put_rows_with_commas(
    alloc: Global,
    out: &mut Vec<u8>,
    rows: &[GivenRow],
) -> Result<(), AllocError>
    ensures { OnOk result (out.new.items ≡ out.old.items ++ with_commas (map given_row_text rows.now)) }
{
    for row in rows {
        let text = given_row_text(alloc, row)?;
        out.extend_from_slice(b",")?;
        out.extend_from_slice(text.as_bytes())?;
    }
    Ok(())
}

/// Adds them one after another, with commas between.
fn put_rows_joined(alloc: Global, out: &mut Vec<u8>, rows: &[GivenRow]) -> Result<(), AllocError>
    ensures { OnOk result (out.new.items ≡ out.old.items ++ joined (map given_row_text rows.now)) }
{
    match rows {
        [] => Ok(()),
        [first, rest @ ..] => {
            let text = given_row_text(alloc, first)?;
            out.extend_from_slice(text.as_bytes())?;
            put_rows_with_commas(alloc, out, rest)
        }
    }
}

/// Adds a list of rows.
fn put_rows(alloc: Global, out: &mut Vec<u8>, rows: &[GivenRow]) -> Result<(), AllocError>
    ensures { OnOk result (out.new.items ≡ out.old.items ++ given_rows_text rows.now) }
{
    out.push(b'[')?;
    put_rows_joined(alloc, out, rows)?;
    out.push(b']')?;
    Ok(())
}

/// Adds what is shown.
fn put_given(alloc: Global, out: &mut Vec<u8>, given: &Given) -> Result<(), AllocError>
    ensures { OnOk result (out.new.items ≡ out.old.items ++ given_text given.now) }
{
    match given {
        Given::Ids(ids) => {
            let text = list_text(alloc, ids.as_slice())?;
            out.extend_from_slice(text.as_bytes())
        }
        Given::Rows(rows) => put_rows(alloc, out, rows.as_slice()),
        Given::Nothing => out.extend_from_slice(b"null"),
        Given::Missing => {
            let text = quoted(alloc, "missing")?;
            out.extend_from_slice(text.as_bytes())
        }
        Given::Row(body) => out.extend_from_slice(body.as_slice()),
    }
}

fn emit_head(alloc: Global, app: &str, name: &str, at: u64) -> Result<String, AllocError>
    ensures { IfOk result (λ text. string_bytes text ≡ emit_head app.now name.now at) }
{
    format!(in alloc; "emit {app} {name} at {at} ")
}

fn emit_text(
    alloc: Global,
    app: &str,
    name: &str,
    at: u64,
    given: &Given,
) -> Result<Vec<u8>, AllocError>
    ensures { IfOk result (λ out. out.items ≡ emit_text app.now name.now at given.now) }
{
    let mut out = emit_head(alloc, app, name, at)?.into_bytes();
    put_given(alloc, &mut out, given)?;
    out.push(b'\n')?;
    Ok(out)
}

fn still_text(alloc: Global, app: &str, name: &str, at: u64) -> Result<String, AllocError>
    ensures { IfOk result (λ text. string_bytes text ≡ still_text app.now name.now at) }
{
    format!(in alloc; "still {app} {name} at {at}\n")
}

fn drop_text(alloc: Global, app: &str, name: &str) -> Result<String, AllocError>
    ensures { IfOk result (λ text. string_bytes text ≡ drop_text app.now name.now) }
{
    format!(in alloc; "drop {app} {name}\n")
}

fn parent_head(alloc: Global, app: &str) -> Result<String, AllocError>
    ensures { IfOk result (λ text. string_bytes text ≡ parent_head app.now) }
{
    format!(in alloc; "parent {app} ")
}

fn parent_text(alloc: Global, app: &str, given: &Given) -> Result<Vec<u8>, AllocError>
    ensures { IfOk result (λ out. out.items ≡ parent_text app.now given.now) }
{
    let mut out = parent_head(alloc, app)?.into_bytes();
    put_given(alloc, &mut out, given)?;
    out.push(b'\n')?;
    Ok(out)
}

fn children_text(alloc: Global, app: &str, ids: &[Id]) -> Result<String, AllocError>
    ensures { IfOk result (λ text. string_bytes text ≡ children_text app.now ids.now) }
{
    let list = list_text(alloc, ids)?;
    let list = list.as_str();
    format!(in alloc; "children {app} {list}\n")
}

fn backend_text(alloc: Global, revision: u64) -> Result<String, AllocError>
    ensures { IfOk result (λ text. string_bytes text ≡ backend_text revision) }
{
    format!(in alloc; "backend revision {revision}\n")
}

fn server_head(alloc: Global, table: &str, revision: u64) -> Result<String, AllocError>
    ensures { IfOk result (λ text. string_bytes text ≡ server_head table.now revision) }
{
    format!(in alloc; "server {table} revision {revision} ")
}

fn server_text(
    alloc: Global,
    table: &str,
    revision: u64,
    rows: &[u8],
) -> Result<Vec<u8>, AllocError>
    ensures { IfOk result (λ out. out.items ≡ server_text table.now revision rows.now) }
{
    let mut out = server_head(alloc, table, revision)?.into_bytes();
    out.extend_from_slice(rows)?;
    out.push(b'\n')?;
    Ok(out)
}

fn group_word(group: Group) -> &'static str
    ensures { result.now ≡ group_word group }
{
    match group {
        Group::App => "app",
        Group::Open => "open",
        Group::Schema => "schema",
        Group::Backend => "backend",
        Group::Table => "table",
        Group::Queue => "queue",
        Group::Ops => "ops",
        Group::Batch => "batch",
        Group::Full => "full",
        Group::Query => "query",
        Group::Observer => "observer",
        Group::Relation => "relation",
        Group::Keeper => "keeper",
    }
}

fn detail_text(alloc: Global, detail: &Detail) -> Result<String, AllocError>
    ensures { IfOk result (λ text. string_bytes text ≡ detail_text detail.now) }
{
    match detail {
        Detail::Number(number) => format!(in alloc; "{number}"),
        Detail::Words(text) => quoted(alloc, text.as_str()),
        Detail::Absent => String::from_str(alloc, "null"),
    }
}

/// Adds each behind a space.
fn put_details(alloc: Global, out: &mut Vec<u8>, details: &[Detail]) -> Result<(), AllocError>
    ensures { OnOk result (out.new.items ≡ out.old.items ++ details_text details.now) }
{
    for detail in details {
        let text = detail_text(alloc, detail)?;
        out.push(b' ')?;
        out.extend_from_slice(text.as_bytes())?;
    }
    Ok(())
}

fn refused_head(alloc: Global, group: Group, number: u64) -> Result<String, AllocError>
    ensures { IfOk result (λ text. string_bytes text ≡ refused_head group number) }
{
    let word = group_word(group);
    format!(in alloc; "refused {word} {number}")
}

fn refused_text(
    alloc: Global,
    group: Group,
    number: u64,
    details: &[Detail],
) -> Result<Vec<u8>, AllocError>
    ensures { IfOk result (λ out. out.items ≡ refused_text group number details.now) }
{
    let mut out = refused_head(alloc, group, number)?.into_bytes();
    put_details(alloc, &mut out, details)?;
    out.push(b'\n')?;
    Ok(out)
}

/// The text of one item.
fn item_text(alloc: Global, item: &Item) -> Result<Vec<u8>, AllocError>
    ensures { IfOk result (λ out. out.items ≡ item_text item.now) }
{
    match item {
        Item::Open { app, rows, last } => {
            Ok(open_text(alloc, app.as_str(), *rows, *last)?.into_bytes())
        }
        Item::Close { app } => Ok(close_text(alloc, app.as_str())?.into_bytes()),
        Item::EnterHolds { app, writer } => {
            Ok(holds_text(alloc, app.as_str(), writer.as_str())?.into_bytes())
        }
        Item::EnterWaits {
            app,
            writer,
            before,
        } => Ok(waits_text(alloc, app.as_str(), writer.as_str(), *before)?.into_bytes()),
        Item::Nest { app, writer, depth } => {
            Ok(nest_text(alloc, app.as_str(), writer.as_str(), *depth)?.into_bytes())
        }
        Item::LeaveDepth { app, writer, depth } => {
            Ok(depth_text(alloc, app.as_str(), writer.as_str(), *depth)?.into_bytes())
        }
        Item::LeaveNext { app, writer, next } => {
            Ok(next_text(alloc, app.as_str(), writer.as_str(), next.as_str())?.into_bytes())
        }
        Item::LeaveFree { app, writer } => {
            Ok(free_text(alloc, app.as_str(), writer.as_str())?.into_bytes())
        }
        Item::Write { app, at } => Ok(write_text(alloc, app.as_str(), *at)?.into_bytes()),
        Item::Fetch { app, ids } => {
            Ok(fetch_text(alloc, app.as_str(), ids.as_slice())?.into_bytes())
        }
        Item::Rows { app, table, rows } => {
            rows_text(alloc, app.as_str(), table.as_str(), rows.as_slice())
        }
        Item::Emit {
            app,
            name,
            at,
            given,
        } => emit_text(alloc, app.as_str(), name.as_str(), *at, given),
        Item::Still { app, name, at } => {
            Ok(still_text(alloc, app.as_str(), name.as_str(), *at)?.into_bytes())
        }
        Item::Drop { app, name } => {
            Ok(drop_text(alloc, app.as_str(), name.as_str())?.into_bytes())
        }
        Item::Parent { app, given } => parent_text(alloc, app.as_str(), given),
        Item::Children { app, ids } => {
            Ok(children_text(alloc, app.as_str(), ids.as_slice())?.into_bytes())
        }
        Item::Backend { revision } => Ok(backend_text(alloc, *revision)?.into_bytes()),
        Item::Server {
            table,
            revision,
            rows,
        } => server_text(alloc, table.as_str(), *revision, rows.as_slice()),
        Item::Refused {
            group,
            number,
            details,
        } => refused_text(alloc, *group, *number, details.as_slice()),
    }
}

/// The texts of the items, one after another, each ended by a line feed.
pub fn print(alloc: Global, answer: &Answer) -> Result<Vec<u8>, AllocError>
    ensures { IfOk result (λ out. out.items ≡ answer_text answer.now) }
{
    let mut out = Vec::new(alloc);
    for item in answer.as_slice() {
        let text = item_text(alloc, item)?;
        out.extend_from_slice(text.as_slice())?;
    }
    Ok(out)
}
