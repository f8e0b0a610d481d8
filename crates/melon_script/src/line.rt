//! A line of a script.
ghost use Rattle.std.specs.Prelude.{◌≡◌, Some};
ghost use Rattle.serde_json.specs.View.{view};
ghost use Rattle.melon_schema.specs.Refusals.{Answers};
ghost use Rattle.melon_script.specs.Seen.{seen, AnswersSeen, ReadsLine, Takes};
ghost use Rattle.melon_script.specs.Forms.{open_form, close_form, enter_form, nest_form, leave_form, text_if_at, write_form, fetch_form, rows_form, shape_of, shape_at, observe_form, watch_form, turn_form, drop_form, parent_form, children_form, backend_form, server_form, form_of, is_blank, line_of, part_at};

use melon_schema::reader::{has_only, items_of, json_of, read_each, text_at};
use melon_schema::{List, Refusal, Text};
use serde_json::Value;
use std::alloc::Global;

/// A line that isn't blank: one variant for each form, with a field for each further key. What a reader of its own
/// refuses by name is kept as it stands.
#[derive(Drop)]
pub enum Line {
    Open {
        app: Text,
        schema: Value,
    },
    Close {
        app: Text,
    },
    Enter {
        app: Text,
        writer: Text,
    },
    Nest {
        app: Text,
        writer: Text,
    },
    Leave {
        app: Text,
        writer: Text,
    },
    Write {
        app: Text,
        ops: Value,
        writer: Option<Text>,
    },
    Fetch {
        app: Text,
        table: Text,
        query: Value,
    },
    Rows {
        app: Text,
        table: Text,
    },
    Observe {
        app: Text,
        name: Text,
        table: Text,
        query: Value,
        shape: LineShape,
    },
    Watch {
        app: Text,
        name: Text,
        table: Text,
        id: Text,
        to: Text,
    },
    Turn {
        app: Text,
        name: Text,
    },
    Drop {
        app: Text,
        name: Text,
    },
    Parent {
        app: Text,
        table: Text,
        id: Text,
        to: Text,
    },
    Children {
        app: Text,
        table: Text,
        id: Text,
        to: Text,
    },
    Backend {
        schema: Value,
    },
    Server {
        table: Text,
    },
}

/// What an observer is to show: the ids, or the ids with the columns of these names.
#[derive(Drop)]
pub enum LineShape {
    Ids,
    Columns(List<Text>),
}

/// Why a line was not read.
#[derive(Clone, Copy, Debug, PartialEq, Eq)]
pub enum LineFault {
    /// The line is outside the grammar.
    Form,
    Memory,
}

/// The value under a key, which is taken out.
fn take_part(json: &mut Value, key: &str) -> Result<Value, Refusal>
    ensures { Takes result (part_at key.now (view json.old)) }
{
    match json.get_mut(key) {
        Some(part) => Ok(part.take()),
        None => Err(Refusal::Form),
    }
}

#[tactic(auto, unfolding(crate::specs::Forms::open_form))]
fn open_form(alloc: Global, json: &mut Value) -> Result<Line, Refusal>
    ensures { AnswersSeen result (open_form (view json.old)) }
{
    if !has_only(json, &["do", "app", "schema"]) {
        return Err(Refusal::Form);
    }
    let app = text_at(alloc, json, "app")?;
    let schema = take_part(json, "schema")?;
    Ok(Line::Open { app, schema })
}

#[tactic(auto, unfolding(crate::specs::Forms::close_form))]
fn close_form(alloc: Global, json: &Value) -> Result<Line, Refusal>
    ensures { AnswersSeen result (close_form (view json.now)) }
{
    if !has_only(json, &["do", "app"]) {
        return Err(Refusal::Form);
    }
    let app = text_at(alloc, json, "app")?;
    Ok(Line::Close { app })
}

#[tactic(auto, unfolding(crate::specs::Forms::enter_form))]
fn enter_form(alloc: Global, json: &Value) -> Result<Line, Refusal>
    ensures { AnswersSeen result (enter_form (view json.now)) }
{
    if !has_only(json, &["do", "app", "writer"]) {
        return Err(Refusal::Form);
    }
    let app = text_at(alloc, json, "app")?;
    let writer = text_at(alloc, json, "writer")?;
    Ok(Line::Enter { app, writer })
}

#[tactic(auto, unfolding(crate::specs::Forms::nest_form))]
fn nest_form(alloc: Global, json: &Value) -> Result<Line, Refusal>
    ensures { AnswersSeen result (nest_form (view json.now)) }
{
    if !has_only(json, &["do", "app", "writer"]) {
        return Err(Refusal::Form);
    }
    let app = text_at(alloc, json, "app")?;
    let writer = text_at(alloc, json, "writer")?;
    Ok(Line::Nest { app, writer })
}

#[tactic(auto, unfolding(crate::specs::Forms::leave_form))]
fn leave_form(alloc: Global, json: &Value) -> Result<Line, Refusal>
    ensures { AnswersSeen result (leave_form (view json.now)) }
{
    if !has_only(json, &["do", "app", "writer"]) {
        return Err(Refusal::Form);
    }
    let app = text_at(alloc, json, "app")?;
    let writer = text_at(alloc, json, "writer")?;
    Ok(Line::Leave { app, writer })
}

/// The text under a key, where there is one.
fn text_if_at(alloc: Global, json: &Value, key: &str) -> Result<Option<Text>, Refusal>
    ensures { Answers result (text_if_at key.now (view json.now)) }
{
    match json.get(key) {
        Some(part) => match part.as_str() {
            Some(text) => Ok(Some(Text::new(alloc, text)?)),
            None => Err(Refusal::Form),
        },
        None => Ok(None),
    }
}

#[tactic(auto, unfolding(crate::specs::Forms::write_form))]
fn write_form(alloc: Global, json: &mut Value) -> Result<Line, Refusal>
    ensures { AnswersSeen result (write_form (view json.old)) }
{
    if !has_only(json, &["do", "app", "ops", "writer"]) {
        return Err(Refusal::Form);
    }
    let app = text_at(alloc, json, "app")?;
    let writer = text_if_at(alloc, json, "writer")?;
    let ops = take_part(json, "ops")?;
    Ok(Line::Write { app, ops, writer })
}

#[tactic(auto, unfolding(crate::specs::Forms::fetch_form))]
fn fetch_form(alloc: Global, json: &mut Value) -> Result<Line, Refusal>
    ensures { AnswersSeen result (fetch_form (view json.old)) }
{
    if !has_only(json, &["do", "app", "table", "query"]) {
        return Err(Refusal::Form);
    }
    let app = text_at(alloc, json, "app")?;
    let table = text_at(alloc, json, "table")?;
    let query = take_part(json, "query")?;
    Ok(Line::Fetch { app, table, query })
}

#[tactic(auto, unfolding(crate::specs::Forms::rows_form))]
fn rows_form(alloc: Global, json: &Value) -> Result<Line, Refusal>
    ensures { AnswersSeen result (rows_form (view json.now)) }
{
    if !has_only(json, &["do", "app", "table"]) {
        return Err(Refusal::Form);
    }
    let app = text_at(alloc, json, "app")?;
    let table = text_at(alloc, json, "table")?;
    Ok(Line::Rows { app, table })
}

fn shape_of(alloc: Global, json: &Value) -> Result<LineShape, Refusal>
    ensures { Answers result (shape_of (view json.now)) }
{
    match json.as_str() {
        Some(word) => {
            if word == "ids" {
                Ok(LineShape::Ids)
            } else {
                Err(Refusal::Form)
            }
        }
        None => match items_of(json) {
            Some(items) => Ok(LineShape::Columns(read_each(alloc, items)?)),
            None => Err(Refusal::Form),
        },
    }
}

/// The shape under a key.
fn shape_at(alloc: Global, json: &Value, key: &str) -> Result<LineShape, Refusal>
    ensures { Answers result (shape_at key.now (view json.now)) }
{
    match json.get(key) {
        Some(part) => shape_of(alloc, part),
        None => Err(Refusal::Form),
    }
}

#[tactic(auto, unfolding(crate::specs::Forms::observe_form))]
fn observe_form(alloc: Global, json: &mut Value) -> Result<Line, Refusal>
    ensures { AnswersSeen result (observe_form (view json.old)) }
{
    if !has_only(json, &["do", "app", "name", "table", "query", "shape"]) {
        return Err(Refusal::Form);
    }
    let app = text_at(alloc, json, "app")?;
    let name = text_at(alloc, json, "name")?;
    let table = text_at(alloc, json, "table")?;
    let shape = shape_at(alloc, json, "shape")?;
    let query = take_part(json, "query")?;
    Ok(Line::Observe {
        app,
        name,
        table,
        query,
        shape,
    })
}

#[tactic(auto, unfolding(crate::specs::Forms::watch_form))]
fn watch_form(alloc: Global, json: &Value) -> Result<Line, Refusal>
    ensures { AnswersSeen result (watch_form (view json.now)) }
{
    if !has_only(json, &["do", "app", "name", "table", "id", "to"]) {
        return Err(Refusal::Form);
    }
    let app = text_at(alloc, json, "app")?;
    let name = text_at(alloc, json, "name")?;
    let table = text_at(alloc, json, "table")?;
    let id = text_at(alloc, json, "id")?;
    let to = text_at(alloc, json, "to")?;
    Ok(Line::Watch {
        app,
        name,
        table,
        id,
        to,
    })
}

#[tactic(auto, unfolding(crate::specs::Forms::turn_form))]
fn turn_form(alloc: Global, json: &Value) -> Result<Line, Refusal>
    ensures { AnswersSeen result (turn_form (view json.now)) }
{
    if !has_only(json, &["do", "app", "name"]) {
        return Err(Refusal::Form);
    }
    let app = text_at(alloc, json, "app")?;
    let name = text_at(alloc, json, "name")?;
    Ok(Line::Turn { app, name })
}

#[tactic(auto, unfolding(crate::specs::Forms::drop_form))]
fn drop_form(alloc: Global, json: &Value) -> Result<Line, Refusal>
    ensures { AnswersSeen result (drop_form (view json.now)) }
{
    if !has_only(json, &["do", "app", "name"]) {
        return Err(Refusal::Form);
    }
    let app = text_at(alloc, json, "app")?;
    let name = text_at(alloc, json, "name")?;
    Ok(Line::Drop { app, name })
}

#[tactic(auto, unfolding(crate::specs::Forms::parent_form))]
fn parent_form(alloc: Global, json: &Value) -> Result<Line, Refusal>
    ensures { AnswersSeen result (parent_form (view json.now)) }
{
    if !has_only(json, &["do", "app", "table", "id", "to"]) {
        return Err(Refusal::Form);
    }
    let app = text_at(alloc, json, "app")?;
    let table = text_at(alloc, json, "table")?;
    let id = text_at(alloc, json, "id")?;
    let to = text_at(alloc, json, "to")?;
    Ok(Line::Parent { app, table, id, to })
}

#[tactic(auto, unfolding(crate::specs::Forms::children_form))]
fn children_form(alloc: Global, json: &Value) -> Result<Line, Refusal>
    ensures { AnswersSeen result (children_form (view json.now)) }
{
    if !has_only(json, &["do", "app", "table", "id", "to"]) {
        return Err(Refusal::Form);
    }
    let app = text_at(alloc, json, "app")?;
    let table = text_at(alloc, json, "table")?;
    let id = text_at(alloc, json, "id")?;
    let to = text_at(alloc, json, "to")?;
    Ok(Line::Children { app, table, id, to })
}

#[tactic(auto, unfolding(crate::specs::Forms::backend_form))]
fn backend_form(json: &mut Value) -> Result<Line, Refusal>
    ensures { AnswersSeen result (backend_form (view json.old)) }
{
    if !has_only(json, &["do", "schema"]) {
        return Err(Refusal::Form);
    }
    let schema = take_part(json, "schema")?;
    Ok(Line::Backend { schema })
}

#[tactic(auto, unfolding(crate::specs::Forms::server_form))]
fn server_form(alloc: Global, json: &Value) -> Result<Line, Refusal>
    ensures { AnswersSeen result (server_form (view json.now)) }
{
    if !has_only(json, &["do", "table"]) {
        return Err(Refusal::Form);
    }
    let table = text_at(alloc, json, "table")?;
    Ok(Line::Server { table })
}

#[tactic(auto, unfolding(crate::specs::Forms::form_of))]
fn form_of(alloc: Global, json: &mut Value) -> Result<Line, Refusal>
    ensures { AnswersSeen result (form_of (view json.old)) }
{
    let word = text_at(alloc, json, "do")?;
    match word.as_str() {
        "open" => open_form(alloc, json),
        "close" => close_form(alloc, json),
        "enter" => enter_form(alloc, json),
        "nest" => nest_form(alloc, json),
        "leave" => leave_form(alloc, json),
        "write" => write_form(alloc, json),
        "fetch" => fetch_form(alloc, json),
        "rows" => rows_form(alloc, json),
        "observe" => observe_form(alloc, json),
        "watch" => watch_form(alloc, json),
        "turn" => turn_form(alloc, json),
        "drop" => drop_form(alloc, json),
        "parent" => parent_form(alloc, json),
        "children" => children_form(alloc, json),
        "backend" => backend_form(json),
        "server" => server_form(alloc, json),
        _ => Err(Refusal::Form),
    }
}

fn is_blank(bytes: &[u8]) -> bool
    ensures { result ≡ is_blank bytes.now }
{
    bytes.iter().all(|byte| *byte == b' ' || *byte == b'\t')
}

#[tactic(auto, unfolding(crate::specs::Forms::line_of))]
fn line_of(alloc: Global, bytes: &[u8]) -> Result<Line, Refusal>
    ensures { AnswersSeen result (line_of bytes.now) }
{
    let mut json = json_of(alloc, bytes)?;
    form_of(alloc, &mut json)
}

impl Line {
    /// The line that the bytes are, without their line end; None for a line of spaces and tabs alone. Every line else that
    /// isn't one JSON object with the keys of its form and no others is `Form`.
    pub fn read(alloc: Global, bytes: &[u8]) -> Result<Option<Line>, LineFault>
        ensures { ReadsLine bytes.now result }
    {
        if is_blank(bytes) {
            return Ok(None);
        }
        match line_of(alloc, bytes) {
            Ok(line) => Ok(Some(line)),
            Err(Refusal::Form) => Err(LineFault::Form),
            Err(Refusal::Memory) => Err(LineFault::Memory),
        }
    }
}
