//! A simple observer by its own calls: it is given entries, and no table.
ghost use Rattle.std.specs.Prelude.{◌≡◌, ◌<◌};

use melon_board::{Board, Entry};
use melon_change::{Origin, prepare, read_ops};
use melon_observe::Simple;
use melon_query::Query;
use melon_raw::Steps;
use melon_raw::steps::new_counter;
use melon_schema::AppSchema;
use melon_schema::reader::json_of;
use melon_table::Tables;
use melon_views::{Emission, Shape};
use std::alloc::Global;
use std::marker::Brand;
use std::sync::ledger::{Blank, Ledger};
use std::test::Fail;

const POSTS: &str =
    r#"{"version":1,"tables":[{"name":"posts","columns":[{"name":"score","type":"number"}]}]}"#;

const SCORED: &str = r#"{"where":[{"column":"score","op":"gt","value":0}]}"#;

const CREATED: &str =
    r#"[{"create":"posts","id":"p2","set":{"score":2}},{"create":"posts","id":"p0","set":{}},{"create":"posts","id":"p1","set":{"score":1}}]"#;

fn schema_of(alloc: Global) -> Result<AppSchema, Fail> {
    let json = json_of(alloc, POSTS.as_bytes())?;
    Ok(AppSchema::read(alloc, &json).map_err(|fault| fault.number())?)
}

/// A board without rows, and the first entry of one, which operations make.
fn board_and_entry(alloc: Global, schema: &AppSchema, text: &str) -> Result<(Board, Entry), Fail> {
    let tables = Tables::new(alloc, schema)?;
    let json = json_of(alloc, text.as_bytes())?;
    let Ok(ops) = read_ops(alloc, &json) else {
        return Err(Fail::from("no operations"));
    };
    let Ok(set) = prepare(alloc, &tables, schema, ops) else {
        return Err(Fail::from("a broken rule"));
    };
    let entry = Entry {
        origin: Origin::Local,
        set,
    };
    Ok((Board::open(alloc, tables), entry))
}

fn opened(alloc: Global, schema: &AppSchema, board: &Board) -> Result<Simple, Fail> {
    let json = json_of(alloc, SCORED.as_bytes())?;
    let query = Query::read(alloc, &json, schema, "posts").map_err(|fault| fault.number())?;
    if !query.is_simple() {
        return Err(Fail::from("the query isn't simple"));
    }
    let (simple, _) = Simple::open(alloc, query, Shape::Ids, board)?;
    Ok(simple)
}

fn given_counted<L: Ledger>(
    counter: Blank,
    alloc: Global,
    simple: &mut Simple,
    tail: &[Entry],
) -> Result<String, Fail>
    requires name { counter.name ≡ L.name }
    requires parts { counter.parts ≡ L.parts }
    requires shared { 0 < counter.parts }
{
    if simple.at() > 9 {
        return Err(Fail::from("a position far behind"));
    }
    let mut steps = Steps::<L>::open(counter);
    let mut text = String::new(alloc);
    if let Some((number, Emission::Ids(ids))) = simple.patch(alloc, tail, &mut steps)? {
        write!(text, "{number}")?;
        for id in ids.as_slice() {
            text.push_str(" ")?;
            text.push_str(id.as_str())?;
        }
    }
    Ok(text)
}

/// The number and the ids that the observer gives for these entries.
fn given(alloc: Global, simple: &mut Simple, tail: &[Entry]) -> Result<String, Fail> {
    given_counted::<Brand>(new_counter(), alloc, simple, tail)
}

#[test]
fn entries_alone_are_patched_in(rt: HostRuntime) -> Result<(), Fail> {
    let alloc = rt.alloc();
    let schema = schema_of(alloc)?;
    let (board, entry) = board_and_entry(alloc, &schema, CREATED)?;
    let mut simple = opened(alloc, &schema, &board)?;
    let text = given(alloc, &mut simple, &[entry])?;
    assert_eq!(rt; text.as_str(), "1 p1 p2");
    let none = given(alloc, &mut simple, &[])?;
    assert_eq!(rt; none.as_str(), "");
    assert_eq!(rt; simple.at(), 1);
    Ok(())
}
