//! What the worked rows say of stores, and that each call succeeds with ample memory.
ghost use Rattle.std.specs.Prelude.{◌≡◌, ◌<◌, length};

use melon_board::{Store, WriteFault};
use melon_change::{BatchFault, Op, Origin, prepare, read_ops};
use melon_outside::{Keeper, KeptBatch, KeptRow, KeptValue, MemoryKeeper, OpenFault};
use melon_raw::Steps;
use melon_raw::steps::new_counter;
use melon_schema::reader::json_of;
use melon_schema::{AppSchema, List, Text};
use std::alloc::Global;
use std::marker::Brand;
use std::sync::ledger::{Blank, Ledger};
use std::test::Fail;

const POSTS: &str =
    r#"{"version":1,"tables":[{"name":"posts","columns":[{"name":"title","type":"string"},{"name":"body","type":"string"},{"name":"score","type":"number","isOptional":true,"isIndexed":true}],"associations":{"comments":{"type":"has_many","foreignKey":"post_id"}}},{"name":"comments","columns":[{"name":"post_id","type":"string","isIndexed":true},{"name":"text","type":"string"},{"name":"likes","type":"number"}],"associations":{"posts":{"type":"belongs_to","key":"post_id"}}}]}"#;

const P1: &str =
    r#"{"_changed":"","_status":"created","body":"","id":"p1","score":null,"title":""}"#;

fn schema_of(alloc: Global) -> Result<AppSchema, Fail> {
    let json = json_of(alloc, POSTS.as_bytes())?;
    Ok(AppSchema::read(alloc, &json).map_err(|fault| fault.number())?)
}

fn ops_of(alloc: Global, text: &str) -> Result<List<Op>, Fail> {
    let json = json_of(alloc, text.as_bytes())?;
    Ok(read_ops(alloc, &json)?)
}

fn keeper_of(alloc: Global, fails: &[u64]) -> Result<MemoryKeeper, Fail> {
    let fails = List::from_vec(fails.to_vec(alloc)?);
    Ok(MemoryKeeper::new(alloc, List::new(alloc), fails))
}

fn told_rule(fault: &BatchFault) -> (&'static str, u64) {
    match fault {
        BatchFault::NoRow { op, .. } => ("no row", *op),
        _ => ("another rule", 0),
    }
}

fn told_fault(fault: &WriteFault) -> (&'static str, u64) {
    match fault {
        WriteFault::Batch(fault) => told_rule(fault),
        WriteFault::StoreFull { bytes } => ("store full", *bytes),
        WriteFault::SessionFull { bytes } => ("session full", *bytes),
        WriteFault::KeeperFault => ("keeper", 0),
        WriteFault::Memory => ("memory", 0),
    }
}

/// The journal's length, or why nothing was written.
fn told(answer: &Result<u64, WriteFault>) -> (&'static str, u64) {
    match answer {
        Ok(at) => ("at", *at),
        Err(fault) => told_fault(fault),
    }
}

fn written<K: Keeper>(
    store: &mut Store,
    keeper: &mut K,
    alloc: Global,
    text: &str,
) -> Result<(&'static str, u64), Fail> {
    let ops = ops_of(alloc, text)?;
    Ok(told(&store.write(alloc, keeper, ops)))
}

fn open_a<K: Keeper>(keeper: &mut K, alloc: Global) -> Result<Result<Store, OpenFault>, Fail> {
    let schema = schema_of(alloc)?;
    Ok(Store::open(alloc, keeper, "A", schema))
}

fn count_rows(store: &Store) -> usize {
    let tables = store.board().tables();
    let mut rows = 0usize;
    for place in 0..tables.len() {
        rows = rows.saturating_add(tables.of(place).len());
    }
    rows
}

fn told_opening(fault: &OpenFault) -> (&'static str, u64) {
    match fault {
        OpenFault::BadRow { .. } => ("bad row", 0),
        OpenFault::Version { stored } => ("version", *stored),
        OpenFault::Full { bytes } => ("full", *bytes),
        OpenFault::KeeperFault => ("keeper", 0),
        OpenFault::Memory => ("memory", 0),
    }
}

/// How many rows the opened store has, or why it was not opened.
fn opened(answer: &Result<Store, OpenFault>) -> (&'static str, u64) {
    match answer {
        Ok(store) => ("rows", count_rows(store) as u64),
        Err(fault) => told_opening(fault),
    }
}

fn is_bad_row(answer: &Result<Store, OpenFault>, at: &str) -> bool {
    match answer {
        Err(OpenFault::BadRow { table, id }) => table.is("comments") && id.is(at),
        _ => false,
    }
}

/// A test goes on where this is told.
fn must_be(got: (&'static str, u64), want: (&'static str, u64)) -> Result<(), Fail> {
    if got.0 == want.0 && got.1 == want.1 {
        return Ok(());
    }
    Err(Fail::from(got))
}

/// A batch is answered so, and then what is kept opens with so many rows.
fn writes<K: Keeper>(
    store: &mut Store,
    keeper: &mut K,
    alloc: Global,
    ops: &str,
    want: (&'static str, u64),
    rows: u64,
) -> Result<(), Fail> {
    must_be(written(store, keeper, alloc, ops)?, want)?;
    must_be(opened(&open_a(keeper, alloc)?), ("rows", rows))
}

#[test]
fn keeps_what_is_written(rt: HostRuntime) -> Result<(), Fail> {
    let alloc = rt.alloc();
    let mut keeper = keeper_of(alloc, &[])?;
    let mut store = open_a(&mut keeper, alloc)??;
    let create =
        r#"[{"create":"posts","id":"p2","set":{"title":"b"}},{"create":"posts","id":"p1","set":{}}]"#;
    let destroy = r#"[{"destroy":"posts","id":"p2"}]"#;
    let broken = r#"[{"create":"posts","id":"p3","set":{}},{"update":"posts","id":"p9","set":{}}]"#;
    let both =
        r#"[{"update":"posts","id":"p1","set":{"title":"x"}},{"create":"comments","id":"c1","set":{"post_id":"p1"}}]"#;
    writes(&mut store, &mut keeper, alloc, "[]", ("at", 0), 0)?;
    writes(&mut store, &mut keeper, alloc, create, ("at", 1), 2)?;
    writes(&mut store, &mut keeper, alloc, destroy, ("at", 2), 1)?;
    writes(&mut store, &mut keeper, alloc, broken, ("no row", 2), 1)?;
    writes(&mut store, &mut keeper, alloc, both, ("at", 3), 2)
}

fn row_of(alloc: Global, table: &str, id: &str, body: &str) -> Result<KeptRow, Fail> {
    Ok(KeptRow {
        table: Text::new(alloc, table)?,
        id: Text::new(alloc, id)?,
        body: List::from_vec(body.as_bytes().to_vec(alloc)?),
    })
}

/// Has the keeper keep these rows of the app, and the version.
fn keep<K: Keeper>(
    keeper: &mut K,
    alloc: Global,
    rows: &[(&str, &str, &str)],
    version: u64,
) -> Result<(), Fail> {
    let mut puts = List::new(alloc);
    for row in rows {
        puts.push(row_of(alloc, row.0, row.1, row.2)?)?;
    }
    let mut values = List::new(alloc);
    values.push(KeptValue {
        name: Text::new(alloc, "schema_version")?,
        number: version,
    })?;
    let batch = KeptBatch {
        clear: false,
        removes: List::new(alloc),
        puts,
        values,
    };
    Ok(keeper.commit(alloc, "app:A", &batch)?)
}

/// Over this kept row beside another the opening is answered so.
fn opens(
    alloc: Global,
    row: (&str, &str, &str),
    version: u64,
    want: (&'static str, u64),
) -> Result<(), Fail> {
    let mut keeper = keeper_of(alloc, &[])?;
    let other =
        r#"{"_changed":"title","_status":"updated","body":"","id":"p4","score":7,"title":"d"}"#;
    let rows = [row, ("posts", "p4", other)];
    keep(&mut keeper, alloc, rows.as_slice(), version)?;
    must_be(opened(&open_a(&mut keeper, alloc)?), want)
}

#[test]
fn opens_rows_of_its_tables_alone(rt: HostRuntime) -> Result<(), Fail> {
    let alloc = rt.alloc();
    let spaced =
        r#"{"_changed": "","_status":"created","body":"","id":"p1","score":null,"title":""}"#;
    opens(alloc, ("posts", "p1", P1), 1, ("rows", 2))?;
    opens(alloc, ("posts", "p1", P1), 2, ("version", 2))?;
    opens(alloc, ("posts", "p3", P1), 2, ("bad row", 0))?;
    opens(alloc, ("notes", "p1", P1), 1, ("bad row", 0))?;
    opens(alloc, ("comments", "p1", P1), 1, ("bad row", 0))?;
    opens(alloc, ("posts", "p1", "{}"), 1, ("bad row", 0))?;
    opens(alloc, ("posts", "p1", spaced), 1, ("bad row", 0))
}

#[test]
fn tells_the_first_bad_row(rt: HostRuntime) -> Result<(), Fail> {
    let alloc = rt.alloc();
    let mut keeper = keeper_of(alloc, &[])?;
    let rows = [
        ("posts", "p2", P1),
        ("comments", "c2", P1),
        ("comments", "c1", P1),
    ];
    keep(&mut keeper, alloc, rows.as_slice(), 1)?;
    assert!(rt; is_bad_row(&open_a(&mut keeper, alloc)?, "c1"));
    Ok(())
}

/// What the calls after an opening come to, where one call of the keeper fails.
#[derive(Clone, Copy)]
struct Failing {
    fails: u64,
    first: (&'static str, u64),
    rows: usize,
    last: u64,
    again: (&'static str, u64),
}

fn opening_fails(alloc: Global, fails: u64) -> Result<(), Fail> {
    let mut keeper = keeper_of(alloc, &[fails])?;
    must_be(opened(&open_a(&mut keeper, alloc)?), ("keeper", 0))
}

fn call_fails(alloc: Global, want: Failing) -> Result<(), Fail> {
    let create = r#"[{"create":"posts","id":"p1","set":{}}]"#;
    let mut keeper = keeper_of(alloc, &[want.fails])?;
    let mut store = open_a(&mut keeper, alloc)??;
    must_be(written(&mut store, &mut keeper, alloc, create)?, want.first)?;
    must_be(
        ("rows", count_rows(&store) as u64),
        ("rows", want.rows as u64),
    )?;
    let _ = store.save_last(alloc, &mut keeper, 9);
    must_be(("last", store.last()), ("last", want.last))?;
    must_be(written(&mut store, &mut keeper, alloc, create)?, want.again)
}

#[test]
fn a_call_that_fails_changes_nothing(rt: HostRuntime) -> Result<(), Fail> {
    let alloc = rt.alloc();
    opening_fails(alloc, 1)?;
    opening_fails(alloc, 2)?;
    let (failed, done, taken) = (("keeper", 0), ("at", 1), ("another rule", 0));
    call_fails(
        alloc,
        Failing {
            fails: 3,
            first: failed,
            rows: 0,
            last: 9,
            again: done,
        },
    )?;
    call_fails(
        alloc,
        Failing {
            fails: 4,
            first: done,
            rows: 1,
            last: 0,
            again: taken,
        },
    )?;
    call_fails(
        alloc,
        Failing {
            fails: 5,
            first: done,
            rows: 1,
            last: 9,
            again: taken,
        },
    )
}

/// Installs what the operations make.
fn installed<K: Keeper>(
    store: &mut Store,
    keeper: &mut K,
    alloc: Global,
    ops: List<Op>,
) -> Result<u64, WriteFault> {
    let set = prepare(alloc, store.board().tables(), store.schema(), ops)?;
    store.install(alloc, keeper, Origin::Local, set)
}

fn entry_counted<L: Ledger>(counter: Blank, store: &Store, place: usize) -> usize
    requires name { counter.name ≡ L.name }
    requires parts { counter.parts ≡ L.parts }
    requires shared { 0 < counter.parts }
    requires place { place < length store.now.entries }
{
    let mut steps = Steps::<L>::open(counter);
    store.board().entry(place, &mut steps).set.len()
}

/// How many changes the entry at a place has.
fn entry_len(store: &Store, place: usize) -> Option<usize> {
    if place < store.board().len() {
        return Some(entry_counted::<Brand>(new_counter(), store, place));
    }
    None
}

#[test]
fn installs_a_change_set(rt: HostRuntime) -> Result<(), Fail> {
    let alloc = rt.alloc();
    let mut keeper = keeper_of(alloc, &[])?;
    let mut store = open_a(&mut keeper, alloc)??;
    let ops = ops_of(alloc, r#"[{"create":"posts","id":"p1","set":{}}]"#)?;
    must_be(
        told(&installed(&mut store, &mut keeper, alloc, ops)),
        ("at", 1),
    )?;
    assert_eq!(rt; entry_len(&store, 0), Some(1));
    assert_eq!(rt; entry_len(&store, 1), None);
    must_be(("version", store.schema().version()), ("version", 1))
}

/// A batch that makes a post with a body of so many letters.
fn long_create(alloc: Global, letters: usize) -> Result<String, Fail> {
    let mut create = String::from_str(alloc, r#"[{"create":"posts","id":"p1","set":{"body":""#)?;
    for _ in 0..letters {
        create.push('x')?;
    }
    create.push_str(r#""}}]"#)?;
    Ok(create)
}

/// Writes a batch until the journal has so many entries.
fn writes_until<K: Keeper>(
    store: &mut Store,
    keeper: &mut K,
    alloc: Global,
    ops: &str,
    count: u64,
) -> Result<(), Fail> {
    for n in 2..count {
        must_be(written(store, keeper, alloc, ops)?, ("at", n))?;
    }
    Ok(())
}

#[test]
fn a_journal_has_at_most_so_many_bytes(rt: HostRuntime) -> Result<(), Fail> {
    let alloc = rt.alloc();
    let mut keeper = keeper_of(alloc, &[])?;
    let mut store = open_a(&mut keeper, alloc)??;
    let create = long_create(alloc, 65536)?;
    let update = r#"[{"update":"posts","id":"p1","set":{"title":""}}]"#;
    must_be(
        written(&mut store, &mut keeper, alloc, create.as_str())?,
        ("at", 1),
    )?;
    writes_until(&mut store, &mut keeper, alloc, update, 1024)?;
    must_be(
        written(&mut store, &mut keeper, alloc, update)?,
        ("session full", 134313905),
    )
}
