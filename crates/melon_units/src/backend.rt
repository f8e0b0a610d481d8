//! What the worked rows say of backends, and that each call succeeds with ample memory.
use melon_backend::Backend;
use melon_backend::laws::read_changes_can_be_pushed;
use melon_log::{AskFault, PushFault};
use melon_outside::{MemoryKeeper, OpenFault};
use melon_schema::reader::json_of;
use melon_schema::{AppSchema, List};
use melon_wire::{PullAsk, PullReply, read_changes, write_reply};
use std::alloc::Global;
use std::test::Fail;

const POSTS: &str =
    r#"{"version":1,"tables":[{"name":"posts","columns":[{"name":"title","type":"string"}]}]}"#;

const TAGS_AND_POSTS: &str =
    r#"{"version":2,"tables":[{"name":"tags","columns":[{"name":"label","type":"string"}]},{"name":"posts","columns":[{"name":"title","type":"string"},{"name":"score","type":"number","isOptional":true}]}]}"#;

const OTHER_COLUMN: &str =
    r#"{"version":2,"tables":[{"name":"posts","columns":[{"name":"text","type":"string"}]}]}"#;

const LATER: &str =
    r#"{"version":2,"tables":[{"name":"posts","columns":[{"name":"title","type":"string"}]}]}"#;

/// A test goes on where this is told.
fn must_be(told: &str, wanted: &str) -> Result<(), Fail> {
    if told == wanted {
        return Ok(());
    }
    Err(Fail::new(told))
}

fn schema_of(alloc: Global, text: &str) -> Result<AppSchema, Fail> {
    let json = json_of(alloc, text.as_bytes())?;
    Ok(AppSchema::read(alloc, &json)?)
}

fn keeper_of(alloc: Global, fails: &[u64]) -> Result<MemoryKeeper, Fail> {
    let fails = List::from_vec(fails.to_vec(alloc)?);
    Ok(MemoryKeeper::new(alloc, List::new(alloc), fails))
}

/// The number of the fault, by its place among the faults, and its details.
fn told_opening(alloc: Global, fault: &OpenFault) -> Result<String, Fail> {
    let (number, table, id, stored) = match fault {
        OpenFault::BadRow { table, id } => (1, table.as_str(), id.as_str(), 0),
        OpenFault::Version { stored } => (2, "", "", *stored),
        OpenFault::Full { bytes } => (3, "", "", *bytes),
        OpenFault::KeeperFault => (4, "", "", 0),
        OpenFault::Memory => (5, "", "", 0),
    };
    Ok(format!(in alloc; "{number} {table} {id} {stored}")?)
}

/// The number of the fault, by its place among the faults, and its details.
fn told_fault(alloc: Global, fault: &PushFault) -> Result<String, Fail> {
    let (number, table, id, n) = match fault {
        PushFault::Future { revision } => (1, "", "", *revision),
        PushFault::UnknownName { table, column } => (2, table.as_str(), column.as_str(), 0),
        PushFault::Repeated { table, id } => (3, table.as_str(), id.as_str(), 0),
        PushFault::Conflict {
            table,
            id,
            revision,
        } => (4, table.as_str(), id.as_str(), *revision),
        PushFault::Gone {
            table,
            id,
            revision,
        } => (5, table.as_str(), id.as_str(), *revision),
        PushFault::LongText { table, id } => (6, table.as_str(), id.as_str(), 0),
        PushFault::StoreFull { bytes } => (7, "", "", *bytes),
        PushFault::KeeperFault => (8, "", "", 0),
        PushFault::Memory => (9, "", "", 0),
    };
    Ok(format!(in alloc; "{number} {table} {id} {n}")?)
}

fn told_pushed(alloc: Global, answer: &Result<u64, PushFault>) -> Result<String, Fail> {
    match answer {
        Ok(revision) => Ok(format!(in alloc; "ok {revision}")?),
        Err(fault) => told_fault(alloc, fault),
    }
}

/// A backend, and the keeper of its rows.
#[derive(Drop)]
struct Server {
    backend: Backend,
    keeper: MemoryKeeper,
}

/// A server of this schema, whose keeper's calls of these numbers fail.
fn server_of(alloc: Global, schema: &str, fails: &[u64]) -> Result<Server, Fail> {
    let mut keeper = keeper_of(alloc, fails)?;
    let schema = schema_of(alloc, schema)?;
    let backend = Backend::open(alloc, &mut keeper, "backend", schema)?;
    Ok(Server { backend, keeper })
}

/// A push at this last revision is answered so.
fn pushes(
    server: &mut Server,
    alloc: Global,
    last: u64,
    text: &str,
    wanted: &str,
) -> Result<(), Fail> {
    let changes = read_changes(alloc, text.as_bytes())?;
    read_changes_can_be_pushed();
    let answer = server
        .backend
        .push(alloc, &mut server.keeper, last, &changes);
    let told = told_pushed(alloc, &answer)?;
    must_be(told.as_str(), wanted)
}

fn told_pull(alloc: Global, reply: &PullReply) -> Result<String, Fail> {
    Ok(String::from_utf8(write_reply(alloc, reply)?)?)
}

/// A pull after this last revision is answered so.
fn pulls(server: &Server, alloc: Global, last: u64, wanted: &str) -> Result<(), Fail> {
    let ask = PullAsk {
        last,
        schema_version: None,
    };
    match server.backend.pull(alloc, &ask) {
        Ok(reply) => must_be(told_pull(alloc, &reply)?.as_str(), wanted),
        Err(AskFault::Future { revision }) => {
            must_be(format!(in alloc; "future {revision}")?.as_str(), wanted)
        }
        Err(AskFault::Memory) => Err(Fail::new("memory")),
    }
}

fn rows(backend: &Backend, alloc: Global, table: &str) -> Result<String, Fail> {
    match backend.schema().table(table) {
        Some(place) => Ok(String::from_utf8(backend.rows(alloc, place)?)?),
        None => Err(Fail::new("no such table")),
    }
}

/// The revision, the number of live rows, and the rows of the posts are these.
fn shows(backend: &Backend, alloc: Global, wanted: &str) -> Result<(), Fail> {
    let rows = rows(backend, alloc, "posts")?;
    let (revision, live) = (backend.revision(), backend.live());
    let told = format!(in alloc; "{revision} {live} {}", rows.as_str())?;
    must_be(told.as_str(), wanted)
}

/// What is kept opens under this schema so, or is refused so.
fn opens(server: &mut Server, alloc: Global, schema: &str, wanted: &str) -> Result<(), Fail> {
    let schema = schema_of(alloc, schema)?;
    match Backend::open(alloc, &mut server.keeper, "backend", schema) {
        Ok(backend) => shows(&backend, alloc, wanted),
        Err(fault) => must_be(told_opening(alloc, &fault)?.as_str(), wanted),
    }
}

#[test]
fn a_row_lives_and_is_deleted(rt: HostRuntime) -> Result<(), Fail> {
    let alloc = rt.alloc();
    let p9 = r#"{"posts":{"updated":[{"id":"p9"}]}}"#;
    let mut server = server_of(alloc, POSTS, &[])?;
    pushes(&mut server, alloc, 1, p9, "ok 2")?;
    pushes(
        &mut server,
        alloc,
        2,
        r#"{"posts":{"deleted":["p8"]}}"#,
        "ok 3",
    )?;
    pulls(
        &server,
        alloc,
        0,
        r#"{"changes":{"posts":{"created":[{"id":"p9","title":""}],"deleted":[],"updated":[]}},"timestamp":3}"#,
    )?;
    pushes(
        &mut server,
        alloc,
        3,
        r#"{"posts":{"deleted":["p9"]}}"#,
        "ok 4",
    )?;
    pushes(&mut server, alloc, 4, p9, "5 posts p9 4")?;
    pushes(&mut server, alloc, 3, p9, "4 posts p9 4")?;
    pushes(&mut server, alloc, 9, p9, "1   4")
}

const THREE: &str =
    r#"{"posts":{"created":[{"id":"a","title":"1"},{"id":"b","title":"t"}]},"tags":{"created":[{"id":"a"}]}}"#;

/// By the timestamp and the names.
fn names_are_refused(server: &mut Server, alloc: Global) -> Result<(), Fail> {
    pushes(server, alloc, 4, r#"{"posts":{}}"#, "1   3")?;
    pushes(server, alloc, 3, r#"{"posts":{}}"#, "ok 3")?;
    pushes(
        server,
        alloc,
        3,
        r#"{"other":{"deleted":["x"]}}"#,
        "2 other  0",
    )?;
    pushes(server, alloc, 3, r#"{"other":{"deleted":[]}}"#, "ok 3")?;
    pushes(
        server,
        alloc,
        3,
        r#"{"zzz":{"deleted":["x"]},"tags":{"created":[{"id":"q","z":1,"m":2}]}}"#,
        "2 tags m 0",
    )?;
    pushes(
        server,
        alloc,
        3,
        r#"{"tags":{"created":[{"id":"q","_status":"created","_changed":""}]}}"#,
        "ok 4",
    )
}

/// By ids that stand twice, and by rows that are newer.
fn rows_are_refused(server: &mut Server, alloc: Global) -> Result<(), Fail> {
    let twice = r#"{"posts":{"created":[{"id":"b"}],"deleted":["b"]}}"#;
    let apart = r#"{"posts":{"deleted":["c"]},"tags":{"deleted":["c"]}}"#;
    let newer = r#"{"tags":{"updated":[{"id":"a"}]},"posts":{"updated":[{"id":"a"}]}}"#;
    pushes(server, alloc, 4, twice, "3 posts b 0")?;
    pushes(server, alloc, 4, apart, "ok 5")?;
    pushes(server, alloc, 1, newer, "4 posts a 3")?;
    pushes(server, alloc, 2, r#"{"posts":{"deleted":["a"]}}"#, "ok 6")?;
    pushes(
        server,
        alloc,
        1,
        r#"{"posts":{"deleted":["b"]}}"#,
        "4 posts b 2",
    )
}

/// By rows that are newer, before those that are gone.
fn gone_rows_are_refused(server: &mut Server, alloc: Global) -> Result<(), Fail> {
    let score = r#"{"posts":{"updated":[{"id":"b","score":7}]}}"#;
    let both = r#"{"posts":{"updated":[{"id":"a"},{"id":"b"}]}}"#;
    pushes(server, alloc, 2, score, "ok 7")?;
    pushes(server, alloc, 3, both, "4 posts b 7")?;
    pushes(server, alloc, 7, both, "5 posts a 3")?;
    pushes(
        server,
        alloc,
        7,
        r#"{"posts":{"created":[{"id":"a"}]}}"#,
        "ok 8",
    )
}

#[test]
fn refusals_and_their_neighbours(rt: HostRuntime) -> Result<(), Fail> {
    let alloc = rt.alloc();
    let mut server = server_of(alloc, TAGS_AND_POSTS, &[])?;
    pushes(&mut server, alloc, 1, THREE, "ok 2")?;
    pushes(
        &mut server,
        alloc,
        2,
        r#"{"posts":{"deleted":["a"]}}"#,
        "ok 3",
    )?;
    names_are_refused(&mut server, alloc)?;
    rows_are_refused(&mut server, alloc)?;
    gone_rows_are_refused(&mut server, alloc)?;
    shows(
        &server.backend,
        alloc,
        r#"8 4 [{"changed":8,"created":8,"deleted":null,"row":{"id":"a","score":null,"title":""}},{"changed":7,"created":2,"deleted":null,"row":{"id":"b","score":7,"title":"t"}}]"#,
    )
}

fn long_push(alloc: Global, length: usize) -> Result<String, Fail> {
    let title = String::from_utf8(vec![in alloc; b'x'; length]?)?;
    Ok(format!(in alloc; "{{\"posts\":{{\"created\":[{{\"id\":\"p\",\"title\":\"{title}\"}}]}}}}")?)
}

#[test]
fn texts_have_a_limit(rt: HostRuntime) -> Result<(), Fail> {
    let alloc = rt.alloc();
    let mut server = server_of(alloc, POSTS, &[])?;
    let longer = long_push(alloc, 65537)?;
    let longest = long_push(alloc, 65536)?;
    pushes(&mut server, alloc, 1, longer.as_str(), "6 posts p 0")?;
    pushes(&mut server, alloc, 1, longest.as_str(), "ok 2")
}

#[test]
fn pulls_tell_what_was_touched(rt: HostRuntime) -> Result<(), Fail> {
    let alloc = rt.alloc();
    let mut server = server_of(alloc, POSTS, &[])?;
    let first = r#"{"posts":{"created":[{"id":"b","title":"1"},{"id":"a"}]}}"#;
    let then = r#"{"posts":{"updated":[{"id":"b","title":"2"}],"deleted":["a"]}}"#;
    let from_start =
        r#"{"changes":{"posts":{"created":[{"id":"b","title":"2"}],"deleted":["a"],"updated":[]}},"timestamp":3}"#;
    let from_first =
        r#"{"changes":{"posts":{"created":[],"deleted":["a"],"updated":[{"id":"b","title":"2"}]}},"timestamp":3}"#;
    let from_last =
        r#"{"changes":{"posts":{"created":[],"deleted":[],"updated":[]}},"timestamp":3}"#;
    pushes(&mut server, alloc, 1, first, "ok 2")?;
    pushes(&mut server, alloc, 2, then, "ok 3")?;
    pulls(&server, alloc, 0, from_start)?;
    pulls(&server, alloc, 2, from_first)?;
    pulls(&server, alloc, 3, from_last)?;
    pulls(&server, alloc, 4, "future 3")
}

/// The keeper fails at its third call, which is the first push.
#[test]
fn a_keeper_that_fails_leaves_all_as_it_was(rt: HostRuntime) -> Result<(), Fail> {
    let alloc = rt.alloc();
    let p1 = r#"{"posts":{"created":[{"id":"p1"}]}}"#;
    let row = r#"2 1 [{"changed":2,"created":2,"deleted":null,"row":{"id":"p1","title":""}}]"#;
    let mut server = server_of(alloc, POSTS, &[3])?;
    pushes(&mut server, alloc, 1, p1, "8   0")?;
    shows(&server.backend, alloc, "1 0 []")?;
    pushes(&mut server, alloc, 1, p1, "ok 2")?;
    opens(&mut server, alloc, POSTS, row)?;
    opens(&mut server, alloc, OTHER_COLUMN, "1 posts p1 0")?;
    opens(&mut server, alloc, LATER, "2   1")
}
