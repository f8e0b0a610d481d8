//! Runs of the server over a keeper that fails, and over what was pushed.
use crate::runs::{keeper_fails, must_end, script};
use crate::trial::{CALM, ends_over};
use melon_backend::Backend;
use melon_backend::laws::read_changes_can_be_pushed;
use melon_cli::Status;
use melon_outside::{Keeper, MemoryKeeper};
use melon_schema::reader::json_of;
use melon_schema::{AppSchema, List};
use melon_wire::read_changes;
use std::alloc::Global;
use std::test::Fail;

const SCHEMA: &str =
    r#"{"version":1,"tables":[{"name":"tags","columns":[{"name":"label","type":"string"}]},{"name":"posts","columns":[{"name":"title","type":"string"}]}]}"#;

const BACKEND: &str =
    r#"{"do":"backend","schema":{"version":1,"tables":[{"name":"tags","columns":[{"name":"label","type":"string"}]},{"name":"posts","columns":[{"name":"title","type":"string"}]}]}}"#;

const LATER: &str =
    r#"{"do":"backend","schema":{"version":2,"tables":[{"name":"posts","columns":[{"name":"title","type":"string"}]}]}}"#;

const POSTS: &str = r#"{"do":"server","table":"posts"}"#;

const TAGS: &str = r#"{"do":"server","table":"tags"}"#;

#[test]
fn a_failing_keeper_opens_no_server(rt: HostRuntime) -> Result<(), Fail> {
    let lines = [BACKEND, BACKEND, POSTS, BACKEND, POSTS];
    let text =
        "refused keeper 1\nrefused keeper 1\nrefused backend 2\nbackend revision 1\nserver posts revision 1 []\n";
    keeper_fails(rt.alloc(), &[1, 3], &lines, text)
}

fn push<K: Keeper>(
    alloc: Global,
    keeper: &mut K,
    backend: &mut Backend,
    last: u64,
    text: &str,
) -> Result<(), Fail> {
    let changes = read_changes(alloc, text.as_bytes())?;
    read_changes_can_be_pushed();
    match backend.push(alloc, keeper, last, &changes) {
        Ok(_) => Ok(()),
        Err(_) => Err(Fail::from("the push is refused")),
    }
}

/// A keeper with what two pushes left of a server.
fn pushed_twice(alloc: Global) -> Result<MemoryKeeper, Fail> {
    let mut keeper = MemoryKeeper::new(alloc, List::new(alloc), List::new(alloc));
    let json = json_of(alloc, SCHEMA.as_bytes())?;
    let schema = AppSchema::read(alloc, &json).map_err(|fault| fault.number())?;
    let Ok(mut backend) = Backend::open(alloc, &mut keeper, "backend", schema) else {
        return Err(Fail::from("the backend isn't opened"));
    };
    let first =
        r#"{"posts":{"created":[{"id":"p2","title":"b"},{"id":"p1","title":"a"}],"updated":[],"deleted":[]},"tags":{"created":[{"id":"t1","label":"x"}],"updated":[],"deleted":[]}}"#;
    push(alloc, &mut keeper, &mut backend, 1, first)?;
    let second = r#"{"posts":{"created":[],"updated":[{"id":"p2","title":"c"}],"deleted":["p1"]}}"#;
    push(alloc, &mut keeper, &mut backend, 2, second)?;
    Ok(keeper)
}

fn kept_shows<K: Keeper>(
    alloc: Global,
    keeper: &mut K,
    lines: &[&str],
    text: &str,
) -> Result<(), Fail> {
    let bytes = script(alloc, lines)?;
    let ended = ends_over(alloc, &["run"], bytes, &CALM, keeper)?;
    must_end(ended, Status::Done, text)
}

#[test]
fn a_servers_rows_are_shown_as_they_are_kept(rt: HostRuntime) -> Result<(), Fail> {
    let alloc = rt.alloc();
    let mut keeper = pushed_twice(alloc)?;
    let text =
        "backend revision 3\nserver posts revision 3 [{\"changed\":2,\"created\":2,\"deleted\":3,\"row\":{\"id\":\"p1\"}},{\"changed\":3,\"created\":2,\"deleted\":null,\"row\":{\"id\":\"p2\",\"title\":\"c\"}}]\nserver tags revision 3 [{\"changed\":2,\"created\":2,\"deleted\":null,\"row\":{\"id\":\"t1\",\"label\":\"x\"}}]\n";
    kept_shows(alloc, &mut keeper, &[BACKEND, POSTS, TAGS], text)?;
    let text = "refused open 1 \"tags\" \"t1\"\n";
    kept_shows(alloc, &mut keeper, &[LATER], text)
}
