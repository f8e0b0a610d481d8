//! What one run keeps, another finds.
use crate::runs::{OPENED, printed};
use melon_sqlite::SqliteKeeper;
use sqlite::{Connection, MemStore};
use std::alloc::Global;
use std::test::Fail;

fn new_keeper(alloc: Global) -> Result<SqliteKeeper<MemStore>, Fail> {
    let connection = Connection::open_in_memory(alloc)?;
    Ok(SqliteKeeper::open(alloc, connection)?)
}

const CREATED: &str =
    r#"{"do":"write","app":"A","ops":[{"create":"posts","id":"p1","set":{"title":"a"}}]}"#;

const CLOSED: &str = r#"{"do":"close","app":"A"}"#;

#[test]
fn rows_are_kept_when_an_app_is_closed(rt: HostRuntime) -> Result<(), Fail> {
    let alloc = rt.alloc();
    let mut keeper = new_keeper(alloc)?;
    let script = format!(in alloc; "{OPENED}\n{CREATED}\n{CLOSED}\n{OPENED}\n")?;
    let text = printed(alloc, &mut keeper, script.as_str())?;
    let want = "open A rows 0 last 0\nwrite A at 1\nclose A\nopen A rows 1 last 0\n";
    assert_eq!(rt; text.as_str(), want);
    Ok(())
}

const THREE_CREATED: &str =
    r#"{"do":"write","app":"A","ops":[{"create":"posts","id":"p3","set":{"title":"c"}},{"create":"posts","id":"p1","set":{"title":"a"}},{"create":"posts","id":"p2","set":{}}]}"#;

const FETCHED: &str = r#"{"do":"fetch","app":"A","table":"posts","query":{}}"#;

#[test]
fn a_run_finds_what_another_kept(rt: HostRuntime) -> Result<(), Fail> {
    let alloc = rt.alloc();
    let mut keeper = new_keeper(alloc)?;
    let script = format!(in alloc; "{OPENED}\n{THREE_CREATED}\n{FETCHED}\n")?;
    let text = printed(alloc, &mut keeper, script.as_str())?;
    let want = "open A rows 0 last 0\nwrite A at 1\nfetch A [\"p1\",\"p2\",\"p3\"]\n";
    assert_eq!(rt; text.as_str(), want);
    let script = format!(in alloc; "{OPENED}\n{FETCHED}\n")?;
    let text = printed(alloc, &mut keeper, script.as_str())?;
    assert_eq!(rt;
        text.as_str(),
        "open A rows 3 last 0\nfetch A [\"p1\",\"p2\",\"p3\"]\n"
    );
    Ok(())
}
