//! An opening and two batches over the two files of a database, the one or the other of which stops at a call.
ghost use Rattle.std.specs.Prelude.{IfOk, IsTrue};
ghost use Rattle.sqlite_disk.specs.Memory.{memory_is_usable};

use crate::runs::{OPENED, printed};
use melon_outside::{Keeper, Kept, KeptRow};
use melon_sqlite::SqliteKeeper;
use sqlite::{Connection, FileStore, Files, Options};
use sqlite_disk::{Crash, Fuse, Memory};
use std::alloc::Global;
use std::test::Fail;

type Disk = Fuse<Memory>;

const TWO_CREATED: &str =
    r#"{"do":"write","app":"A","ops":[{"create":"posts","id":"p2","set":{}},{"create":"posts","id":"p1","set":{}}]}"#;

const UPDATED: &str =
    r#"{"do":"write","app":"A","ops":[{"update":"posts","id":"p1","set":{"title":"new"}}]}"#;

/// The files of a database with the two tables, and nothing in them.
fn new_files(alloc: Global) -> Result<Files<Memory>, Fail>
    ensures log { IfOk result (λ files. IsTrue (memory_is_usable files.log)) }
    ensures db { IfOk result (λ files. IsTrue (memory_is_usable files.db)) }
{
    let log = Memory::new(alloc);
    let db = Memory::new(alloc);
    let Ok(connection) = Connection::open_files(alloc, Files { log, db }, Options::new(1)) else {
        return Err(Fail::from("no new database"));
    };
    let keeper = SqliteKeeper::open(alloc, connection)?;
    match keeper.into_connection().close_files() {
        Ok(files) => Ok(files),
        Err((_, store)) => {
            store.close();
            Err(Fail::from("a new database isn't closed"))
        }
    }
}

/// How many of the three steps were done.
fn steps_done(text: &str) -> u64 {
    if text.ends_with("write A at 2\n") {
        return 3;
    }
    if text.contains("write A at 1\n") {
        return 2;
    }
    if text.starts_with("open A rows 0 last 0\n") {
        return 1;
    }
    0
}

/// The files as a run left them, unless they went with a keeper that wasn't opened; how many steps were done; and
/// whether it ended without a stop, the closing too.
#[derive(Drop)]
struct Left {
    files: Option<Files<Disk>>,
    done: u64,
    whole: bool,
}

/// A run over new files, which stop after so many calls.
fn run_over(alloc: Global, log_calls: u64, db_calls: u64) -> Result<Left, Fail> {
    let Files { log, db } = new_files(alloc)?;
    let files = Files {
        log: Fuse::new(log, log_calls),
        db: Fuse::new(db, db_calls),
    };
    let connection = match Connection::open_files(alloc, files, Options::new(1)) {
        Ok(connection) => connection,
        Err((_, left)) => return Ok(stopped(Some(left.into_files()), 0)),
    };
    let Ok(mut keeper) = SqliteKeeper::open(alloc, connection) else {
        return Ok(stopped(None, 0));
    };
    let script = format!(in alloc; "{OPENED}\n{TWO_CREATED}\n{UPDATED}\n")?;
    let text = printed(alloc, &mut keeper, script.as_str())?;
    let done = steps_done(text.as_str());
    match keeper.into_connection().close_files() {
        Ok(files) => Ok(Left {
            files: Some(files),
            done,
            whole: done == 3,
        }),
        Err((_, store)) => Ok(stopped(Some(store.close()), done)),
    }
}

fn stopped(files: Option<Files<Disk>>, done: u64) -> Left {
    Left {
        files,
        done,
        whole: false,
    }
}

const FIRST: &str =
    r#"{"_changed":"","_status":"created","body":"","id":"p1","score":null,"title":""}"#;

const FIRST_UPDATED: &str =
    r#"{"_changed":"title","_status":"created","body":"","id":"p1","score":null,"title":"new"}"#;

const SECOND: &str =
    r#"{"_changed":"","_status":"created","body":"","id":"p2","score":null,"title":""}"#;

fn is_row(row: &KeptRow, id: &str, body: &str) -> bool {
    row.table.as_str() == "posts" && row.id.as_str() == id && row.body.as_slice() == body.as_bytes()
}

/// After how many steps this is kept.
fn steps_shown(kept: &Kept) -> Option<u64> {
    match (kept.values.len(), kept.rows.as_slice()) {
        (0, []) => Some(0),
        (2, []) => Some(1),
        (2, [first, second]) if is_row(second, "p2", SECOND) => {
            if is_row(first, "p1", FIRST) {
                return Some(2);
            }
            if is_row(first, "p1", FIRST_UPDATED) {
                return Some(3);
            }
            None
        }
        _ => None,
    }
}

/// After how many steps the files show what they have, as the machine comes back.
fn steps_found(alloc: Global, files: Files<Disk>) -> Result<Option<u64>, Fail> {
    let Files { mut log, mut db } = files;
    log.crash();
    db.crash();
    let files = Files { log, db };
    let Ok(connection) = Connection::open_files(alloc, files, Options::new(1)) else {
        return Ok(None);
    };
    let mut keeper = SqliteKeeper::open(alloc, connection)?;
    if !keeper.fits() {
        return Ok(None);
    }
    let kept = keeper.load(alloc, "app:A")?;
    Ok(steps_shown(&kept))
}

/// Whether the stops at these calls leave what they may, and whether none came.
fn stop_at(alloc: Global, log_calls: u64, db_calls: u64) -> Result<(bool, bool), Fail> {
    let Left { files, done, whole } = run_over(alloc, log_calls, db_calls)?;
    let Some(files) = files else {
        return Ok((true, false));
    };
    match steps_found(alloc, files)? {
        Some(found) => Ok((done <= found, whole)),
        None => Ok((false, whole)),
    }
}

#[test]
fn nothing_is_lost_without_a_stop(rt: HostRuntime) -> Result<(), Fail> {
    let (right, whole) = stop_at(rt.alloc(), u64::MAX, u64::MAX)?;
    assert!(rt; right);
    assert!(rt; whole);
    Ok(())
}

#[test]
fn a_stop_at_each_call_on_the_log_leaves_whole_steps(rt: HostRuntime) -> Result<(), Fail> {
    for calls in 0..1000u64 {
        let (right, whole) = stop_at(rt.alloc(), calls, u64::MAX)?;
        assert!(rt; right, "{calls}");
        if whole {
            return Ok(());
        }
    }
    Err(Fail::from("each run was stopped"))
}

#[test]
fn a_stop_at_each_call_on_the_database_leaves_whole_steps(rt: HostRuntime) -> Result<(), Fail> {
    for calls in 0..1000u64 {
        let (right, whole) = stop_at(rt.alloc(), u64::MAX, calls)?;
        assert!(rt; right, "{calls}");
        if whole {
            return Ok(());
        }
    }
    Err(Fail::from("each run was stopped"))
}
