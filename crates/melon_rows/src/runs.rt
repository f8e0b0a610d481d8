//! Runs over a source, a sink and a keeper that fail: what is printed, and how they end.
use crate::trial::{CALM, Outside, ends};
use melon_cli::Status;
use std::alloc::Global;
use std::test::Fail;

const OPENED: &str =
    r#"{"do":"open","app":"A","schema":{"version":1,"tables":[{"name":"posts","columns":[{"name":"title","type":"string"},{"name":"body","type":"string"},{"name":"score","type":"number","isOptional":true,"isIndexed":true}],"associations":{"comments":{"type":"has_many","foreignKey":"post_id"}}},{"name":"comments","columns":[{"name":"post_id","type":"string","isIndexed":true},{"name":"text","type":"string"},{"name":"likes","type":"number"}],"associations":{"posts":{"type":"belongs_to","key":"post_id"}}}]}}"#;

const THREE_CREATED: &str =
    r#"{"do":"write","app":"A","ops":[{"create":"posts","id":"p3","set":{"title":"c"}},{"create":"posts","id":"p1","set":{"title":"a"}},{"create":"posts","id":"p2","set":{}}]}"#;

const FETCHED: &str = r#"{"do":"fetch","app":"A","table":"posts","query":{}}"#;

const THREE_TEXT: &str = "open A rows 0 last 0\nwrite A at 1\nfetch A [\"p1\",\"p2\",\"p3\"]\n";

const FIRST_CREATED: &str =
    r#"{"do":"write","app":"A","ops":[{"create":"posts","id":"p1","set":{"title":"a"}}]}"#;

const NONE_CREATED: &str = r#"{"do":"write","app":"A","ops":[]}"#;

const FIRST_DESTROYED: &str = r#"{"do":"write","app":"A","ops":[{"destroy":"posts","id":"p1"}]}"#;

pub fn script(alloc: Global, lines: &[&str]) -> Result<Vec<u8>, Fail> {
    let mut bytes = Vec::new(alloc);
    for line in lines {
        bytes.extend_from_slice(line.as_bytes())?;
        bytes.push(b'\n')?;
    }
    Ok(bytes)
}

/// The run ended so, and this was written.
pub fn must_end(got: (Status, String), status: Status, text: &str) -> Result<(), Fail> {
    if got.0 == status && got.1.as_str() == text {
        return Ok(());
    }
    Err(Fail::from(got.1))
}

/// Runs these lines, and holds the end and the text against what is wanted.
pub fn expect(
    alloc: Global,
    lines: &[&str],
    outside: &Outside<'_>,
    status: Status,
    text: &str,
) -> Result<(), Fail> {
    let bytes = script(alloc, lines)?;
    must_end(ends(alloc, &["run"], bytes, outside)?, status, text)
}

#[test]
fn a_script_prints_its_text(rt: HostRuntime) -> Result<(), Fail> {
    let lines = [OPENED, THREE_CREATED, FETCHED];
    expect(rt.alloc(), &lines, &CALM, Status::Done, THREE_TEXT)?;
    expect(rt.alloc(), &[], &CALM, Status::Done, "")
}

fn refused_words(alloc: Global, words: &[&str]) -> Result<(), Fail> {
    let ended = ends(alloc, words, Vec::new(alloc), &CALM)?;
    must_end(ended, Status::BadWords, "")
}

#[test]
fn other_words_are_refused(rt: HostRuntime) -> Result<(), Fail> {
    refused_words(rt.alloc(), &[])?;
    refused_words(rt.alloc(), &["fly"])?;
    refused_words(rt.alloc(), &["run", "run"])
}

/// Three lines over an outside that moves seven bytes a call.
fn slow_run(
    alloc: Global,
    room: usize,
    read_fails: &[u64],
    write_fails: &[u64],
    status: Status,
    text: &str,
) -> Result<(), Fail> {
    let outside = Outside {
        most: 7,
        room,
        read_fails,
        write_fails,
        keeper_fails: &[],
    };
    let lines = [OPENED, THREE_CREATED, FETCHED];
    expect(alloc, &lines, &outside, status, text)
}

#[test]
fn a_failing_source_or_sink_is_told(rt: HostRuntime) -> Result<(), Fail> {
    let alloc = rt.alloc();
    slow_run(alloc, 1000, &[1], &[], Status::ReadFault, "")?;
    slow_run(alloc, 1000, &[9], &[], Status::ReadFault, "")?;
    slow_run(alloc, 1000, &[], &[3], Status::WriteFault, "open A rows 0 ")?;
    let front = "open A rows 0 last 0";
    slow_run(alloc, 20, &[], &[], Status::WriteFault, front)
}

/// A run whose keeper fails at one call.
pub fn keeper_fails(
    alloc: Global,
    keeper_fails: &[u64],
    lines: &[&str],
    text: &str,
) -> Result<(), Fail> {
    let outside = Outside {
        most: 1000,
        room: 100000,
        read_fails: &[],
        write_fails: &[],
        keeper_fails,
    };
    expect(alloc, lines, &outside, Status::Done, text)
}

#[test]
fn a_failing_keeper_changes_nothing(rt: HostRuntime) -> Result<(), Fail> {
    let alloc = rt.alloc();
    let lines = [OPENED, FETCHED, OPENED];
    let text = "refused keeper 1\nrefused app 2 \"A\"\nopen A rows 0 last 0\n";
    keeper_fails(alloc, &[1], &lines, text)?;
    let lines = [OPENED, FIRST_CREATED, FIRST_CREATED];
    let text = "open A rows 0 last 0\nrefused keeper 1\nwrite A at 1\n";
    keeper_fails(alloc, &[3], &lines, text)?;
    let lines = [
        OPENED,
        FIRST_CREATED,
        NONE_CREATED,
        FIRST_DESTROYED,
        FETCHED,
        FIRST_DESTROYED,
    ];
    let text =
        "open A rows 0 last 0\nwrite A at 1\nwrite A at 1\nrefused keeper 1\nfetch A [\"p1\"]\nwrite A at 2\n";
    keeper_fails(alloc, &[4], &lines, text)
}
