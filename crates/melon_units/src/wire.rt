use melon_wire::{WireFault, read_changes, read_reply, write_changes, write_reply};
use std::alloc::Global;
use std::test::Fail;

fn again(alloc: Global, text: &str) -> Result<String, Fail> {
    let changes = match read_changes(alloc, text.as_bytes()) {
        Ok(changes) => changes,
        Err(fault) => return Ok(format!(in alloc; "{}", fault.number())?),
    };
    Ok(String::from_utf8(write_changes(alloc, &changes)?)?)
}

/// Changes that are read are written so; a fault is told by its number.
fn reads_back(alloc: Global, text: &str, written: &str) -> Result<(), Fail> {
    if again(alloc, text)?.as_str() != written {
        return Err(Fail::from(text));
    }
    Ok(())
}

#[test]
fn changes_are_read_and_written(rt: HostRuntime) -> Result<(), Fail> {
    reads_back(rt.alloc(), "{}", "{}")?;
    reads_back(
        rt.alloc(),
        r#"{"posts":{}}"#,
        r#"{"posts":{"created":[],"deleted":[],"updated":[]}}"#,
    )?;
    reads_back(
        rt.alloc(),
        r#" {"b":{"deleted":["p 2"]},"a":{"updated":[{"id":"p1"}]}}"#,
        "5",
    )?;
    reads_back(
        rt.alloc(),
        r#"{"b":{"deleted":["p2"]},"a":{"updated":[{"id":"p1"}]}}"#,
        r#"{"a":{"created":[],"deleted":[],"updated":[{"id":"p1"}]},"b":{"created":[],"deleted":["p2"],"updated":[]}}"#,
    )?;
    reads_back(
        rt.alloc(),
        r#"{"posts":{"created":[{"id":"p1","_status":1.5,"_changed":"","title":"x","score":-7,"Z":[1.5],"none":null,"pinned":true,"odd":{"a":1}}]}}"#,
        r#"{"posts":{"created":[{"Z":null,"id":"p1","none":null,"odd":null,"pinned":true,"score":-7,"title":"x"}],"deleted":[],"updated":[]}}"#,
    )?;
    Ok(())
}

/// The fault of this number is told first.
fn tells(alloc: Global, text: &str, number: u64) -> Result<(), Fail> {
    let told = match read_changes(alloc, text.as_bytes()) {
        Ok(_) => 0,
        Err(fault) => fault.number(),
    };
    if told != number {
        return Err(Fail::from(text));
    }
    Ok(())
}

#[test]
fn the_first_fault_is_told(rt: HostRuntime) -> Result<(), Fail> {
    tells(rt.alloc(), "", 1)?;
    tells(rt.alloc(), "{", 1)?;
    tells(
        rt.alloc(),
        r#"{"posts":{"created":[{"id":"p1","x":1e999}]}}"#,
        1,
    )?;
    tells(rt.alloc(), "[]", 2)?;
    tells(rt.alloc(), r#"{"posts":[]}"#, 2)?;
    tells(rt.alloc(), r#"{"posts":{"made":[]}}"#, 2)?;
    tells(rt.alloc(), r#"{"posts":{"created":{}}}"#, 2)?;
    tells(
        rt.alloc(),
        r#"{"posts":{"created":[{"id":" "}],"updated":null}}"#,
        2,
    )?;
    tells(
        rt.alloc(),
        r#"{"posts":{"created":[{"id":" "}],"updated":[7]}}"#,
        5,
    )?;
    tells(rt.alloc(), r#"{"posts":{"created":[[]]}}"#, 2)?;
    tells(rt.alloc(), r#"{"posts":{"created":[{"x":1.5}]}}"#, 2)?;
    tells(rt.alloc(), r#"{"posts":{"created":[{"id":1,"x":1.5}]}}"#, 2)?;
    tells(rt.alloc(), r#"{"posts":{"deleted":[7]}}"#, 2)?;
    tells(
        rt.alloc(),
        r#"{"posts":{"created":[{"id":"p1","x":1.5}]}}"#,
        3,
    )?;
    tells(
        rt.alloc(),
        r#"{"posts":{"created":[{"id":"p1","x":-0}]}}"#,
        3,
    )?;
    tells(
        rt.alloc(),
        r#"{"posts":{"created":[{"id":"p1","x":9007199254740992}]}}"#,
        3,
    )?;
    tells(
        rt.alloc(),
        r#"{"posts":{"created":[{"id":"","x":1.5}]}}"#,
        5,
    )?;
    tells(
        rt.alloc(),
        r#"{"posts":{"updated":[{"id":"p1","x":1.5}],"deleted":["p 2"]}}"#,
        5,
    )?;
    tells(
        rt.alloc(),
        r#"{"posts":{"created":[{"id":"p1","x":1.5}],"deleted":["p 2"]}}"#,
        3,
    )?;
    tells(rt.alloc(), r#"{"9":1}"#, 4)?;
    tells(rt.alloc(), r#"{"":{}}"#, 4)?;
    tells(
        rt.alloc(),
        r#"{"a":{"created":[{"id":"a","x":1.5}]},"b":1}"#,
        3,
    )?;
    tells(
        rt.alloc(),
        r#"{"b":{"created":[{"id":"a","x":1.5}]},"a":1}"#,
        2,
    )?;
    Ok(())
}

/// The fault of this number is told of a reply; 0 is none.
fn tells_of_reply(alloc: Global, text: &str, number: u64) -> Result<(), Fail> {
    let told = match read_reply(alloc, text.as_bytes()) {
        Ok(_) => 0,
        Err(fault) => fault.number(),
    };
    if told != number {
        return Err(Fail::from(text));
    }
    Ok(())
}

#[test]
fn replies_are_read_and_written(rt: HostRuntime) -> Result<(), Fail> {
    let text = r#"{"changes":{"posts":{"created":[],"deleted":[],"updated":[]}},"timestamp":1}"#;
    let reply = match read_reply(rt.alloc(), text.as_bytes()) {
        Ok(reply) => reply,
        Err(_) => return Err("no reply".into()),
    };
    assert_eq!(rt; reply.timestamp, 1);
    let written = String::from_utf8(write_reply(rt.alloc(), &reply)?)?;
    assert_eq!(rt; written.as_str(), text);
    tells_of_reply(rt.alloc(), "[1]", 2)?;
    tells_of_reply(rt.alloc(), r#"{"changes":{}}"#, 2)?;
    tells_of_reply(rt.alloc(), r#"{"timestamp":1}"#, 2)?;
    tells_of_reply(rt.alloc(), r#"{"changes":{},"timestamp":0,"more":1.5}"#, 0)?;
    tells_of_reply(rt.alloc(), r#"{"changes":{},"timestamp":-1}"#, 3)?;
    tells_of_reply(rt.alloc(), r#"{"changes":{},"timestamp":null}"#, 3)?;
    tells_of_reply(
        rt.alloc(),
        r#"{"changes":{},"timestamp":9007199254740992}"#,
        3,
    )?;
    tells_of_reply(rt.alloc(), r#"{"changes":{"9":1},"timestamp":-1}"#, 4)?;
    assert_eq!(rt; WireFault::NotJson.number(), 1);
    Ok(())
}
