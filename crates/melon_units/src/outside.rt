use melon_outside::{
    Arrivals, Duplex, Keeper, KeeperError, Kept, KeptBatch, KeptKey, KeptRow, KeptValue,
    MemoryArrivals, MemoryConn, MemoryKeeper, MemorySink, MemorySource, ReadFault, Sink, Source,
    StdSink, StdSource, TcpArrivals, read_all, send_all, write_all,
};
use melon_schema::{List, Text};
use std::alloc::Global;
use std::io;
use std::net::{Shutdown, TcpListener, TcpStream};
use std::test::Fail;

fn numbers(alloc: Global, all: &[u64]) -> Result<List<u64>, Fail> {
    Ok(List::from_vec(all.to_vec(alloc)?))
}

fn bytes(alloc: Global, text: &str) -> Result<List<u8>, Fail> {
    Ok(List::from_vec(text.as_bytes().to_vec(alloc)?))
}

fn row(alloc: Global, table: &str, id: &str, body: &str) -> Result<KeptRow, Fail> {
    Ok(KeptRow {
        table: Text::new(alloc, table)?,
        id: Text::new(alloc, id)?,
        body: bytes(alloc, body)?,
    })
}

fn key(alloc: Global, table: &str, id: &str) -> Result<KeptKey, Fail> {
    Ok(KeptKey {
        table: Text::new(alloc, table)?,
        id: Text::new(alloc, id)?,
    })
}

fn batch(alloc: Global, clear: bool) -> KeptBatch {
    KeptBatch {
        clear,
        removes: List::new(alloc),
        puts: List::new(alloc),
        values: List::new(alloc),
    }
}

/// The rows and values as one text.
fn shown(alloc: Global, kept: &Kept) -> Result<String, Fail> {
    let mut text = String::new(alloc);
    for row in kept.rows.as_slice() {
        text.push_str(row.table.as_str())?;
        text.push('.')?;
        text.push_str(row.id.as_str())?;
        text.push('=')?;
        for byte in row.body.as_slice() {
            text.push(char::from(*byte))?;
        }
        text.push(' ')?;
    }
    for value in kept.values.as_slice() {
        text.push_str(format!(in alloc; "{}:{} ", value.name.as_str(), value.number)?.as_str())?;
    }
    Ok(text)
}

#[test]
fn reads_whole(rt: HostRuntime) -> Result<(), Fail> {
    let alloc = rt.alloc();
    for (most, fails, want) in [
        (5, 0, "Ok"),
        (4, 0, "TooLong"),
        (5, 2, "Failed"),
        (5, 9, "Ok"),
    ] {
        let mut source = MemorySource::new(bytes(alloc, "hello")?, 2, numbers(alloc, &[fails])?);
        let got = match read_all(alloc, &mut source, most) {
            Ok(all) => {
                assert_eq!(rt; all.as_slice(), b"hello".as_slice());
                "Ok"
            }
            Err(ReadFault::TooLong) => "TooLong",
            Err(ReadFault::Failed) => "Failed",
            Err(ReadFault::Memory) => "Memory",
        };
        assert_eq!(rt; got, want, "at most {most}");
    }
    Ok(())
}

#[test]
fn reads_more_than_the_first_room(rt: HostRuntime) -> Result<(), Fail> {
    let alloc = rt.alloc();
    let many = vec![in alloc; 7u8; 200000]?;
    let mut source = MemorySource::new(List::from_vec(many), 70000, List::new(alloc));
    match read_all(alloc, &mut source, 16777216) {
        Ok(all) => assert_eq!(rt; all.len(), 200000),
        Err(_) => assert!(rt; false),
    }
    Ok(())
}

#[test]
fn writes_whole_or_a_front(rt: HostRuntime) -> Result<(), Fail> {
    let alloc = rt.alloc();
    for (room, fails, want) in [
        (5, 0, "hello"),
        (9, 0, "hello"),
        (3, 0, "hel"),
        (9, 2, "he"),
    ] {
        let mut sink = MemorySink::new(alloc, room, 2, numbers(alloc, &[fails])?)?;
        let done = write_all(&mut sink, b"hello").is_ok();
        assert_eq!(rt; sink.bytes(), want.as_bytes());
        assert_eq!(rt; done, want.len() == 5, "room {room}");
    }
    Ok(())
}

#[test]
fn adapters_pass_bytes_on(rt: HostRuntime) -> Result<(), Fail> {
    let mut source = StdSource::new(b"abc".as_slice());
    let mut into = [0u8; 2];
    assert_eq!(rt; source.read(&mut into).ok(), Some(2));
    assert_eq!(rt; into.as_slice(), b"ab".as_slice());
    assert_eq!(rt; source.read(&mut into).ok(), Some(1));
    assert_eq!(rt; source.read(&mut into).ok(), Some(0));
    let mut sink = StdSink::new(Vec::new(rt.alloc()));
    assert_eq!(rt; sink.write(b"abc").ok(), Some(3));
    Ok(())
}

fn first_batch(alloc: Global) -> Result<KeptBatch, Fail> {
    let mut first = batch(alloc, false);
    first.puts.push(row(alloc, "t", "b", "1")?)?;
    first.puts.push(row(alloc, "s", "c", "2")?)?;
    first.puts.push(row(alloc, "t", "a", "3")?)?;
    first.values.push(KeptValue {
        name: Text::new(alloc, "n")?,
        number: 7,
    })?;
    Ok(first)
}

fn second_batch(alloc: Global) -> Result<KeptBatch, Fail> {
    let mut second = batch(alloc, false);
    second.removes.push(key(alloc, "t", "a")?)?;
    second.removes.push(key(alloc, "t", "b")?)?;
    second.puts.push(row(alloc, "t", "a", "4")?)?;
    Ok(second)
}

fn loaded<K: Keeper>(keeper: &mut K, alloc: Global, store: &str) -> Result<String, Fail> {
    match keeper.load(alloc, store) {
        Ok(kept) => shown(alloc, &kept),
        Err(KeeperError::Failed) => Ok(String::from_str(alloc, "failed")?),
        Err(KeeperError::Memory) => Ok(String::from_str(alloc, "memory")?),
    }
}

fn committed<K: Keeper>(keeper: &mut K, alloc: Global, batch: &KeptBatch) -> &'static str {
    match keeper.commit(alloc, "app:A", batch) {
        Ok(()) => "done",
        Err(KeeperError::Failed) => "failed",
        Err(KeeperError::Memory) => "memory",
    }
}

#[test]
fn a_batch_is_done_in_the_order_of_its_fields(rt: HostRuntime) -> Result<(), Fail> {
    let alloc = rt.alloc();
    let mut keeper = MemoryKeeper::new(alloc, List::new(alloc), List::new(alloc));
    assert_eq!(rt; committed(&mut keeper, alloc, &first_batch(alloc)?), "done");
    assert_eq!(rt;
        committed(&mut keeper, alloc, &second_batch(alloc)?),
        "done"
    );
    let text = loaded(&mut keeper, alloc, "app:A")?;
    assert_eq!(rt; text.as_str(), "s.c=2 t.a=4 n:7 ");
    let none = loaded(&mut keeper, alloc, "app:B")?;
    assert_eq!(rt; none.as_str(), "");
    Ok(())
}

#[test]
fn a_planned_call_fails_and_clear_leaves_the_values(rt: HostRuntime) -> Result<(), Fail> {
    let alloc = rt.alloc();
    let mut keeper = MemoryKeeper::new(alloc, List::new(alloc), numbers(alloc, &[2])?);
    assert_eq!(rt; committed(&mut keeper, alloc, &first_batch(alloc)?), "done");
    assert_eq!(rt;
        committed(&mut keeper, alloc, &batch(alloc, true)),
        "failed"
    );
    assert_eq!(rt; committed(&mut keeper, alloc, &batch(alloc, true)), "done");
    let text = loaded(&mut keeper, alloc, "app:A")?;
    assert_eq!(rt; text.as_str(), "n:7 ");
    Ok(())
}

/// Takes a connection, sends back what it reads of it, and hands it back.
fn echo<A: Arrivals>(arrivals: &mut A) -> bool {
    match arrivals.next() {
        Ok(mut conn) => {
            let mut into = [0u8; 8];
            let count = conn.read(&mut into).unwrap_or(0).min(8);
            let sent = send_all(&mut conn, &into[..count]).is_ok();
            arrivals.finish(conn);
            sent
        }
        Err(_) => false,
    }
}

fn conn(alloc: Global, text: &str) -> Result<MemoryConn, Fail> {
    let source = MemorySource::new(bytes(alloc, text)?, 8, List::new(alloc));
    let sink = MemorySink::new(alloc, 2, 8, List::new(alloc))?;
    Ok(MemoryConn::new(source, sink))
}

#[test]
fn connections_come_in_order_and_are_handed_back(rt: HostRuntime) -> Result<(), Fail> {
    let alloc = rt.alloc();
    let mut conns = List::new(alloc);
    conns.push(conn(alloc, "hi")?)?;
    conns.push(conn(alloc, "you")?)?;
    let mut arrivals = MemoryArrivals::new(alloc, conns)?;
    assert!(rt; echo(&mut arrivals));
    assert!(rt; !echo(&mut arrivals));
    assert!(rt; !echo(&mut arrivals));
    let mut all = String::new(alloc);
    for conn in arrivals.finished() {
        for byte in conn.bytes() {
            all.push(char::from(*byte))?;
        }
        all.push(' ')?;
    }
    assert_eq!(rt; all.as_str(), "hi yo ");
    Ok(())
}

#[test]
fn a_connection_over_tcp_is_read_written_and_closed(rt: HostRuntime) -> Result<(), Fail> {
    let listener = TcpListener::bind(&rt, "127.0.0.1:0")?;
    let mut client = TcpStream::connect(&rt, listener.local_addr()?)?;
    io::Write::write_all(&mut client, b"hello")?;
    client.shutdown(Shutdown::Write)?;
    let mut arrivals = TcpArrivals::new(listener, &rt);
    assert!(rt; echo(&mut arrivals));
    let reply = io::read_to_string(rt.alloc(), client)?;
    assert_eq!(rt; reply.as_str(), "hello");
    Ok(())
}
