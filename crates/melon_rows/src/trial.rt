//! One run over a source, a sink and a keeper in memory.
use melon_cli::{Status, melon_run};
use melon_outside::{Keeper, MemoryKeeper, MemorySink, MemorySource};
use melon_schema::List;
use std::alloc::Global;
use std::test::Fail;

/// How the outside behaves: how many bytes a call moves, and which of its calls fail.
#[derive(Clone, Copy)]
pub struct Outside<'a> {
    pub most: usize,
    pub room: usize,
    pub read_fails: &'a [u64],
    pub write_fails: &'a [u64],
    pub keeper_fails: &'a [u64],
}

/// An outside without a fault.
pub const CALM: Outside<'static> = Outside {
    most: 1000,
    room: 100000,
    read_fails: &[],
    write_fails: &[],
    keeper_fails: &[],
};

fn copied(alloc: Global, numbers: &[u64]) -> Result<List<u64>, Fail> {
    Ok(List::from_vec(numbers.to_vec(alloc)?))
}

/// Runs these words on these bytes over nothing kept: the status, and what was written.
pub fn ends(
    alloc: Global,
    words: &[&str],
    bytes: Vec<u8>,
    outside: &Outside<'_>,
) -> Result<(Status, String), Fail> {
    let fails = copied(alloc, outside.keeper_fails)?;
    let mut keeper = MemoryKeeper::new(alloc, List::new(alloc), fails);
    ends_over(alloc, words, bytes, outside, &mut keeper)
}

/// The same over what a keeper keeps.
pub fn ends_over<K: Keeper>(
    alloc: Global,
    words: &[&str],
    bytes: Vec<u8>,
    outside: &Outside<'_>,
    keeper: &mut K,
) -> Result<(Status, String), Fail> {
    let mut owned = Vec::new(alloc);
    for word in words {
        owned.push(String::from_str(alloc, *word)?)?;
    }
    if outside.most == 0 {
        return Err(Fail::from("a call moves at least one byte"));
    }
    let mut input = MemorySource::new(
        List::from_vec(bytes),
        outside.most,
        copied(alloc, outside.read_fails)?,
    );
    let mut output = MemorySink::new(
        alloc,
        outside.room,
        outside.most,
        copied(alloc, outside.write_fails)?,
    )?;
    let status = melon_run(alloc, owned.as_slice(), &mut input, &mut output, keeper);
    let text = String::from_utf8(output.bytes().to_vec(alloc)?)?;
    Ok((status, text))
}
