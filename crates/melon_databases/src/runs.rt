//! A run of the program over a keeper.
use melon_cli::{Status, melon_run};
use melon_outside::{Keeper, MemorySink, MemorySource};
use melon_schema::List;
use std::alloc::Global;
use std::test::Fail;

pub const OPENED: &str =
    r#"{"do":"open","app":"A","schema":{"version":1,"tables":[{"name":"posts","columns":[{"name":"title","type":"string"},{"name":"body","type":"string"},{"name":"score","type":"number","isOptional":true,"isIndexed":true}],"associations":{"comments":{"type":"has_many","foreignKey":"post_id"}}},{"name":"comments","columns":[{"name":"post_id","type":"string","isIndexed":true},{"name":"text","type":"string"},{"name":"likes","type":"number"}],"associations":{"posts":{"type":"belongs_to","key":"post_id"}}}]}}"#;

/// What the program prints of this script.
pub fn printed<K: Keeper>(alloc: Global, keeper: &mut K, script: &str) -> Result<String, Fail> {
    let words = [String::from_str(alloc, "run")?];
    let bytes = List::from_vec(script.as_bytes().to_vec(alloc)?);
    let mut input = MemorySource::new(bytes, 65536, List::new(alloc));
    let mut output = MemorySink::new(alloc, 65536, 65536, List::new(alloc))?;
    match melon_run(alloc, &words, &mut input, &mut output, keeper) {
        Status::Done => Ok(String::from_utf8(output.bytes().to_vec(alloc)?)?),
        _ => Err(Fail::from("the run isn't done")),
    }
}
