//! That operations are read and prepared with ample memory, as worked rows.
ghost use Rattle.std.specs.Prelude.{◌≡◌};
ghost use Rattle.melon_table.specs.Seen.{columns_of, declared_columns};

use melon_change::{BatchFault, Change, OpsFault, Told, prepare, read_ops};
use melon_schema::AppSchema;
use melon_schema::reader::json_of;
use melon_table::Tables;
use std::alloc::Global;
use std::test::Fail;

const POSTS: &str =
    r#"{"version":1,"tables":[{"name":"posts","columns":[{"name":"title","type":"string"},{"name":"score","type":"number","isOptional":true}]}]}"#;

/// What the operations are read as: how many, or the fault.
fn read(alloc: Global, text: &str) -> Result<(u64, u64), Fail> {
    let json = json_of(alloc, text.as_bytes())?;
    Ok(match read_ops(alloc, &json) {
        Ok(ops) => (0, ops.len() as u64),
        Err(OpsFault::Form { op }) => (1, op),
        Err(OpsFault::Number { op }) => (2, op),
        Err(OpsFault::Memory) => (3, 0),
    })
}

/// The operations are read so.
fn reads(alloc: Global, text: &str, wanted: (u64, u64)) -> Result<(), Fail> {
    if read(alloc, text)? != wanted {
        return Err(Fail::from(text));
    }
    Ok(())
}

#[test]
fn reads_operations(rt: HostRuntime) -> Result<(), Fail> {
    reads(rt.alloc(), r#"[]"#, (0, 0))?;
    reads(
        rt.alloc(),
        r#"[{"create":"posts","id":"p1","set":{"title":"a","score":null}},{"update":"posts","id":"p1","set":{}},{"delete":"posts","id":"p1"},{"destroy":"posts","id":"p1"}]"#,
        (0, 4),
    )?;
    reads(rt.alloc(), r#"{}"#, (1, 0))?;
    reads(rt.alloc(), r#"[{"create":"posts","id":"p1"}]"#, (1, 1))?;
    reads(
        rt.alloc(),
        r#"[{"delete":"posts","id":"p1","set":{}}]"#,
        (1, 1),
    )?;
    reads(
        rt.alloc(),
        r#"[{"update":"posts","id":"p1","set":{"title":[]}}]"#,
        (1, 1),
    )?;
    reads(
        rt.alloc(),
        r#"[{"create":"posts","id":"p1","set":{"score":1.5}},{"create":"posts","id":1,"set":{}}]"#,
        (1, 2),
    )?;
    reads(
        rt.alloc(),
        r#"[{"delete":"posts","id":"p1"},{"create":"posts","id":"p1","set":{"score":9007199254740992}}]"#,
        (2, 2),
    )?;
    reads(
        rt.alloc(),
        r#"[{"create":"posts","id":"p1","set":{"score":9007199254740991}}]"#,
        (0, 1),
    )?;
    reads(
        rt.alloc(),
        r#"[{"create":"posts","id":"p2","set":{"score":9007199254740992}}]"#,
        (2, 1),
    )?;
    Ok(())
}

/// The number of the fault and of its operation.
fn number_of(fault: &BatchFault) -> (u64, u64) {
    match fault {
        BatchFault::UnknownTable { op, .. } => (1, *op),
        BatchFault::UnknownColumn { op, .. } => (2, *op),
        BatchFault::BadId { op, .. } => (3, *op),
        BatchFault::Twice { op, .. } => (4, *op),
        BatchFault::Taken { op, .. } => (5, *op),
        BatchFault::NoRow { op, .. } => (6, *op),
        BatchFault::LongText { op, .. } => (7, *op),
        BatchFault::TooMany { count } => (8, *count),
        BatchFault::Memory => (9, 0),
    }
}

/// How many of the changes are told as created.
fn shown(changes: &[Change]) -> u64 {
    changes
        .iter()
        .filter(|change| change.told() == Told::Created)
        .count() as u64
}

/// How many records the batch makes, or its fault.
fn prepared(
    alloc: Global,
    schema: &AppSchema,
    tables: &Tables,
    text: &str,
) -> Result<(u64, u64), Fail>
    requires { columns_of tables.now ≡ declared_columns schema.now.tables }
{
    let json = json_of(alloc, text.as_bytes())?;
    let ops = read_ops(alloc, &json)?;
    match prepare(alloc, tables, schema, ops) {
        Ok(set) => Ok((0, shown(set.as_slice()))),
        Err(fault) => Ok(number_of(&fault)),
    }
}

/// Whether the batch is refused since its second operation names the post p9, which has no row.
fn misses_p9(alloc: Global, schema: &AppSchema, tables: &Tables, text: &str) -> Result<bool, Fail>
    requires { columns_of tables.now ≡ declared_columns schema.now.tables }
{
    let json = json_of(alloc, text.as_bytes())?;
    let ops = read_ops(alloc, &json)?;
    match prepare(alloc, tables, schema, ops) {
        Err(BatchFault::NoRow { op, table, id }) => {
            Ok(op == 2 && table.is("posts") && id.is("p9"))
        }
        _ => Ok(false),
    }
}

#[test]
fn tells_the_record_without_a_row(rt: HostRuntime) -> Result<(), Fail> {
    let alloc = rt.alloc();
    let json = json_of(alloc, POSTS.as_bytes())?;
    let schema = AppSchema::read(alloc, &json).map_err(|fault| fault.number())?;
    let tables = Tables::new(alloc, &schema)?;
    let text =
        r#"[{"create":"posts","id":"p1","set":{}},{"update":"posts","id":"p9","set":{"title":"a"}}]"#;
    assert!(rt; misses_p9(alloc, &schema, &tables, text)?);
    Ok(())
}

/// The batch is prepared so.
fn prepares(
    alloc: Global,
    schema: &AppSchema,
    tables: &Tables,
    text: &str,
    wanted: (u64, u64),
) -> Result<(), Fail>
    requires { columns_of tables.now ≡ declared_columns schema.now.tables }
{
    if prepared(alloc, schema, tables, text)? != wanted {
        return Err(Fail::from(text));
    }
    Ok(())
}

#[test]
fn prepares_batches(rt: HostRuntime) -> Result<(), Fail> {
    let alloc = rt.alloc();
    let json = json_of(alloc, POSTS.as_bytes())?;
    let schema = AppSchema::read(alloc, &json).map_err(|fault| fault.number())?;
    let tables = Tables::new(alloc, &schema)?;
    prepares(alloc, &schema, &tables, r#"[]"#, (0, 0))?;
    prepares(
        alloc,
        &schema,
        &tables,
        r#"[{"create":"posts","id":"p2","set":{}},{"create":"posts","id":"p1","set":{"title":"b"}}]"#,
        (0, 2),
    )?;
    prepares(
        alloc,
        &schema,
        &tables,
        r#"[{"create":"notes","id":"?","set":{}}]"#,
        (1, 1),
    )?;
    prepares(
        alloc,
        &schema,
        &tables,
        r#"[{"create":"posts","id":"?","set":{"likes":1}}]"#,
        (2, 1),
    )?;
    prepares(
        alloc,
        &schema,
        &tables,
        r#"[{"create":"posts","id":"?","set":{}}]"#,
        (3, 1),
    )?;
    prepares(
        alloc,
        &schema,
        &tables,
        r#"[{"create":"posts","id":"p1","set":{}},{"create":"posts","id":"p2","set":{}},{"update":"posts","id":"p1","set":{}}]"#,
        (4, 3),
    )?;
    prepares(
        alloc,
        &schema,
        &tables,
        r#"[{"destroy":"posts","id":"p1"}]"#,
        (6, 1),
    )?;
    Ok(())
}
