//! That reading succeeds with ample memory, and which fault is told first, as worked rows.
use melon_query::Query;
use melon_schema::AppSchema;
use melon_schema::reader::json_of;
use std::alloc::Global;
use std::test::Fail;

const SCHEMA: &str =
    r#"{"version":1,"tables":[{"name":"posts","columns":[{"name":"title","type":"string"},{"name":"body","type":"string"},{"name":"score","type":"number","isOptional":true,"isIndexed":true}],"associations":{"comments":{"type":"has_many","foreignKey":"post_id"}}},{"name":"comments","columns":[{"name":"post_id","type":"string","isIndexed":true},{"name":"text","type":"string"},{"name":"likes","type":"number"}],"associations":{"posts":{"type":"belongs_to","key":"post_id"}}}]}"#;

fn schema(alloc: Global) -> Result<AppSchema, Fail> {
    let json = json_of(alloc, SCHEMA.as_bytes())?;
    Ok(AppSchema::read(alloc, &json)?)
}

/// The number of the fault, or 10 where the text is a query over the posts.
fn told(alloc: Global, schema: &AppSchema, text: &str) -> Result<u64, Fail> {
    let json = json_of(alloc, text.as_bytes())?;
    Ok(match Query::read(alloc, &json, schema, "posts") {
        Ok(_) => 10,
        Err(fault) => fault.number(),
    })
}

#[test]
fn reads_a_query(rt: HostRuntime) -> Result<(), Fail> {
    let schema = schema(rt.alloc())?;
    let text =
        r#"{"where":[{"on":"posts","is":[{"column":"score","op":"between","value":[1,2]}]}],"sortBy":[["likes","desc"]],"take":3,"skip":1}"#;
    let json = json_of(rt.alloc(), text.as_bytes())?;
    let query = Query::read(rt.alloc(), &json, &schema, "comments")?;
    assert_eq!(rt; query.table, 1);
    assert_eq!(rt; query.conds.len(), 1);
    assert_eq!(rt; query.sort.len(), 1);
    assert_eq!(rt; query.take, Some(3));
    assert_eq!(rt; query.skip, 1);
    assert!(rt; !query.is_simple());
    let tables = query.tables(rt.alloc())?;
    assert_eq!(rt; tables.as_slice(), [0usize, 1].as_slice());
    Ok(())
}

/// The query over posts reads the tables at these places.
fn names(alloc: Global, schema: &AppSchema, text: &str, places: &[usize]) -> Result<(), Fail> {
    let json = json_of(alloc, text.as_bytes())?;
    let query = Query::read(alloc, &json, schema, "posts")?;
    let tables = query.tables(alloc)?;
    if tables.as_slice() != places {
        return Err(Fail::from(text));
    }
    Ok(())
}

#[test]
fn names_the_tables_that_it_reads(rt: HostRuntime) -> Result<(), Fail> {
    let schema = schema(rt.alloc())?;
    let below_or =
        r#"{"joins":["comments"],"where":[{"or":[{"on":"comments","is":[{"column":"likes","op":"eq","value":1}]},{"column":"title","op":"eq","value":"t2"}]}]}"#;
    names(rt.alloc(), &schema, below_or, &[0, 1])?;
    names(rt.alloc(), &schema, r#"{"joins":["comments"]}"#, &[0])?;
    names(rt.alloc(), &schema, "{}", &[0])?;
    Ok(())
}

/// The fault of this number is told first.
fn tells(alloc: Global, schema: &AppSchema, text: &str, number: u64) -> Result<(), Fail> {
    if told(alloc, schema, text)? != number {
        return Err(Fail::from(text));
    }
    Ok(())
}

#[test]
fn tells_the_first_fault(rt: HostRuntime) -> Result<(), Fail> {
    let schema = schema(rt.alloc())?;
    tells(rt.alloc(), &schema, r#"{}"#, 10)?;
    tells(rt.alloc(), &schema, r#"[]"#, 1)?;
    tells(rt.alloc(), &schema, r#"{"where":{}}"#, 1)?;
    tells(rt.alloc(), &schema, r#"{"take":-1}"#, 1)?;
    tells(rt.alloc(), &schema, r#"{"take":9007199254740992}"#, 1)?;
    tells(rt.alloc(), &schema, r#"{"sortBy":[["title","up"]]}"#, 1)?;
    tells(
        rt.alloc(),
        &schema,
        r#"{"where":[{"column":"nope","op":"is","value":1}]}"#,
        1,
    )?;
    tells(
        rt.alloc(),
        &schema,
        r#"{"where":[{"column":"score","op":"eq","value":1.5}]}"#,
        1,
    )?;
    tells(
        rt.alloc(),
        &schema,
        r#"{"where":[{"column":"score","op":"eq","value":[1]}]}"#,
        1,
    )?;
    tells(
        rt.alloc(),
        &schema,
        r#"{"where":[{"column":"score","op":"between","value":[1,2,3]}]}"#,
        1,
    )?;
    tells(
        rt.alloc(),
        &schema,
        r#"{"where":[{"on":"comments","is":[{"on":"posts","is":[]}]}]}"#,
        1,
    )?;
    tells(
        rt.alloc(),
        &schema,
        r#"{"where":[{"on":"likes","is":[]}]}"#,
        2,
    )?;
    tells(rt.alloc(), &schema, r#"{"joins":["x","posts"]}"#, 2)?;
    tells(
        rt.alloc(),
        &schema,
        r#"{"where":[{"column":"nope","op":"eq","value":null},{"on":"x","is":[]}]}"#,
        3,
    )?;
    tells(
        rt.alloc(),
        &schema,
        r#"{"where":[{"column":"title","op":"eq","other":"nope"}]}"#,
        3,
    )?;
    tells(
        rt.alloc(),
        &schema,
        r#"{"sortBy":[["x","asc"]],"skip":1}"#,
        3,
    )?;
    tells(
        rt.alloc(),
        &schema,
        r#"{"where":[{"column":"score","op":"like","value":"a"}]}"#,
        4,
    )?;
    tells(
        rt.alloc(),
        &schema,
        r#"{"where":[{"column":"title","op":"like","other":"body"}]}"#,
        4,
    )?;
    tells(
        rt.alloc(),
        &schema,
        r#"{"where":[{"column":"title","op":"gt","other":"score"}]}"#,
        4,
    )?;
    tells(
        rt.alloc(),
        &schema,
        r#"{"where":[{"column":"title","op":"oneOf","value":"a"}]}"#,
        4,
    )?;
    tells(
        rt.alloc(),
        &schema,
        r#"{"where":[{"column":"score","op":"between","value":[null,1]}]}"#,
        4,
    )?;
    tells(
        rt.alloc(),
        &schema,
        r#"{"where":[{"column":"title","op":"oneOf","value":[1,null]}]}"#,
        4,
    )?;
    tells(
        rt.alloc(),
        &schema,
        r#"{"where":[{"column":"title","op":"oneOf","value":["a",null]}]}"#,
        5,
    )?;
    tells(
        rt.alloc(),
        &schema,
        r#"{"where":[{"on":"posts","is":[]}]}"#,
        6,
    )?;
    tells(
        rt.alloc(),
        &schema,
        r#"{"joins":["posts"],"where":[{"column":"x","op":"eq","value":1}]}"#,
        6,
    )?;
    tells(
        rt.alloc(),
        &schema,
        r#"{"where":[{"or":[{"on":"comments","is":[{"column":"x","op":"eq","value":1}]}]}]}"#,
        7,
    )?;
    tells(rt.alloc(), &schema, r#"{"skip":0}"#, 8)?;
    tells(rt.alloc(), &schema, r#"{"skip":1,"take":1}"#, 10)?;
    tells(
        rt.alloc(),
        &schema,
        r#"{"joins":["comments"],"where":[{"or":[{"on":"comments","is":[]}]}]}"#,
        10,
    )?;
    tells(
        rt.alloc(),
        &schema,
        r#"{"where":[{"column":"id","op":"like","value":"a%"}]}"#,
        10,
    )?;
    tells(
        rt.alloc(),
        &schema,
        r#"{"where":[{"column":"title","op":"weakGt","other":"body"}]}"#,
        10,
    )?;
    Ok(())
}

/// A text, then one as often as is asked for, separated, then a third.
fn repeated(
    alloc: Global,
    before: &str,
    item: &str,
    separator: &str,
    after: &str,
    count: u64,
) -> Result<String, Fail> {
    let mut text = String::from_str(alloc, before)?;
    for place in 0..count {
        if place > 0 {
            text.push_str(separator)?;
        }
        text.push_str(item)?;
    }
    text.push_str(after)?;
    Ok(text)
}

/// So many items in a list are told so.
fn limits(
    alloc: Global,
    schema: &AppSchema,
    before: &str,
    item: &str,
    after: &str,
    count: u64,
    number: u64,
) -> Result<(), Fail> {
    let text = repeated(alloc, before, item, ",", after, count)?;
    tells(alloc, schema, text.as_str(), number)
}

#[test]
fn tells_the_limits(rt: HostRuntime) -> Result<(), Fail> {
    let schema = schema(rt.alloc())?;
    limits(
        rt.alloc(),
        &schema,
        r#"{"where":["#,
        r#"{"column":"id","op":"eq","value":null}"#,
        "]}",
        256,
        10,
    )?;
    limits(
        rt.alloc(),
        &schema,
        r#"{"where":["#,
        r#"{"column":"x","op":"eq","value":null}"#,
        "]}",
        257,
        9,
    )?;
    limits(
        rt.alloc(),
        &schema,
        r#"{"where":[{"column":"id","op":"oneOf","value":["#,
        r#""a""#,
        "]}]}",
        1000,
        10,
    )?;
    limits(
        rt.alloc(),
        &schema,
        r#"{"where":[{"column":"x","op":"oneOf","value":["#,
        r#""a""#,
        "]}]}",
        1001,
        9,
    )?;
    Ok(())
}

/// A condition in so many lists of conditions is told so.
fn depth(
    alloc: Global,
    schema: &AppSchema,
    middle: &str,
    count: u64,
    number: u64,
) -> Result<(), Fail> {
    let inner = repeated(alloc, middle, "]}", "", "]}", count)?;
    let before = r#"{"where":["#;
    let text = repeated(alloc, before, r#"{"and":["#, "", inner.as_str(), count)?;
    tells(alloc, schema, text.as_str(), number)
}

#[test]
fn tells_the_depth(rt: HostRuntime) -> Result<(), Fail> {
    let schema = schema(rt.alloc())?;
    depth(
        rt.alloc(),
        &schema,
        r#"{"column":"id","op":"eq","value":null}"#,
        16,
        10,
    )?;
    depth(
        rt.alloc(),
        &schema,
        r#"{"column":"x","op":"eq","value":null}"#,
        17,
        9,
    )?;
    depth(rt.alloc(), &schema, "", 17, 10)?;
    depth(rt.alloc(), &schema, "", 18, 9)?;
    Ok(())
}
