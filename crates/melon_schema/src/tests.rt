//! That reading succeeds with ample memory, and which fault is told first, as worked rows.
#[cfg(test)]
mod tests {
    use crate::AppSchema;
    use crate::reader::json_of;
    use std::alloc::Global;
    use std::test::Fail;

    const POSTS_AND_COMMENTS: &str =
        r#"{"version":1,"tables":[{"name":"posts","columns":[{"name":"title","type":"string"},{"name":"body","type":"string"},{"name":"score","type":"number","isOptional":true,"isIndexed":true}],"associations":{"comments":{"type":"has_many","foreignKey":"post_id"}}},{"name":"comments","columns":[{"name":"post_id","type":"string","isIndexed":true},{"name":"text","type":"string"},{"name":"likes","type":"number"}],"associations":{"posts":{"type":"belongs_to","key":"post_id"}}}]}"#;

    /// The number of the fault, or 10 where the text is a schema.
    fn told(alloc: Global, text: &str) -> Result<u64, Fail> {
        let json = json_of(alloc, text.as_bytes())?;
        Ok(match AppSchema::read(alloc, &json) {
            Ok(_) => 10,
            Err(fault) => fault.number(),
        })
    }

    #[test]
    fn reads_a_schema(rt: HostRuntime) -> Result<(), Fail> {
        let json = json_of(rt.alloc(), POSTS_AND_COMMENTS.as_bytes())?;
        let schema = AppSchema::read(rt.alloc(), &json).map_err(|fault| fault.number())?;
        assert_eq!(rt; schema.version(), 1);
        assert_eq!(rt; schema.len(), 2);
        assert_eq!(rt; schema.table("comments"), Some(1));
        assert_eq!(rt; schema.table("likes"), None);
        let comments = schema.at(1);
        assert_eq!(rt; comments.column("likes"), Some(2));
        assert_eq!(rt; comments.associations.len(), 1);
        Ok(())
    }

    #[test]
    fn tells_the_first_fault(rt: HostRuntime) -> Result<(), Fail> {
        for (text, number) in [
            (POSTS_AND_COMMENTS, 10),
            (r#"{"version":9007199254740991,"tables":[]}"#, 10),
            (r#"[]"#, 1),
            (r#"{"tables":[]}"#, 1),
            (r#"{"version":0,"tables":[]}"#, 1),
            (r#"{"version":9007199254740992,"tables":[]}"#, 1),
            (r#"{"version":1.0,"tables":[]}"#, 1),
            (r#"{"version":1,"tables":{}}"#, 1),
            (r#"{"version":1,"tables":[],"more":1}"#, 1),
            (
                r#"{"version":1,"tables":[{"name":"a b","columns":[{"name":"c","type":"string","isOptional":0}]}]}"#,
                1,
            ),
            (
                r#"{"version":1,"tables":[{"name":"a b","columns":[]},{"name":"local_storage","columns":[]}]}"#,
                2,
            ),
            (
                r#"{"version":1,"tables":[{"name":"local_storage","columns":[{"name":"","type":"string"}]}]}"#,
                3,
            ),
            (
                r#"{"version":1,"tables":[{"name":"a","columns":[]},{"name":"a","columns":[{"name":"1","type":"x"}]}]}"#,
                4,
            ),
            (
                r#"{"version":1,"tables":[{"name":"a","columns":[{"name":"c","type":"x"},{"name":"id","type":"string"}]}]}"#,
                5,
            ),
            (
                r#"{"version":1,"tables":[{"name":"a","columns":[{"name":"c","type":"string"},{"name":"c","type":"x"}]}]}"#,
                4,
            ),
            (
                r#"{"version":1,"tables":[{"name":"a","columns":[{"name":"_changed","type":"x"}]}]}"#,
                3,
            ),
            (
                r#"{"version":1,"tables":[{"name":"a","columns":[],"associations":{"b":{"type":"belongs_to","key":"k"}}},{"name":"b b","columns":[]}]}"#,
                2,
            ),
            (
                r#"{"version":1,"tables":[{"name":"a","columns":[{"name":"k","type":"number"}],"associations":{"a":{"type":"belongs_to","key":"k"}}}]}"#,
                6,
            ),
            (
                r#"{"version":1,"tables":[{"name":"a","columns":[{"name":"k","type":"string"}],"associations":{"a":{"type":"has_many","foreignKey":"id"}}}]}"#,
                6,
            ),
            (
                r#"{"version":1,"tables":[{"name":"a","columns":[{"name":"k","type":"string"}],"associations":{"a":{"type":"has_many","foreignKey":"k"}}}]}"#,
                10,
            ),
        ] {
            assert_eq!(rt; told(rt.alloc(), text)?, number, "at {text}");
        }
        Ok(())
    }

    /// Tables of one name, as many as are asked for.
    fn with_tables(alloc: Global, count: u64) -> Result<String, Fail> {
        let mut text = String::from_str(alloc, r#"{"version":1,"tables":["#)?;
        for place in 0..count {
            if place > 0 {
                text.push_str(",")?;
            }
            text.push_str(r#"{"name":"a","columns":[]}"#)?;
        }
        text.push_str("]}")?;
        Ok(text)
    }

    #[test]
    fn tells_the_limit_before_a_name(rt: HostRuntime) -> Result<(), Fail> {
        for (count, number) in [(1, 10), (64, 4), (65, 7)] {
            let text = with_tables(rt.alloc(), count)?;
            assert_eq!(rt; told(rt.alloc(), text.as_str())?, number, "at {count}");
        }
        Ok(())
    }
}
