//! That remote rows are taken in with ample memory, as worked rows.
ghost use Rattle.std.specs.Prelude.{◌≡◌, ◌<◌, [], length, get_or, IfOk, IfSome};
ghost use Rattle.melon_raw.specs.Rows.{Fits};
ghost use Rattle.melon_table.specs.Seen.{columns_of, declared_columns};

#[cfg(test)]
mod tests {
    use crate::lookup::declared_at;
    use crate::{PullFault, incoming, resolve};
    use melon_change::Change;
    use melon_raw::{Id, Raw};
    use melon_schema::reader::{json_of, members_given};
    use melon_schema::{AppSchema, List, TableSchema, Text};
    use melon_table::Tables;
    use melon_wire::{Changes, Remote, TableChanges};
    use std::alloc::{AllocError, Global};
    use std::test::Fail;

    const POSTS: &str =
        r#"{"version":1,"tables":[{"name":"posts","columns":[{"name":"title","type":"string"},{"name":"body","type":"string"},{"name":"score","type":"number","isOptional":true,"isIndexed":true}]}]}"#;

    fn schema_of(alloc: Global) -> Result<AppSchema, Fail> {
        let json = json_of(alloc, POSTS.as_bytes())?;
        Ok(AppSchema::read(alloc, &json).map_err(|fault| fault.number())?)
    }

    fn row_of(alloc: Global, table: &TableSchema, text: &str) -> Result<Option<Raw>, AllocError>
        ensures { IfOk result (λ row. IfSome row (Fits table.now.columns)) }
    {
        Raw::decode(alloc, text.as_bytes(), table)
    }

    fn remote_of(alloc: Global, id: &str, fields: &str) -> Result<Remote, Fail> {
        let json = json_of(alloc, fields.as_bytes())?;
        Ok(Remote {
            id: Id::read(alloc, id)?,
            fields: members_given(alloc, &json)?,
        })
    }

    fn text_of(alloc: Global, table: &TableSchema, row: &Raw) -> Result<String, Fail> {
        let bytes = row.encode(alloc, table)?;
        Ok(String::from_utf8(bytes)?)
    }

    fn resolved(
        alloc: Global,
        table: &TableSchema,
        local: &str,
        fields: &str,
    ) -> Result<String, Fail> {
        let remote = remote_of(alloc, "p1", fields)?;
        match row_of(alloc, table, local)? {
            Some(local) => {
                let row = resolve(alloc, table, &local, &remote)?;
                text_of(alloc, table, &row)
            }
            None => Ok(format!(in alloc; "no row")?),
        }
    }

    const MINE: &str =
        r#"{"_changed":"title","_status":"updated","body":"b","id":"p1","score":1,"title":"mine"}"#;

    /// The columns of the record and the fields that came resolve so.
    fn resolves(
        alloc: Global,
        table: &TableSchema,
        local: &str,
        fields: &str,
        wanted: &str,
    ) -> Result<(), Fail> {
        if resolved(alloc, table, local, fields)?.as_str() != wanted {
            return Err(Fail::from(fields));
        }
        Ok(())
    }

    #[test]
    fn resolves_each_column(rt: HostRuntime) -> Result<(), Fail> {
        let alloc = rt.alloc();
        let schema = schema_of(alloc)?;
        assert_eq!(rt; schema.len(), 1);
        resolves(
            alloc,
            schema.at(0),
            MINE,
            r#"{"title":"t2","body":"b2"}"#,
            r#"{"_changed":"title","_status":"updated","body":"b2","id":"p1","score":1,"title":"mine"}"#,
        )?;
        resolves(
            alloc,
            schema.at(0),
            MINE,
            r#"{"title":"t2","likes":3}"#,
            MINE,
        )?;
        resolves(
            alloc,
            schema.at(0),
            MINE,
            r#"{"body":null,"score":"9"}"#,
            r#"{"_changed":"title","_status":"updated","body":"","id":"p1","score":null,"title":"mine"}"#,
        )?;
        resolves(
            alloc,
            schema.at(0),
            r#"{"_changed":"","_status":"synced","body":"b","id":"p1","score":1,"title":"a"}"#,
            r#"{"title":"t2","score":2}"#,
            r#"{"_changed":"","_status":"synced","body":"b","id":"p1","score":2,"title":"t2"}"#,
        )?;
        Ok(())
    }

    /// A changes object in which the post p1 stands in these lists; a list without a name is none.
    fn changes_of(alloc: Global, lists: &[&str], fields: &str) -> Result<Changes, Fail> {
        let mut posts = TableChanges {
            table: Text::new(alloc, "posts")?,
            created: List::new(alloc),
            updated: List::new(alloc),
            deleted: List::new(alloc),
        };
        for list in lists {
            if *list == "created" {
                posts.created.push(remote_of(alloc, "p1", fields)?)?;
            } else if *list == "updated" {
                posts.updated.push(remote_of(alloc, "p1", fields)?)?;
            } else if *list == "deleted" {
                posts.deleted.push(Id::read(alloc, "p1")?)?;
            }
        }
        let mut tables = List::new(alloc);
        tables.push(posts)?;
        Ok(Changes { tables })
    }

    fn put(tables: &mut Tables, row: Raw) -> Result<(), AllocError>
        requires within { 0 < length tables.old }
        requires fits { Fits (get_or (columns_of tables.old) 0 []) row }
        ensures { columns_of tables.new ≡ columns_of tables.old }
    {
        let posts = tables.of_mut(0);
        posts.room(1)?;
        posts.put(row);
        Ok(())
    }

    /// Puts the post that the text is, if it is one.
    fn put_text(
        alloc: Global,
        schema: &AppSchema,
        tables: &mut Tables,
        text: &str,
    ) -> Result<(), AllocError>
        requires within { 0 < length schema.now.tables }
        requires columns { columns_of tables.old ≡ declared_columns schema.now.tables }
        ensures { columns_of tables.new ≡ columns_of tables.old }
    {
        match row_of(alloc, declared_at(schema, 0), text)? {
            Some(row) => put(tables, row),
            None => Ok(()),
        }
    }

    fn tables_of(alloc: Global, schema: &AppSchema, local: &str) -> Result<Tables, AllocError>
        requires { 0 < length schema.now.tables }
        ensures { IfOk result (λ tables. columns_of tables ≡ declared_columns schema.now.tables) }
    {
        let mut tables = Tables::new(alloc, schema)?;
        put_text(alloc, schema, &mut tables, local)?;
        Ok(tables)
    }

    /// What the changes make of the one post.
    fn after(alloc: Global, table: &TableSchema, changes: &[Change]) -> Result<String, Fail> {
        match changes.first() {
            Some(change) => match &change.after {
                Some(row) => text_of(alloc, table, row),
                None => Ok(format!(in alloc; "none")?),
            },
            None => Ok(format!(in alloc; "no change")?),
        }
    }

    /// What becomes of the post, or why what was pulled is refused.
    fn taken(
        alloc: Global,
        schema: &AppSchema,
        local: &str,
        changes: &Changes,
    ) -> Result<String, Fail>
        requires { 0 < length schema.now.tables }
    {
        let tables = tables_of(alloc, schema, local)?;
        match incoming(alloc, &tables, schema, changes) {
            Ok(set) => after(alloc, schema.at(0), set.as_slice()),
            Err(PullFault::Repeated { table, id }) => {
                Ok(format!(in alloc; "repeated {} {}", table.as_str(), id.as_str())?)
            }
            Err(PullFault::LongText { table, id, column }) => {
                Ok(format!(in alloc;
                    "long {} {} {}",
                    table.as_str(),
                    id.as_str(),
                    column.as_str()
                )?)
            }
            Err(PullFault::Memory) => Ok(format!(in alloc; "memory")?),
        }
    }

    const REMOTE: &str = r#"{"body":"b2","likes":1,"title":"t2"}"#;

    const BORN: &str =
        r#"{"_changed":"","_status":"synced","body":"b2","id":"p1","score":null,"title":"t2"}"#;

    const SYNCED: &str =
        r#"{"_changed":"","_status":"synced","body":"b2","id":"p1","score":1,"title":"t2"}"#;

    const GONE: &str =
        r#"{"_changed":"title","_status":"deleted","body":"b","id":"p1","score":1,"title":"mine"}"#;

    const NEW: &str =
        r#"{"_changed":"","_status":"created","body":"b","id":"p1","score":1,"title":"mine"}"#;

    const NEW_TAKEN: &str =
        r#"{"_changed":"","_status":"created","body":"b2","id":"p1","score":1,"title":"t2"}"#;

    const TAKEN: &str =
        r#"{"_changed":"title","_status":"updated","body":"b2","id":"p1","score":1,"title":"mine"}"#;

    /// This becomes of the post where these lists have it.
    fn takes(
        alloc: Global,
        schema: &AppSchema,
        local: &str,
        lists: &[&str],
        wanted: &str,
    ) -> Result<(), Fail>
        requires { 0 < length schema.now.tables }
    {
        let changes = changes_of(alloc, lists, REMOTE)?;
        if taken(alloc, schema, local, &changes)?.as_str() != wanted {
            return Err(Fail::from(wanted));
        }
        Ok(())
    }

    #[test]
    fn takes_in_each_record(rt: HostRuntime) -> Result<(), Fail> {
        let alloc = rt.alloc();
        let schema = schema_of(alloc)?;
        assert_eq!(rt; schema.len(), 1);
        takes(alloc, &schema, "", &["created"], BORN)?;
        takes(alloc, &schema, "", &["updated"], BORN)?;
        takes(alloc, &schema, "", &["deleted"], "no change")?;
        takes(alloc, &schema, "", &[""], "no change")?;
        takes(alloc, &schema, NEW, &["created"], NEW_TAKEN)?;
        takes(alloc, &schema, NEW, &["deleted"], "none")?;
        takes(alloc, &schema, MINE, &["created"], TAKEN)?;
        takes(alloc, &schema, MINE, &["updated"], TAKEN)?;
        takes(alloc, &schema, MINE, &["deleted"], "none")?;
        takes(alloc, &schema, MINE, &[""], "no change")?;
        takes(alloc, &schema, SYNCED, &["created"], "no change")?;
        takes(alloc, &schema, SYNCED, &["updated"], "no change")?;
        takes(alloc, &schema, GONE, &["created"], BORN)?;
        takes(alloc, &schema, GONE, &["updated"], "no change")?;
        takes(alloc, &schema, GONE, &["deleted"], "none")?;
        takes(alloc, &schema, GONE, &[""], "no change")?;
        Ok(())
    }

    /// Fields with a title of so many letters.
    fn long_title(alloc: Global, letters: usize) -> Result<String, Fail> {
        let mut fields = String::from_str(alloc, r#"{"title":""#)?;
        for _ in 0..letters {
            fields.push('x')?;
        }
        fields.push_str(r#""}"#)?;
        Ok(fields)
    }

    /// This becomes of the deleted post where a title of so many letters came.
    fn takes_long(
        alloc: Global,
        schema: &AppSchema,
        letters: usize,
        wanted: &str,
    ) -> Result<(), Fail>
        requires { 0 < length schema.now.tables }
    {
        let fields = long_title(alloc, letters)?;
        let changes = changes_of(alloc, &["updated"], fields.as_str())?;
        if taken(alloc, schema, GONE, &changes)?.as_str() != wanted {
            return Err(Fail::from(wanted));
        }
        Ok(())
    }

    #[test]
    fn refuses_a_long_text_that_would_not_be_taken(rt: HostRuntime) -> Result<(), Fail> {
        let alloc = rt.alloc();
        let schema = schema_of(alloc)?;
        assert_eq!(rt; schema.len(), 1);
        takes_long(alloc, &schema, 65536, "no change")?;
        takes_long(alloc, &schema, 65537, "long posts p1 title")?;
        Ok(())
    }

    #[test]
    fn refuses_a_record_in_two_places(rt: HostRuntime) -> Result<(), Fail> {
        let alloc = rt.alloc();
        let schema = schema_of(alloc)?;
        assert_eq!(rt; schema.len(), 1);
        let twice = "repeated posts p1";
        takes(alloc, &schema, MINE, &["created", "deleted"], twice)?;
        takes(alloc, &schema, MINE, &["created", "updated"], twice)?;
        takes(alloc, &schema, MINE, &["updated", "updated"], twice)?;
        Ok(())
    }
}
