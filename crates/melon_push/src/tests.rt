//! That a push is collected, sent and settled with ample memory, as worked rows.
ghost use Rattle.std.specs.Prelude.{◌≡◌, ◌<◌, [], length, get_or, IfOk, IfSome};
ghost use Rattle.melon_raw.specs.Rows.{Fits};
ghost use Rattle.melon_table.specs.Seen.{columns_of, declared_columns};
ghost use Rattle.melon_wire.specs.Collected.{IsFetch};

#[cfg(test)]
mod tests {
    use crate::lookup::declared_at;
    use crate::{collect, outgoing, settle};
    use melon_change::Change;
    use melon_raw::steps::new_counter;
    use melon_raw::{Raw, Steps};
    use melon_schema::reader::json_of;
    use melon_schema::{AppSchema, TableSchema};
    use melon_table::Tables;
    use melon_wire::{Changes, Fetch, Remote};
    use std::alloc::{AllocError, Global};
    use std::marker::Brand;
    use std::sync::ledger::{Blank, Ledger};
    use std::test::Fail;

    const POSTS: &str =
        r#"{"version":1,"tables":[{"name":"posts","columns":[{"name":"title","type":"string"},{"name":"body","type":"string"}]}]}"#;

    fn schema_of(alloc: Global) -> Result<AppSchema, Fail> {
        let json = json_of(alloc, POSTS.as_bytes())?;
        Ok(AppSchema::read(alloc, &json).map_err(|fault| fault.number())?)
    }

    fn row_of(alloc: Global, table: &TableSchema, text: &str) -> Result<Option<Raw>, AllocError>
        ensures { IfOk result (λ row. IfSome row (Fits table.now.columns)) }
    {
        Raw::decode(alloc, text.as_bytes(), table)
    }

    fn put(tables: &mut Tables, row: Raw) -> Result<(), AllocError>
        requires within { 0 < length tables.old }
        requires fits { Fits (get_or (columns_of tables.old) 0 []) row }
        ensures { columns_of tables.new ≡ columns_of tables.old }
    {
        let posts = tables.of_mut(0);
        posts.room(1)?;
        posts.put(row);
        Ok(())
    }

    /// Puts the post that the text is, if it is one.
    fn put_text(
        alloc: Global,
        schema: &AppSchema,
        tables: &mut Tables,
        text: &str,
    ) -> Result<(), AllocError>
        requires within { 0 < length schema.now.tables }
        requires columns { columns_of tables.old ≡ declared_columns schema.now.tables }
        ensures { columns_of tables.new ≡ columns_of tables.old }
    {
        match row_of(alloc, declared_at(schema, 0), text)? {
            Some(row) => put(tables, row),
            None => Ok(()),
        }
    }

    fn tables_of(alloc: Global, schema: &AppSchema, rows: &[&str]) -> Result<Tables, AllocError>
        requires { 0 < length schema.now.tables }
        ensures { IfOk result (λ tables. columns_of tables ≡ declared_columns schema.now.tables) }
    {
        let mut tables = Tables::new(alloc, schema)?;
        for row in rows {
            put_text(alloc, schema, &mut tables, row)?;
        }
        Ok(tables)
    }

    fn collect_counted<L: Ledger>(
        counter: Blank,
        alloc: Global,
        tables: &Tables,
    ) -> Result<Fetch, AllocError>
        requires name { counter.name ≡ L.name }
        requires parts { counter.parts ≡ L.parts }
        requires shared { 0 < counter.parts }
        ensures { IfOk result IsFetch }
    {
        let mut steps = Steps::<L>::open(counter);
        collect(alloc, tables, &mut steps)
    }

    fn collected(alloc: Global, tables: &Tables) -> Result<Fetch, AllocError>
        ensures { IfOk result IsFetch }
    {
        collect_counted::<Brand>(new_counter(), alloc, tables)
    }

    fn put_row_sent(text: &mut String, sign: &str, row: &Remote) -> Result<(), AllocError> {
        text.push_str(sign)?;
        text.push_str(row.id.as_str())?;
        for field in row.fields.as_slice() {
            text.push_str(" ")?;
            text.push_str(field.column.as_str())?;
        }
        Ok(())
    }

    /// The tables with the rows that are sent as created, the rows that are sent as updated, and the ids.
    fn text_sent(alloc: Global, changes: &Changes) -> Result<String, AllocError> {
        let mut text = String::new(alloc);
        for table in changes.tables.as_slice() {
            text.push_str(table.table.as_str())?;
            for row in table.created.as_slice() {
                put_row_sent(&mut text, " +", row)?;
            }
            for row in table.updated.as_slice() {
                put_row_sent(&mut text, " ~", row)?;
            }
            for id in table.deleted.as_slice() {
                text.push_str(" -")?;
                text.push_str(id.as_str())?;
            }
        }
        Ok(text)
    }

    /// What is sent of these rows.
    fn sent(alloc: Global, schema: &AppSchema, rows: &[&str]) -> Result<String, Fail>
        requires { 0 < length schema.now.tables }
    {
        let tables = tables_of(alloc, schema, rows)?;
        let fetch = collected(alloc, &tables)?;
        let changes = outgoing(alloc, schema, &fetch)?;
        Ok(text_sent(alloc, &changes)?)
    }

    const CREATED: &str = r#"{"_changed":"","_status":"created","body":"b","id":"p1","title":"a"}"#;

    const UPDATED: &str =
        r#"{"_changed":"title","_status":"updated","body":"b","id":"p2","title":"a"}"#;

    const DELETED: &str =
        r#"{"_changed":"title","_status":"deleted","body":"b","id":"p3","title":"a"}"#;

    const SYNCED: &str = r#"{"_changed":"","_status":"synced","body":"b","id":"p4","title":"a"}"#;

    #[test]
    fn sends_what_is_collected(rt: HostRuntime) -> Result<(), Fail> {
        let alloc = rt.alloc();
        let schema = schema_of(alloc)?;
        assert_eq!(rt; schema.len(), 1);
        assert_eq!(rt; sent(alloc, &schema, &[])?.as_str(), "");
        assert_eq!(rt; sent(alloc, &schema, &[SYNCED])?.as_str(), "");
        assert_eq!(rt; sent(alloc, &schema, &[DELETED])?.as_str(), "posts -p3");
        assert_eq!(rt;
            sent(alloc, &schema, &[SYNCED, DELETED, UPDATED, CREATED])?.as_str(),
            "posts +p1 body title ~p2 body title -p3"
        );
        Ok(())
    }

    fn text_after(alloc: Global, table: &TableSchema, changes: &[Change]) -> Result<String, Fail> {
        match changes.first() {
            Some(change) => match &change.after {
                Some(row) => Ok(String::from_utf8(row.encode(alloc, table)?)?),
                None => Ok(format!(in alloc; "none")?),
            },
            None => Ok(format!(in alloc; "no change")?),
        }
    }

    /// What a row is settled to that stands now where another was collected.
    fn settled(alloc: Global, schema: &AppSchema, was: &str, now: &str) -> Result<String, Fail>
        requires { 0 < length schema.now.tables }
    {
        let mut tables = tables_of(alloc, schema, &[was])?;
        let fetch = collected(alloc, &tables)?;
        put_text(alloc, schema, &mut tables, now)?;
        let set = settle(alloc, &tables, &fetch)?;
        text_after(alloc, schema.at(0), set.as_slice())
    }

    /// The row is settled so.
    fn settles(
        alloc: Global,
        schema: &AppSchema,
        was: &str,
        now: &str,
        wanted: &str,
    ) -> Result<(), Fail>
        requires { 0 < length schema.now.tables }
    {
        if settled(alloc, schema, was, now)?.as_str() != wanted {
            return Err(Fail::from(wanted));
        }
        Ok(())
    }

    #[test]
    fn settles_what_still_stands(rt: HostRuntime) -> Result<(), Fail> {
        let alloc = rt.alloc();
        let schema = schema_of(alloc)?;
        assert_eq!(rt; schema.len(), 1);
        settles(
            alloc,
            &schema,
            CREATED,
            CREATED,
            r#"{"_changed":"","_status":"synced","body":"b","id":"p1","title":"a"}"#,
        )?;
        settles(
            alloc,
            &schema,
            UPDATED,
            UPDATED,
            r#"{"_changed":"","_status":"synced","body":"b","id":"p2","title":"a"}"#,
        )?;
        settles(
            alloc,
            &schema,
            UPDATED,
            r#"{"_changed":"title","_status":"updated","body":"b","id":"p2","title":"b"}"#,
            "no change",
        )?;
        settles(
            alloc,
            &schema,
            UPDATED,
            r#"{"_changed":"title,body","_status":"updated","body":"b","id":"p2","title":"a"}"#,
            "no change",
        )?;
        settles(
            alloc,
            &schema,
            UPDATED,
            r#"{"_changed":"title","_status":"deleted","body":"b","id":"p2","title":"a"}"#,
            "no change",
        )?;
        settles(alloc, &schema, DELETED, DELETED, "none")?;
        settles(
            alloc,
            &schema,
            DELETED,
            r#"{"_changed":"","_status":"synced","body":"b","id":"p3","title":"a"}"#,
            "no change",
        )?;
        settles(
            alloc,
            &schema,
            DELETED,
            r#"{"_changed":"","_status":"created","body":"b","id":"p3","title":"c"}"#,
            "no change",
        )?;
        settles(alloc, &schema, SYNCED, SYNCED, "no change")?;
        Ok(())
    }
}
