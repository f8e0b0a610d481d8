//! That each call succeeds with ample memory, and what it answers there.
ghost use Rattle.std.specs.Prelude.{◌≡◌, ◌<◌, IfOk};

#[cfg(test)]
mod tests {
    use crate::tables::columns_copy;
    use crate::{Table, Tables};
    use melon_raw::steps::new_counter;
    use melon_raw::{Id, Raw, Steps};
    use melon_schema::reader::json_of;
    use melon_schema::{AppSchema, List, TableSchema};
    use std::alloc::{AllocError, Global};
    use std::marker::Brand;
    use std::sync::ledger::{Blank, Ledger};
    use std::test::Fail;

    const POSTS: &str =
        r#"{"version":1,"tables":[{"name":"posts","columns":[{"name":"title","type":"string"}]}]}"#;

    fn table_of(alloc: Global, declared: &TableSchema) -> Result<Table, AllocError>
        ensures { IfOk result (λ table. table.columns ≡ declared.now.columns) }
    {
        Ok(Table::new(alloc, columns_copy(alloc, declared.columns.as_slice())?))
    }

    #[tactic(auto, using(melon_raw::proofs::Fitting::fitting))]
    fn put(
        alloc: Global,
        table: &mut Table,
        declared: &TableSchema,
        id: &str,
    ) -> Result<bool, AllocError>
        requires { table.old.columns ≡ declared.now.columns }
        ensures { table.new.columns ≡ table.old.columns }
    {
        let Ok(id) = Id::read(alloc, id) else {
            return Ok(false);
        };
        let row = Raw::created(alloc, declared, id, List::new(alloc))?;
        table.room(1)?;
        Ok(table.put(row).is_none())
    }

    fn are_in_order<L: Ledger>(counter: Blank, table: &Table, absent: &Id) -> bool
        requires name { counter.name ≡ L.name }
        requires parts { counter.parts ≡ L.parts }
        requires shared { 0 < counter.parts }
    {
        let mut steps = Steps::<L>::open(counter);
        if table.len() != 3 || table.get(absent, &mut steps).is_some() {
            return false;
        }
        let last = &table.row(2, &mut steps).id;
        let Some(dirty) = table.dirty(1, &mut steps) else {
            return false;
        };
        last.as_str() == "p3"
            && dirty.id.as_str() == "p2"
            && table.get(last, &mut steps).is_some()
            && table.dirty(3, &mut steps).is_none()
    }

    fn is_in_order(table: &Table, absent: &Id) -> bool {
        are_in_order::<Brand>(new_counter(), table, absent)
    }

    fn filled(alloc: Global, declared: &TableSchema) -> Result<Table, AllocError>
        ensures { IfOk result (λ table. table.columns ≡ declared.now.columns) }
    {
        let mut posts = table_of(alloc, declared)?;
        let _ = put(alloc, &mut posts, declared, "p2")?;
        let _ = put(alloc, &mut posts, declared, "p4")?;
        let _ = put(alloc, &mut posts, declared, "p1")?;
        let _ = put(alloc, &mut posts, declared, "p3")?;
        let _ = put(alloc, &mut posts, declared, "p2")?;
        Ok(posts)
    }

    fn take(alloc: Global, table: &mut Table, id: &str) -> bool
        ensures { table.new.columns ≡ table.old.columns }
    {
        match Id::read(alloc, id) {
            Ok(id) => table.remove(&id).is_some(),
            Err(_) => false,
        }
    }

    fn refilled(alloc: Global, declared: &TableSchema) -> Result<Table, AllocError> {
        let mut posts = filled(alloc, declared)?;
        let _ = take(alloc, &mut posts, "p4");
        let _ = take(alloc, &mut posts, "p1");
        let _ = put(alloc, &mut posts, declared, "p1")?;
        Ok(posts)
    }

    fn schema_of(alloc: Global) -> Result<AppSchema, Fail> {
        let json = json_of(alloc, POSTS.as_bytes())?;
        Ok(AppSchema::read(alloc, &json).map_err(|fault| fault.number())?)
    }

    #[test]
    fn keeps_rows_by_id(rt: HostRuntime) -> Result<(), Fail> {
        let schema = schema_of(rt.alloc())?;
        assert_eq!(rt; schema.len(), 1);
        let mut posts = filled(rt.alloc(), schema.at(0))?;
        let absent = Id::read(rt.alloc(), "p4")?;
        assert!(rt; posts.remove(&absent).is_some());
        assert!(rt; is_in_order(&posts, &absent));
        Ok(())
    }

    #[test]
    fn gives_a_slot_again(rt: HostRuntime) -> Result<(), Fail> {
        let schema = schema_of(rt.alloc())?;
        assert_eq!(rt; schema.len(), 1);
        let posts = refilled(rt.alloc(), schema.at(0))?;
        let absent = Id::read(rt.alloc(), "p4")?;
        assert!(rt; is_in_order(&posts, &absent));
        Ok(())
    }

    #[test]
    fn makes_empty_tables(rt: HostRuntime) -> Result<(), Fail> {
        let schema = schema_of(rt.alloc())?;
        let mut tables = Tables::new(rt.alloc(), &schema)?;
        assert_eq!(rt; tables.len(), 1);
        tables.of_mut(0).room(2)?;
        assert_eq!(rt; tables.of(0).len(), 0);
        Ok(())
    }
}
