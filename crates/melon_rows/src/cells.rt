//! The shown cells of rows, by the call itself: ids in an order of their own, one of no row, and a column past the last.
use melon_board::Store;
use melon_change::read_ops;
use melon_eval::project;
use melon_outside::{Keeper, MemoryKeeper};
use melon_raw::{Datum, Id};
use melon_schema::reader::json_of;
use melon_schema::{AppSchema, List};
use std::alloc::Global;
use std::test::Fail;

const NOTES: &str =
    r#"{"version":1,"tables":[{"name":"notes","columns":[{"name":"title","type":"string","isOptional":true},{"name":"other","type":"string","isOptional":true},{"name":"score","type":"number","isOptional":true},{"name":"done","type":"boolean","isOptional":true}]}]}"#;

fn schema_of(alloc: Global) -> Result<AppSchema, Fail> {
    let json = json_of(alloc, NOTES.as_bytes())?;
    Ok(AppSchema::read(alloc, &json).map_err(|fault| fault.number())?)
}

const TWO_CREATED: &str =
    r#"[{"create":"notes","id":"p1","set":{"title":"a","score":3}},{"create":"notes","id":"p2","set":{"title":"b"}}]"#;

/// A store with two rows.
fn store_of<K: Keeper>(alloc: Global, keeper: &mut K) -> Result<Store, Fail> {
    let schema = schema_of(alloc)?;
    let json = json_of(alloc, TWO_CREATED.as_bytes())?;
    let Ok(ops) = read_ops(alloc, &json) else {
        return Err(Fail::from("no operations"));
    };
    let Ok(mut store) = Store::open(alloc, keeper, "A", schema) else {
        return Err(Fail::from("the store isn't opened"));
    };
    match store.write(alloc, keeper, ops) {
        Ok(_) => Ok(store),
        Err(_) => Err(Fail::from("nothing is written")),
    }
}

fn add_cell(text: &mut String, cell: &Datum) -> Result<(), Fail> {
    match cell {
        Datum::Words(words) => {
            text.push_str(" ")?;
            text.push_str(words.as_str())?;
        }
        Datum::Whole(number) => write!(text, " {number}")?,
        Datum::Null => text.push_str(" null")?,
        Datum::Truth(_) => text.push_str(" truth")?,
    }
    Ok(())
}

fn ids_of(alloc: Global) -> Result<List<Id>, Fail> {
    let mut ids = List::new(alloc);
    ids.push(Id::read(alloc, "p2")?)?;
    ids.push(Id::read(alloc, "p9")?)?;
    ids.push(Id::read(alloc, "p1")?)?;
    Ok(ids)
}

/// The columns 2 and 0, and one past the last.
fn columns_of(alloc: Global) -> Result<List<usize>, Fail> {
    let mut columns = List::new(alloc);
    columns.push(2usize)?;
    columns.push(0usize)?;
    columns.push(9usize)?;
    Ok(columns)
}

fn shown(alloc: Global, store: &Store) -> Result<String, Fail> {
    let tables = store.board().tables();
    if tables.len() == 0 {
        return Err(Fail::from("no table"));
    }
    let ids = ids_of(alloc)?;
    let columns = columns_of(alloc)?;
    let mut text = String::new(alloc);
    for shown in project(alloc, &columns, &ids, tables.of(0))?.as_slice() {
        text.push_str(shown.id.as_str())?;
        for cell in shown.cells.as_slice() {
            add_cell(&mut text, cell)?;
        }
        text.push_str(";")?;
    }
    Ok(text)
}

#[test]
fn cells_are_shown_in_the_order_of_ids_and_columns(rt: HostRuntime) -> Result<(), Fail> {
    let alloc = rt.alloc();
    let mut keeper = MemoryKeeper::new(alloc, List::new(alloc), List::new(alloc));
    let store = store_of(alloc, &mut keeper)?;
    let text = shown(alloc, &store)?;
    if text.as_str() == "p2 null b null;p1 3 a null;" {
        return Ok(());
    }
    Err(Fail::from(text))
}
