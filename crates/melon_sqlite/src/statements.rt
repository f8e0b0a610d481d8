//! The six statements, each with what it does to the two tables.

ghost use Rattle.std.specs.Prelude.{◌≡◌, ◌∷◌, [], false, ◌^◌, ◌<◌, pos, IfOk, IfErr, OnOk, map};
ghost use Rattle.sqlite.specs.State.{HasCleanDisk, Survives, Executes, CommitsBy, CommitsShowing, Shown, FailsToQuery};
ghost use Rattle.std.specs.List.{list_any};
ghost use Rattle.sqlite_value.specs.Order.{column};
ghost use Rattle.sqlite.specs.Held.{state};
ghost use Rattle.sqlite.specs.declared.types.Value.TheVariants as cell;
ghost use Rattle.melon_outside.specs.Kept.{with_row, with_value, without_row, cleared};
ghost use Rattle.melon_sqlite.specs.Tables.{put_text, clear_text, remove_text, read_rows_text, read_values_text, put_value_text};
ghost use Rattle.melon_sqlite.specs.Contents.{IsKept, rows_in, values_in, rows_tree, values_tree, is_negative, has_negative};
ghost use Rattle.melon_sqlite.specs.Statements.{Does, ReadsAs, StaysShut, row_shown, value_shown};

use melon_outside::{KeptRow, KeptValue};
use melon_schema::{List, Text};
use sqlite::{Alter, Connection, Error, Row, params};
use std::alloc::Global;

/// Puts a row in the place of its key.
pub(crate) fn put_row<S: Alter>(
    conn: &mut Connection<S>,
    store: &str,
    table: &str,
    id: &str,
    body: &[u8],
) -> Result<usize, Error>
    ensures does { HasCleanDisk (state S.Store conn.new) → Does (with_row (record { table = table.now; id = id.now; body = body.now })) store.now (state S.Store conn.old) (state S.Store conn.new) result }
    ensures survives { Survives (state S.Store conn.old) (state S.Store conn.new) (CommitsBy put_text (cell.Text store.now ∷ cell.Text table.now ∷ cell.Text id.now ∷ cell.Blob body.now ∷ []) (state S.Store conn.old)) }
{
    conn.execute(
        "INSERT INTO kept_rows (store, tbl, id, body) VALUES (?1, ?2, ?3, ?4) ON CONFLICT (store, tbl, id) DO UPDATE SET body = excluded.body",
        params![store, table, id, body],
    )
}

/// Removes the rows of a store.
pub(crate) fn clear_rows<S: Alter>(conn: &mut Connection<S>, store: &str) -> Result<usize, Error>
    ensures does { HasCleanDisk (state S.Store conn.new) → Does cleared store.now (state S.Store conn.old) (state S.Store conn.new) result }
    ensures survives { Survives (state S.Store conn.old) (state S.Store conn.new) (CommitsBy clear_text (cell.Text store.now ∷ []) (state S.Store conn.old)) }
{
    conn.execute("DELETE FROM kept_rows WHERE store = ?1", params![store])
}

/// Removes one row.
pub(crate) fn remove_row<S: Alter>(
    conn: &mut Connection<S>,
    store: &str,
    table: &str,
    id: &str,
) -> Result<usize, Error>
    ensures does { HasCleanDisk (state S.Store conn.new) → Does (without_row (record { table = table.now; id = id.now })) store.now (state S.Store conn.old) (state S.Store conn.new) result }
    ensures survives { Survives (state S.Store conn.old) (state S.Store conn.new) (CommitsBy remove_text (cell.Text store.now ∷ cell.Text table.now ∷ cell.Text id.now ∷ []) (state S.Store conn.old)) }
{
    conn.execute(
        "DELETE FROM kept_rows WHERE store = ?1 AND tbl = ?2 AND id = ?3",
        params![store, table, id],
    )
}

fn signed(number: u64) -> i64
    requires { number < 2 ^ 63 }
    ensures { result ≡ pos number }
{
    number as i64
}

fn put_signed<S: Alter>(
    conn: &mut Connection<S>,
    store: &str,
    name: &str,
    number: i64,
) -> Result<usize, Error>
    ensures runs { HasCleanDisk (state S.Store conn.new) → Executes put_value_text (cell.Text store.now ∷ cell.Text name.now ∷ cell.Int number ∷ []) (state S.Store conn.old) (state S.Store conn.new) result }
    ensures survives { Survives (state S.Store conn.old) (state S.Store conn.new) (CommitsBy put_value_text (cell.Text store.now ∷ cell.Text name.now ∷ cell.Int number ∷ []) (state S.Store conn.old)) }
{
    conn.execute(
        "INSERT INTO kept_values (store, name, value) VALUES (?1, ?2, ?3) ON CONFLICT (store, name) DO UPDATE SET value = excluded.value",
        params![store, name, number],
    )
}

/// Puts a value in the place of its name.
pub(crate) fn put_value<S: Alter>(
    conn: &mut Connection<S>,
    store: &str,
    name: &str,
    number: u64,
) -> Result<usize, Error>
    requires { number < 2 ^ 63 }
    ensures does { HasCleanDisk (state S.Store conn.new) → Does (with_value (record { name = name.now; number = number })) store.now (state S.Store conn.old) (state S.Store conn.new) result }
    ensures survives { Survives (state S.Store conn.old) (state S.Store conn.new) (CommitsBy put_value_text (cell.Text store.now ∷ cell.Text name.now ∷ cell.Int (pos number) ∷ []) (state S.Store conn.old)) }
{
    put_signed(conn, store, name, signed(number))
}

fn row_from(row: &Row) -> Result<KeptRow, Error>
    ensures { IfOk result (λ r. r ≡ row_shown row.now) }
{
    let table: String = row.get(0)?;
    let id: String = row.get(1)?;
    let body: Vec<u8> = row.get(2)?;
    Ok(KeptRow {
        table: Text::from_string(table),
        id: Text::from_string(id),
        body: List::from_vec(body),
    })
}

fn value_from(row: &Row) -> Result<KeptValue, Error>
    ensures shown { IfOk result (λ r. r ≡ value_shown row.now) }
    ensures natural { OnOk result (is_negative (column row.now 1) ≡ false) }
{
    let name: String = row.get(0)?;
    let number: u64 = row.get(1)?;
    Ok(KeptValue {
        name: Text::from_string(name),
        number,
    })
}

fn rows_from(alloc: Global, rows: &[Row]) -> Result<List<KeptRow>, Error>
    ensures { IfOk result (λ all. all ≡ map row_shown rows.now) }
{
    let mut all = List::new(alloc);
    for row in rows {
        all.push(row_from(row)?)?;
    }
    Ok(all)
}

fn values_from(alloc: Global, rows: &[Row]) -> Result<List<KeptValue>, Error>
    ensures shown { IfOk result (λ all. all ≡ map value_shown rows.now) }
    ensures natural { OnOk result (list_any (λ r. is_negative (column r 1)) rows.now ≡ false) }
{
    let mut all = List::new(alloc);
    for row in rows {
        all.push(value_from(row)?)?;
    }
    Ok(all)
}

fn show_rows<S: Alter>(conn: &mut Connection<S>, store: &str) -> Result<Vec<Row>, Error>
    ensures shown { HasCleanDisk (state S.Store conn.new) → IfOk result (λ rows. Shown read_rows_text (cell.Text store.now ∷ []) (state S.Store conn.old) (state S.Store conn.new) rows.items) }
    ensures failed { HasCleanDisk (state S.Store conn.new) → IfErr result (FailsToQuery read_rows_text (cell.Text store.now ∷ []) (state S.Store conn.old) (state S.Store conn.new)) }
    ensures survives { Survives (state S.Store conn.old) (state S.Store conn.new) (CommitsShowing read_rows_text (cell.Text store.now ∷ []) (state S.Store conn.old)) }
{
    conn.query_all(
        "SELECT tbl, id, body FROM kept_rows WHERE store = ?1 ORDER BY tbl, id",
        params![store],
    )
}

/// The rows of a store, in order.
pub(crate) fn read_rows<S: Alter>(
    alloc: Global,
    conn: &mut Connection<S>,
    store: &str,
) -> Result<List<KeptRow>, Error>
    ensures opened { HasCleanDisk (state S.Store conn.new) → StaysShut (state S.Store conn.old) (state S.Store conn.new) }
    ensures rows { HasCleanDisk (state S.Store conn.new) → IsKept (state S.Store conn.old).now → IfOk result (λ all. all ≡ rows_in ((state S.Store conn.old).now.trees rows_tree) store.now) }
    ensures same { HasCleanDisk (state S.Store conn.new) → ReadsAs (state S.Store conn.old) (state S.Store conn.new) result }
    ensures survives { Survives (state S.Store conn.old) (state S.Store conn.new) (CommitsShowing read_rows_text (cell.Text store.now ∷ []) (state S.Store conn.old)) }
{
    match show_rows(conn, store) {
        Ok(rows) => rows_from(alloc, rows.as_slice()),
        Err(error) => Err(error),
    }
}

fn show_values<S: Alter>(conn: &mut Connection<S>, store: &str) -> Result<Vec<Row>, Error>
    ensures shown { HasCleanDisk (state S.Store conn.new) → IfOk result (λ rows. Shown read_values_text (cell.Text store.now ∷ []) (state S.Store conn.old) (state S.Store conn.new) rows.items) }
    ensures failed { HasCleanDisk (state S.Store conn.new) → IfErr result (FailsToQuery read_values_text (cell.Text store.now ∷ []) (state S.Store conn.old) (state S.Store conn.new)) }
    ensures survives { Survives (state S.Store conn.old) (state S.Store conn.new) (CommitsShowing read_values_text (cell.Text store.now ∷ []) (state S.Store conn.old)) }
{
    conn.query_all(
        "SELECT name, value FROM kept_values WHERE store = ?1 ORDER BY name",
        params![store],
    )
}

/// The values of a store, in order.
pub(crate) fn read_values<S: Alter>(
    alloc: Global,
    conn: &mut Connection<S>,
    store: &str,
) -> Result<List<KeptValue>, Error>
    ensures opened { HasCleanDisk (state S.Store conn.new) → StaysShut (state S.Store conn.old) (state S.Store conn.new) }
    ensures values { HasCleanDisk (state S.Store conn.new) → IsKept (state S.Store conn.old).now → IfOk result (λ all. all ≡ values_in ((state S.Store conn.old).now.trees values_tree) store.now) }
    ensures natural { HasCleanDisk (state S.Store conn.new) → IsKept (state S.Store conn.old).now → OnOk result (has_negative (state S.Store conn.old).now.trees store.now ≡ false) }
    ensures same { HasCleanDisk (state S.Store conn.new) → ReadsAs (state S.Store conn.old) (state S.Store conn.new) result }
    ensures survives { Survives (state S.Store conn.old) (state S.Store conn.new) (CommitsShowing read_values_text (cell.Text store.now ∷ []) (state S.Store conn.old)) }
{
    match show_values(conn, store) {
        Ok(rows) => values_from(alloc, rows.as_slice()),
        Err(error) => Err(error),
    }
}
