//! A batch inside one transaction.

ghost use Rattle.std.specs.Prelude.{◌≡◌, ◌<◌, ◌^◌, IfOk};
ghost use Rattle.sqlite.specs.State.{HasCleanDisk, Survives};
ghost use Rattle.sqlite.specs.Held.{state};
ghost use Rattle.melon_outside.specs.Kept.{batched, cleared, cleared_if, filled, removed, valued, with_row, with_value, without_row};
ghost use Rattle.melon_sqlite.specs.Transactions.{AreNumbers, Moves, NoCommit};

use crate::statements::{clear_rows, put_row, put_value, remove_row};
use melon_outside::{KeptBatch, KeptKey, KeptRow, KeptValue};
use sqlite::{Alter, Connection, Error};

fn clear<S: Alter>(conn: &mut Connection<S>, store: &str) -> Result<usize, Error>
    ensures moves { HasCleanDisk (state S.Store conn.new) → Moves cleared store.now (state S.Store conn.old) (state S.Store conn.new) result }
    ensures safe { Survives (state S.Store conn.old) (state S.Store conn.new) (NoCommit (state S.Store conn.old)) }
{
    clear_rows(conn, store)
}

fn remove<S: Alter>(conn: &mut Connection<S>, store: &str, key: &KeptKey) -> Result<usize, Error>
    ensures moves { HasCleanDisk (state S.Store conn.new) → Moves (without_row key.now) store.now (state S.Store conn.old) (state S.Store conn.new) result }
    ensures safe { Survives (state S.Store conn.old) (state S.Store conn.new) (NoCommit (state S.Store conn.old)) }
{
    remove_row(conn, store, key.table.as_str(), key.id.as_str())
}

fn put<S: Alter>(conn: &mut Connection<S>, store: &str, row: &KeptRow) -> Result<usize, Error>
    ensures moves { HasCleanDisk (state S.Store conn.new) → Moves (with_row row.now) store.now (state S.Store conn.old) (state S.Store conn.new) result }
    ensures safe { Survives (state S.Store conn.old) (state S.Store conn.new) (NoCommit (state S.Store conn.old)) }
{
    put_row(
        conn,
        store,
        row.table.as_str(),
        row.id.as_str(),
        row.body.as_slice(),
    )
}

fn set<S: Alter>(conn: &mut Connection<S>, store: &str, value: &KeptValue) -> Result<usize, Error>
    requires { value.now.number < 2 ^ 63 }
    ensures moves { HasCleanDisk (state S.Store conn.new) → Moves (with_value value.now) store.now (state S.Store conn.old) (state S.Store conn.new) result }
    ensures safe { Survives (state S.Store conn.old) (state S.Store conn.new) (NoCommit (state S.Store conn.old)) }
{
    put_value(conn, store, value.name.as_str(), value.number)
}

fn remove_all<S: Alter>(
    conn: &mut Connection<S>,
    store: &str,
    keys: &[KeptKey],
) -> Result<(), Error>
    ensures moves { HasCleanDisk (state S.Store conn.new) → Moves (removed keys.now) store.now (state S.Store conn.old) (state S.Store conn.new) result }
    ensures safe { Survives (state S.Store conn.old) (state S.Store conn.new) (NoCommit (state S.Store conn.old)) }
{
    for key in keys {
        if let Err(error) = remove(conn, store, key) {
            return Err(error);
        }
    }
    Ok(())
}

fn put_all<S: Alter>(conn: &mut Connection<S>, store: &str, rows: &[KeptRow]) -> Result<(), Error>
    ensures moves { HasCleanDisk (state S.Store conn.new) → Moves (filled rows.now) store.now (state S.Store conn.old) (state S.Store conn.new) result }
    ensures safe { Survives (state S.Store conn.old) (state S.Store conn.new) (NoCommit (state S.Store conn.old)) }
{
    for row in rows {
        if let Err(error) = put(conn, store, row) {
            return Err(error);
        }
    }
    Ok(())
}

fn set_all<S: Alter>(
    conn: &mut Connection<S>,
    store: &str,
    values: &[KeptValue],
) -> Result<(), Error>
    requires { AreNumbers values.now }
    ensures moves { HasCleanDisk (state S.Store conn.new) → Moves (valued values.now) store.now (state S.Store conn.old) (state S.Store conn.new) result }
    ensures safe { Survives (state S.Store conn.old) (state S.Store conn.new) (NoCommit (state S.Store conn.old)) }
{
    for value in values {
        if let Err(error) = set(conn, store, value) {
            return Err(error);
        }
    }
    Ok(())
}

fn clear_if<S: Alter>(conn: &mut Connection<S>, store: &str, wanted: bool) -> Result<(), Error>
    ensures moves { HasCleanDisk (state S.Store conn.new) → Moves (cleared_if wanted) store.now (state S.Store conn.old) (state S.Store conn.new) result }
    ensures safe { Survives (state S.Store conn.old) (state S.Store conn.new) (NoCommit (state S.Store conn.old)) }
{
    if wanted {
        if let Err(error) = clear(conn, store) {
            return Err(error);
        }
        return Ok(());
    }
    Ok(())
}

fn remove_batch<S: Alter>(
    conn: &mut Connection<S>,
    store: &str,
    batch: &KeptBatch,
) -> Result<(), Error>
    ensures moves { HasCleanDisk (state S.Store conn.new) → Moves (λ k. removed batch.now.removes (cleared_if batch.now.clear k)) store.now (state S.Store conn.old) (state S.Store conn.new) result }
    ensures safe { Survives (state S.Store conn.old) (state S.Store conn.new) (NoCommit (state S.Store conn.old)) }
{
    if let Err(error) = clear_if(conn, store, batch.clear) {
        return Err(error);
    }
    remove_all(conn, store, batch.removes.as_slice())
}

fn put_batch<S: Alter>(
    conn: &mut Connection<S>,
    store: &str,
    batch: &KeptBatch,
) -> Result<(), Error>
    ensures moves { HasCleanDisk (state S.Store conn.new) → Moves (λ k. filled batch.now.puts (removed batch.now.removes (cleared_if batch.now.clear k))) store.now (state S.Store conn.old) (state S.Store conn.new) result }
    ensures safe { Survives (state S.Store conn.old) (state S.Store conn.new) (NoCommit (state S.Store conn.old)) }
{
    if let Err(error) = remove_batch(conn, store, batch) {
        return Err(error);
    }
    put_all(conn, store, batch.puts.as_slice())
}

/// What a batch writes.
pub(crate) fn write_batch<S: Alter>(
    conn: &mut Connection<S>,
    store: &str,
    batch: &KeptBatch,
) -> Result<(), Error>
    requires { AreNumbers batch.now.values }
    ensures moves { HasCleanDisk (state S.Store conn.new) → Moves (batched batch.now) store.now (state S.Store conn.old) (state S.Store conn.new) result }
    ensures safe { Survives (state S.Store conn.old) (state S.Store conn.new) (NoCommit (state S.Store conn.old)) }
{
    if let Err(error) = put_batch(conn, store, batch) {
        return Err(error);
    }
    set_all(conn, store, batch.values.as_slice())
}
