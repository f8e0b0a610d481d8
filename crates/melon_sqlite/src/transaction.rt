//! A batch as one transaction.

ghost use Rattle.std.specs.Prelude.{◌≡◌, codes, [], true, false, IfOk, OnOk};
ghost use Rattle.sqlite.specs.State.{HasCleanDisk, Survives, Executes, CommitsBy};
ghost use Rattle.sqlite.specs.Held.{state};
ghost use Rattle.melon_outside.specs.Kept.{batched, is_in_order};
ghost use Rattle.melon_sqlite.specs.Contents.{has_negative};
ghost use Rattle.melon_sqlite.specs.Statements.{StaysShut};
ghost use Rattle.melon_sqlite.specs.Telling.{LoadsAs, StaysIdle};
ghost use Rattle.melon_sqlite.specs.Transactions.{Abandons, AreNumbers, Begins, Commits, Finishes, Idle, IsOverKept, Ready, Whole};

use crate::batch::write_batch;
use crate::statements::{read_rows, read_values};
use melon_outside::{Kept, KeptBatch};
use sqlite::{Alter, Connection, Error};
use std::alloc::Global;

fn run_begin<S: Alter>(conn: &mut Connection<S>) -> Result<usize, Error>
    ensures runs { HasCleanDisk (state S.Store conn.new) → Executes (codes "BEGIN") [] (state S.Store conn.old) (state S.Store conn.new) result }
    ensures survives { Survives (state S.Store conn.old) (state S.Store conn.new) (CommitsBy (codes "BEGIN") [] (state S.Store conn.old)) }
{
    conn.execute("BEGIN", &[])
}

fn run_commit<S: Alter>(conn: &mut Connection<S>) -> Result<usize, Error>
    ensures runs { HasCleanDisk (state S.Store conn.new) → Executes (codes "COMMIT") [] (state S.Store conn.old) (state S.Store conn.new) result }
    ensures survives { Survives (state S.Store conn.old) (state S.Store conn.new) (CommitsBy (codes "COMMIT") [] (state S.Store conn.old)) }
{
    conn.execute("COMMIT", &[])
}

fn run_rollback<S: Alter>(conn: &mut Connection<S>) -> Result<usize, Error>
    ensures runs { HasCleanDisk (state S.Store conn.new) → Executes (codes "ROLLBACK") [] (state S.Store conn.old) (state S.Store conn.new) result }
    ensures survives { Survives (state S.Store conn.old) (state S.Store conn.new) (CommitsBy (codes "ROLLBACK") [] (state S.Store conn.old)) }
{
    conn.execute("ROLLBACK", &[])
}

fn begin<S: Alter>(conn: &mut Connection<S>) -> Result<usize, Error>
    ensures begun { HasCleanDisk (state S.Store conn.new) → Begins (state S.Store conn.old) (state S.Store conn.new) result }
    ensures safe { Survives (state S.Store conn.old) (state S.Store conn.new) (λ _. Idle (state S.Store conn.old) → ⊥) }
{
    run_begin(conn)
}

fn finish<S: Alter>(
    conn: &mut Connection<S>,
    store: &str,
    batch: &KeptBatch,
) -> Result<usize, Error>
    requires { AreNumbers batch.now.values }
    ensures done { HasCleanDisk (state S.Store conn.new) → Finishes (batched batch.now) store.now (state S.Store conn.old) (state S.Store conn.new) result }
    ensures safe { Survives (state S.Store conn.old) (state S.Store conn.new) (Whole (batched batch.now) store.now Ready (state S.Store conn.old)) }
{
    if let Err(error) = write_batch(conn, store, batch) {
        return Err(error);
    }
    run_commit(conn)
}

fn abandon<S: Alter>(conn: &mut Connection<S>)
    ensures opened { HasCleanDisk (state S.Store conn.new) → StaysShut (state S.Store conn.old) (state S.Store conn.new) }
    ensures abandons { HasCleanDisk (state S.Store conn.new) → IsOverKept (state S.Store conn.old) → Abandons (state S.Store conn.old) (state S.Store conn.new) }
    ensures safe { Survives (state S.Store conn.old) (state S.Store conn.new) (λ _. IsOverKept (state S.Store conn.old) → ⊥) }
{
    if conn.is_autocommit() {
        return;
    }
    let _ = run_rollback(conn);
}

/// Does the whole batch, or nothing.
pub(crate) fn commit_batch<S: Alter>(
    conn: &mut Connection<S>,
    store: &str,
    batch: &KeptBatch,
) -> Result<(), Error>
    requires { AreNumbers batch.now.values }
    ensures commits { HasCleanDisk (state S.Store conn.new) → Commits (batched batch.now) store.now (state S.Store conn.old) (state S.Store conn.new) result }
    ensures safe { Survives (state S.Store conn.old) (state S.Store conn.new) (Whole (batched batch.now) store.now Idle (state S.Store conn.old)) }
{
    if let Err(error) = begin(conn) {
        return Err(error);
    }
    match finish(conn, store, batch) {
        Ok(_) => Ok(()),
        Err(error) => {
            abandon(conn);
            Err(error)
        }
    }
}

/// The rows and values of a store.
fn load_store<S: Alter>(alloc: Global, conn: &mut Connection<S>, store: &str) -> Result<Kept, Error>
    ensures opened { HasCleanDisk (state S.Store conn.new) → StaysShut (state S.Store conn.old) (state S.Store conn.new) }
    ensures stays { HasCleanDisk (state S.Store conn.new) → StaysIdle (state S.Store conn.old) (state S.Store conn.new) }
    ensures loads { HasCleanDisk (state S.Store conn.new) → LoadsAs store.now (state S.Store conn.old) (state S.Store conn.new) result }
    ensures natural { HasCleanDisk (state S.Store conn.new) → Idle (state S.Store conn.old) → OnOk result (has_negative (state S.Store conn.old).now.trees store.now ≡ false) }
    ensures safe { Survives (state S.Store conn.old) (state S.Store conn.new) (λ _. Idle (state S.Store conn.old) → ⊥) }
{
    let rows = match read_rows(alloc, conn, store) {
        Ok(rows) => rows,
        Err(error) => return Err(error),
    };
    match read_values(alloc, conn, store) {
        Ok(values) => Ok(Kept { rows, values }),
        Err(error) => Err(error),
    }
}

/// The same, or an error where what was read isn't in order. Of the two tables as they are written
/// it is.
pub(crate) fn load_in_order<S: Alter>(
    alloc: Global,
    conn: &mut Connection<S>,
    store: &str,
) -> Result<Kept, Error>
    ensures opened { HasCleanDisk (state S.Store conn.new) → StaysShut (state S.Store conn.old) (state S.Store conn.new) }
    ensures stays { HasCleanDisk (state S.Store conn.new) → StaysIdle (state S.Store conn.old) (state S.Store conn.new) }
    ensures loads { HasCleanDisk (state S.Store conn.new) → LoadsAs store.now (state S.Store conn.old) (state S.Store conn.new) result }
    ensures natural { HasCleanDisk (state S.Store conn.new) → Idle (state S.Store conn.old) → OnOk result (has_negative (state S.Store conn.old).now.trees store.now ≡ false) }
    ensures ordered { IfOk result (λ kept. is_in_order kept ≡ true) }
    ensures safe { Survives (state S.Store conn.old) (state S.Store conn.new) (λ _. Idle (state S.Store conn.old) → ⊥) }
{
    match load_store(alloc, conn, store) {
        Ok(kept) => {
            if kept.is_in_order() {
                Ok(kept)
            } else {
                Err(Error::InvalidQuery)
            }
        }
        Err(error) => Err(error),
    }
}
