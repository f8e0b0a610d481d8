//! Opening: the two tables are made where they aren't there.

ghost use Rattle.std.specs.Prelude.{◌≡◌, ◌⊎◌, ◌↔◌, ◌≤◌, [], IsTrue, IfOk, OnOk, is_some};
ghost use Rattle.sqlite_trees.specs.View.{doubt};
ghost use Rattle.sqlite_schema.specs.Names.{table_named};
ghost use Rattle.sqlite.specs.State.{HasCleanDisk, Executes};
ghost use Rattle.sqlite.specs.Held.{state};
ghost use Rattle.melon_outside.specs.Keeping.{Stores};
ghost use Rattle.melon_sqlite.specs.Opening.{Keeps, KeepsBoth, KeepsRows, IsRenewed, IsSettled};
ghost use Rattle.melon_sqlite.specs.Statements.{StaysShut};
ghost use Rattle.melon_sqlite.specs.Tables.{kept_schema, rows_text, values_text};
ghost use Rattle.melon_sqlite.specs.Telling.{HoldsIn, Knows, TellsIn};

use crate::tables::is_kept;
use sqlite::{Alter, Connection, Error, ErrorCode};
use sqlite_schema::schema::Schema;
use sqlite_trees::store::Store;
use std::alloc::Global;

fn has_table(schema: &Schema, name: &[u8]) -> bool
    ensures { result ≡ is_some (table_named schema.now name.now) }
{
    schema.table_named(name).is_some()
}

fn create_rows<S: Alter>(conn: &mut Connection<S>) -> Result<usize, Error>
    ensures runs { HasCleanDisk (state S.Store conn.new) → Executes rows_text [] (state S.Store conn.old) (state S.Store conn.new) result }
    ensures clean { doubt (state S.Store conn.old).is_clean ≤ doubt (state S.Store conn.new).is_clean }
{
    conn.execute(
        "CREATE TABLE kept_rows (store TEXT NOT NULL, tbl TEXT NOT NULL, id TEXT NOT NULL, body BLOB NOT NULL, PRIMARY KEY (store, tbl, id)) STRICT",
        &[],
    )
}

fn create_values<S: Alter>(conn: &mut Connection<S>) -> Result<usize, Error>
    ensures runs { HasCleanDisk (state S.Store conn.new) → Executes values_text [] (state S.Store conn.old) (state S.Store conn.new) result }
    ensures clean { doubt (state S.Store conn.old).is_clean ≤ doubt (state S.Store conn.new).is_clean }
{
    conn.execute(
        "CREATE TABLE kept_values (store TEXT NOT NULL, name TEXT NOT NULL, value INTEGER NOT NULL, PRIMARY KEY (store, name)) STRICT",
        &[],
    )
}

/// Makes the table of the rows where it isn't there.
fn make_rows<S: Alter>(conn: &mut Connection<S>) -> Result<(), Error>
    ensures kept { HasCleanDisk (state S.Store conn.new) → OnOk result ((m : Stores) → IsSettled (state S.Store conn.old) → Keeps (state S.Store conn.old).now m
        → IsSettled (state S.Store conn.new) × (KeepsRows (state S.Store conn.new).now m ⊎ KeepsBoth (state S.Store conn.new).now m)) }
    ensures opened { HasCleanDisk (state S.Store conn.new) → StaysShut (state S.Store conn.old) (state S.Store conn.new) }
    ensures clean { doubt (state S.Store conn.old).is_clean ≤ doubt (state S.Store conn.new).is_clean }
{
    if has_table(conn.schema(), b"kept_rows") {
        return Ok(());
    }
    match create_rows(conn) {
        Ok(_) => Ok(()),
        Err(error) => Err(error),
    }
}

/// Makes the table of the values where it isn't there.
fn make_values<S: Alter>(conn: &mut Connection<S>) -> Result<(), Error>
    ensures kept { HasCleanDisk (state S.Store conn.new) → OnOk result ((m : Stores) → IsSettled (state S.Store conn.old) → KeepsRows (state S.Store conn.old).now m ⊎ KeepsBoth (state S.Store conn.old).now m
        → IsSettled (state S.Store conn.new) × KeepsBoth (state S.Store conn.new).now m) }
    ensures opened { HasCleanDisk (state S.Store conn.new) → StaysShut (state S.Store conn.old) (state S.Store conn.new) }
    ensures clean { doubt (state S.Store conn.old).is_clean ≤ doubt (state S.Store conn.new).is_clean }
{
    if has_table(conn.schema(), b"kept_values") {
        return Ok(());
    }
    match create_values(conn) {
        Ok(_) => Ok(()),
        Err(error) => Err(error),
    }
}

fn make_tables<S: Alter>(conn: &mut Connection<S>) -> Result<(), Error>
    ensures kept { HasCleanDisk (state S.Store conn.new) → OnOk result ((m : Stores) → IsSettled (state S.Store conn.old) → Keeps (state S.Store conn.old).now m
        → IsSettled (state S.Store conn.new) × KeepsBoth (state S.Store conn.new).now m) }
    ensures opened { HasCleanDisk (state S.Store conn.new) → StaysShut (state S.Store conn.old) (state S.Store conn.new) }
    ensures clean { doubt (state S.Store conn.old).is_clean ≤ doubt (state S.Store conn.new).is_clean }
{
    match make_rows(conn) {
        Ok(()) => make_values(conn),
        Err(error) => Err(error),
    }
}

/// Another connection over the same store. It undoes what isn't committed, and knows the rows to be
/// in the order of their rowids.
fn renewed<S: Alter + Drop>(
    alloc: Global,
    connection: Connection<S>,
) -> Result<Connection<S>, Error>
    ensures renewed { IfOk result (λ new. HasCleanDisk (state S.Store new) → IsRenewed (state S.Store connection) (state S.Store new)) }
    ensures clean { IfOk result (λ new. doubt (state S.Store connection).is_clean ≤ doubt (state S.Store new).is_clean) }
{
    let _schema = connection.schema();
    let store = connection.into_store();
    if store.is_broken() {
        return Err(Error::SqliteFailure(ErrorCode::Closed));
    }
    match Connection::over(alloc, store) {
        Ok(new) => Ok(new),
        Err((error, _)) => Err(error),
    }
}

/// The connection outside any transaction.
fn settled<S: Alter + Drop>(
    alloc: Global,
    connection: Connection<S>,
) -> Result<Connection<S>, Error>
    ensures settled { IfOk result (λ new. HasCleanDisk (state S.Store new) → IsTrue (state S.Store new).is_open
        → IsSettled (state S.Store new) × ((state S.Store new).now ≡ (state S.Store connection).committed)) }
    ensures clean { IfOk result (λ new. doubt (state S.Store connection).is_clean ≤ doubt (state S.Store new).is_clean) }
{
    if connection.is_autocommit() {
        return Ok(connection);
    }
    renewed(alloc, connection)
}

fn with_tables<S: Alter + Drop>(
    alloc: Global,
    connection: Connection<S>,
) -> Result<Connection<S>, Error>
    ensures kept { IfOk result (λ new. HasCleanDisk (state S.Store new) → IsTrue (state S.Store new).is_open
        → (m : Stores) → Keeps (state S.Store connection).committed m → KeepsBoth (state S.Store new).committed m) }
    ensures clean { IfOk result (λ new. doubt (state S.Store connection).is_clean ≤ doubt (state S.Store new).is_clean) }
{
    match settled(alloc, connection) {
        Ok(mut conn) => match make_tables(&mut conn) {
            Ok(()) => Ok(conn),
            Err(error) => Err(error),
        },
        Err(error) => Err(error),
    }
}

/// The connection again, and whether the two tables are all that its database has.
fn tested<S: Alter + Drop>(
    alloc: Global,
    connection: Connection<S>,
) -> Result<(Connection<S>, bool), Error>
    ensures knows { IfOk result (λ r. Knows r.1 (state S.Store r.0)) }
    ensures fits { IfOk result (λ r. HasCleanDisk (state S.Store r.0) → IsTrue r.1 → TellsIn r.1 (state S.Store r.0)) }
    ensures tells { IfOk result (λ r. HasCleanDisk (state S.Store r.0) → (TellsIn r.1 (state S.Store r.0)) ↔ ((state S.Store r.0).now.schema ≡ kept_schema)) }
    ensures found { IfOk result (λ r. HasCleanDisk (state S.Store r.0) → IsTrue (state S.Store connection).is_open × ((state S.Store r.0).now ≡ (state S.Store connection).committed)) }
    ensures clean { IfOk result (λ r. doubt (state S.Store connection).is_clean ≤ doubt (state S.Store r.0).is_clean) }
{
    match renewed(alloc, connection) {
        Ok(conn) => {
            let fits = is_kept(conn.schema());
            Ok((conn, fits))
        }
        Err(error) => Err(error),
    }
}

/// Makes the tables that are missing, and says whether the two are all that there is.
pub(crate) fn opened<S: Alter + Drop>(
    alloc: Global,
    connection: Connection<S>,
) -> Result<(Connection<S>, bool), Error>
    ensures knows { IfOk result (λ r. Knows r.1 (state S.Store r.0)) }
    ensures fits { IfOk result (λ r. HasCleanDisk (state S.Store r.0) → IsTrue r.1 → TellsIn r.1 (state S.Store r.0)) }
    ensures tells { IfOk result (λ r. HasCleanDisk (state S.Store r.0) → (TellsIn r.1 (state S.Store r.0)) ↔ ((state S.Store r.0).now.schema ≡ kept_schema)) }
    ensures holds { IfOk result (λ r. HasCleanDisk (state S.Store r.0) → (m : Stores) → Keeps (state S.Store connection).committed m → HoldsIn r.1 (state S.Store r.0) m) }
{
    match with_tables(alloc, connection) {
        Ok(conn) => tested(alloc, conn),
        Err(error) => Err(error),
    }
}
