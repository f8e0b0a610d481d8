//! The keeper over a connection.

ghost use Rattle.std.specs.Prelude.{◌≡◌, ◌≤◌, ◌↔◌, true, false, IsTrue, IfOk, OnOk, IsErrOf, Err};
ghost use Rattle.std.proofs.Common.{sym, ◌∙◌};
ghost use Rattle.sqlite.specs.State.{HasCleanDisk};
ghost use Rattle.sqlite.specs.Held.{state};
ghost use Rattle.melon_outside.specs.Causes.{next_count, Rose};
ghost use Rattle.melon_outside.specs.Keeping.{Stores};
ghost use Rattle.melon_outside.specs.SeenKeeper.{Loads, Commits};
ghost use Rattle.melon_sqlite.specs.Contents.{has_negative};
ghost use Rattle.melon_sqlite.specs.Opening.{Keeps};
ghost use Rattle.melon_sqlite.specs.Tables.{kept_schema};
ghost use Rattle.melon_sqlite.specs.Telling.{GoesOn, Holds, Tells, has_big, held_in_order, seen_keeper, settles, shown};
ghost use Rattle.melon_sqlite.specs.Transactions.{AreNumbers};

use crate::opening::opened;
use crate::transaction::{commit_batch, load_in_order};
use melon_outside::{Keeper, KeeperError, Kept, KeptBatch, KeptValue};
use sqlite::{Alter, Connection, Error, ErrorCode};
use std::alloc::Global;
use std::marker::Model;

/// The rows and values of all stores in two tables of a database.
#[derive(Drop)]
pub struct SqliteKeeper<S: Alter> {
    connection: Connection<S>,
    fits: bool,
    faults: u64,
}

impl<S: Alter> Model for SqliteKeeper<S> {
    ghost use Rattle.sqlite.specs.Held.{state};
    ghost use Rattle.melon_sqlite.specs.Telling.{Knows, Seen, seen_code};

    ghost Value = { Seen S };

    ghost coded = { seen_code S.code };

    ghost view = { λ k. record { connection = k.connection; fits = k.fits; faults = k.faults } };

    ghost invariant = { λ k. Knows k.fits (state S.Store k.connection) };
}

/// The error as a keeper tells it: want of memory alone is told as such.
pub(crate) fn keeper_error(error: &Error) -> KeeperError
    ensures { (result ≡ KeeperError.Memory) ↔ (error.now ≡ Error.SqliteFailure ErrorCode.OutOfMemory) }
{
    match error {
        Error::SqliteFailure(ErrorCode::OutOfMemory) => KeeperError::Memory,
        _ => KeeperError::Failed,
    }
}

fn one_more(faults: u64) -> u64
    ensures next { result ≡ next_count faults }
    ensures later { faults ≤ result }
    ensures rose { Rose faults result }
{
    faults.saturating_add(1)
}

fn has_big(values: &[KeptValue]) -> bool
    ensures big { result ≡ has_big values.now }
    ensures small { result ≡ false → AreNumbers values.now }
{
    values
        .iter()
        .any(|value| value.number > 0x7fff_ffff_ffff_ffff)
}

/// The error, and the count after it: each but want of memory is counted.
fn counted(faults: u64, error: &Error) -> (KeeperError, u64)
    ensures failed { result.0 ≡ KeeperError.Failed → result.1 ≡ next_count faults }
    ensures memory { result.0 ≡ KeeperError.Memory → result.1 ≡ faults }
    ensures later { faults ≤ result.1 }
    ensures cause { result.0 ≡ KeeperError.Failed → Rose faults result.1 }
{
    match keeper_error(error) {
        KeeperError::Memory => (KeeperError::Memory, faults),
        KeeperError::Failed => (KeeperError::Failed, one_more(faults)),
    }
}

impl<S: Alter + Drop> Keeper for SqliteKeeper<S> {
    ghost seen = { seen_keeper S.Store };

    ghost one = { λ k a b p q store. p.1 store ∙ sym (q.1 store) };

    ghost between = { λ k. settles k.fits _ (λ db. S.Store.settled k.connection.store db) };

    ghost honestly = { λ k left l. l.0 };

    ghost ordered = { λ k m h store. held_in_order _ _ m h store };

    ghost planned = { λ k fails all p _. absurd p };

    fn load(&mut self, alloc: Global, store: &str) -> Result<Kept, KeeperError>
        ensures tells { OnOk result (Tells S.Store self.old → HasCleanDisk (shown S.Store self.new) → Tells S.Store self.new) }
        ensures stays_open { GoesOn S.Store self.old self.new }
        ensures fits { self.new.fits ≡ self.old.fits }
        ensures natural { OnOk result (Tells S.Store self.new → has_negative (shown S.Store self.new).now.trees store.now ≡ false) }
        ensures uncounted { OnOk result (self.new.faults ≡ self.old.faults) }
        ensures counted { IsErrOf result KeeperError.Failed → self.new.faults ≡ next_count self.old.faults }
        ensures memory { IsErrOf result KeeperError.Memory → self.new.faults ≡ self.old.faults }
        ensures loads { Loads store.now result (seen_keeper S.Store self.old) (seen_keeper S.Store self.new) }
    {
        if !self.connection.is_autocommit() {
            self.faults = one_more(self.faults);
            return Err(KeeperError::Failed);
        }
        match load_in_order(alloc, &mut self.connection, store) {
            Ok(kept) => Ok(kept),
            Err(error) => {
                let (error, faults) = counted(self.faults, &error);
                self.faults = faults;
                Err(error)
            }
        }
    }

    fn commit(&mut self, _alloc: Global, store: &str, batch: &KeptBatch) -> Result<(), KeeperError>
        ensures tells { OnOk result (Tells S.Store self.old → HasCleanDisk (shown S.Store self.new) → Tells S.Store self.new) }
        ensures stays_open { GoesOn S.Store self.old self.new }
        ensures fits { self.new.fits ≡ self.old.fits }
        ensures big { has_big batch.now.values ≡ true → (result ≡ Err KeeperError.Failed) × (self.new.connection ≡ self.old.connection) }
        ensures uncounted { OnOk result (self.new.faults ≡ self.old.faults) }
        ensures counted { IsErrOf result KeeperError.Failed → self.new.faults ≡ next_count self.old.faults }
        ensures memory { IsErrOf result KeeperError.Memory → self.new.faults ≡ self.old.faults }
        ensures commits { Commits batch.now store.now result (seen_keeper S.Store self.old) (seen_keeper S.Store self.new) }
    {
        if !self.connection.is_autocommit() || has_big(batch.values.as_slice()) {
            self.faults = one_more(self.faults);
            return Err(KeeperError::Failed);
        }
        match commit_batch(&mut self.connection, store, batch) {
            Ok(()) => Ok(()),
            Err(error) => {
                let (error, faults) = counted(self.faults, &error);
                self.faults = faults;
                Err(error)
            }
        }
    }
}

impl<S: Alter + Drop> SqliteKeeper<S> {
    ghost use Rattle.melon_sqlite.specs.Telling.{Seen};

    /// Opens a keeper over a connection, and makes the two tables where they aren't there. What a
    /// transaction of the connection has not committed is undone.
    pub fn open(alloc: Global, connection: Connection<S>) -> Result<SqliteKeeper<S>, KeeperError>
        ensures tells { IfOk result (λ k. HasCleanDisk (shown S.Store k) → (Tells S.Store k) ↔ ((shown S.Store k).now.schema ≡ kept_schema)) }
        ensures fits { IfOk result (λ k. HasCleanDisk (shown S.Store k) → IsTrue k.fits → Tells S.Store k) }
        ensures holds { IfOk result (λ k. HasCleanDisk (shown S.Store k) → (m : Stores) → Keeps (state S.Store connection).committed m → Holds S.Store k m) }
        ensures faults { IfOk result (λ k. k.faults ≡ 0) }
    {
        match opened(alloc, connection) {
            Ok((connection, fits)) => Ok(SqliteKeeper {
                connection,
                fits,
                faults: 0,
            }),
            Err(error) => Err(keeper_error(&error)),
        }
    }

    /// Whether the two tables were all that the database had as the keeper was opened. Where they
    /// weren't, it keeps what it is given and no contract tells what it holds.
    pub fn fits(&self) -> bool
        ensures { result ≡ self.now.fits }
    {
        self.fits
    }

    /// Gives the connection back.
    pub fn into_connection(self) -> Connection<S>
        ensures { result ≡ self.connection }
    {
        let SqliteKeeper {
            connection,
            fits: _,
            faults: _,
        } = self;
        connection
    }
}
