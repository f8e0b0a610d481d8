//! A keeper in memory.

ghost use Rattle.std.specs.Prelude.{◌≡◌, ◌↔◌, [], true, OnOk, OnErr, IfOk, IsTrue, IsErrOf};
ghost use Rattle.std.proofs.Common.{sym, ◌∙◌};
ghost use Rattle.melon_outside.specs.Kept.{batched, is_in_order};
ghost use Rattle.melon_outside.specs.Keeping.{find, with_store, are_stores, are_in_order, call_fails, after_call};
ghost use Rattle.melon_outside.specs.SeenKeeper.{Loads, Commits};
ghost use Rattle.melon_outside.specs.SeenMemory.{seen_memory, planned_so};
ghost use Rattle.melon_outside.specs.Shelved.{stores_of};

use crate::kept::{Kept, KeptBatch, KeptStore};
use crate::memory::count_call;
use crate::shelf::{Shelf, commit_store, load_store, shelves_of};
use crate::{Keeper, KeeperError};
use melon_schema::List;
use std::alloc::{AllocError, Global};
use std::marker::Model;

/// A keeper in memory. The calls in `fails` fail. It holds what it tells, and a stop leaves that.
#[derive(Drop)]
pub struct MemoryKeeper {
    given: List<KeptStore>,
    shelves: Vec<Shelf>,
    fails: List<u64>,
    call: u64,
    faults: u64,
}

impl Model for MemoryKeeper {
    ghost use Rattle.std.specs.Prelude.{◌≡◌, true};
    ghost use Rattle.melon_outside.specs.Keeping.{Shelves, are_in_order};

    ghost Value = { Shelves };

    ghost use Rattle.melon_outside.specs.Shelved.{stores_of};

    ghost view = { λ k. record { stores = stores_of k.given k.shelves.items; fails = k.fails; calls = k.call; faults = k.faults } };

    ghost invariant = { λ k. are_in_order (stores_of k.given k.shelves.items) ≡ true };
}

impl MemoryKeeper {
    /// `fails` are the numbers, from 1, of the calls that are to fail; `load` and `commit` are
    /// counted together.
    pub fn new(alloc: Global, contents: List<KeptStore>, fails: List<u64>) -> MemoryKeeper
        requires { are_stores contents ≡ true }
        ensures { result ≡ record { stores = contents; fails = fails; calls = 0; faults = 0 } }
    {
        MemoryKeeper {
            given: contents,
            shelves: Vec::new(alloc),
            fails,
            call: 0,
            faults: 0,
        }
    }
}

/// Puts the stores that were given on shelves.
fn settle(
    given: &mut List<KeptStore>,
    shelves: &mut Vec<Shelf>,
    alloc: Global,
) -> Result<(), AllocError>
    requires { are_in_order (stores_of given.old shelves.old.items) ≡ true }
    ensures same { stores_of given.new shelves.new.items ≡ stores_of given.old shelves.old.items }
    ensures settled { OnOk result (given.new ≡ []) }
{
    if !given.is_empty() {
        *shelves = shelves_of(alloc, given.as_slice())?;
        *given = List::new(alloc);
    }
    Ok(())
}

/// Gives what is kept under a name.
fn load_stores(
    given: &mut List<KeptStore>,
    shelves: &mut Vec<Shelf>,
    alloc: Global,
    store: &str,
) -> Result<Kept, AllocError>
    requires { are_in_order (stores_of given.old shelves.old.items) ≡ true }
    ensures same { stores_of given.new shelves.new.items ≡ stores_of given.old shelves.old.items }
    ensures gives { IfOk result (λ kept. kept ≡ find (stores_of given.old shelves.old.items) store.now) }
    ensures ordered { IfOk result (λ kept. is_in_order kept ≡ true) }
{
    settle(given, shelves, alloc)?;
    load_store(shelves.as_slice(), alloc, store)
}

/// Does the batch to what is kept under a name.
fn commit_stores(
    given: &mut List<KeptStore>,
    shelves: &mut Vec<Shelf>,
    alloc: Global,
    store: &str,
    batch: &KeptBatch,
) -> Result<(), AllocError>
    requires { are_in_order (stores_of given.old shelves.old.items) ≡ true }
    ensures ok { OnOk result (stores_of given.new shelves.new.items ≡ with_store store.now (batched batch.now (find (stores_of given.old shelves.old.items) store.now)) (stores_of given.old shelves.old.items)) }
    ensures err { OnErr result (stores_of given.new shelves.new.items ≡ stores_of given.old shelves.old.items) }
    ensures ordered { are_in_order (stores_of given.new shelves.new.items) ≡ true }
{
    settle(given, shelves, alloc)?;
    commit_store(shelves, alloc, store, batch)
}

impl Keeper for MemoryKeeper {
    ghost seen = { seen_memory };

    ghost one = { λ k a b p q store. p.1 store ∙ sym (q.1 store) };

    ghost between = { λ k m left p q store. q store ∙ sym (p.1 store) };

    ghost honestly = { λ _ _ _. tt };

    ghost ordered = { λ k m p. p.0 };

    ghost planned = { λ k fails all p q. planned_so k fails all p q.1 };

    fn load(&mut self, alloc: Global, store: &str) -> Result<Kept, KeeperError>
        ensures planned { IsErrOf result KeeperError.Failed ↔ IsTrue (call_fails self.old) }
        ensures gives { IfOk result (λ kept. kept ≡ find self.old.stores store.now) }
        ensures moved { OnOk result (self.new ≡ after_call self.old self.old.stores) }
        ensures failed { IsErrOf result KeeperError.Failed → self.new ≡ after_call self.old self.old.stores }
        ensures memory { IsErrOf result KeeperError.Memory → self.new ≡ self.old }
        ensures loads { Loads store.now result (seen_memory self.old) (seen_memory self.new) }
    {
        let called = self.call;
        if count_call(&mut self.call, self.fails.as_slice()) {
            self.faults = self.faults.saturating_add(1);
            return Err(KeeperError::Failed);
        }
        match load_stores(&mut self.given, &mut self.shelves, alloc, store) {
            Ok(kept) => Ok(kept),
            Err(_) => {
                self.call = called;
                Err(KeeperError::Memory)
            }
        }
    }

    fn commit(&mut self, alloc: Global, store: &str, batch: &KeptBatch) -> Result<(), KeeperError>
        ensures planned { IsErrOf result KeeperError.Failed ↔ IsTrue (call_fails self.old) }
        ensures changed { OnOk result (self.new ≡ after_call self.old (with_store store.now (batched batch.now (find self.old.stores store.now)) self.old.stores)) }
        ensures failed { IsErrOf result KeeperError.Failed → self.new ≡ after_call self.old self.old.stores }
        ensures memory { IsErrOf result KeeperError.Memory → self.new ≡ self.old }
        ensures commits { Commits batch.now store.now result (seen_memory self.old) (seen_memory self.new) }
    {
        let called = self.call;
        if count_call(&mut self.call, self.fails.as_slice()) {
            self.faults = self.faults.saturating_add(1);
            return Err(KeeperError::Failed);
        }
        let (given, shelves) = (&mut self.given, &mut self.shelves);
        if commit_stores(given, shelves, alloc, store, batch).is_err() {
            self.call = called;
            return Err(KeeperError::Memory);
        }
        Ok(())
    }
}
