//! What keeps rows and values under the names of stores.

ghost use Rattle.std.specs.Prelude.{◌≡◌, ℕ, Bool, true, List, length};
ghost use Rattle.melon_outside.specs.Kept.{is_in_order};
ghost use Rattle.melon_outside.specs.Keeping.{AreSame, Stores};
ghost use Rattle.melon_outside.specs.SeenKeeper.{SeenKeeper, Loads, Commits, planned_to};

use crate::kept::{Kept, KeptBatch};
use std::alloc::{AllocError, Global};

/// Why a keeper did nothing.
#[derive(Clone, Copy, Debug, PartialEq, Eq)]
pub enum KeeperError {
    Memory,
    Failed,
}

impl From<AllocError> for KeeperError {
    ghost use Rattle.melon_outside.specs.declared.keeper.KeeperError.TheVariants.{Memory};

    ghost from_gives = { λ _ e. e ≡ Memory };

    fn from(_: AllocError) -> Self {
        KeeperError::Memory
    }
}

/// A keeper of stores.
pub trait Keeper {
    /// What is seen of it.
    ghost seen: { Self → SeenKeeper };

    /// Gives what is kept of a store, and leaves all that it holds.
    fn load(&mut self, alloc: Global, store: &str) -> Result<Kept, KeeperError>
        ensures loads { Loads store.now result (seen self.old) (seen self.new) };

    /// Does all of the batch or, after an Err, nothing, and leaves the other stores.
    fn commit(&mut self, alloc: Global, store: &str, batch: &KeptBatch) -> Result<(), KeeperError>
        ensures commits { Commits batch.now store.now result (seen self.old) (seen self.new) };

    /// What it holds is one contents.
    ghost one: { (k : Self) (a b : Stores) → (seen k).holds a → (seen k).holds b → AreSame a b };

    /// Between calls a stop leaves what it holds.
    ghost between: { (k : Self) (m left : Stores) → (seen k).holds m → (seen k).may_leave left → AreSame left m };

    /// What a stop leaves is told of an honest keeper alone.
    ghost honestly: { (k : Self) (left : Stores) → (seen k).may_leave left → (seen k).honest };

    /// What it holds of each store is in order.
    ghost ordered: { (k : Self) (m : Stores) → (seen k).holds m → (store : List ℕ) → is_in_order (m store) ≡ true };

    /// Its calls end as it tells that they are to.
    ghost planned: { (k : Self) (fails : List ℕ) (all : List Bool) → (seen k).plan fails → (seen k).answered all → all ≡ planned_to fails (length all) };
}
