//! How the keys of rows are ordered and copied.

ghost use Rattle.std.specs.Prelude.{◌==◌};
ghost use Rattle.std.proofs.Common.{rules};
ghost use Rattle.std.specs.Cmp.{partial_order_from_own_ties};
ghost use Rattle.std.specs.Cmp.Rules.{comparing};
ghost use Rattle.std.specs.Ordering.{nat_cmp, on, then_cmp, eq_of_both, as_partial_cmp};
ghost use Rattle.std.specs.Cmp.Lexicographic.{pointwise, slice_cmp};

use crate::kept::{KeptKey, KeptRow, KeptValue};
use melon_schema::Twin;
use std::alloc::{AllocError, Global};
use std::cmp::Ordering;

impl PartialEq for KeptKey {
    ghost eq = { eq_of_both (on (λ k. k.table) (pointwise ◌==◌)) (on (λ k. k.id) (pointwise ◌==◌)) };

    ghost laws = { Prim.search (comparing, rules) };

    fn eq(&self, other: &KeptKey) -> bool {
        self.table.is(other.table.as_str()) && self.id.is(other.id.as_str())
    }
}

impl Eq for KeptKey {
    ghost laws = { Prim.search (comparing, rules) };
}

impl Ord for KeptKey {
    ghost cmp = { then_cmp (on (λ k. k.table) (slice_cmp nat_cmp)) (on (λ k. k.id) (slice_cmp nat_cmp)) };

    ghost total = { Prim.search (comparing, rules) };

    ghost matches_partial_cmp = { Prim.search (comparing, rules) };

    ghost matches_eq = { Prim.search (comparing, rules) };

    fn cmp(&self, other: &KeptKey) -> Ordering {
        let tables = self.table.as_str().cmp(other.table.as_str());
        tables.then(self.id.as_str().cmp(other.id.as_str()))
    }
}

impl PartialOrd for KeptKey {
    ghost partial_cmp = { as_partial_cmp (then_cmp (on (λ k. k.table) (slice_cmp nat_cmp)) (on (λ k. k.id) (slice_cmp nat_cmp))) };

    ghost laws = { partial_order_from_own_ties (Prim.search (comparing, rules)) (Prim.search (comparing, rules)) };

    fn partial_cmp(&self, other: &KeptKey) -> Option<Ordering> {
        Some(self.cmp(other))
    }
}

impl Twin for KeptKey {
    fn copy(&self, alloc: Global) -> Result<KeptKey, AllocError> {
        Ok(KeptKey {
            table: self.table.copy(alloc)?,
            id: self.id.copy(alloc)?,
        })
    }

    fn same(&self, other: &KeptKey) -> bool {
        self.table.same(&other.table) && self.id.same(&other.id)
    }
}

impl Twin for KeptRow {
    fn copy(&self, alloc: Global) -> Result<KeptRow, AllocError> {
        Ok(KeptRow {
            table: self.table.copy(alloc)?,
            id: self.id.copy(alloc)?,
            body: self.body.copy(alloc)?,
        })
    }

    fn same(&self, other: &KeptRow) -> bool {
        self.table.same(&other.table) && self.id.same(&other.id) && self.body.same(&other.body)
    }
}

impl Twin for KeptValue {
    fn copy(&self, alloc: Global) -> Result<KeptValue, AllocError> {
        Ok(KeptValue {
            name: self.name.copy(alloc)?,
            number: self.number,
        })
    }

    fn same(&self, other: &KeptValue) -> bool {
        self.name.same(&other.name) && self.number == other.number
    }
}
