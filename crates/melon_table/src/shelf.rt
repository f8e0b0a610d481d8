//! Rows at places. Each row stays where it was first put, and only the keys to them move. The keys of the rows that aren't
//! synced stand in a list of their own, in the same order.
ghost use Rattle.std.specs.Prelude.{◌≡◌, ◌≢◌, ◌+◌, ◌<◌, ◌≤◌, [], true, false, length, take, slice_get, slice_set, Some, OnOk, OnErr};
ghost use Rattle.std.specs.List.{insert, remove};
ghost use Rattle.melon_table.specs.Dirty.{is_dirty, dirty_rows};
ghost use Rattle.melon_table.specs.Stocked.{marked};

use crate::keys::Keys;
use melon_raw::{Raw, Status, Steps};
use slab::Slab;
use std::alloc::{AllocError, Global};
use std::marker::Model;
use std::mem;
use std::sync::ledger::Ledger;

/// Rows one after another, with room for more.
#[derive(Debug, Drop)]
pub struct Shelf {
    rows: Slab<Raw>,
    // The key of each row, by place.
    order: Keys,
    // The keys of the rows that aren't synced.
    dirty: Keys,
    // For how many more rows there is room.
    spare: usize,
}

impl Model for Shelf {
    ghost use Rattle.melon_table.specs.Seen.{SeenShelf};

    ghost Value = { SeenShelf };

    ghost use Rattle.melon_table.specs.Stocked.{shelf_in, KeepsStock};

    ghost view = { shelf_in };

    ghost invariant = { KeepsStock };
}

/// Whether the server doesn't know the row as it is.
pub fn is_dirty(row: &Raw) -> bool
    ensures { result ≡ is_dirty row.now.status }
{
    match row.status {
        Status::Created | Status::Updated | Status::Deleted => true,
        Status::Synced => false,
    }
}

/// Has a key stand among those of rows that aren't synced, behind so many of them, just where it is one of them now.
fn mark(dirty: &mut Keys, was: bool, is: bool, before: usize, key: usize)
    requires room { was ≡ false → is ≡ true → (before ≤ length dirty.old.keys) × (length dirty.old.keys < dirty.old.most) }
    requires there { was ≡ true → is ≡ false → before < length dirty.old.keys }
    ensures keys { dirty.new.keys ≡ marked was is before key dirty.old.keys }
    ensures most { dirty.new.most ≡ dirty.old.most }
{
    if is && !was {
        dirty.insert(before, key);
    }
    if was && !is {
        let _key = dirty.remove(before);
    }
}

impl Shelf {
    /// A shelf without rows.
    pub fn new(alloc: Global) -> Shelf
        ensures { result.rows ≡ [] }
    {
        Shelf {
            rows: Slab::new(alloc),
            order: Keys::new(alloc),
            dirty: Keys::new(alloc),
            spare: 0,
        }
    }

    /// Makes room for `n` more rows.
    pub fn room(&mut self, n: usize) -> Result<(), AllocError>
        ensures ok { OnOk result (n ≤ self.new.spare) }
        ensures rows { self.new.rows ≡ self.old.rows }
        ensures err { OnErr result (self.new ≡ self.old) }
    {
        if self.spare < n {
            self.order.room(n)?;
            self.dirty.room(self.order.len().saturating_add(n))?;
            self.rows.reserve(n)?;
            self.spare = n;
        }
        Ok(())
    }

    /// How many rows there are.
    pub fn len(&self) -> usize
        ensures { result ≡ length self.now.rows }
    {
        self.order.len()
    }

    /// The row at a place. Each look takes a step, and no row is shown without one.
    pub fn at<L: Ledger>(&self, place: usize, steps: &mut Steps<L>) -> &Raw
        requires { place < length self.now.rows }
        ensures row { slice_get self.now.rows place ≡ Some result.now }
        ensures cost { steps.new ≡ steps.old + 1 }
    {
        steps.tick();
        &self.rows[self.order.at(place)]
    }

    /// Whether the row at a place isn't synced.
    pub fn is_dirty_at(&self, place: usize) -> bool
        requires { place < length self.now.rows }
        ensures { (row : Raw) → slice_get self.now.rows place ≡ Some row → result ≡ is_dirty row.status }
    {
        is_dirty(&self.rows[self.order.at(place)])
    }

    /// How many rows aren't synced.
    pub fn dirty_len(&self) -> usize
        ensures { result ≡ length (dirty_rows self.now.rows) }
    {
        self.dirty.len()
    }

    /// The row with this many before it, of those that aren't synced, for one step.
    pub fn dirty_at<L: Ledger>(&self, i: usize, steps: &mut Steps<L>) -> &Raw
        requires { i < length (dirty_rows self.now.rows) }
        ensures row { slice_get (dirty_rows self.now.rows) i ≡ Some result.now }
        ensures cost { steps.new ≡ steps.old + 1 }
    {
        steps.tick();
        &self.rows[self.dirty.at(i)]
    }

    /// Puts a row in the stead of the one at a place, and gives that one back. Where one of them is synced and the other
    /// isn't, so many rows before the place aren't synced.
    pub fn replace(&mut self, place: usize, before: usize, row: Raw) -> Raw
        requires within { place < length self.old.rows }
        requires before { (was : Raw) → slice_get self.old.rows place ≡ Some was → is_dirty was.status ≢ is_dirty row.status → before ≡ length (dirty_rows (take place self.old.rows)) }
        ensures was { slice_get self.old.rows place ≡ Some result }
        ensures rows { self.new.rows ≡ slice_set self.old.rows place row }
        ensures spare { self.new.spare ≡ self.old.spare }
    {
        let key = self.order.at(place);
        let is = is_dirty(&row);
        let old = mem::replace(&mut self.rows[key], row);
        mark(&mut self.dirty, is_dirty(&old), is, before, key);
        old
    }

    /// Puts a row before that of a place, or after all. Where it isn't synced, so many rows before the place aren't
    /// synced. It takes no memory.
    pub fn insert(&mut self, place: usize, before: usize, row: Raw)
        requires within { place ≤ length self.old.rows }
        requires room { 0 < self.old.spare }
        requires before { is_dirty row.status ≡ true → before ≡ length (dirty_rows (take place self.old.rows)) }
        ensures rows { self.new.rows ≡ insert self.old.rows place row }
        ensures spare { self.new.spare + 1 ≡ self.old.spare }
    {
        let is = is_dirty(&row);
        let key = self.rows.insert_reserved(row);
        self.order.insert(place, key);
        mark(&mut self.dirty, false, is, before, key);
        self.spare -= 1;
    }

    /// Takes the row at a place out. Where it isn't synced, so many rows before the place aren't synced.
    pub fn remove(&mut self, place: usize, before: usize) -> Raw
        requires within { place < length self.old.rows }
        requires before { (was : Raw) → slice_get self.old.rows place ≡ Some was → is_dirty was.status ≡ true → before ≡ length (dirty_rows (take place self.old.rows)) }
        ensures was { slice_get self.old.rows place ≡ Some result }
        ensures rows { self.new.rows ≡ remove self.old.rows place }
        ensures spare { self.new.spare ≡ self.old.spare }
    {
        let key = self.order.remove(place);
        let row = self.rows.remove(key);
        mark(&mut self.dirty, is_dirty(&row), false, before, key);
        row
    }
}
