ghost use Rattle.std.specs.Prelude.{◌≡◌, ◌+◌, ◌-◌, ◌<◌, ◌≤◌, [], length, slice_get, Some, None, OnOk, OnErr, MatchOption, OnSome};
ghost use Rattle.std.specs.Option.{option_copied};
ghost use Rattle.melon_raw.specs.Rows.{Fits, at_id, put_row, without_row};
ghost use Rattle.melon_table.specs.Dirty.{dirty_rows};
ghost use Rattle.melon_table.specs.Kept.{IsKept};
ghost use Rattle.melon_table.specs.Places.{FewSteps};

use crate::search::{before_replaced, dirty_before, find_place, look_up};
use crate::shelf::Shelf;
use melon_raw::{Id, Raw, Steps};
use melon_schema::{ColumnSchema, List};
use std::alloc::{AllocError, Global};
use std::marker::Model;
use std::sync::ledger::Ledger;

/// The rows of one table, each id once, ascending by id, with room for more.
#[derive(Debug, Drop)]
pub struct Table {
    columns: List<ColumnSchema>,
    rows: Shelf,
}

impl Model for Table {
    ghost use Rattle.melon_table.specs.Seen.{SeenTable};

    ghost Value = { SeenTable };

    ghost use Rattle.melon_table.specs.Inside.{seen_in, KeepsRows};

    ghost view = { seen_in };

    ghost invariant = { KeepsRows };
}

impl Table {
    /// A table without rows.
    pub(crate) fn new(alloc: Global, columns: List<ColumnSchema>) -> Table
        ensures columns { result.columns ≡ columns }
        ensures rows { result.rows ≡ [] }
    {
        Table {
            columns,
            rows: Shelf::new(alloc),
        }
    }

    /// Makes room for `n` more rows.
    pub fn room(&mut self, n: usize) -> Result<(), AllocError>
        ensures ok { OnOk result (n ≤ self.new.spare) }
        ensures columns { self.new.columns ≡ self.old.columns }
        ensures rows { self.new.rows ≡ self.old.rows }
        ensures err { OnErr result (self.new ≡ self.old) }
    {
        self.rows.room(n)
    }

    /// How many rows there are.
    pub fn len(&self) -> usize
        ensures len { result ≡ length self.now.rows }
        ensures kept { IsKept self.now.columns self.now.rows }
    {
        self.rows.len()
    }

    /// The row of an id.
    pub fn get<L: Ledger>(&self, id: &Id, steps: &mut Steps<L>) -> Option<&Raw>
        ensures found { option_copied result ≡ at_id id.now self.now.rows }
        ensures cost { FewSteps (length self.now.rows) steps.old steps.new }
        ensures kept { IsKept self.now.columns self.now.rows }
    {
        self.find(id.as_str(), steps)
    }

    /// The row whose id is a text.
    pub fn find<L: Ledger>(&self, id: &str, steps: &mut Steps<L>) -> Option<&Raw>
        ensures found { option_copied result ≡ at_id id.now self.now.rows }
        ensures cost { FewSteps (length self.now.rows) steps.old steps.new }
        ensures kept { IsKept self.now.columns self.now.rows }
    {
        match look_up(&self.rows, id, steps) {
            Ok((_, row)) => Some(row),
            Err(_) => None,
        }
    }

    /// The row with this many rows before it.
    pub fn row<L: Ledger>(&self, i: usize, steps: &mut Steps<L>) -> &Raw
        requires { i < length self.now.rows }
        ensures row { slice_get self.now.rows i ≡ Some result.now }
        ensures cost { steps.new ≡ steps.old + 1 }
        ensures kept { IsKept self.now.columns self.now.rows }
    {
        self.rows.at(i, steps)
    }

    /// The row with this many before it, of the rows that aren't synced.
    pub fn dirty<L: Ledger>(&self, i: usize, steps: &mut Steps<L>) -> Option<&Raw>
        ensures row { option_copied result ≡ slice_get (dirty_rows self.now.rows) i }
        ensures cost { MatchOption result (steps.new ≡ steps.old) (λ _. steps.new ≡ steps.old + 1) }
        ensures kept { IsKept self.now.columns self.now.rows }
    {
        if i < self.rows.dirty_len() {
            return Some(self.rows.dirty_at(i, steps));
        }
        None
    }

    /// Puts a row in the place of the one with its id, and gives that one back. It takes no memory.
    pub fn put(&mut self, row: Raw) -> Option<Raw>
        requires fits { Fits self.old.columns row }
        requires room { at_id row.id self.old.rows ≡ None → 0 < self.old.spare }
        ensures was { result ≡ at_id row.id self.old.rows }
        ensures columns { self.new.columns ≡ self.old.columns }
        ensures rows { self.new.rows ≡ put_row row self.old.rows }
        ensures spare { MatchOption result (self.new.spare + 1 ≡ self.old.spare) (λ _. self.new.spare ≡ self.old.spare) }
    {
        match find_place(&self.rows, &row.id) {
            Ok(place) => {
                let before = before_replaced(&self.rows, place, &row);
                Some(self.rows.replace(place, before, row))
            }
            Err(place) => {
                let before = dirty_before(&self.rows, &row.id, place);
                self.rows.insert(place, before, row);
                None
            }
        }
    }

    /// Takes the row of an id out. It takes no memory.
    pub fn remove(&mut self, id: &Id) -> Option<Raw>
        ensures was { result ≡ at_id id.now self.old.rows }
        ensures columns { self.new.columns ≡ self.old.columns }
        ensures rows { self.new.rows ≡ without_row id.now self.old.rows }
        ensures spare { self.old.spare ≤ self.new.spare }
    {
        match find_place(&self.rows, id) {
            Ok(place) => {
                let before = dirty_before(&self.rows, id, place);
                Some(self.rows.remove(place, before))
            }
            Err(_) => None,
        }
    }
}
