//! Finding an id among rows that ascend. A search sees a row only by a look that takes a step, so the bound on its steps
//! is one on the rows that it looks at.
ghost use Rattle.std.specs.Prelude.{◌≡◌, ◌≢◌, ◌+◌, ◌<◌, ◌≤◌, length, take, slice_get, Some, true};
ghost use Rattle.melon_raw.specs.Rows.{is_ascending, below};
ghost use Rattle.melon_table.specs.Places.{IsPlace, IsFound, FewSteps};
ghost use Rattle.melon_table.specs.Dirty.{is_dirty, dirty_rows};

use crate::shelf::{Shelf, is_dirty};
use melon_raw::steps::new_counter;
use melon_raw::{Id, Raw, Steps};
use std::cmp::Ordering;
use std::marker::Brand;
use std::sync::ledger::{Blank, Ledger};

/// Where an id stands and its row, or where it would go.
pub fn look_up<'a, L: Ledger>(
    rows: &'a Shelf,
    id: &str,
    steps: &mut Steps<L>,
) -> Result<(usize, &'a Raw), usize>
    requires { is_ascending rows.now.rows ≡ true }
    ensures place { IsFound id.now rows.now.rows result }
    ensures cost { FewSteps (length rows.now.rows) steps.old steps.new }
{
    let mut low = 0;
    let mut high = rows.len();
    while low < high {
        let middle = low + (high - low) / 2;
        let row = rows.at(middle, steps);
        match row.id.as_str().cmp(id) {
            Ordering::Less => low = middle + 1,
            Ordering::Equal => return Ok((middle, row)),
            Ordering::Greater => high = middle,
        }
    }
    Err(low)
}

fn place_counted<L: Ledger>(counter: Blank, rows: &Shelf, id: &Id) -> Result<usize, usize>
    requires name { counter.name ≡ L.name }
    requires parts { counter.parts ≡ L.parts }
    requires shared { 0 < counter.parts }
    requires ascending { is_ascending rows.now.rows ≡ true }
    ensures { IsPlace id.now rows.now.rows result }
{
    let mut steps = Steps::<L>::open(counter);
    match look_up(rows, id.as_str(), &mut steps) {
        Ok((place, _)) => Ok(place),
        Err(place) => Err(place),
    }
}

/// Where an id stands, or where it would go, with a counter of its own.
pub fn find_place(rows: &Shelf, id: &Id) -> Result<usize, usize>
    requires { is_ascending rows.now.rows ≡ true }
    ensures { IsPlace id.now rows.now.rows result }
{
    place_counted::<Brand>(new_counter(), rows, id)
}

/// How many of the rows that aren't synced have an id below this one.
fn dirty_below<L: Ledger>(rows: &Shelf, id: &str, steps: &mut Steps<L>) -> usize
    requires { is_ascending rows.now.rows ≡ true }
    ensures { result ≡ length (below id.now (dirty_rows rows.now.rows)) }
{
    let mut low = 0;
    let mut high = rows.dirty_len();
    while low < high {
        let middle = low + (high - low) / 2;
        let row = rows.dirty_at(middle, steps);
        if row.id.as_str().cmp(id).is_lt() {
            low = middle + 1;
        } else {
            high = middle;
        }
    }
    low
}

fn dirty_counted<L: Ledger>(counter: Blank, rows: &Shelf, id: &Id) -> usize
    requires name { counter.name ≡ L.name }
    requires parts { counter.parts ≡ L.parts }
    requires shared { 0 < counter.parts }
    requires ascending { is_ascending rows.now.rows ≡ true }
    ensures { result ≡ length (below id.now (dirty_rows rows.now.rows)) }
{
    let mut steps = Steps::<L>::open(counter);
    dirty_below(rows, id.as_str(), &mut steps)
}

/// How many of the rows that aren't synced have an id below this one, with a counter of its own.
fn find_below(rows: &Shelf, id: &Id) -> usize
    requires { is_ascending rows.now.rows ≡ true }
    ensures { result ≡ length (below id.now (dirty_rows rows.now.rows)) }
{
    dirty_counted::<Brand>(new_counter(), rows, id)
}

/// How many of the rows before the place of an id aren't synced.
pub fn dirty_before(rows: &Shelf, id: &Id, place: usize) -> usize
    requires ascending { is_ascending rows.now.rows ≡ true }
    requires within { place ≤ length rows.now.rows }
    requires place { below id.now rows.now.rows ≡ take place rows.now.rows }
    ensures { result ≡ length (dirty_rows (take place rows.now.rows)) }
{
    let dirty = rows.dirty_len();
    if place == rows.len() {
        return dirty;
    }
    if dirty == rows.len() {
        return place;
    }
    find_below(rows, id)
}

/// How many of the rows before a place aren't synced, where the row there or the one that is to take its stead is synced and
/// the other isn't. Else it is of no use.
pub fn before_replaced(rows: &Shelf, place: usize, row: &Raw) -> usize
    requires ascending { is_ascending rows.now.rows ≡ true }
    requires within { place < length rows.now.rows }
    requires place { below row.now.id rows.now.rows ≡ take place rows.now.rows }
    ensures { (was : Raw) → slice_get rows.now.rows place ≡ Some was → is_dirty was.status ≢ is_dirty row.now.status → result ≡ length (dirty_rows (take place rows.now.rows)) }
{
    if rows.is_dirty_at(place) == is_dirty(row) {
        return 0;
    }
    dirty_before(rows, &row.id, place)
}
