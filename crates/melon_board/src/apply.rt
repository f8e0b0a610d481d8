//! Changes done to tables that have room for them.
ghost use Rattle.std.specs.Prelude.{◌≡◌, ℕ, ◌<◌, ◌≤◌, ◌+◌, [], length, get_or, set, IfOk, OnOk, true};
ghost use Rattle.melon_raw.specs.Rows.{at};
ghost use Rattle.melon_table.specs.Seen.{rows_of, columns_of};
ghost use Rattle.melon_change.specs.Changes.{key, with_after, after_set};
ghost use Rattle.melon_change.specs.History.{KeepsId, FitsIfAny};
ghost use Rattle.melon_board.specs.Boards.{is_new, makes_row, afters, spare_at, used_in, rows_made, HasRoom, are_within, AreNow};

use melon_change::Change;
use melon_raw::{Id, Raw};
use melon_schema::{List, Twin};
use melon_table::Tables;
use std::alloc::{AllocError, Global};

fn makes_row(change: &Change) -> bool
    ensures { result ≡ makes_row change.now }
{
    match (&change.before, &change.after) {
        (None, Some(_)) => true,
        (None, None) => false,
        (Some(_), Some(_)) => false,
        (Some(_), None) => false,
    }
}

/// Copies of the rows after.
pub fn copy_afters(alloc: Global, changes: &[Change]) -> Result<List<Option<Raw>>, AllocError>
    ensures { IfOk result (λ rows. rows ≡ afters changes.now) }
{
    let mut rows = List::new(alloc);
    for change in changes {
        rows.push(change.after.copy(alloc)?)?;
    }
    Ok(rows)
}

/// How many records a change makes in the table at a place.
fn used_in(table: usize, change: &Change) -> usize
    ensures used { result ≡ used_in table change.now.table (makes_row change.now) }
    ensures one { result ≤ 1 }
{
    if makes_row(change) && change.table == table {
        1
    } else {
        0
    }
}

/// How many records the changes make in the table at a place.
fn rows_made(table: usize, changes: &[Change]) -> usize
    ensures { result ≡ rows_made table changes.now }
{
    let mut made = 0;
    for change in changes {
        made += used_in(table, change);
    }
    made
}

/// Makes room in each table for the records that the changes make in it.
pub fn make_room(tables: &mut Tables, changes: &[Change]) -> Result<(), AllocError>
    requires { are_within (length tables.old) changes.now ≡ true }
    ensures ok { OnOk result (HasRoom tables.new changes.now) }
    ensures rows { rows_of tables.new ≡ rows_of tables.old }
    ensures columns { columns_of tables.new ≡ columns_of tables.old }
{
    for table in 0..tables.len() {
        let made = rows_made(table, changes);
        tables.of_mut(table).room(made)?;
    }
    Ok(())
}

/// Puts a row into its table, or removes that of the id.
fn put_after(tables: &mut Tables, table: usize, id: &Id, row: Option<Raw>)
    requires within { table < length tables.old }
    requires keeps_id { KeepsId id.now row }
    requires fits { FitsIfAny (get_or (columns_of tables.old) table []) row }
    requires room { is_new (at (rows_of tables.old) (key table id.now)) row ≡ true → 0 < spare_at tables.old table }
    ensures rows { rows_of tables.new ≡ set (rows_of tables.old) table (with_after id.now row (get_or (rows_of tables.old) table [])) }
    ensures columns { columns_of tables.new ≡ columns_of tables.old }
    ensures spare { (t : ℕ) → spare_at tables.old t ≤ spare_at tables.new t + used_in t table (is_new (at (rows_of tables.old) (key table id.now)) row) }
{
    match row {
        Some(row) => {
            tables.of_mut(table).put(row);
        }
        None => {
            tables.of_mut(table).remove(id);
        }
    }
}

/// Does the changes, whose rows after these are.
pub fn apply(tables: &mut Tables, changes: &[Change], rows: List<Option<Raw>>)
    requires rows { rows ≡ afters changes.now }
    requires room { HasRoom tables.old changes.now }
    requires now { AreNow (columns_of tables.old) (rows_of tables.old) changes.now }
    ensures rows { rows_of tables.new ≡ after_set (rows_of tables.old) changes.now }
    ensures columns { columns_of tables.new ≡ columns_of tables.old }
{
    let mut left = changes;
    for row in rows.into_vec() {
        if let Some((change, later)) = left.split_first() {
            put_after(tables, change.table, &change.id, row);
            left = later;
        }
    }
}
