//! What a push collects of an app's rows.
ghost use Rattle.std.specs.Prelude.{◌≡◌, ◌+◌, ◌≤◌, [], ◌∷◌, length, true, IfOk, OnOk};
ghost use Rattle.melon_table.specs.Seen.{rows_of};
ghost use Rattle.melon_table.specs.Kept.{IsKept};
ghost use Rattle.melon_table.specs.Dirty.{dirty_rows};
ghost use Rattle.melon_wire.specs.Collected.{collected, fetched_count, IsFetch, is_within};
ghost use Rattle.melon_push.specs.Fetching.{collected_at, with_more};

use melon_raw::{Raw, Status, Steps};
use melon_schema::{List, Twin};
use melon_table::{Table, Tables};
use melon_wire::{Fetch, Gone, Held};
use std::alloc::{AllocError, Global};
use std::sync::ledger::Ledger;

fn collect_row(alloc: Global, table: usize, row: &Raw, fetch: &mut Fetch) -> Result<(), AllocError>
    ensures { OnOk result (fetch.new ≡ with_more fetch.old (collected_at table (row.now ∷ []))) }
{
    match row.status {
        Status::Created => {
            let row = row.copy(alloc)?;
            fetch.created.push(Held { table, row })
        }
        Status::Updated => {
            let row = row.copy(alloc)?;
            fetch.updated.push(Held { table, row })
        }
        Status::Deleted => {
            let id = row.id.copy(alloc)?;
            fetch.deleted.push(Gone { table, id })
        }
        Status::Synced => Ok(()),
    }
}

/// Collects the rows of one table that aren't synced, at one step each.
fn collect_table<L: Ledger>(
    alloc: Global,
    table: usize,
    rows: &Table,
    fetch: &mut Fetch,
    steps: &mut Steps<L>,
) -> Result<(), AllocError>
    ensures fetch { OnOk result (fetch.new ≡ with_more fetch.old (collected_at table rows.now.rows)) }
    ensures cost { steps.new ≤ steps.old + length (dirty_rows rows.now.rows) }
    ensures kept { IsKept rows.now.columns rows.now.rows }
{
    for i in 0..rows.len() {
        match rows.dirty(i, steps) {
            Some(row) => collect_row(alloc, table, row, fetch)?,
            None => return Ok(()),
        }
    }
    Ok(())
}

/// Collects the rows that are created, the rows that are updated and the ids of the rows that are marked as deleted, each
/// by the place of the table and by ascending id. It takes at most one step for each.
pub fn collect<L: Ledger>(
    alloc: Global,
    tables: &Tables,
    steps: &mut Steps<L>,
) -> Result<Fetch, AllocError>
    ensures fetch { IfOk result (λ fetch. fetch ≡ collected (rows_of tables.now)) }
    ensures form { IfOk result IsFetch }
    ensures within { IfOk result (λ fetch. is_within (length tables.now) fetch ≡ true) }
    ensures cost { steps.new ≤ steps.old + fetched_count (collected (rows_of tables.now)) }
{
    let mut fetch = Fetch {
        created: List::new(alloc),
        updated: List::new(alloc),
        deleted: List::new(alloc),
    };
    for table in 0..tables.len() {
        collect_table(alloc, table, tables.of(table), &mut fetch, steps)?;
    }
    Ok(fetch)
}
