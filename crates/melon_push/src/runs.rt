//! A fetch taken apart, table by table.
ghost use Rattle.std.specs.Prelude.{◌≡◌};
ghost use Rattle.melon_wire.specs.Collected.{is_nothing};
ghost use Rattle.melon_push.specs.Fetching.{held_run, gone_run, fetch_seen, run_of, past_run};

use melon_wire::{Fetch, Gone, Held};

/// A part of each list of a fetch.
#[derive(Clone, Copy)]
pub struct Runs<'a> {
    pub created: &'a [Held],
    pub updated: &'a [Held],
    pub deleted: &'a [Gone],
}

/// How many from the front on are of the table at this place.
fn held_run(held: &[Held], table: usize) -> usize
    ensures { result ≡ held_run table held.now }
{
    held.iter().take_while(|one| one.table == table).count()
}

fn gone_run(gone: &[Gone], table: usize) -> usize
    ensures { result ≡ gone_run table gone.now }
{
    gone.iter().take_while(|one| one.table == table).count()
}

/// The whole of a fetch.
pub fn all_of(fetch: &Fetch) -> Runs<'_>
    ensures { fetch_seen result ≡ fetch.now }
{
    Runs {
        created: fetch.created.as_slice(),
        updated: fetch.updated.as_slice(),
        deleted: fetch.deleted.as_slice(),
    }
}

/// What stands in front of the table at this place, and what stands behind it.
pub fn split_run<'a>(runs: Runs<'a>, table: usize) -> (Runs<'a>, Runs<'a>)
    ensures run { fetch_seen result.0 ≡ run_of table (fetch_seen runs.entry) }
    ensures past { fetch_seen result.1 ≡ past_run table (fetch_seen runs.entry) }
{
    let (created, created_past) = runs.created.split_at(held_run(runs.created, table));
    let (updated, updated_past) = runs.updated.split_at(held_run(runs.updated, table));
    let (deleted, deleted_past) = runs.deleted.split_at(gone_run(runs.deleted, table));
    (
        Runs {
            created,
            updated,
            deleted,
        },
        Runs {
            created: created_past,
            updated: updated_past,
            deleted: deleted_past,
        },
    )
}

/// Whether nothing stands there.
pub fn is_nothing(runs: &Runs<'_>) -> bool
    ensures { result ≡ is_nothing (fetch_seen runs.now) }
{
    runs.created.is_empty() && runs.updated.is_empty() && runs.deleted.is_empty()
}
