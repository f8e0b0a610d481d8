//! The records of a fetch, in their order.
ghost use Rattle.std.specs.Prelude.{◌≡◌, ◌++◌, map, IfOk, OnOk};
ghost use Rattle.melon_push.specs.Fetching.{all_seen, held_collected, gone_collected, collecting, IsGathered};

use melon_raw::{Id, Raw};
use melon_wire::keyed::{Keyed, sort_keyed};
use melon_wire::{Fetch, Gone, Held};
use std::alloc::{AllocError, Global};

/// A record that was collected: as a row, of which there is a copy, or as an id alone.
#[derive(Clone, Copy)]
pub struct Fetched<'a> {
    /// The place of the table.
    pub table: usize,
    pub id: &'a Id,
    pub copy: Option<&'a Raw>,
}

impl<'a> Keyed for Fetched<'a> {
    ghost use Rattle.melon_wire.specs.Keys.{key_at};

    ghost key_of = { λ one. key_at one.table one.id.now };

    fn table(&self) -> usize {
        self.table
    }

    fn id(&self) -> &Id {
        self.id
    }
}

fn gather_held<'a>(held: &'a [Held], all: &mut Vec<Fetched<'a>>) -> Result<(), AllocError>
    ensures { OnOk result (all_seen all.new.items ≡ all_seen all.old.items ++ map held_collected held.now) }
{
    for one in held {
        all.push(Fetched {
            table: one.table,
            id: &one.row.id,
            copy: Some(&one.row),
        })?;
    }
    Ok(())
}

fn gather_gone<'a>(gone: &'a [Gone], all: &mut Vec<Fetched<'a>>) -> Result<(), AllocError>
    ensures { OnOk result (all_seen all.new.items ≡ all_seen all.old.items ++ map gone_collected gone.now) }
{
    for one in gone {
        all.push(Fetched {
            table: one.table,
            id: &one.id,
            copy: None,
        })?;
    }
    Ok(())
}

fn gathered<'a>(alloc: Global, fetch: &'a Fetch) -> Result<Vec<Fetched<'a>>, AllocError>
    ensures { IfOk result (λ all. all_seen all.items ≡ collecting fetch.now) }
{
    let mut all = Vec::new(alloc);
    gather_held(fetch.created.as_slice(), &mut all)?;
    gather_held(fetch.updated.as_slice(), &mut all)?;
    gather_gone(fetch.deleted.as_slice(), &mut all)?;
    Ok(all)
}

/// The records that were collected, by the place of the table and by ascending id.
pub fn fetched_records<'a>(alloc: Global, fetch: &'a Fetch) -> Result<Vec<Fetched<'a>>, AllocError>
    ensures { IfOk result (λ all. IsGathered fetch.now (all_seen all.items)) }
{
    let mut all = gathered(alloc, fetch)?;
    sort_keyed(&mut all)?;
    Ok(all)
}
