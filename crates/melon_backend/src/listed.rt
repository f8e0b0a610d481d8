//! The ids that a push lists of one table, in their order.
ghost use Rattle.std.specs.Prelude.{◌≡◌, ◌++◌, map, true, IfOk, OnOk};
ghost use Rattle.std.specs.List.Sorted.{IsPermutation};
ghost use Rattle.melon_wire.specs.Keys.{do_rise};
ghost use Rattle.melon_backend.specs.Listing.{key_told, tellings_seen, created_told, updated_told, deleted_told, told_in};

use melon_raw::{Id, OpField};
use melon_wire::keyed::{Keyed, sort_keyed};
use melon_wire::{Remote, TableChanges};
use std::alloc::{AllocError, Global};

/// In which list an id stands, with the fields that are sent.
#[derive(Clone, Copy)]
pub(crate) enum InList<'a> {
    Created(&'a [OpField]),
    Updated(&'a [OpField]),
    Deleted,
}

/// An id that is listed.
#[derive(Clone, Copy)]
pub(crate) struct Listed<'a> {
    pub(crate) id: &'a Id,
    pub(crate) list: InList<'a>,
}

impl<'a> Keyed for Listed<'a> {
    ghost use Rattle.melon_wire.specs.Keys.{key_at};

    ghost key_of = { λ l. key_at 0 l.id.now };

    fn table(&self) -> usize {
        0
    }

    fn id(&self) -> &Id {
        self.id
    }
}

fn list_created<'a>(rows: &'a [Remote], listed: &mut Vec<Listed<'a>>) -> Result<(), AllocError>
    ensures { OnOk result (tellings_seen listed.new.items ≡ tellings_seen listed.old.items ++ map created_told rows.now) }
{
    for row in rows {
        listed.push(Listed {
            id: &row.id,
            list: InList::Created(row.fields.as_slice()),
        })?;
    }
    Ok(())
}

fn list_updated<'a>(rows: &'a [Remote], listed: &mut Vec<Listed<'a>>) -> Result<(), AllocError>
    ensures { OnOk result (tellings_seen listed.new.items ≡ tellings_seen listed.old.items ++ map updated_told rows.now) }
{
    for row in rows {
        listed.push(Listed {
            id: &row.id,
            list: InList::Updated(row.fields.as_slice()),
        })?;
    }
    Ok(())
}

fn list_deleted<'a>(ids: &'a [Id], listed: &mut Vec<Listed<'a>>) -> Result<(), AllocError>
    ensures { OnOk result (tellings_seen listed.new.items ≡ tellings_seen listed.old.items ++ map deleted_told ids.now) }
{
    for id in ids {
        listed.push(Listed {
            id,
            list: InList::Deleted,
        })?;
    }
    Ok(())
}

fn list_all<'a>(alloc: Global, told: &'a TableChanges) -> Result<Vec<Listed<'a>>, AllocError>
    ensures { IfOk result (λ listed. tellings_seen listed.items ≡ told_in told.now) }
{
    let mut listed = Vec::new(alloc);
    list_created(told.created.as_slice(), &mut listed)?;
    list_updated(told.updated.as_slice(), &mut listed)?;
    list_deleted(told.deleted.as_slice(), &mut listed)?;
    Ok(listed)
}

/// The ids that are listed of a table, ascending. A repeated one stands there as often as it is listed.
pub(crate) fn listed_ids<'a>(
    alloc: Global,
    told: &'a TableChanges,
) -> Result<Vec<Listed<'a>>, AllocError>
    ensures moved { IfOk result (λ listed. IsPermutation (told_in told.now) (tellings_seen listed.items)) }
    ensures rising { IfOk result (λ listed. do_rise (map key_told (tellings_seen listed.items)) ≡ true) }
{
    let mut listed = list_all(alloc, told)?;
    sort_keyed(&mut listed)?;
    Ok(listed)
}
