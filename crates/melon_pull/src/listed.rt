//! The records that a changes object lists of the declared tables, in their order.
ghost use Rattle.std.specs.Prelude.{◌≡◌, ◌++◌, map, find, bytes_eq, IfOk, OnOk};
ghost use Rattle.std.specs.Option.{option_copied};
ghost use Rattle.melon_wire.specs.Keys.{key_at};
ghost use Rattle.melon_wire.specs.Standing.{changes_for};
ghost use Rattle.melon_pull.specs.Listing.{tellings_seen, created_told, updated_told, deleted_told, told_at, tellings, IsListing};

use crate::lookup::declared_at;
use melon_raw::{Id, OpField};
use melon_schema::AppSchema;
use melon_wire::keyed::{Keyed, sort_keyed};
use melon_wire::{Changes, Remote, TableChanges};
use std::alloc::{AllocError, Global};

/// In which list a record stands, with the fields that are sent.
#[derive(Clone, Copy)]
pub enum InList<'a> {
    Created(&'a [OpField]),
    Updated(&'a [OpField]),
    Deleted,
}

/// A record that is listed.
#[derive(Clone, Copy)]
pub struct Listed<'a> {
    /// The place of the declared table.
    pub table: usize,
    pub id: &'a Id,
    pub list: InList<'a>,
}

impl<'a> Keyed for Listed<'a> {
    ghost use Rattle.melon_wire.specs.Keys.{key_at};

    ghost key_of = { λ l. key_at l.table l.id.now };

    fn table(&self) -> usize {
        self.table
    }

    fn id(&self) -> &Id {
        self.id
    }
}

fn list_created<'a>(
    table: usize,
    rows: &'a [Remote],
    listed: &mut Vec<Listed<'a>>,
) -> Result<(), AllocError>
    ensures { OnOk result (tellings_seen listed.new.items ≡ tellings_seen listed.old.items ++ map (created_told table) rows.now) }
{
    for row in rows {
        listed.push(Listed {
            table,
            id: &row.id,
            list: InList::Created(row.fields.as_slice()),
        })?;
    }
    Ok(())
}

fn list_updated<'a>(
    table: usize,
    rows: &'a [Remote],
    listed: &mut Vec<Listed<'a>>,
) -> Result<(), AllocError>
    ensures { OnOk result (tellings_seen listed.new.items ≡ tellings_seen listed.old.items ++ map (updated_told table) rows.now) }
{
    for row in rows {
        listed.push(Listed {
            table,
            id: &row.id,
            list: InList::Updated(row.fields.as_slice()),
        })?;
    }
    Ok(())
}

fn list_deleted<'a>(
    table: usize,
    ids: &'a [Id],
    listed: &mut Vec<Listed<'a>>,
) -> Result<(), AllocError>
    ensures { OnOk result (tellings_seen listed.new.items ≡ tellings_seen listed.old.items ++ map (deleted_told table) ids.now) }
{
    for id in ids {
        listed.push(Listed {
            table,
            id,
            list: InList::Deleted,
        })?;
    }
    Ok(())
}

/// Lists what is told of one table.
fn list_table<'a>(
    table: usize,
    told: &'a TableChanges,
    listed: &mut Vec<Listed<'a>>,
) -> Result<(), AllocError>
    ensures { OnOk result (tellings_seen listed.new.items ≡ tellings_seen listed.old.items ++ told_at table told.now) }
{
    list_created(table, told.created.as_slice(), listed)?;
    list_updated(table, told.updated.as_slice(), listed)?;
    list_deleted(table, told.deleted.as_slice(), listed)
}

/// What is told of the table of that name, if it is named.
fn told_of<'a>(changes: &'a Changes, name: &str) -> Option<&'a TableChanges>
    ensures { option_copied result ≡ find (λ t. bytes_eq t.table name.now) changes.now.tables }
{
    for told in changes.tables.as_slice() {
        if told.table.is(name) {
            return Some(told);
        }
    }
    None
}

fn list_named<'a>(
    changes: &'a Changes,
    table: usize,
    name: &str,
    listed: &mut Vec<Listed<'a>>,
) -> Result<(), AllocError>
    ensures { OnOk result (tellings_seen listed.new.items ≡ tellings_seen listed.old.items ++ told_at table (changes_for changes.now name.now)) }
{
    match told_of(changes, name) {
        Some(told) => list_table(table, told, listed),
        None => Ok(()),
    }
}

fn listed_by_table<'a>(
    alloc: Global,
    schema: &AppSchema,
    changes: &'a Changes,
) -> Result<Vec<Listed<'a>>, AllocError>
    ensures { IfOk result (λ listed. tellings_seen listed.items ≡ tellings schema.now.tables changes.now) }
{
    let mut listed = Vec::new(alloc);
    for table in 0..schema.len() {
        let name = declared_at(schema, table).name.as_str();
        list_named(changes, table, name, &mut listed)?;
    }
    Ok(listed)
}

/// The records that are listed of declared tables, by declared table and ascending id. A repeated one stands there as
/// often as it is listed.
pub fn listed_records<'a>(
    alloc: Global,
    schema: &AppSchema,
    changes: &'a Changes,
) -> Result<Vec<Listed<'a>>, AllocError>
    ensures { IfOk result (λ listed. IsListing schema.now.tables changes.now (tellings_seen listed.items)) }
{
    let mut listed = listed_by_table(alloc, schema, changes)?;
    sort_keyed(&mut listed)?;
    Ok(listed)
}
