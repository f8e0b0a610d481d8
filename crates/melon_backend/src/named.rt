//! The records that a push lists, with their rows now.
ghost use Rattle.std.specs.Prelude.{◌≡◌, ◌++◌, ◌<◌, length, map, None, Some, Ok, IfOk, OnOk, MatchResult};
ghost use Rattle.melon_schema.specs.Faults.{Gives, Fails};
ghost use Rattle.melon_log.specs.Verdict.{if_any, unless_one, unknown, repeated, records_at};
ghost use Rattle.melon_backend.specs.Inside.{rows_in, tables_rows, IsKept, AreKept};
ghost use Rattle.melon_backend.specs.Listing.{tellings_seen, repeated_in, namings_seen, naming_told, naming_in, namings_in, all_namings};

use crate::listed::{InList, Listed, listed_ids};
use crate::table::ServerTable;
use melon_log::{PushFault, ServerRow};
use melon_raw::Id;
use melon_schema::{AppSchema, Twin};
use melon_wire::keyed::first_again;
use melon_wire::{Changes, TableChanges};
use std::alloc::{AllocError, Global};

/// A record that a push lists, with its row now.
#[derive(Clone, Copy)]
pub(crate) struct Named<'a> {
    /// The place of the declared table.
    pub(crate) table: usize,
    pub(crate) id: &'a Id,
    pub(crate) list: InList<'a>,
    pub(crate) row: Option<&'a ServerRow>,
}

fn repeated(alloc: Global, told: &TableChanges, id: &Id) -> Result<PushFault, AllocError>
    ensures { IfOk result (λ fault. fault ≡ PushFault.Repeated told.now.table id.now) }
{
    Ok(PushFault::Repeated {
        table: told.table.copy(alloc)?,
        id: id.copy(alloc)?,
    })
}

/// That no id of a table is repeated.
fn refuse_repeated(
    alloc: Global,
    told: &TableChanges,
    listed: &[Listed<'_>],
) -> Result<(), PushFault>
    ensures { Gives PushFault.Memory result (if_any (repeated_in told.now (tellings_seen listed.now))) }
{
    match first_again(listed) {
        None => Ok(()),
        Some(one) => Err(repeated(alloc, told, one.id)?),
    }
}

/// Finds the rows of listed ids.
fn name_listed<'a>(
    named: &mut Vec<Named<'a>>,
    rows: &'a ServerTable,
    table: usize,
    listed: &[Listed<'a>],
) -> Result<(), AllocError>
    requires { IsKept rows.now }
    ensures { OnOk result (namings_seen named.new.items ≡ namings_seen named.old.items ++ map (naming_told (rows_in rows.now) table) (tellings_seen listed.now)) }
{
    for one in listed {
        named.push(Named {
            table,
            id: one.id,
            list: one.list,
            row: rows.get(one.id),
        })?;
    }
    Ok(())
}

/// Names the records of a declared table, where none is repeated.
fn name_known<'a>(
    named: &mut Vec<Named<'a>>,
    alloc: Global,
    tables: &'a [ServerTable],
    table: usize,
    told: &'a TableChanges,
) -> Result<(), PushFault>
    requires kept { AreKept tables.now }
    requires within { table < length tables.now }
    ensures once { MatchResult result (λ _. repeated told.now ≡ None) (λ f. Fails PushFault.Memory f (if_any (repeated told.now))) }
    ensures named { OnOk result (namings_seen named.new.items ≡ namings_seen named.old.items ++ map (naming_in (tables_rows tables.now) told.now) (records_at told.now (Some table))) }
{
    let listed = listed_ids(alloc, told)?;
    refuse_repeated(alloc, told, listed.as_slice())?;
    name_listed(named, &tables[table], table, listed.as_slice())?;
    Ok(())
}

/// Names the records of a table. Of an unknown one nothing is listed.
fn name_table<'a>(
    named: &mut Vec<Named<'a>>,
    alloc: Global,
    schema: &AppSchema,
    tables: &'a [ServerTable],
    told: &'a TableChanges,
) -> Result<(), PushFault>
    requires kept { AreKept tables.now }
    requires declared { length tables.now ≡ length schema.now.tables }
    requires known { unknown schema.now.tables told.now ≡ None }
    ensures once { MatchResult result (λ _. repeated told.now ≡ None) (λ f. Fails PushFault.Memory f (if_any (repeated told.now))) }
    ensures named { OnOk result (namings_seen named.new.items ≡ namings_seen named.old.items ++ namings_in schema.now.tables (tables_rows tables.now) told.now) }
{
    match schema.table(told.table.as_str()) {
        None => Ok(()),
        Some(table) => name_known(named, alloc, tables, table, told),
    }
}

/// The records that a push lists of the declared tables, in their order, where none is repeated.
pub(crate) fn name_all<'a>(
    alloc: Global,
    schema: &AppSchema,
    tables: &'a [ServerTable],
    changes: &'a Changes,
) -> Result<Vec<Named<'a>>, PushFault>
    requires kept { AreKept tables.now }
    requires declared { length tables.now ≡ length schema.now.tables }
    requires known { unless_one (unknown schema.now.tables) changes.now.tables ≡ Ok tt }
    ensures once { MatchResult result (λ _. unless_one repeated changes.now.tables ≡ Ok tt) (λ f. Fails PushFault.Memory f (unless_one repeated changes.now.tables)) }
    ensures named { IfOk result (λ named. namings_seen named.items ≡ all_namings schema.now.tables (tables_rows tables.now) changes.now.tables) }
{
    let mut named = Vec::new(alloc);
    let mut left = changes.tables.as_slice();
    while let Some((told, later)) = left.split_first() {
        name_table(&mut named, alloc, schema, tables, told)?;
        left = later;
    }
    Ok(named)
}
