//! The change set of what was pulled.
ghost use Rattle.std.specs.Prelude.{◌≡◌, ℕ, ◌<◌, [], length, true, Some, IfOk, IfSome};
ghost use Rattle.std.specs.List.{All, filter_map};
ghost use Rattle.std.specs.Option.{option_copied};
ghost use Rattle.melon_schema.specs.Faults.{Gives};
ghost use Rattle.melon_table.specs.Seen.{rows_of, columns_of, declared_columns};
ghost use Rattle.melon_change.specs.History.{AreChanges};
ghost use Rattle.melon_wire.specs.Keys.{key_at};
ghost use Rattle.melon_raw.specs.Same.{is_same};
ghost use Rattle.melon_wire.specs.Standing.{has_ids};
ghost use Rattle.melon_pull.specs.Incoming.{difference, incoming_of};
ghost use Rattle.melon_pull.specs.Laws.{LeavesFates, IsOnce};
ghost use Rattle.melon_pull.specs.Listing.{telling_seen, tellings_seen, row_after, change_told, incoming_told, BeforeFits, BeforesFit};
ghost use Rattle.melon_change.specs.declared.history.Origin.TheVariants.{Applied};

use crate::PullFault;
use crate::fate::{Fate, fate_of};
use crate::listed::{Listed, listed_records};
use crate::lookup::{declared_at, row_at};
use crate::refusal::{refuse_long, refuse_repeated};
use melon_change::{Change, ChangeSet};
use melon_raw::{Id, Raw};
use melon_schema::{AppSchema, List, Twin};
use melon_table::Tables;
use melon_wire::Changes;
use std::alloc::{AllocError, Global};

fn copied(alloc: Global, row: Option<&Raw>) -> Result<Option<Raw>, AllocError>
    ensures { IfOk result (λ copy. copy ≡ option_copied row.entry) }
{
    match row {
        Some(row) => Ok(Some(row.copy(alloc)?)),
        None => Ok(None),
    }
}

fn is_unchanged(before: Option<&Raw>, after: &Raw) -> bool
    ensures { result ≡ is_same (option_copied before.entry) (Some after.now) }
{
    match before {
        Some(row) => row.is(after),
        None => false,
    }
}

/// The change of a record, where its row differs.
fn change_between(
    alloc: Global,
    table: usize,
    id: &Id,
    before: Option<&Raw>,
    fate: Fate,
) -> Result<Option<Change>, AllocError>
    ensures { IfOk result (λ change. change ≡ difference (key_at table id.now) (option_copied before.entry) (row_after fate (option_copied before.entry))) }
{
    let after = match fate {
        Fate::Stays => return Ok(None),
        Fate::Gone => None,
        Fate::Becomes(row) => {
            if is_unchanged(before, &row) {
                return Ok(None);
            }
            Some(row)
        }
    };
    if before.is_none() && after.is_none() {
        return Ok(None);
    }
    Ok(Some(Change {
        table,
        id: id.copy(alloc)?,
        before: copied(alloc, before)?,
        after,
    }))
}

/// The change of a listed record, where its row is to differ.
fn change_told(
    alloc: Global,
    tables: &Tables,
    schema: &AppSchema,
    one: &Listed<'_>,
) -> Result<Option<Change>, AllocError>
    requires within { one.now.table < length schema.now.tables }
    requires declared { columns_of tables.now ≡ declared_columns schema.now.tables }
    ensures change { IfOk result (λ change. change ≡ change_told schema.now.tables (rows_of tables.now) (telling_seen one.now)) }
    ensures fits { IfOk result (λ change. IfSome change (BeforeFits schema.now.tables)) }
{
    let table = declared_at(schema, one.table);
    let before = row_at(tables, one.table, one.id);
    let fate = fate_of(alloc, table.columns.as_slice(), one, before)?;
    change_between(alloc, one.table, one.id, before, fate)
}

fn changes_told(
    alloc: Global,
    tables: &Tables,
    schema: &AppSchema,
    listed: &[Listed<'_>],
) -> Result<List<Change>, AllocError>
    requires within { All (λ t. t.key.table < length schema.now.tables) (tellings_seen listed.now) }
    requires declared { columns_of tables.now ≡ declared_columns schema.now.tables }
    ensures changes { IfOk result (λ set. set ≡ filter_map (change_told schema.now.tables (rows_of tables.now)) (tellings_seen listed.now)) }
    ensures fits { IfOk result (BeforesFit schema.now.tables) }
{
    let mut set = List::new(alloc);
    for one in listed {
        if let Some(change) = change_told(alloc, tables, schema, one)? {
            set.push(change)?;
        }
    }
    Ok(set)
}

/// The change set of what is listed, or its first refusal.
#[tactic(auto, unfolding(crate::specs::Listing::incoming_told))]
fn incoming_told(
    alloc: Global,
    tables: &Tables,
    schema: &AppSchema,
    listed: &[Listed<'_>],
) -> Result<List<Change>, PullFault>
    requires within { All (λ t. t.key.table < length schema.now.tables) (tellings_seen listed.now) }
    requires declared { columns_of tables.now ≡ declared_columns schema.now.tables }
    ensures changes { Gives PullFault.Memory result (incoming_told schema.now.tables (rows_of tables.now) (tellings_seen listed.now)) }
    ensures fits { IfOk result (BeforesFit schema.now.tables) }
{
    refuse_repeated(alloc, schema, listed)?;
    refuse_long(alloc, schema, listed)?;
    let set = changes_told(alloc, tables, schema, listed)?;
    Ok(set)
}

/// What pulled changes do to the rows: the change of each record that they list and whose row is to differ, by declared
/// table and ascending id. Tables and columns that the schema lacks are passed over.
pub fn incoming(
    alloc: Global,
    tables: &Tables,
    schema: &AppSchema,
    changes: &Changes,
) -> Result<ChangeSet, PullFault>
    requires { columns_of tables.now ≡ declared_columns schema.now.tables }
    ensures set { Gives PullFault.Memory result (incoming_of schema.now.tables (rows_of tables.now) changes.now) }
    ensures allowed { has_ids changes.now ≡ true → IfOk result (AreChanges schema.now.tables (rows_of tables.now) Applied) }
    ensures leaves { IfOk result (LeavesFates schema.now.tables (rows_of tables.now) changes.now) }
    ensures once { IfOk result (IsOnce schema.now.tables (rows_of tables.now) changes.now) }
{
    let listed = listed_records(alloc, schema, changes)?;
    let set = incoming_told(alloc, tables, schema, listed.as_slice())?;
    Ok(ChangeSet::from_list(set))
}
