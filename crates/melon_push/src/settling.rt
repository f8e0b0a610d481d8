//! What is settled once a push was accepted.
ghost use Rattle.std.specs.Prelude.{◌≡◌, List as Sequence, IfOk, IfSome};
ghost use Rattle.std.specs.List.{filter_map};
ghost use Rattle.std.specs.Option.{option_copied};
ghost use Rattle.melon_schema.specs.declared.schema.TableSchema.{TableSchema};
ghost use Rattle.melon_table.specs.Seen.{rows_of, columns_of, declared_columns};
ghost use Rattle.melon_raw.specs.Rows.{at};
ghost use Rattle.melon_change.specs.Changes.{columns_in};
ghost use Rattle.melon_change.specs.History.{AreChanges, FitsIfAny};
ghost use Rattle.melon_change.specs.declared.history.Origin.TheVariants.{Settled};
ghost use Rattle.melon_wire.specs.Keys.{key_at};
ghost use Rattle.melon_wire.specs.Collected.{IsFetch, has_status};
ghost use Rattle.melon_raw.specs.declared.raw.Status.TheVariants.{Deleted};
ghost use Rattle.melon_wire.specs.Settled.{settlement};
ghost use Rattle.melon_push.specs.Settling.{change_settled, settled};
ghost use Rattle.melon_push.specs.Fetching.{copy_seen, collecting_seen, all_seen, change_seen, BeforesFit};
ghost use Rattle.melon_push.specs.Laws.{LeavesSettled};

use crate::fetched::{Fetched, fetched_records};
use crate::lookup::row_at;
use melon_change::{Change, ChangeSet};
use melon_raw::{Raw, Status};
use melon_schema::{List, Twin};
use melon_table::Tables;
use melon_wire::Fetch;
use std::alloc::{AllocError, Global};

fn is_marked_deleted(row: &Raw) -> bool
    ensures { result ≡ has_status Deleted row.now }
{
    match row.status {
        Status::Created => false,
        Status::Updated => false,
        Status::Deleted => true,
        Status::Synced => false,
    }
}

/// What a row is settled to, where it is settled: a row that equals its collected copy becomes synced, and one whose id
/// was collected goes where it is still marked as deleted.
fn settlement(
    alloc: Global,
    row: &Raw,
    copy: Option<&Raw>,
) -> Result<Option<Option<Raw>>, AllocError>
    ensures { IfOk result (λ to. to ≡ settlement row.now (copy_seen (option_copied copy.entry))) }
{
    match copy {
        Some(copy) => {
            if row.is(copy) {
                Ok(Some(Some(row.synced_copy(alloc)?)))
            } else {
                Ok(None)
            }
        }
        None => {
            if is_marked_deleted(row) {
                Ok(Some(None))
            } else {
                Ok(None)
            }
        }
    }
}

/// The change of a record, where its row is settled.
fn change_settled(
    alloc: Global,
    one: &Fetched<'_>,
    before: Option<&Raw>,
) -> Result<Option<Change>, AllocError>
    ensures { IfOk result (λ change. change ≡ change_settled (key_at one.now.table one.now.id.now) (option_copied before.entry) (copy_seen (option_copied one.now.copy))) }
{
    let Some(row) = before else {
        return Ok(None);
    };
    match settlement(alloc, row, one.copy)? {
        None => Ok(None),
        Some(after) => Ok(Some(Change {
            table: one.table,
            id: one.id.copy(alloc)?,
            before: Some(row.copy(alloc)?),
            after,
        })),
    }
}

fn change_of(
    alloc: Global,
    tables: &Tables,
    one: &Fetched<'_>,
) -> Result<Option<Change>, AllocError>
    ensures change { IfOk result (λ change. change ≡ change_seen (rows_of tables.now) (collecting_seen one.now)) }
    ensures fits { IfOk result (λ change. IfSome change (λ c. FitsIfAny (columns_in tables.now c.table) c.before)) }
{
    let before = row_at(tables, one.table, one.id);
    change_settled(alloc, one, before)
}

fn changes_of(
    alloc: Global,
    tables: &Tables,
    all: &[Fetched<'_>],
) -> Result<List<Change>, AllocError>
    ensures changes { IfOk result (λ set. set ≡ filter_map (change_seen (rows_of tables.now)) (all_seen all.now)) }
    ensures fits { IfOk result (BeforesFit (columns_of tables.now)) }
{
    let mut set = List::new(alloc);
    for one in all {
        if let Some(change) = change_of(alloc, tables, one)? {
            set.push(change)?;
        }
    }
    Ok(set)
}

/// What an accepted push settles: each collected row that still equals its collected copy becomes synced, and each row
/// whose id was collected goes where it is still marked as deleted; by the place of the table and by ascending id.
pub fn settle(alloc: Global, tables: &Tables, fetch: &Fetch) -> Result<ChangeSet, AllocError>
    requires { IsFetch fetch.now }
    ensures set { IfOk result (λ set. set ≡ settled (rows_of tables.now) fetch.now) }
    ensures allowed { IfOk result (λ set. (schema : Sequence TableSchema) → columns_of tables.now ≡ declared_columns schema → AreChanges schema (rows_of tables.now) Settled set) }
    ensures leaves { IfOk result (LeavesSettled (rows_of tables.now) fetch.now) }
{
    let all = fetched_records(alloc, fetch)?;
    let set = changes_of(alloc, tables, all.as_slice())?;
    Ok(ChangeSet::from_list(set))
}
