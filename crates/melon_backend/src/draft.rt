//! The rows that a push puts, and what they weigh. Each body is written once.
ghost use Rattle.std.specs.Prelude.{◌≡◌, ◌<◌, ◌+◌, ◌++◌, ◌∷◌, [], List as Sequence, length, option_map, IfOk, OnOk};
ghost use Rattle.std.specs.Option.{option_copied};
ghost use Rattle.std.specs.List.{AllByRecursion};
ghost use Rattle.melon_log.specs.ServerRows.{if_live, row_put};
ghost use Rattle.melon_backend.specs.Bodies.{body, row_bytes};
ghost use Rattle.melon_backend.specs.Rows.{live_one, weight_of};
ghost use Rattle.melon_backend.specs.Backends.{put_at};
ghost use Rattle.melon_backend.specs.Listing.{standing_seen, naming_seen, namings_seen, IsOfTable};
ghost use Rattle.melon_backend.specs.Pushing.{Naming};
ghost use Rattle.melon_backend.specs.Drafts.{IsDraft};

use crate::body::body_of;
use crate::cells::{deleted_at, is_live, sent_to};
use crate::listed::InList;
use crate::named::Named;
use crate::opening::{one_if_live, size_of, sum};
use crate::order::declared_at;
use crate::put::Put;
use melon_log::ServerRow;
use melon_outside::KeptRow;
use melon_schema::{AppSchema, ColumnSchema, List, TableSchema, Text, Twin};
use std::alloc::{AllocError, Global};

/// What is put, and the bytes and the live rows before and after.
#[derive(Drop)]
pub(crate) struct Draft {
    pub(crate) puts: Vec<Put>,
    pub(crate) rows: List<KeptRow>,
    pub(crate) stored_before: u64,
    pub(crate) stored_after: u64,
    pub(crate) live_before: u64,
    pub(crate) live_after: u64,
}

fn dropped(
    alloc: Global,
    row: Option<&ServerRow>,
    revision: u64,
) -> Result<Option<ServerRow>, AllocError>
    ensures { IfOk result (λ new. new ≡ if_live revision (option_copied row.entry)) }
{
    match row {
        None => Ok(None),
        Some(row) => {
            if !is_live(row) {
                return Ok(None);
            }
            Ok(Some(deleted_at(alloc, row, revision)?))
        }
    }
}

/// The row that is put for a record.
fn row_of(
    alloc: Global,
    columns: &[ColumnSchema],
    revision: u64,
    one: &Named<'_>,
) -> Result<Option<ServerRow>, AllocError>
    ensures { IfOk result (λ new. new ≡ row_put columns.now one.now.id.now (option_copied one.now.row) revision (standing_seen one.now.list)) }
{
    match one.list {
        InList::Created(fields) => Ok(Some(sent_to(
            alloc, columns, one.id, one.row, revision, fields,
        )?)),
        InList::Updated(fields) => Ok(Some(sent_to(
            alloc, columns, one.id, one.row, revision, fields,
        )?)),
        InList::Deleted => dropped(alloc, one.row, revision),
    }
}

fn put_of(
    alloc: Global,
    table: &TableSchema,
    revision: u64,
    one: &Named<'_>,
) -> Result<Option<Put>, AllocError>
    ensures { IfOk result (λ put. put ≡ option_map (put_at one.now.table) (row_put table.now.columns one.now.id.now (option_copied one.now.row) revision (standing_seen one.now.list))) }
{
    match row_of(alloc, table.columns.as_slice(), revision, one)? {
        None => Ok(None),
        Some(row) => Ok(Some(Put {
            table: one.table,
            row,
        })),
    }
}

fn filed(alloc: Global, table: &TableSchema, row: &ServerRow) -> Result<KeptRow, AllocError>
    ensures { IfOk result (λ kept. kept ≡ record { table = table.now.name; id = row.now.id; body = body table.now row.now }) }
{
    Ok(KeptRow {
        table: table.name.copy(alloc)?,
        id: Text::new(alloc, row.id.as_str())?,
        body: List::from_vec(body_of(alloc, table, row)?),
    })
}

/// One row more, in the place of this one.
fn add_put(
    draft: &mut Draft,
    alloc: Global,
    table: &TableSchema,
    was: Option<&ServerRow>,
    put: Put,
) -> Result<(), AllocError>
    ensures puts { OnOk result (draft.new.puts.items ≡ draft.old.puts.items ++ put ∷ []) }
    ensures rows { OnOk result (draft.new.rows ≡ draft.old.rows ++ record { table = table.now.name; id = put.row.id; body = body table.now put.row } ∷ []) }
    ensures stored_before { OnOk result (draft.new.stored_before ≡ draft.old.stored_before + weight_of (row_bytes table.now) (option_copied was.entry)) }
    ensures stored_after { OnOk result (draft.new.stored_after ≡ draft.old.stored_after + row_bytes table.now put.row) }
    ensures live_before { OnOk result (draft.new.live_before ≡ draft.old.live_before + weight_of live_one (option_copied was.entry)) }
    ensures live_after { OnOk result (draft.new.live_after ≡ draft.old.live_after + live_one put.row) }
{
    let kept = filed(alloc, table, &put.row)?;
    draft.stored_before = sum(draft.stored_before, size_of(alloc, table, was)?)?;
    draft.stored_after = sum(draft.stored_after, kept.body.len() as u64)?;
    draft.live_before = sum(draft.live_before, one_if_live(was))?;
    draft.live_after = sum(draft.live_after, one_if_live(Some(&put.row)))?;
    draft.rows.push(kept)?;
    draft.puts.push(put)?;
    Ok(())
}

/// One record more.
fn add_named(
    draft: &mut Draft,
    alloc: Global,
    schema: &AppSchema,
    revision: u64,
    one: &Named<'_>,
) -> Result<(), AllocError>
    requires { one.now.table < length schema.now.tables }
    ensures { OnOk result ((ns : Sequence Naming) → IsDraft schema.now.tables revision ns draft.old → IsDraft schema.now.tables revision (ns ++ naming_seen one.now ∷ []) draft.new) }
{
    let table = declared_at(schema, one.table);
    if let Some(put) = put_of(alloc, table, revision, one)? {
        add_put(draft, alloc, table, one.row, put)?;
    }
    Ok(())
}

/// What the push of a revision puts for these records.
pub(crate) fn draft_of(
    alloc: Global,
    schema: &AppSchema,
    revision: u64,
    named: &[Named<'_>],
) -> Result<Draft, AllocError>
    requires { AllByRecursion (IsOfTable (length schema.now.tables)) (namings_seen named.now) }
    ensures { IfOk result (IsDraft schema.now.tables revision (namings_seen named.now)) }
{
    let mut draft = Draft {
        puts: Vec::new(alloc),
        rows: List::new(alloc),
        stored_before: 0,
        stored_after: 0,
        live_before: 0,
        live_after: 0,
    };
    for one in named {
        add_named(&mut draft, alloc, schema, revision, one)?;
    }
    Ok(draft)
}
