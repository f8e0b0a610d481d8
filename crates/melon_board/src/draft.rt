//! What a change set asks of a keeper, and what it adds to the sizes. Each row after is encoded once.
ghost use Rattle.std.specs.Prelude.{◌≡◌, ◌<◌, ◌≤◌, ◌+◌, ◌-◌, ◌∷◌, ◌++◌, [], length, sum_by, IfOk, OnOk, true};
ghost use Rattle.melon_schema.specs.Faults.{Gives};
ghost use Rattle.melon_raw.specs.Rows.{table_at};
ghost use Rattle.melon_raw.specs.Encoding.{encoding};
ghost use Rattle.melon_board.specs.Boards.{are_within};
ghost use Rattle.melon_board.specs.Sizes.{row_bytes, bytes_if_any, before_bytes, after_bytes};
ghost use Rattle.melon_board.specs.Batches.{kept_batch, asked_also};
ghost use Rattle.melon_board.specs.Drafts.{no_draft, with_change, drafted, sizes_within};

use crate::WriteFault;
use melon_change::Change;
use melon_outside::{KeptBatch, KeptKey, KeptRow};
use melon_raw::{Id, Raw};
use melon_schema::{AppSchema, List, TableSchema, Text, Twin};
use std::alloc::{AllocError, Global};

/// The most bytes that the encoded rows of a store may have, and also a journal.
const LONGEST: u64 = 134217728;

/// What is asked of the keeper, and the bytes of the rows before and after.
#[derive(Debug, Drop)]
pub struct Draft {
    pub batch: KeptBatch,
    pub before: u64,
    pub after: u64,
}

/// The bytes of the encoded rows of a store, and of a journal.
#[derive(Clone, Copy, Debug)]
pub struct Sizes {
    pub stored: u64,
    pub journal: u64,
}

/// The declared table at a place.
pub(crate) fn declared_at(schema: &AppSchema, table: usize) -> &TableSchema
    requires { table < length schema.now.tables }
    ensures { result.now ≡ table_at schema.now.tables table }
{
    schema.at(table)
}

/// The sum. One past the end of its type is answered as want of memory.
pub(crate) fn sum(total: u64, bytes: u64) -> Result<u64, AllocError>
    ensures { IfOk result (λ s. s ≡ total + bytes) }
{
    match total.checked_add(bytes) {
        Some(sum) => Ok(sum),
        None => Err(AllocError),
    }
}

pub(crate) fn size_of(
    alloc: Global,
    table: &TableSchema,
    row: &Option<Raw>,
) -> Result<u64, AllocError>
    ensures { IfOk result (λ size. size ≡ bytes_if_any table.now row.now) }
{
    match row {
        Some(row) => Ok(row.encode(alloc, table)?.len() as u64),
        None => Ok(0),
    }
}

fn key_of(alloc: Global, table: &TableSchema, id: &Id) -> Result<KeptKey, AllocError>
    ensures { IfOk result (λ key. key ≡ record { table = table.now.name; id = id.now }) }
{
    Ok(KeptKey {
        table: table.name.copy(alloc)?,
        id: Text::new(alloc, id.as_str())?,
    })
}

fn filed(alloc: Global, table: &TableSchema, id: &Id, row: &Raw) -> Result<KeptRow, AllocError>
    ensures { IfOk result (λ kept. kept ≡ record { table = table.now.name; id = id.now; body = encoding table.now row.now }) }
{
    Ok(KeptRow {
        table: table.name.copy(alloc)?,
        id: Text::new(alloc, id.as_str())?,
        body: List::from_vec(row.encode(alloc, table)?),
    })
}

/// Asks for a record's row after, and tells its bytes.
fn ask(
    batch: &mut KeptBatch,
    alloc: Global,
    table: &TableSchema,
    id: &Id,
    after: &Option<Raw>,
) -> Result<u64, AllocError>
    ensures batch { OnOk result (batch.new ≡ asked_also batch.old table.now id.now after.now) }
    ensures bytes { IfOk result (λ bytes. bytes ≡ bytes_if_any table.now after.now) }
{
    match after {
        Some(row) => {
            let kept = filed(alloc, table, id, row)?;
            let bytes = kept.body.len() as u64;
            batch.puts.push(kept)?;
            Ok(bytes)
        }
        None => {
            batch.removes.push(key_of(alloc, table, id)?)?;
            Ok(0)
        }
    }
}

fn add_change(
    draft: &mut Draft,
    alloc: Global,
    schema: &AppSchema,
    change: &Change,
) -> Result<(), AllocError>
    requires { change.now.table < length schema.now.tables }
    ensures { OnOk result (draft.new ≡ with_change schema.now.tables draft.old change.now) }
{
    let table = declared_at(schema, change.table);
    let before = size_of(alloc, table, &change.before)?;
    let after = ask(&mut draft.batch, alloc, table, &change.id, &change.after)?;
    draft.before = sum(draft.before, before)?;
    draft.after = sum(draft.after, after)?;
    Ok(())
}

fn no_draft(alloc: Global) -> Draft
    ensures { result ≡ no_draft }
{
    Draft {
        batch: KeptBatch {
            clear: false,
            removes: List::new(alloc),
            puts: List::new(alloc),
            values: List::new(alloc),
        },
        before: 0,
        after: 0,
    }
}

/// What the changes ask of the keeper, and the sums of their bytes before and after.
pub(crate) fn draft_of(
    alloc: Global,
    schema: &AppSchema,
    changes: &[Change],
) -> Result<Draft, AllocError>
    requires { are_within (length schema.now.tables) changes.now ≡ true }
    ensures { IfOk result (λ draft. draft ≡ drafted schema.now.tables no_draft changes.now) }
{
    let mut draft = no_draft(alloc);
    let mut left = changes;
    while let Some((change, later)) = left.split_first() {
        add_change(&mut draft, alloc, schema, change)?;
        left = later;
    }
    Ok(draft)
}

/// The sizes after the changes, where they are within their limits.
#[tactic(auto, unfolding(crate::specs::Drafts::sizes_within))]
pub(crate) fn sizes_with(stored: u64, journal: u64, draft: &Draft) -> Result<Sizes, WriteFault>
    requires { draft.now.before ≤ stored + draft.now.after }
    ensures { Gives WriteFault.Memory result (sizes_within (stored + draft.now.after - draft.now.before) (journal + (draft.now.before + draft.now.after))) }
{
    let stored = sum(stored, draft.after)? - draft.before;
    let journal = sum(journal, sum(draft.before, draft.after)?)?;
    if stored > LONGEST {
        return Err(WriteFault::StoreFull { bytes: stored });
    }
    if journal > LONGEST {
        return Err(WriteFault::SessionFull { bytes: journal });
    }
    Ok(Sizes { stored, journal })
}
