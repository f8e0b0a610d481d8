//! The first rows of an order, where few are asked for: each row is put into its place among those kept so far.
ghost use Rattle.std.specs.Prelude.{◌≡◌, List as Sequence, ◌∷◌, [], IfOk, OnOk, filter, take, length, Some, true, false, ◌≤◌};
ghost use Rattle.std.specs.List.Sorted.{IsPartitionedBy, IsPartitionPoint};
ghost use Rattle.melon_raw.specs.declared.raw.Raw.{Raw as AnyRow};
ghost use Rattle.melon_query.specs.Order.{in_order, comes_before};
ghost use Rattle.melon_eval.specs.Seen.{rows_at};
ghost use Rattle.melon_eval.specs.Planned.{planned};
ghost use Rattle.melon_eval.specs.Pages.{is_behind};

use crate::plan::{Plan, Scratch, is_chosen};
use crate::sort::comes_before;
use melon_query::SortKey;
use melon_raw::{Raw, Steps};
use melon_table::Table;
use std::alloc::{AllocError, Global};
use std::sync::ledger::Ledger;

/// Whether a row comes behind all that are kept, and no more are asked for.
fn is_behind(keys: &[SortKey], most: usize, row: &Raw, kept: &[&Raw]) -> bool
    ensures { result ≡ is_behind keys.now most row.now (rows_at kept.now) }
{
    if kept.len() < most {
        return false;
    }
    match kept.last() {
        Some(last) => comes_before(keys, *last, row),
        None => true,
    }
}

/// How many of the rows that are kept come before a row, where they are in order.
fn place_of(keys: &[SortKey], row: &Raw, kept: &[&Raw]) -> usize
    ensures within { result ≤ length kept.now }
    ensures place { IsPartitionedBy (λ other. comes_before keys.now other.now row.now) kept.now
        → IsPartitionPoint (λ other. comes_before keys.now other.now row.now ≡ true) (λ other. comes_before keys.now other.now row.now ≡ false) kept.now result }
{
    kept.partition_point(|other| comes_before(keys, *other, row))
}

/// Puts a row among the first of the rows in order, and keeps no more of them than are asked for.
fn keep_row<'a>(
    keys: &[SortKey],
    most: usize,
    row: &'a Raw,
    kept: &mut Vec<&'a Raw>,
) -> Result<(), AllocError>
    ensures { OnOk result ((later : Sequence AnyRow) → rows_at kept.old.items ≡ take most (in_order (comes_before keys.now) later)
        → rows_at kept.new.items ≡ take most (in_order (comes_before keys.now) (row.now ∷ later))) }
{
    if is_behind(keys, most, row, kept.as_slice()) {
        return Ok(());
    }
    let place = place_of(keys, row, kept.as_slice());
    kept.insert(place, row)?;
    kept.truncate(most);
    Ok(())
}

/// Keeps a row where a plan chooses it.
fn keep_chosen<'s, 'a, L: Ledger>(
    plan: &'s Plan<'_, 'a>,
    keys: &[SortKey],
    most: usize,
    row: &'a Raw,
    scratch: &mut Scratch<'s, 'a>,
    kept: &mut Vec<&'a Raw>,
    steps: &mut Steps<L>,
) -> Result<(), AllocError>
    requires { scratch.old.members.items ≡ [] }
    ensures kept { OnOk result ((later : Sequence AnyRow) → rows_at kept.old.items ≡ take most (in_order (comes_before keys.now) (filter (planned plan.now) later))
        → rows_at kept.new.items ≡ take most (in_order (comes_before keys.now) (filter (planned plan.now) (row.now ∷ later)))) }
    ensures members { OnOk result (scratch.new.members.items ≡ []) }
{
    if is_chosen(plan, row, scratch, steps)? {
        keep_row(keys, most, row, kept)?;
    }
    Ok(())
}

/// The first of the rows of a table that a plan chooses, in order, and no more of them than are asked for.
pub fn first_rows<'a, L: Ledger>(
    alloc: Global,
    plan: &Plan<'_, 'a>,
    keys: &[SortKey],
    table: &'a Table,
    most: usize,
    steps: &mut Steps<L>,
) -> Result<Vec<&'a Raw>, AllocError>
    ensures { IfOk result (λ rows. rows_at rows.items ≡ take most (in_order (comes_before keys.now) (filter (planned plan.now) table.now.rows))) }
{
    let mut scratch = Scratch {
        offers: Vec::new(alloc),
        members: Vec::new(alloc),
    };
    let mut kept = Vec::new(alloc);
    let mut left = table.len();
    while left > 0 {
        left -= 1;
        let row = table.row(left, steps);
        keep_chosen(plan, keys, most, row, &mut scratch, &mut kept, steps)?;
    }
    Ok(kept)
}
