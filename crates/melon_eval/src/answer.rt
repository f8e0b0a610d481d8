//! What a query answers.
ghost use Rattle.std.specs.Prelude.{◌≡◌, ◌++◌, [], ◌∷◌, IfOk, OnOk, map, filter, drop, length, true};
ghost use Rattle.melon_raw.specs.Rows.{is_ascending};
ghost use Rattle.melon_table.specs.Seen.{rows_of as all_rows};
ghost use Rattle.melon_query.specs.Fresh.{fresh, at_most};
ghost use Rattle.melon_eval.specs.Seen.{rows_at};
ghost use Rattle.melon_eval.specs.Planned.{planned};
ghost use Rattle.melon_eval.specs.Pages.{page_of, ordered, is_filled, IsLimit};

use crate::lookup::table_at;
use crate::plan::{Plan, Scratch, is_chosen, plan_of};
use crate::select::first_rows;
use crate::sort::sort_rows;
use melon_query::Query;
use melon_raw::{Id, Raw, Steps};
use melon_schema::{List, Twin};
use melon_table::{Table, Tables};
use std::alloc::{AllocError, Global};
use std::sync::ledger::Ledger;

/// So many rows are kept in order one after another; more are sorted.
const FEW: u64 = 1000;

fn is_full(rows: &[&Raw], most: Option<u64>) -> bool
    ensures { result ≡ is_filled most (length rows.now) }
{
    match most {
        Some(most) => rows.len() as u64 >= most,
        None => false,
    }
}

/// Puts a row behind others where a plan chooses it.
fn add_chosen<'s, 'a, L: Ledger>(
    plan: &'s Plan<'_, 'a>,
    row: &'a Raw,
    scratch: &mut Scratch<'s, 'a>,
    chosen: &mut Vec<&'a Raw>,
    steps: &mut Steps<L>,
) -> Result<(), AllocError>
    requires { scratch.old.members.items ≡ [] }
    ensures chosen { OnOk result (rows_at chosen.new.items ≡ rows_at chosen.old.items ++ filter (planned plan.now) (row.now ∷ [])) }
    ensures members { OnOk result (scratch.new.members.items ≡ []) }
{
    if is_chosen(plan, row, scratch, steps)? {
        chosen.push(row)?;
    }
    Ok(())
}

/// The rows of a table that a plan chooses, as they lie, and no more of them than are asked for.
fn chosen_rows<'a, L: Ledger>(
    alloc: Global,
    plan: &Plan<'_, 'a>,
    table: &'a Table,
    most: Option<u64>,
    steps: &mut Steps<L>,
) -> Result<Vec<&'a Raw>, AllocError>
    ensures rows { IfOk result (λ rows. rows_at rows.items ≡ at_most most (filter (planned plan.now) table.now.rows)) }
    ensures ascending { is_ascending table.now.rows ≡ true }
{
    let mut scratch = Scratch {
        offers: Vec::new(alloc),
        members: Vec::new(alloc),
    };
    let mut chosen = Vec::new(alloc);
    for i in 0..table.len() {
        if is_full(chosen.as_slice(), most) {
            return Ok(chosen);
        }
        let row = table.row(i, steps);
        add_chosen(plan, row, &mut scratch, &mut chosen, steps)?;
    }
    Ok(chosen)
}

/// How many rows from the front of an answer are skipped or taken, where that is bounded.
fn limit(query: &Query) -> Option<u64>
    ensures { IsLimit query.now result }
{
    match query.take {
        Some(take) => query.skip.checked_add(take),
        None => None,
    }
}

/// That limit, where it is small enough to keep the rows in order one after another.
fn small_limit(query: &Query) -> Option<usize>
    ensures { IsLimit query.now result }
{
    match limit(query) {
        Some(most) => {
            if most <= FEW {
                Some(most as usize)
            } else {
                None
            }
        }
        None => None,
    }
}

/// The rows that are chosen, in order, or no fewer of them than are asked for.
fn ordered_rows<'a, L: Ledger>(
    alloc: Global,
    query: &Query,
    plan: &Plan<'_, 'a>,
    table: &'a Table,
    steps: &mut Steps<L>,
) -> Result<Vec<&'a Raw>, AllocError>
    ensures { IfOk result (λ rows. page_of query.now (rows_at rows.items) ≡ page_of query.now (ordered query.now (planned plan.now) table.now.rows)) }
{
    if query.sort.is_empty() {
        return chosen_rows(alloc, plan, table, limit(query), steps);
    }
    let keys = query.sort.as_slice();
    if let Some(most) = small_limit(query) {
        return first_rows(alloc, plan, keys, table, most, steps);
    }
    let mut rows = chosen_rows(alloc, plan, table, None, steps)?;
    sort_rows(&mut rows, keys)?;
    Ok(rows)
}

/// What is left of rows after those skipped, and at most those taken.
fn page<'s, 'a>(rows: &'s [&'a Raw], skip: u64, take: Option<u64>) -> &'s [&'a Raw]
    ensures { result.now ≡ at_most take (drop skip rows.now) }
{
    let start = rows.len().min(skip as usize);
    let rest = &rows[start..];
    match take {
        Some(most) => &rest[..rest.len().min(most as usize)],
        None => rest,
    }
}

fn ids_of(alloc: Global, rows: &[&Raw]) -> Result<List<Id>, AllocError>
    ensures { IfOk result (λ ids. ids ≡ map (λ row. row.id) (rows_at rows.now)) }
{
    let mut ids = List::new(alloc);
    for row in rows {
        ids.push(row.id.copy(alloc)?)?;
    }
    Ok(ids)
}

/// The ids that a query answers: those of the visible rows of which one tuple makes all conditions true, each once, by
/// the sort columns and then by id, without the first `skip` and at most `take` of the rest. `steps` counts the rows
/// that are read of the tables.
pub fn run<L: Ledger>(
    alloc: Global,
    query: &Query,
    tables: &Tables,
    steps: &mut Steps<L>,
) -> Result<List<Id>, AllocError>
    ensures answer { IfOk result (λ ids. ids ≡ fresh query.now (all_rows tables.now)) }
{
    let Some(table) = table_at(tables, query.table) else {
        return Ok(List::new(alloc));
    };
    let plan = plan_of(alloc, query.conds.as_slice(), tables, steps)?;
    let rows = ordered_rows(alloc, query, &plan, table, steps)?;
    ids_of(alloc, page(rows.as_slice(), query.skip, query.take))
}
