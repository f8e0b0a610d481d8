//! The rows of a joined table by the key that they hold. A row is left out where one that was kept before it meets each
//! `on` that it meets.
ghost use Rattle.std.specs.Prelude.{◌≡◌, ℕ, List as Sequence, [], ◌<◌, Some, IfOk, OnOk, filter, length, bytes_eq, if◌then◌else◌};
ghost use Rattle.std.specs.List.{list_any};
ghost use Rattle.melon_eval.specs.Asking.{is_below};
ghost use Rattle.melon_eval.specs.Offers.{with_kept, with_row, kept_rows};
ghost use Rattle.melon_eval.specs.Seen.{seen_asks};
ghost use Rattle.melon_eval.specs.Grouped.{group_rows, group_of, is_keyed};

use crate::asks::{Ask, is_below, meets_any};
use crate::value::{Value, value_at};
use melon_query::Col;
use melon_raw::{Raw, Steps};
use melon_table::Table;
use std::alloc::{AllocError, Global};
use std::collections::HashMap;
use std::sync::ledger::Ledger;

/// The rows that are kept under one key.
#[derive(Drop)]
pub struct Group<'a> {
    pub first: &'a Raw,
    pub others: Vec<&'a Raw>,
}

/// Whether one of the kept rows meets each `on` that a row meets.
fn is_covered(asks: &[Ask<'_>], table: usize, row: &Raw, group: &Group<'_>) -> bool
    ensures { result ≡ list_any (λ other. is_below (seen_asks asks.now) table (Some row.now) (Some other)) (group_rows group.now) }
{
    if is_below(asks, table, row, group.first) {
        return true;
    }
    for other in &group.others {
        if is_below(asks, table, row, *other) {
            return true;
        }
    }
    false
}

fn add_to_group<'a>(
    asks: &[Ask<'_>],
    table: usize,
    row: &'a Raw,
    group: &mut Group<'a>,
) -> Result<(), AllocError>
    ensures { OnOk result (group_rows group.new ≡ with_kept (seen_asks asks.now) table (group_rows group.old) row.now) }
{
    if is_covered(asks, table, row, group) {
        return Ok(());
    }
    group.others.push(row)?;
    Ok(())
}

fn add_under<'a>(
    alloc: Global,
    asks: &[Ask<'_>],
    table: usize,
    row: &'a Raw,
    key: &'a str,
    groups: &mut HashMap<&'a str, Group<'a>>,
) -> Result<(), AllocError>
    ensures { OnOk result ((id : Sequence ℕ) → group_of groups.new id
        ≡ (if bytes_eq key.now id then with_kept (seen_asks asks.now) table (group_of groups.old id) row.now else group_of groups.old id)) }
{
    match groups.get_mut(key) {
        Some(group) => add_to_group(asks, table, row, group),
        None => {
            let group = Group {
                first: row,
                others: Vec::new(alloc),
            };
            groups.insert(key, group)?;
            Ok(())
        }
    }
}

fn add_row<'a>(
    alloc: Global,
    asks: &[Ask<'_>],
    table: usize,
    place: usize,
    row: &'a Raw,
    groups: &mut HashMap<&'a str, Group<'a>>,
) -> Result<(), AllocError>
    ensures { OnOk result ((id : Sequence ℕ) → group_of groups.new id
        ≡ (if is_keyed place id row.now then with_row (seen_asks asks.now) table (group_of groups.old id) row.now else group_of groups.old id)) }
{
    if !row.is_visible() || !meets_any(asks, table, row) {
        return Ok(());
    }
    match value_at(Col::Cell(place), row) {
        Value::Words(key) => add_under(alloc, asks, table, row, key, groups),
        Value::Null | Value::Whole(_) | Value::Truth(_) => Ok(()),
    }
}

/// Goes once over the rows of a table, whose key stands at a place.
pub fn group_by_key<'a, L: Ledger>(
    alloc: Global,
    asks: &[Ask<'_>],
    table: usize,
    place: usize,
    rows: &'a Table,
    steps: &mut Steps<L>,
) -> Result<HashMap<&'a str, Group<'a>>, AllocError>
    ensures { IfOk result (λ groups. (id : Sequence ℕ) → group_of groups id ≡ kept_rows (seen_asks asks.now) table [] (filter (is_keyed place id) rows.now.rows)) }
{
    let mut groups = HashMap::new(alloc);
    for i in 0..rows.len() {
        add_row(alloc, asks, table, place, rows.row(i, steps), &mut groups)?;
    }
    Ok(groups)
}
