//! Where the rows of a joined table that are tried for a main row come from.
ghost use Rattle.std.specs.Prelude.{◌≡◌, ◌&&◌, ℕ, List as Sequence, [], IfOk, filter, map};
ghost use Rattle.std.specs.Option.{option_copied, option_to_list};
ghost use Rattle.melon_raw.specs.declared.raw.Raw.{Raw as MainRow};
ghost use Rattle.melon_raw.specs.declared.datum.Datum.TheVariants.{Words};
ghost use Rattle.melon_raw.specs.Rows.{is_visible};
ghost use Rattle.melon_table.specs.Seen.{rows_of as all_rows};
ghost use Rattle.melon_query.specs.declared.query.Join.TheVariants as join;
ghost use Rattle.melon_query.specs.Tuples.{is_choice, names, or_absent};
ghost use Rattle.melon_eval.specs.Offers.{kept_rows, offer_at};
ghost use Rattle.melon_eval.specs.Seen.{seen_asks, rows_in};
ghost use Rattle.melon_eval.specs.Grouped.{group_of, group_rows, rows_under, is_keyed};
ghost use Rattle.melon_eval.specs.Trials.{seen_offer};
ghost use Rattle.melon_eval.specs.Sources.{offered, all_offered};

use crate::asks::{Ask, meets_any};
use crate::groups::{Group, group_by_key};
use crate::lookup::table_at;
use crate::value::{Value, value_at};
use crate::walk::Offer;
use melon_query::{Col, Join, Joined};
use melon_raw::{Raw, Steps};
use melon_table::{Table, Tables};
use std::alloc::{AllocError, Global};
use std::collections::HashMap;
use std::sync::ledger::Ledger;

/// How the rows of a joined table are found.
#[derive(Drop)]
pub enum By<'a> {
    /// By the id that stands at a place of the main row.
    OwnKey {
        place: usize,
        rows: Option<&'a Table>,
    },
    /// By the main row's id, which they hold.
    TheirKey(HashMap<&'a str, Group<'a>>),
}

#[derive(Drop)]
pub struct Source<'a> {
    pub table: usize,
    pub by: By<'a>,
}

/// The row of an id, where it is visible.
fn visible_row<'a, L: Ledger>(
    rows: Option<&'a Table>,
    id: &str,
    steps: &mut Steps<L>,
) -> Option<&'a Raw>
    ensures { option_to_list (option_copied result) ≡ filter (λ row. is_visible row.status && names (Words id.now) row.id) (rows_in (option_copied rows.entry)) }
{
    match rows {
        Some(table) => match table.find(id, steps) {
            Some(row) => { if row.is_visible() { Some(row) } else { None } }
            None => None,
        },
        None => None,
    }
}

/// The visible row that the key at a place of a main row names.
fn own_row<'a, L: Ledger>(
    place: usize,
    rows: Option<&'a Table>,
    main: &Raw,
    steps: &mut Steps<L>,
) -> Option<&'a Raw>
    ensures { option_to_list (option_copied result) ≡ filter (is_choice (join.OwnKey place) main.now) (rows_in (option_copied rows.entry)) }
{
    match value_at(Col::Cell(place), main) {
        Value::Words(key) => visible_row(rows, key, steps),
        Value::Null => None,
        Value::Whole(_) => None,
        Value::Truth(_) => None,
    }
}

/// That row, where an `on` of its table is true of it.
fn own_choice<'a, L: Ledger>(
    asks: &[Ask<'_>],
    table: usize,
    place: usize,
    rows: Option<&'a Table>,
    main: &Raw,
    steps: &mut Steps<L>,
) -> Option<&'a Raw>
    ensures { option_to_list (option_copied result)
        ≡ kept_rows (seen_asks asks.now) table [] (filter (is_choice (join.OwnKey place) main.now) (rows_in (option_copied rows.entry))) }
{
    match own_row(place, rows, main, steps) {
        Some(row) => {
            if meets_any(asks, table, row) {
                Some(row)
            } else {
                None
            }
        }
        None => None,
    }
}

fn one_offer<'s, 'a>(table: usize, first: Option<&'a Raw>) -> Offer<'s, 'a>
    ensures { seen_offer result ≡ record { table = table; rows = or_absent (option_to_list (option_copied first.entry)) } }
{
    Offer {
        table,
        first,
        others: &[],
    }
}

fn group_offer<'s, 'a>(table: usize, group: &'s Group<'a>) -> Offer<'s, 'a>
    ensures { seen_offer result ≡ record { table = table; rows = or_absent (group_rows group.now) } }
{
    Offer {
        table,
        first: Some(group.first),
        others: group.others.as_slice(),
    }
}

fn offer_under<'s, 'a>(table: usize, group: Option<&'s Group<'a>>) -> Offer<'s, 'a>
    ensures { seen_offer result ≡ record { table = table; rows = or_absent (rows_under (option_copied group.entry)) } }
{
    if let Some(group) = group {
        return group_offer(table, group);
    }
    one_offer(table, None)
}

/// What a joined table offers a main row.
pub fn offer<'s, 'a, L: Ledger>(
    source: &'s Source<'a>,
    asks: &[Ask<'_>],
    main: &Raw,
    steps: &mut Steps<L>,
) -> Offer<'s, 'a>
    ensures { seen_offer result ≡ offered (seen_asks asks.now) source.now main.now }
{
    let table = source.table;
    match &source.by {
        By::OwnKey { place, rows } => {
            let row = own_choice(asks, table, *place, *rows, main, steps);
            one_offer(table, row)
        }
        By::TheirKey(groups) => offer_under(table, groups.get(main.id.as_str())),
    }
}

fn groups_of<'a, L: Ledger>(
    alloc: Global,
    asks: &[Ask<'_>],
    table: usize,
    place: usize,
    rows: Option<&'a Table>,
    steps: &mut Steps<L>,
) -> Result<HashMap<&'a str, Group<'a>>, AllocError>
    ensures { IfOk result (λ groups. (id : Sequence ℕ) → group_of groups id
        ≡ kept_rows (seen_asks asks.now) table [] (filter (is_keyed place id) (rows_in (option_copied rows.entry)))) }
{
    match rows {
        Some(rows) => group_by_key(alloc, asks, table, place, rows, steps),
        None => Ok(HashMap::new(alloc)),
    }
}

fn source_of<'a, L: Ledger>(
    alloc: Global,
    asks: &[Ask<'_>],
    joined: Joined,
    tables: &'a Tables,
    steps: &mut Steps<L>,
) -> Result<Source<'a>, AllocError>
    ensures { IfOk result (λ source. (main : MainRow) → offered (seen_asks asks.now) source main ≡ offer_at (seen_asks asks.now) (all_rows tables.now) main joined) }
{
    let table = joined.table;
    let rows = table_at(tables, table);
    match joined.join {
        Join::OwnKey(place) => Ok(Source {
            table,
            by: By::OwnKey { place, rows },
        }),
        Join::TheirKey(place) => {
            let groups = groups_of(alloc, asks, table, place, rows, steps)?;
            Ok(Source {
                table,
                by: By::TheirKey(groups),
            })
        }
    }
}

/// A source for each joined table. The rows that hold the main row's id are gone over once, and grouped by it.
pub fn sources_of<'a, L: Ledger>(
    alloc: Global,
    asks: &[Ask<'_>],
    joined: &[Joined],
    tables: &'a Tables,
    steps: &mut Steps<L>,
) -> Result<Vec<Source<'a>>, AllocError>
    ensures { IfOk result (λ sources. (main : MainRow) → all_offered (seen_asks asks.now) sources.items main
        ≡ map (offer_at (seen_asks asks.now) (all_rows tables.now) main) joined.now) }
{
    let mut sources = Vec::new(alloc);
    for one in joined {
        sources.push(source_of(alloc, asks, *one, tables, steps)?)?;
    }
    Ok(sources)
}
