//! What rows show, and whether a simple query chooses them.
ghost use Rattle.std.specs.Prelude.{◌≡◌, map, unwrap_or, IfOk};
ghost use Rattle.std.specs.Option.{option_copied};
ghost use Rattle.melon_raw.specs.declared.datum.Datum.TheVariants.{Null};
ghost use Rattle.melon_raw.specs.Datum.{datum_eq};
ghost use Rattle.melon_raw.specs.Rows.{cell};
ghost use Rattle.melon_query.specs.Tuples.{alone};
ghost use Rattle.melon_query.specs.Meaning.{all_hold};
ghost use Rattle.melon_views.specs.Members.{columns_of, chooses, chosen, told, show_same, member_changes, changes_member, matters};

use melon_change::Change;
use melon_eval::matches;
use melon_query::{Cond, Query};
use melon_raw::{Datum, Id, Raw};
use melon_schema::List;
use melon_views::{Emission, Shape, Shown};
use std::alloc::{AllocError, Global};

/// The columns that a shape names.
pub fn columns_of(shape: &Shape) -> &[usize]
    ensures { result.now ≡ columns_of shape.now }
{
    match shape {
        Shape::Ids => &[],
        Shape::Columns(columns) => columns.as_slice(),
    }
}

// ---- which rows are chosen

fn all_hold(conds: &[Cond], row: &Raw) -> bool
    ensures { result ≡ all_hold conds.now (alone row.now) }
{
    for cond in conds {
        if !matches(cond, row) {
            return false;
        }
    }
    true
}

/// Whether conditions without `on` choose a row.
pub fn chooses(conds: &[Cond], row: &Raw) -> bool
    ensures { result ≡ chooses conds.now row.now }
{
    row.is_visible() && all_hold(conds, row)
}

/// The row of a record, where it is chosen.
pub fn chosen<'a>(conds: &[Cond], row: &'a Option<Raw>) -> Option<&'a Raw>
    ensures { option_copied result ≡ chosen conds.now row.now }
{
    match row {
        Some(row) => { if chooses(conds, row) { Some(row) } else { None } }
        None => None,
    }
}

// ---- what they show

fn ids_of(alloc: Global, members: Vec<Shown>) -> Result<List<Id>, AllocError>
    ensures { IfOk result (λ ids. ids ≡ map (λ m. m.id) members.items) }
{
    let mut ids = List::from_vec(Vec::with_capacity(alloc, members.len())?);
    for member in members {
        let Shown { id, cells: _ } = member;
        ids.push(id)?;
    }
    Ok(ids)
}

/// The emission that members are.
pub fn told(alloc: Global, shape: &Shape, members: Vec<Shown>) -> Result<Emission, AllocError>
    ensures { IfOk result (λ emission. emission ≡ told shape.now members.items) }
{
    match shape {
        Shape::Ids => Ok(Emission::Ids(ids_of(alloc, members)?)),
        Shape::Columns(_) => Ok(Emission::Rows(List::from_vec(members))),
    }
}

// ---- which changes change it

/// The cell of a column, where there is one.
fn cell_at(row: &Raw, column: usize) -> Option<&Datum>
    ensures { unwrap_or (option_copied result) Null ≡ cell row.now column }
{
    let cells = row.cells.as_slice();
    if column < cells.len() {
        Some(&cells[column])
    } else {
        None
    }
}

fn is_null(value: &Datum) -> bool
    ensures left { result ≡ datum_eq value.now Null }
    ensures right { result ≡ datum_eq Null value.now }
{
    match value {
        Datum::Null => true,
        Datum::Words(_) => false,
        Datum::Whole(_) => false,
        Datum::Truth(_) => false,
    }
}

/// Whether two cells are the same value. One that isn't there is null.
fn are_same(before: Option<&Datum>, after: Option<&Datum>) -> bool
    ensures { result ≡ datum_eq (unwrap_or (option_copied before.entry) Null) (unwrap_or (option_copied after.entry) Null) }
{
    match before {
        Some(before) => {
            match after {
                Some(after) => before.is(after),
                None => is_null(before),
            }
        }
        None => {
            match after {
                Some(after) => is_null(after),
                None => true,
            }
        }
    }
}

fn is_same_cell(before: &Raw, after: &Raw, column: usize) -> bool
    ensures { result ≡ datum_eq (cell before.now column) (cell after.now column) }
{
    are_same(cell_at(before, column), cell_at(after, column))
}

fn show_same(columns: &[usize], before: &Raw, after: &Raw) -> bool
    ensures { result ≡ show_same columns.now before.now after.now }
{
    columns
        .iter()
        .all(|column| is_same_cell(before, after, *column))
}

fn member_changes(columns: &[usize], before: Option<&Raw>, after: Option<&Raw>) -> bool
    ensures { result ≡ member_changes columns.now (option_copied before.entry) (option_copied after.entry) }
{
    match before {
        Some(before) => {
            match after {
                Some(after) => !show_same(columns, before, after),
                None => true,
            }
        }
        None => after.is_some(),
    }
}

fn changes_member(query: &Query, columns: &[usize], change: &Change) -> bool
    ensures { result ≡ changes_member query.now columns.now change.now }
{
    if change.table != query.table {
        return false;
    }
    let conds = query.conds.as_slice();
    member_changes(
        columns,
        chosen(conds, &change.before),
        chosen(conds, &change.after),
    )
}

/// Whether one of the changes makes a member of a simple query's answer go, come or show another cell.
#[tactic(auto, unfolding(melon_views::specs::Members::matters))]
pub fn matters(query: &Query, shape: &Shape, changes: &[Change]) -> bool
    ensures { result ≡ matters query.now shape.now changes.now }
{
    let columns = columns_of(shape);
    changes
        .iter()
        .any(|change| changes_member(query, columns, change))
}
