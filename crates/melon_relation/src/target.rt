//! What a relation leads to, found by searches for its two rows.
ghost use Rattle.std.specs.Prelude.{◌≡◌, ◌<◌, IfOk};
ghost use Rattle.std.specs.Option.{option_copied};
ghost use Rattle.melon_raw.specs.declared.datum.Datum.TheVariants.{Words};
ghost use Rattle.melon_raw.specs.Rows.{at, cell};
ghost use Rattle.melon_table.specs.Seen.{rows_of};
ghost use Rattle.melon_change.specs.Changes.{key, is_shown};
ghost use Rattle.melon_change.specs.Batch.{visible};
ghost use Rattle.melon_views.specs.Parents.{parent_by};
ghost use Rattle.melon_relation.specs.Relations.{parent_in};
ghost use Rattle.melon_relation.specs.Targets.{seen_target};
ghost use Rattle.melon_relation.specs.Watching.{is_same_parent};

use crate::Relation;
use melon_raw::{Datum, Raw, Steps};
use melon_schema::Twin;
use melon_table::Tables;
use melon_views::Parent;
use std::alloc::{AllocError, Global};
use std::sync::ledger::Ledger;

/// What a relation leads to, where it stands in the tables.
#[derive(Clone, Copy, Debug, Drop)]
pub enum Target<'a> {
    Nothing,
    Missing,
    Row(&'a Raw),
}

/// The row of an id in the table at a place, where there are a table and a row.
fn row_at<'a, L: Ledger>(
    tables: &'a Tables,
    table: usize,
    id: &str,
    steps: &mut Steps<L>,
) -> Option<&'a Raw>
    ensures { option_copied result ≡ at (rows_of tables.now) (key table id.now) }
{
    if table < tables.len() {
        tables.of(table).find(id, steps)
    } else {
        None
    }
}

/// The visible row of an id.
fn visible_at<'a, L: Ledger>(
    tables: &'a Tables,
    table: usize,
    id: &str,
    steps: &mut Steps<L>,
) -> Option<&'a Raw>
    ensures { option_copied result ≡ visible (at (rows_of tables.now) (key table id.now)) }
{
    match row_at(tables, table, id, steps) {
        Some(row) => { if row.is_visible() { Some(row) } else { None } }
        None => None,
    }
}

/// Whether the row of an id is visible.
pub fn is_visible_at<L: Ledger>(
    tables: &Tables,
    table: usize,
    id: &str,
    steps: &mut Steps<L>,
) -> bool
    ensures { result ≡ is_shown (at (rows_of tables.now) (key table id.now)) }
{
    match row_at(tables, table, id, steps) {
        Some(row) => row.is_visible(),
        None => false,
    }
}

/// What a text in a key column leads to. The empty text leads to nothing.
fn target_named<'a, L: Ledger>(
    tables: &'a Tables,
    to: usize,
    name: &str,
    steps: &mut Steps<L>,
) -> Target<'a>
    ensures { seen_target result ≡ parent_by to (rows_of tables.now) (Words name.now) }
{
    if name.is_empty() {
        return Target::Nothing;
    }
    match visible_at(tables, to, name, steps) {
        Some(row) => Target::Row(row),
        None => Target::Missing,
    }
}

/// What the value of a key column leads to.
fn target_by<'a, L: Ledger>(
    tables: &'a Tables,
    to: usize,
    value: &Datum,
    steps: &mut Steps<L>,
) -> Target<'a>
    ensures { seen_target result ≡ parent_by to (rows_of tables.now) value.now }
{
    match value {
        Datum::Words(name) => target_named(tables, to, name.as_str(), steps),
        Datum::Null => Target::Nothing,
        Datum::Whole(_) => Target::Nothing,
        Datum::Truth(_) => Target::Nothing,
    }
}

/// What the key column of a row leads to.
fn target_from<'a, L: Ledger>(
    tables: &'a Tables,
    to: usize,
    column: usize,
    own: &Raw,
    steps: &mut Steps<L>,
) -> Target<'a>
    ensures { seen_target result ≡ parent_by to (rows_of tables.now) (cell own.now column) }
{
    if column < own.cells.len() {
        target_by(tables, to, &own.cells.as_slice()[column], steps)
    } else {
        Target::Nothing
    }
}

/// What a relation leads to.
pub fn target_of<'a, L: Ledger>(
    tables: &'a Tables,
    relation: &Relation,
    steps: &mut Steps<L>,
) -> Target<'a>
    ensures { seen_target result ≡ parent_in relation.now (rows_of tables.now) }
{
    match visible_at(tables, relation.table, relation.id.as_str(), steps) {
        Some(own) => target_from(tables, relation.to, relation.column, own, steps),
        None => Target::Nothing,
    }
}

impl Target<'_> {
    /// Whether it is what was shown.
    pub fn is(self, shown: &Parent) -> bool
        ensures { result ≡ is_same_parent (seen_target self.entry) shown.now }
    {
        match (self, shown) {
            (Target::Nothing, Parent::Nothing) => true,
            (Target::Nothing, Parent::Missing) => false,
            (Target::Nothing, Parent::Row(_)) => false,
            (Target::Missing, Parent::Nothing) => false,
            (Target::Missing, Parent::Missing) => true,
            (Target::Missing, Parent::Row(_)) => false,
            (Target::Row(_), Parent::Nothing) => false,
            (Target::Row(_), Parent::Missing) => false,
            (Target::Row(row), Parent::Row(other)) => row.is(other),
        }
    }

    /// A copy of what it shows.
    pub fn copied(self, alloc: Global) -> Result<Parent, AllocError>
        ensures { IfOk result (λ parent. parent ≡ seen_target self.entry) }
    {
        match self {
            Target::Nothing => Ok(Parent::Nothing),
            Target::Missing => Ok(Parent::Missing),
            Target::Row(row) => Ok(Parent::Row(row.copy(alloc)?)),
        }
    }
}
