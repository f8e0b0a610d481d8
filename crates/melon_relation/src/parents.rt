//! The row to which a row belongs.
ghost use Rattle.std.specs.Prelude.{◌≡◌, ◌<◌, IfOk};
ghost use Rattle.melon_raw.specs.Rows.{at};
ghost use Rattle.melon_table.specs.Seen.{rows_of};
ghost use Rattle.melon_schema.specs.Faults.{Gives};
ghost use Rattle.melon_change.specs.Changes.{key, is_shown};
ghost use Rattle.melon_relation.specs.Relations.{parent_in, related, parent_told};

use crate::association::parent_key;
use crate::target::{is_visible_at, target_of};
use crate::{Relation, RelationFault};
use melon_board::Board;
use melon_raw::steps::new_counter;
use melon_raw::{Id, Steps};
use melon_schema::{AppSchema, Twin};
use melon_table::Tables;
use melon_views::Parent;
use std::alloc::{AllocError, Global};
use std::marker::Brand;
use std::sync::ledger::{Blank, Ledger};

fn is_shown_counted<L: Ledger>(counter: Blank, tables: &Tables, table: usize, id: &Id) -> bool
    requires name { counter.name ≡ L.name }
    requires parts { counter.parts ≡ L.parts }
    requires shared { 0 < counter.parts }
    ensures { result ≡ is_shown (at (rows_of tables.now) (key table id.now)) }
{
    let mut steps = Steps::<L>::open(counter);
    is_visible_at(tables, table, id.as_str(), &mut steps)
}

fn shown_counted<L: Ledger>(
    counter: Blank,
    alloc: Global,
    tables: &Tables,
    relation: &Relation,
) -> Result<Parent, AllocError>
    requires name { counter.name ≡ L.name }
    requires parts { counter.parts ≡ L.parts }
    requires shared { 0 < counter.parts }
    ensures { IfOk result (λ parent. parent ≡ parent_in relation.now (rows_of tables.now)) }
{
    let mut steps = Steps::<L>::open(counter);
    target_of(tables, relation, &mut steps).copied(alloc)
}

/// What a relation shows now.
pub(crate) fn shown_by(
    alloc: Global,
    tables: &Tables,
    relation: &Relation,
) -> Result<Parent, AllocError>
    ensures { IfOk result (λ parent. parent ≡ parent_in relation.now (rows_of tables.now)) }
{
    shown_counted::<Brand>(new_counter(), alloc, tables, relation)
}

/// The relation by which a visible row belongs to a row of the table `to`.
#[tactic(auto, unfolding(crate::specs::Relations::related))]
pub(crate) fn related(
    alloc: Global,
    tables: &Tables,
    schema: &AppSchema,
    table: usize,
    id: &Id,
    to: usize,
) -> Result<Relation, RelationFault>
    ensures { Gives RelationFault.Memory result (related schema.now.tables (rows_of tables.now) table id.now to) }
{
    if !is_shown_counted::<Brand>(new_counter(), tables, table, id) {
        return Err(RelationFault::NoRow);
    }
    let column = parent_key(schema, table, to).ok_or(RelationFault::NoAssociation)?;
    Ok(Relation {
        table,
        id: id.copy(alloc)?,
        column,
        to,
    })
}

/// The row to which the row of an id belongs, by the `belongs_to` association of the table at the place `table` with that
/// at the place `to`. It is refused where the own row isn't visible, and then where there is no such association.
pub fn parent(
    alloc: Global,
    board: &Board,
    schema: &AppSchema,
    table: usize,
    id: &Id,
    to: usize,
) -> Result<Parent, RelationFault>
    ensures { Gives RelationFault.Memory result (parent_told schema.now.tables (rows_of board.now.tables) table id.now to) }
{
    let relation = related(alloc, board.tables(), schema, table, id, to)?;
    Ok(shown_by(alloc, board.tables(), &relation)?)
}
