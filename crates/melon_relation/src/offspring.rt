//! The rows that a row has.
ghost use Rattle.std.specs.Prelude.{◌≡◌, true, Ok, IfOk};
ghost use Rattle.melon_schema.specs.Faults.{Gives};
ghost use Rattle.melon_raw.specs.Rows.{Rows, is_ascending};
ghost use Rattle.melon_query.specs.Tuples.{rows_of};
ghost use Rattle.melon_query.specs.Fresh.{fresh};
ghost use Rattle.melon_query.specs.Sound.{is_well_formed};
ghost use Rattle.melon_relation.specs.Children.{children_query, children_asked, children_told};

use crate::RelationFault;
use crate::association::child_key;
use melon_query::{Col, Compare, CompareOp, Cond, Query, Right};
use melon_raw::{Datum, Id};
use melon_schema::{AppSchema, List, Text};
use std::alloc::{AllocError, Global};

/// The query of the rows whose key column equals an id.
fn query_by(alloc: Global, to: usize, column: usize, id: &Id) -> Result<Query, AllocError>
    ensures { IfOk result (λ query. query ≡ children_query to column id.now) }
{
    let name = Text::new(alloc, id.as_str())?;
    let mut conds = List::new(alloc);
    conds.push(Cond::Compare(Compare {
        column: Col::Cell(column),
        op: CompareOp::Eq,
        right: Right::One(Datum::Words(name)),
    }))?;
    Ok(Query {
        table: to,
        conds,
        sort: List::new(alloc),
        take: None,
        skip: 0,
    })
}

/// The query of the rows that the row of an id has, by the `has_many` association of the table at the place `table` with
/// that at the place `to`. It answers the visible rows whose key column is the id, by ascending id. It is refused where
/// there is no such association; whether there is a row of that id doesn't matter.
pub fn children(
    alloc: Global,
    schema: &AppSchema,
    table: usize,
    id: &Id,
    to: usize,
) -> Result<Query, RelationFault>
    ensures query { Gives RelationFault.Memory result (children_asked schema.now.tables table id.now to) }
    ensures answer { (rows : Rows) → is_ascending (rows_of to rows) ≡ true → IfOk result (λ query. children_told schema.now.tables rows table id.now to ≡ Ok (fresh query rows)) }
    ensures sound { IfOk result (λ query. is_well_formed schema.now.tables query ≡ true) }
{
    let Some(column) = child_key(schema, table, to) else {
        return Err(RelationFault::NoAssociation);
    };
    Ok(query_by(alloc, to, column, id)?)
}
