//! The two kinds of observers.
ghost use Rattle.std.specs.Prelude.{◌≡◌, ◌+◌, ◌≤◌, List as Sequence, length, true, IfOk, OnErr};
ghost use Rattle.melon_schema.specs.declared.schema.TableSchema.{TableSchema};
ghost use Rattle.melon_raw.specs.Rows.{Rows};
ghost use Rattle.melon_query.specs.Simple.{is_simple};
ghost use Rattle.melon_table.specs.Seen.{rows_of as all_rows};
ghost use Rattle.melon_views.specs.Views.{shown};
ghost use Rattle.melon_views.specs.Due.{turn_from, number_of};
ghost use Rattle.melon_views.specs.Turns.{IsAhead};
ghost use Rattle.melon_views.specs.Standing.{Stands, moved};
ghost use Rattle.melon_observe.specs.Journals.{history, Follows, opened, changes_between};
ghost use Rattle.melon_observe.specs.Held.{observed_by};

use crate::Simple;
use crate::finding::first_on;
use crate::reloading::Reloading;
use melon_board::Board;
use melon_query::Query;
use melon_raw::Steps;
use melon_views::{Emission, Shape, Turn};
use std::alloc::{AllocError, Global};
use std::sync::ledger::Ledger;

#[derive(Debug, Drop)]
pub enum Held {
    Simple(Simple),
    Reloading(Reloading),
}

/// Opens the kind that the query wants, and gives its first emission.
pub fn open_held(
    alloc: Global,
    query: Query,
    shape: Shape,
    board: &Board,
) -> Result<(Held, Emission), AllocError>
    ensures observer { IfOk result (λ both. observed_by both.0 ≡ opened query shape board.now) }
    ensures emission { IfOk result (λ both. both.1 ≡ shown query shape (all_rows board.now.tables)) }
{
    if query.is_simple() {
        let (simple, emission) = Simple::open(alloc, query, shape, board)?;
        return Ok((Held::Simple(simple), emission));
    }
    let (reloading, emission) = Reloading::open(alloc, query, shape, board)?;
    Ok((Held::Reloading(reloading), emission))
}

pub fn query_of(held: &Held) -> &Query
    ensures { result.now ≡ (observed_by held.now).query }
{
    match held {
        Held::Simple(simple) => simple.query(),
        Held::Reloading(reloading) => reloading.query(),
    }
}

pub fn shape_of(held: &Held) -> &Shape
    ensures { result.now ≡ (observed_by held.now).shape }
{
    match held {
        Held::Simple(simple) => simple.shape(),
        Held::Reloading(reloading) => reloading.shape(),
    }
}

pub fn position_of(held: &Held) -> u64
    ensures { result ≡ (observed_by held.now).at }
{
    match held {
        Held::Simple(simple) => simple.at(),
        Held::Reloading(reloading) => reloading.at(),
    }
}

pub fn turn_held<L: Ledger>(
    held: &mut Held,
    alloc: Global,
    board: &Board,
    steps: &mut Steps<L>,
) -> Result<Turn, AllocError>
    ensures turned { (schema : Sequence TableSchema) (opening : Rows) → Follows schema opening board.now → Stands (history opening board.now.entries) (observed_by held.old)
        → IfOk result (λ turn. turn ≡ turn_from (observed_by held.old).query (observed_by held.old).shape (history opening board.now.entries) (observed_by held.old).at) }
    ensures moved { IfOk result (λ turn. observed_by held.new ≡ moved turn (observed_by held.old)) }
    ensures err { OnErr result (observed_by held.new ≡ observed_by held.old) }
    ensures ahead { IfOk result (λ turn. IsAhead (observed_by held.old).at (length board.now.entries) turn) }
    ensures cost { is_simple (observed_by held.old).query ≡ true → IfOk result (λ turn. steps.new ≤ steps.old + changes_between (observed_by held.old).at (number_of turn) board.now.entries) }
{
    match held {
        Held::Simple(simple) => {
            let found = first_on(simple.query(), simple.shape(), simple.at(), board, steps);
            simple.go_on(alloc, found, board.len() as u64)
        }
        Held::Reloading(reloading) => reloading.turn(alloc, board, steps),
    }
}
