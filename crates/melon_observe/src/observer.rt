ghost use Rattle.std.specs.Prelude.{◌≡◌, ◌+◌, ◌≤◌, List as Sequence, length, true, IfOk, OnErr};
ghost use Rattle.melon_schema.specs.declared.schema.TableSchema.{TableSchema};
ghost use Rattle.melon_raw.specs.Rows.{Rows};
ghost use Rattle.melon_table.specs.Seen.{rows_of as all_rows};
ghost use Rattle.melon_query.specs.Simple.{is_simple};
ghost use Rattle.melon_views.specs.Views.{shown, view};
ghost use Rattle.melon_views.specs.Due.{turn_from, number_of};
ghost use Rattle.melon_views.specs.Turns.{IsAhead};
ghost use Rattle.melon_views.specs.Standing.{Stands, moved};
ghost use Rattle.melon_observe.specs.Journals.{history, Follows, opened, changes_between};

use crate::held::{Held, open_held, position_of, query_of, shape_of, turn_held};
use melon_board::Board;
use melon_query::Query;
use melon_raw::Steps;
use melon_views::{Emission, Shape, Turn};
use std::alloc::{AllocError, Global};
use std::marker::Model;
use std::sync::ledger::Ledger;

/// An observer of a query's answer. It gives an emission when it is opened, and then only what differs from the last one
/// (WatermelonDB's page "Query API", "Observing").
#[derive(Debug, Drop)]
pub struct Observer {
    held: Held,
}

impl Model for Observer {
    ghost use Rattle.std.specs.Coded.{codes};
    ghost use Rattle.melon_query.specs.contracts.query.Cond as cond;
    ghost use Rattle.melon_views.specs.Standing.{Observed};

    ghost Value = { Observed };

    ghost coded = { Prim.hlevel (codes, cond.the_row.coded) };

    ghost use Rattle.melon_observe.specs.Inside.{observer_in};

    ghost view = { observer_in };
}

impl Observer {
    /// Opens an observer on a board, and gives its first emission, whose number is the journal's length.
    pub fn open(
        alloc: Global,
        query: Query,
        shape: Shape,
        board: &Board,
    ) -> Result<(Observer, Emission), AllocError>
        ensures observer { IfOk result (λ both. both.0 ≡ opened query shape board.now) }
        ensures emission { IfOk result (λ both. both.1 ≡ shown query shape (all_rows board.now.tables)) }
        ensures stands { (schema : Sequence TableSchema) (opening : Rows) → Follows schema opening board.now → IfOk result (λ both. Stands (history opening board.now.entries) both.0) }
        ensures view { (schema : Sequence TableSchema) (opening : Rows) → Follows schema opening board.now → IfOk result (λ both. both.1 ≡ view query shape (history opening board.now.entries) (length board.now.entries)) }
    {
        let (held, emission) = open_held(alloc, query, shape, board)?;
        Ok((Observer { held }, emission))
    }

    /// How many entries of the journal it has seen.
    pub fn at(&self) -> u64
        ensures { result ≡ self.now.at }
    {
        position_of(&self.held)
    }

    /// The query that it observes.
    pub fn query(&self) -> &Query
        ensures { result.now ≡ self.now.query }
    {
        query_of(&self.held)
    }

    /// What it shows of the answer.
    pub fn shape(&self) -> &Shape
        ensures { result.now ≡ self.now.shape }
    {
        shape_of(&self.held)
    }

    /// One turn. An observer of a simple query gives the emission after the first later entry that changes its answer;
    /// any other gives the emission at the journal's end where it differs. Else it is still at the journal's end.
    pub fn turn<L: Ledger>(
        &mut self,
        alloc: Global,
        board: &Board,
        steps: &mut Steps<L>,
    ) -> Result<Turn, AllocError>
        ensures turned { (schema : Sequence TableSchema) (opening : Rows) → Follows schema opening board.now → Stands (history opening board.now.entries) self.old
            → IfOk result (λ turn. turn ≡ turn_from self.old.query self.old.shape (history opening board.now.entries) self.old.at) }
        ensures moved { IfOk result (λ turn. self.new ≡ moved turn self.old) }
        ensures err { OnErr result (self.new ≡ self.old) }
        ensures ahead { IfOk result (λ turn. IsAhead self.old.at (length board.now.entries) turn) }
        ensures cost { is_simple self.old.query ≡ true → IfOk result (λ turn. steps.new ≤ steps.old + changes_between self.old.at (number_of turn) board.now.entries) }
    {
        turn_held(&mut self.held, alloc, board, steps)
    }
}
