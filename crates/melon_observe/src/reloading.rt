ghost use Rattle.std.specs.Prelude.{◌≡◌, ◌<◌, List as Sequence, length, true, false, IfOk, OnErr};
ghost use Rattle.std.specs.List.{list_any};
ghost use Rattle.std.specs.Option.{option_copied};
ghost use Rattle.melon_schema.specs.declared.schema.TableSchema.{TableSchema};
ghost use Rattle.melon_raw.specs.Rows.{Rows, has};
ghost use Rattle.melon_table.specs.Seen.{rows_of as all_rows};
ghost use Rattle.melon_query.specs.Tuples.{rows_of};
ghost use Rattle.melon_query.specs.Simple.{is_simple};
ghost use Rattle.melon_eval.specs.Seen.{rows_in};
ghost use Rattle.melon_views.specs.Views.{shown};
ghost use Rattle.melon_views.specs.Due.{turn_from};
ghost use Rattle.melon_views.specs.Turns.{IsAhead};
ghost use Rattle.melon_views.specs.Standing.{Stands, moved};
ghost use Rattle.melon_views.specs.Laws.{NoneTouches};
ghost use Rattle.melon_observe.specs.Journals.{history, Follows, opened};

use melon_board::Board;
use melon_change::Change;
use melon_eval::{project, run};
use melon_query::Query;
use melon_raw::Steps;
use melon_raw::steps::new_counter;
use melon_schema::{List, Twin};
use melon_table::{Table, Tables};
use melon_views::{Emission, Shape, Turn};
use std::alloc::{AllocError, Global};
use std::marker::{Brand, Model};
use std::sync::ledger::{Blank, Ledger};

/// An observer of a query that isn't simple. It keeps its last emission, and evaluates the query again where a table that
/// the query reads was changed.
#[derive(Debug, Drop)]
pub struct Reloading {
    query: Query,
    shape: Shape,
    reads: List<usize>,
    at: u64,
    kept: Emission,
}

impl Model for Reloading {
    ghost use Rattle.std.specs.Coded.{codes};
    ghost use Rattle.melon_query.specs.contracts.query.Cond as cond;
    ghost use Rattle.melon_views.specs.Standing.{Observed};

    ghost Value = { Observed };

    ghost coded = { Prim.hlevel (codes, cond.the_row.coded) };

    ghost use Rattle.melon_observe.specs.Inside.{reloading_in, KeepsReads};

    ghost view = { reloading_in };

    ghost invariant = { KeepsReads };
}

/// The table at a place, where there is one.
fn table_at(tables: &Tables, place: usize) -> Option<&Table>
    ensures { rows_in (option_copied result) ≡ rows_of place (all_rows tables.now) }
{
    if place < tables.len() {
        Some(tables.of(place))
    } else {
        None
    }
}

/// What is shown of the rows now.
fn shown<L: Ledger>(
    alloc: Global,
    query: &Query,
    shape: &Shape,
    tables: &Tables,
    steps: &mut Steps<L>,
) -> Result<Emission, AllocError>
    ensures { IfOk result (λ emission. emission ≡ shown query.now shape.now (all_rows tables.now)) }
{
    let ids = run(alloc, query, tables, steps)?;
    match shape {
        Shape::Ids => Ok(Emission::Ids(ids)),
        Shape::Columns(columns) => {
            let rows = match table_at(tables, query.table) {
                Some(table) => project(alloc, columns, &ids, table)?,
                None => List::new(alloc),
            };
            Ok(Emission::Rows(rows))
        }
    }
}

fn shown_counted<L: Ledger>(
    counter: Blank,
    alloc: Global,
    query: &Query,
    shape: &Shape,
    tables: &Tables,
) -> Result<Emission, AllocError>
    requires name { counter.name ≡ L.name }
    requires parts { counter.parts ≡ L.parts }
    requires shared { 0 < counter.parts }
    ensures { IfOk result (λ emission. emission ≡ shown query.now shape.now (all_rows tables.now)) }
{
    let mut steps = Steps::<L>::open(counter);
    shown(alloc, query, shape, tables, &mut steps)
}

/// Whether one of the changes is in one of these tables.
fn touches(reads: &[usize], changes: &[Change]) -> bool
    ensures { result ≡ list_any (λ c. has c.table reads.now) changes.now }
{
    changes.iter().any(|change| reads.contains(&change.table))
}

impl Reloading {
    /// Opens an observer on a board, and gives its first emission.
    pub fn open(
        alloc: Global,
        query: Query,
        shape: Shape,
        board: &Board,
    ) -> Result<(Reloading, Emission), AllocError>
        requires { is_simple query ≡ false }
        ensures observer { IfOk result (λ both. both.0 ≡ opened query shape board.now) }
        ensures emission { IfOk result (λ both. both.1 ≡ shown query shape (all_rows board.now.tables)) }
    {
        let emission = shown_counted::<Brand>(
            new_counter(),
            alloc,
            &query,
            &shape,
            board.tables(),
        )?;
        let kept = emission.copy(alloc)?;
        let reads = query.tables(alloc)?;
        let reloading = Reloading {
            query,
            shape,
            reads,
            at: board.len() as u64,
            kept,
        };
        Ok((reloading, emission))
    }

    /// The query that it observes.
    pub fn query(&self) -> &Query
        ensures { result.now ≡ self.now.query }
    {
        &self.query
    }

    /// What it shows of the answer.
    pub fn shape(&self) -> &Shape
        ensures { result.now ≡ self.now.shape }
    {
        &self.shape
    }

    /// How many entries of the journal it has seen.
    pub fn at(&self) -> u64
        ensures { result ≡ self.now.at }
    {
        self.at
    }

    /// Whether an entry after the position changes a table that the query reads.
    fn is_touched<L: Ledger>(&self, board: &Board, steps: &mut Steps<L>) -> bool
        ensures later { result ≡ true → self.now.at < length board.now.entries }
        ensures none { result ≡ false → NoneTouches self.now.query board.now.entries self.now.at (length board.now.entries) }
    {
        for place in self.at as usize..board.len() {
            let entry = board.entry(place, steps);
            if touches(self.reads.as_slice(), entry.set.as_slice()) {
                return true;
            }
        }
        false
    }

    /// Goes on to the journal's end, and gives what is shown there where it is something else than was kept.
    pub fn turn<L: Ledger>(
        &mut self,
        alloc: Global,
        board: &Board,
        steps: &mut Steps<L>,
    ) -> Result<Turn, AllocError>
        ensures turned { (schema : Sequence TableSchema) (opening : Rows) → Follows schema opening board.now → Stands (history opening board.now.entries) self.old
            → IfOk result (λ turn. turn ≡ turn_from self.old.query self.old.shape (history opening board.now.entries) self.old.at) }
        ensures moved { IfOk result (λ turn. self.new ≡ moved turn self.old) }
        ensures ahead { IfOk result (λ turn. IsAhead self.old.at (length board.now.entries) turn) }
        ensures err { OnErr result (self.new ≡ self.old) }
        ensures kind { is_simple self.old.query ≡ false }
    {
        let end = board.len() as u64;
        if !self.is_touched(board, steps) {
            self.at = end;
            return Ok(Turn::Still(end));
        }
        let emission = shown(alloc, &self.query, &self.shape, board.tables(), steps)?;
        if emission.same(&self.kept) {
            self.at = end;
            return Ok(Turn::Still(end));
        }
        let kept = emission.copy(alloc)?;
        self.kept = kept;
        self.at = end;
        Ok(Turn::Emit(end, emission))
    }
}
