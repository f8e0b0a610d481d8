//! Turns taken until an observer is still.
ghost use Rattle.std.specs.Prelude.{◌≡◌, ◌+◌, ◌≤◌, List as Sequence, length, true, IfOk};
ghost use Rattle.melon_schema.specs.declared.schema.TableSchema.{TableSchema};
ghost use Rattle.melon_raw.specs.Rows.{Rows};
ghost use Rattle.melon_query.specs.Simple.{is_simple};
ghost use Rattle.melon_views.specs.Standing.{Stands};
ghost use Rattle.melon_views.specs.Turns.{turns_from, is_still};
ghost use Rattle.melon_observe.specs.Journals.{history, Follows, changes_between};

use crate::Observer;
use melon_board::Board;
use melon_raw::Steps;
use melon_views::Turn;
use std::alloc::{AllocError, Global};
use std::sync::ledger::Ledger;

fn is_still(turn: &Turn) -> bool
    ensures { result ≡ is_still turn.now }
{
    match turn {
        Turn::Still(_) => true,
        Turn::Emit(_, _) => false,
    }
}

/// Takes turns until the observer is still, and gives all of them; the last is the one that is still. After an error the
/// turns that were taken stay taken, and an observer that isn't past the journal's end doesn't go back.
pub fn turn_until_still<L: Ledger>(
    observer: &mut Observer,
    alloc: Global,
    board: &Board,
    steps: &mut Steps<L>,
) -> Result<Vec<Turn>, AllocError>
    ensures turned { (schema : Sequence TableSchema) (opening : Rows) → Follows schema opening board.now → Stands (history opening board.now.entries) observer.old
        → IfOk result (λ turns. turns.items ≡ turns_from observer.old.query observer.old.shape (history opening board.now.entries) observer.old.at) }
    ensures stands { (schema : Sequence TableSchema) (opening : Rows) → Follows schema opening board.now → Stands (history opening board.now.entries) observer.old
        → Stands (history opening board.now.entries) observer.new }
    ensures later { observer.old.at ≤ length board.now.entries → observer.old.at ≤ observer.new.at }
    ensures end { IfOk result (λ turns. observer.new.at ≡ length board.now.entries) }
    ensures query { observer.new.query ≡ observer.old.query }
    ensures shape { observer.new.shape ≡ observer.old.shape }
    ensures cost { is_simple observer.old.query ≡ true → IfOk result (λ turns. steps.new ≤ steps.old + changes_between observer.old.at (length board.now.entries) board.now.entries) }
{
    let mut turns = Vec::new(alloc);
    loop {
        let turn = observer.turn(alloc, board, steps)?;
        let still = is_still(&turn);
        turns.push(turn)?;
        if still {
            return Ok(turns);
        }
    }
}
