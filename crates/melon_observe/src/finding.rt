//! The first entry that matters to an observer of a simple query.
ghost use Rattle.std.specs.Prelude.{◌≡◌, ◌+◌, ◌≤◌, length, IfSome};
ghost use Rattle.melon_observe.specs.Journals.{IsFound, changes_between, reached};

use crate::showing::matters;
use melon_board::{Board, Entry};
use melon_query::Query;
use melon_raw::Steps;
use melon_views::Shape;
use std::sync::ledger::Ledger;

/// The first entry of the journal after a position that matters, and its number.
pub fn first_on<'a, L: Ledger>(
    query: &Query,
    shape: &Shape,
    at: u64,
    board: &'a Board,
    steps: &mut Steps<L>,
) -> Option<(u64, &'a Entry)>
    ensures found { IsFound query.now shape.now board.now.entries at result }
    ensures cost { steps.new ≤ steps.old + changes_between at (reached (length board.now.entries) result) board.now.entries }
{
    for place in at as usize..board.len() {
        let entry = board.entry(place, steps);
        if matters(query, shape, entry.set.as_slice()) {
            return Some((place as u64 + 1, entry));
        }
    }
    None
}

/// The first of these entries that matters, and its number among them.
pub fn first_in<'a>(query: &Query, shape: &Shape, tail: &'a [Entry]) -> Option<(u64, &'a Entry)>
    ensures found { IsFound query.now shape.now tail.now 0 result }
    ensures within { IfSome result (λ found. found.0 ≤ length tail.now) }
{
    for place in 0..tail.len() {
        let entry = &tail[place];
        if matters(query, shape, entry.set.as_slice()) {
            return Some((place as u64 + 1, entry));
        }
    }
    None
}
