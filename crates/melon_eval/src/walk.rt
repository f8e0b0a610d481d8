//! Whether some tuple of a main row makes conditions true.
ghost use Rattle.std.specs.Prelude.{◌≡◌, ◌++◌, ◌∷◌, [], Some, None, IfOk, OnOk, MatchOption, length, ◌+◌};
ghost use Rattle.std.specs.Option.{option_copied};
ghost use Rattle.melon_query.specs.Meaning.{all_hold};
ghost use Rattle.melon_eval.specs.Seen.{conds_at};
ghost use Rattle.melon_eval.specs.Chosen.{tuple_of, seen_members, with_choice};
ghost use Rattle.melon_eval.specs.Offers.{some_offered};
ghost use Rattle.melon_eval.specs.Trials.{seen_offers};

use crate::matching::{Member, holds};
use melon_query::Cond;
use melon_raw::Raw;
use std::alloc::AllocError;

/// The rows of a joined table that are tried for a main row. Without a first one the absent row is tried.
#[derive(Clone, Copy, Drop)]
pub struct Offer<'s, 'a> {
    pub table: usize,
    pub first: Option<&'a Raw>,
    pub others: &'s [&'a Raw],
}

/// Whether each condition is true of a row and its members.
pub fn all_of_hold(conds: &[&Cond], row: &Raw, members: &[Member<'_>]) -> bool
    ensures { result ≡ all_hold (conds_at conds.now) (tuple_of row.now members.now) }
{
    for cond in conds {
        if !holds(*cond, row, members) {
            return false;
        }
    }
    true
}

/// Whether some members that begin with the chosen ones make all conditions true of a main row. They are tried one after
/// another, up to the first that do.
#[cycle(walk)]
pub fn some_offered<'a>(
    conds: &[&Cond],
    main: &Raw,
    chosen: &mut Vec<Member<'a>>,
    offers: &[Offer<'_, 'a>],
) -> Result<bool, AllocError>
    ensures found { IfOk result
        (λ found. found ≡ some_offered (conds_at conds.now) main.now (seen_members chosen.old.items) (seen_offers offers.now)) }
    ensures chosen { OnOk result (chosen.new.items ≡ chosen.old.items) }
{
    let Some((offer, later)) = offers.split_first() else {
        return Ok(all_of_hold(conds, main, chosen.as_slice()));
    };
    if some_offered_with(conds, main, chosen, offer.table, offer.first, later)? {
        return Ok(true);
    }
    for row in offer.others {
        if some_offered_with(conds, main, chosen, offer.table, Some(*row), later)? {
            return Ok(true);
        }
    }
    Ok(false)
}

#[cycle(walk)]
fn some_offered_with<'a>(
    conds: &[&Cond],
    main: &Raw,
    chosen: &mut Vec<Member<'a>>,
    table: usize,
    row: Option<&'a Raw>,
    later: &[Offer<'_, 'a>],
) -> Result<bool, AllocError>
    ensures found { IfOk result
        (λ found. found ≡ some_offered (conds_at conds.now) main.now (with_choice (seen_members chosen.old.items) table (option_copied row.entry)) (seen_offers later.now)) }
    ensures chosen { OnOk result (chosen.new.items ≡ chosen.old.items) }
{
    chosen.push(Member { table, row })?;
    let found = some_offered(conds, main, chosen, later)?;
    chosen.pop();
    Ok(found)
}
