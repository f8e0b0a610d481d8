//! When a condition holds of a row and the rows that are joined with it.
ghost use Rattle.std.specs.Prelude.{◌≡◌, Some, None, map};
ghost use Rattle.std.specs.Option.{option_copied};
ghost use Rattle.melon_query.specs.Tuples.{alone, member_of};
ghost use Rattle.melon_query.specs.Meaning.{holds, all_hold, some_holds, all_hold_of};
ghost use Rattle.melon_query.specs.Truth.{compares};
ghost use Rattle.melon_eval.specs.Chosen.{tuple_of, seen_members};

use crate::truth::compares;
use melon_query::Cond;
use melon_raw::Raw;

/// The row that was chosen of a joined table, or the absent row.
#[derive(Clone, Copy, Debug, Drop)]
pub struct Member<'a> {
    pub table: usize,
    pub row: Option<&'a Raw>,
}

fn member_of<'a>(table: usize, members: &[Member<'a>]) -> Option<&'a Raw>
    ensures { option_copied result ≡ member_of table (seen_members members.now) }
{
    for member in members {
        if member.table == table {
            return member.row;
        }
    }
    None
}

/// Whether a condition is true of a main row and its members.
#[cycle(matching)]
#[tactic(auto, using(crate::proofs::Meanings::equations))]
pub fn holds(cond: &Cond, row: &Raw, members: &[Member<'_>]) -> bool
    ensures { result ≡ holds cond.now (tuple_of row.now members.now) }
{
    match cond {
        Cond::Compare(by) => compares(by, row),
        Cond::All(parts) => all_hold(parts.as_slice(), row, members),
        Cond::Any(parts) => some_holds(parts.as_slice(), row, members),
        Cond::On {
            table,
            join: _,
            conds,
        } => { all_hold_of(conds.as_slice(), member_of(*table, members)) }
    }
}

#[cycle(matching)]
pub fn all_hold(conds: &[Cond], row: &Raw, members: &[Member<'_>]) -> bool
    ensures { result ≡ all_hold conds.now (tuple_of row.now members.now) }
{
    for cond in conds {
        if !holds(cond, row, members) {
            return false;
        }
    }
    true
}

#[cycle(matching)]
fn some_holds(conds: &[Cond], row: &Raw, members: &[Member<'_>]) -> bool
    ensures { result ≡ some_holds conds.now (tuple_of row.now members.now) }
{
    for cond in conds {
        if holds(cond, row, members) {
            return true;
        }
    }
    false
}

#[cycle(matching)]
fn all_hold_of(conds: &[Cond], row: Option<&Raw>) -> bool
    ensures { result ≡ all_hold_of conds.now (option_copied row.entry) }
{
    match row {
        Some(row) => all_hold(conds, row, &[]),
        None => false,
    }
}

/// Whether a condition without `on` is true of a row.
pub fn matches(cond: &Cond, row: &Raw) -> bool
    ensures { result ≡ holds cond.now (alone row.now) }
{
    holds(cond, row, &[])
}
