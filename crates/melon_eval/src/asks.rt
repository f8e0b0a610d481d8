//! What the `on`s of a query's conditions ask of the rows of their tables.
ghost use Rattle.std.specs.Prelude.{◌≡◌, ◌++◌, ◌∷◌, [], Some, IfOk, OnOk, filter};
ghost use Rattle.melon_query.specs.Meaning.{every_of};
ghost use Rattle.melon_eval.specs.Asking.{read, asks_of, asks_nothing, asks_something, meets_any, is_below};
ghost use Rattle.melon_eval.specs.Seen.{seen_ask, seen_asks, conds_at};
ghost use Rattle.melon_eval.specs.Parts.{AreParts};

use crate::matching::all_hold;
use melon_query::Cond;
use melon_raw::Raw;
use std::alloc::{AllocError, Global};

/// An `on`: its table, and the conditions that are to hold of a row of it.
#[derive(Clone, Copy, Drop)]
pub struct Ask<'q> {
    pub table: usize,
    pub conds: &'q [Cond],
}

/// The conditions of a query, those without an `on` apart from the others, and what the `on`s ask.
#[derive(Drop)]
pub struct Parts<'q> {
    pub plain: Vec<&'q Cond>,
    pub joining: Vec<&'q Cond>,
    pub asks: Vec<Ask<'q>>,
}

#[cycle(asking)]
#[tactic(auto, using(crate::proofs::Askings::equations))]
fn add_asks<'q>(cond: &'q Cond, asks: &mut Vec<Ask<'q>>) -> Result<(), AllocError>
    ensures { OnOk result (seen_asks asks.new.items ≡ seen_asks asks.old.items ++ (read cond.now).asks) }
{
    match cond {
        Cond::Compare(_) => Ok(()),
        Cond::All(parts) => add_all_asks(parts.as_slice(), asks),
        Cond::Any(parts) => add_all_asks(parts.as_slice(), asks),
        Cond::On {
            table,
            join: _,
            conds,
        } => {
            asks.push(Ask {
                table: *table,
                conds: conds.as_slice(),
            })?;
            Ok(())
        }
    }
}

#[cycle(asking)]
fn add_all_asks<'q>(conds: &'q [Cond], asks: &mut Vec<Ask<'q>>) -> Result<(), AllocError>
    ensures { OnOk result (seen_asks asks.new.items ≡ seen_asks asks.old.items ++ asks_of conds.now) }
{
    for cond in conds {
        add_asks(cond, asks)?;
    }
    Ok(())
}

fn add_cond<'q>(cond: &'q Cond, parts: &mut Parts<'q>) -> Result<(), AllocError>
    ensures plain { OnOk result (conds_at parts.new.plain.items ≡ conds_at parts.old.plain.items ++ filter asks_nothing (cond.now ∷ [])) }
    ensures joining { OnOk result (conds_at parts.new.joining.items ≡ conds_at parts.old.joining.items ++ filter asks_something (cond.now ∷ [])) }
    ensures asks { OnOk result (seen_asks parts.new.asks.items ≡ seen_asks parts.old.asks.items ++ (read cond.now).asks) }
{
    let before = parts.asks.len();
    add_asks(cond, &mut parts.asks)?;
    if parts.asks.len() == before {
        parts.plain.push(cond)?;
    } else {
        parts.joining.push(cond)?;
    }
    Ok(())
}

pub fn parts_of<'q>(alloc: Global, conds: &'q [Cond]) -> Result<Parts<'q>, AllocError>
    ensures { IfOk result (AreParts conds.now) }
{
    let mut parts = Parts {
        plain: Vec::new(alloc),
        joining: Vec::new(alloc),
        asks: Vec::new(alloc),
    };
    for cond in conds {
        add_cond(cond, &mut parts)?;
    }
    Ok(parts)
}

fn is_met(ask: Ask<'_>, row: &Raw) -> bool
    ensures { result ≡ every_of (seen_ask ask.entry).parts (Some row.now) }
{
    all_hold(ask.conds, row, &[])
}

/// Whether some `on` of a table is true of a row.
pub fn meets_any(asks: &[Ask<'_>], table: usize, row: &Raw) -> bool
    ensures { result ≡ meets_any (seen_asks asks.now) table (Some row.now) }
{
    for ask in asks {
        if ask.table == table {
            if is_met(*ask, row) {
                return true;
            }
        }
    }
    false
}

/// Whether each `on` of a table that is true of a row is true of another.
pub fn is_below(asks: &[Ask<'_>], table: usize, row: &Raw, other: &Raw) -> bool
    ensures { result ≡ is_below (seen_asks asks.now) table (Some row.now) (Some other.now) }
{
    for ask in asks {
        if ask.table == table {
            if !(is_met(*ask, other) || !is_met(*ask, row)) {
                return false;
            }
        }
    }
    true
}
