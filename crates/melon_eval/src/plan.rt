//! How the conditions of a query are tried on a main row.
ghost use Rattle.std.specs.Prelude.{◌≡◌, [], IfOk, OnOk};
ghost use Rattle.melon_table.specs.Seen.{rows_of as all_rows};
ghost use Rattle.melon_eval.specs.Seen.{seen_asks};
ghost use Rattle.melon_eval.specs.Trials.{seen_offers};
ghost use Rattle.melon_eval.specs.Sources.{all_offered};
ghost use Rattle.melon_eval.specs.Planned.{planned, IsPlan};

use crate::asks::{Ask, Parts, parts_of};
use crate::joined::joined_tables;
use crate::matching::Member;
use crate::sources::{Source, offer, sources_of};
use crate::walk::{Offer, all_of_hold, some_offered};
use melon_query::Cond;
use melon_raw::{Raw, Steps};
use melon_table::Tables;
use std::alloc::{AllocError, Global};
use std::sync::ledger::Ledger;

/// The conditions, and a source for each joined table.
#[derive(Drop)]
pub struct Plan<'q, 'a> {
    pub parts: Parts<'q>,
    pub sources: Vec<Source<'a>>,
}

/// What is used again from one main row to the next.
#[derive(Drop)]
pub struct Scratch<'s, 'a> {
    pub offers: Vec<Offer<'s, 'a>>,
    pub members: Vec<Member<'a>>,
}

/// Takes conditions apart, and goes once over each joined table whose rows hold the main row's id.
pub fn plan_of<'q, 'a, L: Ledger>(
    alloc: Global,
    conds: &'q [Cond],
    tables: &'a Tables,
    steps: &mut Steps<L>,
) -> Result<Plan<'q, 'a>, AllocError>
    ensures { IfOk result (IsPlan conds.now (all_rows tables.now)) }
{
    let parts = parts_of(alloc, conds)?;
    let joined = joined_tables(alloc, conds)?;
    let sources = sources_of(
        alloc,
        parts.asks.as_slice(),
        joined.as_slice(),
        tables,
        steps,
    )?;
    Ok(Plan { parts, sources })
}

fn offer_all<'s, 'a, L: Ledger>(
    sources: &'s [Source<'a>],
    asks: &[Ask<'_>],
    main: &Raw,
    offers: &mut Vec<Offer<'s, 'a>>,
    steps: &mut Steps<L>,
) -> Result<(), AllocError>
    ensures { OnOk result (seen_offers offers.new.items ≡ all_offered (seen_asks asks.now) sources.now main.now) }
{
    offers.clear();
    for source in sources {
        offers.push(offer(source, asks, main, steps))?;
    }
    Ok(())
}

/// Whether a main row is visible and its conditions hold of it: first those without an `on`.
pub fn is_chosen<'s, 'a, L: Ledger>(
    plan: &'s Plan<'_, 'a>,
    main: &Raw,
    scratch: &mut Scratch<'s, 'a>,
    steps: &mut Steps<L>,
) -> Result<bool, AllocError>
    requires { scratch.old.members.items ≡ [] }
    ensures chosen { IfOk result (λ chosen. chosen ≡ planned plan.now main.now) }
    ensures members { OnOk result (scratch.new.members.items ≡ []) }
{
    let parts = &plan.parts;
    if !main.is_visible() || !all_of_hold(parts.plain.as_slice(), main, &[]) {
        return Ok(false);
    }
    offer_all(
        plan.sources.as_slice(),
        parts.asks.as_slice(),
        main,
        &mut scratch.offers,
        steps,
    )?;
    let joining = parts.joining.as_slice();
    let offers = scratch.offers.as_slice();
    some_offered(joining, main, &mut scratch.members, offers)
}
