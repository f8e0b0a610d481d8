//! Simple queries, and the tables that a query reads.
ghost use Rattle.std.specs.Prelude.{◌≡◌, ◌<◌, ◌++◌, filter, nat_lt, IfOk, OnOk, not};
ghost use Rattle.melon_query.specs.Meaning.{ons};
ghost use Rattle.melon_query.specs.Fresh.{all_ons};
ghost use Rattle.melon_query.specs.Simple.{has_on, one_has_on, is_simple, with_place, with_places, tables_of};

use crate::{Cond, Query};
use melon_schema::List;
use std::alloc::{AllocError, Global};

#[cycle(finding)]
#[tactic(auto, using(crate::proofs::Ons::has_on_equations))]
fn has_on(cond: &Cond) -> bool
    ensures { result ≡ has_on cond.now }
{
    match cond {
        Cond::Compare(_) => false,
        Cond::All(parts) => one_has_on(parts.as_slice()),
        Cond::Any(parts) => one_has_on(parts.as_slice()),
        Cond::On {
            table: _,
            join: _,
            conds: _,
        } => true,
    }
}

#[cycle(finding)]
fn one_has_on(conds: &[Cond]) -> bool
    ensures { result ≡ one_has_on conds.now }
{
    for cond in conds {
        if has_on(cond) {
            return true;
        }
    }
    false
}

/// The places below this one, put behind those of another list.
fn add_below(places: &[usize], place: usize, all: &mut List<usize>) -> Result<(), AllocError>
    ensures { OnOk result (all.new ≡ all.old ++ filter (λ p. nat_lt p place) places.now) }
{
    for one in places {
        if *one < place {
            all.push(*one)?;
        }
    }
    Ok(())
}

fn add_above(places: &[usize], place: usize, all: &mut List<usize>) -> Result<(), AllocError>
    ensures { OnOk result (all.new ≡ all.old ++ filter (λ p. nat_lt place p) places.now) }
{
    for one in places {
        if place < *one {
            all.push(*one)?;
        }
    }
    Ok(())
}

fn with_place(alloc: Global, places: &[usize], place: usize) -> Result<List<usize>, AllocError>
    ensures { IfOk result (λ all. all ≡ with_place places.now place) }
{
    let mut all = List::new(alloc);
    add_below(places, place, &mut all)?;
    all.push(place)?;
    add_above(places, place, &mut all)?;
    Ok(all)
}

#[cycle(adding)]
#[tactic(auto, using(crate::proofs::Ons::equations))]
fn with_tables(alloc: Global, places: List<usize>, cond: &Cond) -> Result<List<usize>, AllocError>
    ensures { IfOk result (λ all. all ≡ with_places places (ons cond.now)) }
{
    match cond {
        Cond::Compare(_) => Ok(places),
        Cond::All(parts) => with_all_tables(alloc, places, parts.as_slice()),
        Cond::Any(parts) => with_all_tables(alloc, places, parts.as_slice()),
        Cond::On {
            table,
            join: _,
            conds: _,
        } => with_place(alloc, places.as_slice(), *table),
    }
}

#[cycle(adding)]
fn with_all_tables(
    alloc: Global,
    mut places: List<usize>,
    conds: &[Cond],
) -> Result<List<usize>, AllocError>
    ensures { IfOk result (λ all. all ≡ with_places places (all_ons conds.now)) }
{
    for cond in conds {
        places = with_tables(alloc, places, cond)?;
    }
    Ok(places)
}

impl Query {
    /// Whether it has no `on`, no sort, no take and no skip, so that each row is chosen by itself.
    #[tactic(auto, unfolding(crate::specs::Simple::is_simple))]
    pub fn is_simple(&self) -> bool
        ensures { result ≡ is_simple self.now }
    {
        !one_has_on(self.conds.as_slice())
            && self.sort.len() == 0
            && self.take.is_none()
            && self.skip == 0
    }

    /// The places of the main table and of the tables of its `on`s, ascending, each once.
    pub fn tables(&self, alloc: Global) -> Result<List<usize>, AllocError>
        ensures { IfOk result (λ places. places ≡ tables_of self.now) }
    {
        let mut places = List::new(alloc);
        places.push(self.table)?;
        with_all_tables(alloc, places, self.conds.as_slice())
    }
}
