//! The tables that the `on`s of conditions name.
ghost use Rattle.std.specs.Prelude.{◌≡◌, IfOk, OnOk, ◌==◌};
ghost use Rattle.std.specs.List.{list_any};
ghost use Rattle.melon_query.specs.Meaning.{ons};
ghost use Rattle.melon_query.specs.Fresh.{all_ons, with_table, with_tables, joined_tables};

use melon_query::{Cond, Joined};
use std::alloc::{AllocError, Global};

fn has_table(joined: &[Joined], table: usize) -> bool
    ensures { result ≡ list_any (λ one. one.table == table) joined.now }
{
    joined.iter().any(|one| one.table == table)
}

fn add_table(new: Joined, joined: &mut Vec<Joined>) -> Result<(), AllocError>
    ensures { OnOk result (joined.new.items ≡ with_table joined.old.items new) }
{
    if has_table(joined.as_slice(), new.table) {
        return Ok(());
    }
    joined.push(new)?;
    Ok(())
}

#[cycle(adding)]
#[tactic(auto, using(melon_query::proofs::Ons::equations))]
fn add_tables(cond: &Cond, joined: &mut Vec<Joined>) -> Result<(), AllocError>
    ensures { OnOk result (joined.new.items ≡ with_tables joined.old.items (ons cond.now)) }
{
    match cond {
        Cond::Compare(_) => Ok(()),
        Cond::All(parts) => add_all_tables(parts.as_slice(), joined),
        Cond::Any(parts) => add_all_tables(parts.as_slice(), joined),
        Cond::On {
            table,
            join,
            conds: _,
        } => {
            let new = Joined {
                table: *table,
                join: *join,
            };
            add_table(new, joined)
        }
    }
}

#[cycle(adding)]
fn add_all_tables(conds: &[Cond], joined: &mut Vec<Joined>) -> Result<(), AllocError>
    ensures { OnOk result (joined.new.items ≡ with_tables joined.old.items (all_ons conds.now)) }
{
    for cond in conds {
        add_tables(cond, joined)?;
    }
    Ok(())
}

/// Each table that an `on` names, once.
#[tactic(auto, unfolding(melon_query::specs::Fresh::joined_tables))]
pub fn joined_tables(alloc: Global, conds: &[Cond]) -> Result<Vec<Joined>, AllocError>
    ensures { IfOk result (λ joined. joined.items ≡ joined_tables conds.now) }
{
    let mut joined = Vec::new(alloc);
    add_all_tables(conds, &mut joined)?;
    Ok(joined)
}
