//! The named cells of rows.
ghost use Rattle.std.specs.Prelude.{◌≡◌, ◌++◌, ◌<◌, IfOk, OnOk};
ghost use Rattle.std.specs.Option.{option_map, option_to_list};
ghost use Rattle.melon_raw.specs.Rows.{at_id};
ghost use Rattle.melon_query.specs.Shown.{shown_row};
ghost use Rattle.melon_eval.specs.Projected.{projected};

use melon_query::Shown;
use melon_raw::steps::new_counter;
use melon_raw::{Id, Steps};
use melon_schema::List;
use melon_table::Table;
use std::alloc::{AllocError, Global};
use std::marker::Brand;
use std::sync::ledger::{Blank, Ledger};

fn add_shown<L: Ledger>(
    alloc: Global,
    columns: &[usize],
    id: &Id,
    table: &Table,
    all: &mut List<Shown>,
    steps: &mut Steps<L>,
) -> Result<(), AllocError>
    ensures { OnOk result (all.new ≡ all.old ++ option_to_list (option_map (shown_row columns.now) (at_id id.now table.now.rows))) }
{
    match table.get(id, steps) {
        Some(row) => all.push(Shown::of(alloc, columns, row)?),
        None => Ok(()),
    }
}

#[tactic(auto, unfolding(crate::specs::Projected::projected))]
fn project_counted<L: Ledger>(
    alloc: Global,
    counter: Blank,
    columns: &[usize],
    ids: &[Id],
    table: &Table,
) -> Result<List<Shown>, AllocError>
    requires name { counter.name ≡ L.name }
    requires parts { counter.parts ≡ L.parts }
    requires shared { 0 < counter.parts }
    ensures { IfOk result (λ all. all ≡ projected columns.now ids.now table.now.rows) }
{
    let mut steps = Steps::<L>::open(counter);
    let mut all = List::new(alloc);
    for id in ids {
        add_shown(alloc, columns, id, table, &mut all, &mut steps)?;
    }
    Ok(all)
}

/// The rows of ids with the cells of these columns, in the order of the ids. An id without a row is left out, and a
/// column past the last is null.
pub fn project(
    alloc: Global,
    columns: &List<usize>,
    ids: &List<Id>,
    table: &Table,
) -> Result<List<Shown>, AllocError>
    ensures { IfOk result (λ all. all ≡ projected columns.now ids.now table.now.rows) }
{
    project_counted::<Brand>(
        alloc,
        new_counter(),
        columns.as_slice(),
        ids.as_slice(),
        table,
    )
}
