//! What relations of an app's rows give.
ghost use Rattle.std.specs.Prelude.{◌≡◌, ◌∷◌, IfOk, false};
ghost use Rattle.melon_schema.specs.Faults.{Gives};
ghost use Rattle.melon_relation.specs.Children.{children_told};
ghost use Rattle.melon_relation.specs.Relations.{parent_told};
ghost use Rattle.melon_machine.specs.Calls.{Done};
ghost use Rattle.melon_machine.specs.Refusals.{is_of_keeper};
ghost use Rattle.melon_machine.specs.State.{as_kept};
ghost use Rattle.melon_machine.specs.Apps.{on_app, looks, on_id, parent_item, parent_shown, children_item, children_shown};
ghost use Rattle.melon_machine.specs.Outcomes.{stepped};

use crate::app::App;
use crate::apps::place_of;
use crate::ids::id_of;
use crate::refusals::{app_refusal, id_refusal, relation_refusal, table_refusal};
use crate::shown::given_parent;
use melon_board::Store;
use melon_eval::run;
use melon_raw::{Id, Steps};
use melon_relation::RelationFault;
use melon_schema::{List, Text, Twin};
use melon_script::Item;
use std::alloc::{AllocError, Global};
use std::sync::ledger::Ledger;

/// The row to which a row belongs, or why there is none.
fn parent_item(
    store: &Store,
    alloc: Global,
    app: &Text,
    table: usize,
    id: &Id,
    to: usize,
) -> Result<Item, AllocError>
    ensures item { IfOk result (λ item. item ≡ parent_item app.now store.now to (parent_told store.now.schema.tables store.now.rows table id.now to)) }
    ensures quiet { IfOk result (λ item. is_of_keeper item ≡ false) }
{
    let schema = store.schema();
    match melon_relation::parent(alloc, store.board(), schema, table, id, to) {
        Ok(parent) => Ok(Item::Parent {
            app: app.copy(alloc)?,
            given: given_parent(alloc, schema, to, &parent)?,
        }),
        Err(RelationFault::Memory) => Err(AllocError),
        Err(fault) => Ok(relation_refusal(alloc, fault)),
    }
}

fn parent_of_id(
    store: &Store,
    alloc: Global,
    app: &Text,
    table: usize,
    id: &Text,
    to: usize,
) -> Result<Item, AllocError>
    ensures item { IfOk result (λ item. item ≡ on_id id.now (parent_item app.now store.now to (parent_told store.now.schema.tables store.now.rows table id.now to))) }
    ensures quiet { IfOk result (λ item. is_of_keeper item ≡ false) }
{
    match id_of(alloc, id)? {
        Some(id) => parent_item(store, alloc, app, table, &id, to),
        None => Ok(id_refusal(alloc)),
    }
}

fn parent_shown(
    opened: &App,
    alloc: Global,
    app: &Text,
    table: &Text,
    id: &Text,
    to: &Text,
) -> Result<Item, AllocError>
    ensures item { IfOk result (λ item. item ≡ parent_shown app.now table.now id.now to.now opened.now.store) }
    ensures quiet { IfOk result (λ item. is_of_keeper item ≡ false) }
{
    let store = &opened.store;
    match store.schema().table(table.as_str()) {
        Some(own) => match store.schema().table(to.as_str()) {
            Some(other) => parent_of_id(store, alloc, app, own, id, other),
            None => table_refusal(alloc, to),
        },
        None => table_refusal(alloc, table),
    }
}

/// The row to which a row belongs.
pub fn parent(
    apps: &[App],
    alloc: Global,
    app: &Text,
    table: &Text,
    id: &Text,
    to: &Text,
) -> Result<Item, AllocError>
    ensures item { IfOk result (λ item. on_app as_kept apps.now app.now (looks as_kept (parent_shown app.now table.now id.now to.now)) ≡ Done (stepped apps.now item)) }
    ensures quiet { IfOk result (λ item. is_of_keeper item ≡ false) }
{
    match place_of(apps, app.as_str()) {
        Some(place) => parent_shown(&apps[place], alloc, app, table, id, to),
        None => app_refusal(alloc, 2, app),
    }
}

/// The ids of the rows that belong to a record.
fn children_ids<L: Ledger>(
    store: &Store,
    alloc: Global,
    table: usize,
    id: &Id,
    to: usize,
    steps: &mut Steps<L>,
) -> Result<List<Id>, RelationFault>
    ensures { Gives RelationFault.Memory result (children_told store.now.schema.tables store.now.rows table id.now to) }
{
    let query = melon_relation::children(alloc, store.schema(), table, id, to)?;
    Ok(run(alloc, &query, store.board().tables(), steps)?)
}

fn children_item<L: Ledger>(
    store: &Store,
    alloc: Global,
    app: &Text,
    table: usize,
    id: &Id,
    to: usize,
    steps: &mut Steps<L>,
) -> Result<Item, AllocError>
    ensures item { IfOk result (λ item. item ≡ children_item app.now (children_told store.now.schema.tables store.now.rows table id.now to)) }
    ensures quiet { IfOk result (λ item. is_of_keeper item ≡ false) }
{
    match children_ids(store, alloc, table, id, to, steps) {
        Ok(ids) => Ok(Item::Children {
            app: app.copy(alloc)?,
            ids,
        }),
        Err(RelationFault::Memory) => Err(AllocError),
        Err(fault) => Ok(relation_refusal(alloc, fault)),
    }
}

fn children_of_id<L: Ledger>(
    store: &Store,
    alloc: Global,
    app: &Text,
    table: usize,
    id: &Text,
    to: usize,
    steps: &mut Steps<L>,
) -> Result<Item, AllocError>
    ensures item { IfOk result (λ item. item ≡ on_id id.now (children_item app.now (children_told store.now.schema.tables store.now.rows table id.now to))) }
    ensures quiet { IfOk result (λ item. is_of_keeper item ≡ false) }
{
    match id_of(alloc, id)? {
        Some(id) => children_item(store, alloc, app, table, &id, to, steps),
        None => Ok(id_refusal(alloc)),
    }
}

fn children_shown<L: Ledger>(
    opened: &App,
    alloc: Global,
    app: &Text,
    table: &Text,
    id: &Text,
    to: &Text,
    steps: &mut Steps<L>,
) -> Result<Item, AllocError>
    ensures item { IfOk result (λ item. item ≡ children_shown app.now table.now id.now to.now opened.now.store) }
    ensures quiet { IfOk result (λ item. is_of_keeper item ≡ false) }
{
    let store = &opened.store;
    match store.schema().table(table.as_str()) {
        Some(own) => match store.schema().table(to.as_str()) {
            Some(other) => children_of_id(store, alloc, app, own, id, other, steps),
            None => table_refusal(alloc, to),
        },
        None => table_refusal(alloc, table),
    }
}

/// The ids of the rows that belong to a record, ascending.
pub fn children<L: Ledger>(
    apps: &[App],
    alloc: Global,
    app: &Text,
    table: &Text,
    id: &Text,
    to: &Text,
    steps: &mut Steps<L>,
) -> Result<Item, AllocError>
    ensures item { IfOk result (λ item. on_app as_kept apps.now app.now (looks as_kept (children_shown app.now table.now id.now to.now)) ≡ Done (stepped apps.now item)) }
    ensures quiet { IfOk result (λ item. is_of_keeper item ≡ false) }
{
    match place_of(apps, app.as_str()) {
        Some(place) => children_shown(&apps[place], alloc, app, table, id, to, steps),
        None => app_refusal(alloc, 2, app),
    }
}
