//! What is shown of an app's rows.
ghost use Rattle.std.specs.Prelude.{◌≡◌, ◌<◌, map, IfOk, false};
ghost use Rattle.std.specs.Option.{option_copied};
ghost use Rattle.serde_json.specs.View.{view};
ghost use Rattle.melon_schema.specs.Places.{table_named};
ghost use Rattle.melon_table.specs.Seen.{rows_of};
ghost use Rattle.melon_query.specs.Reading.{query_of};
ghost use Rattle.melon_raw.specs.Encoding.{encoding};
ghost use Rattle.melon_raw.specs.Rows.{table_at};
ghost use Rattle.melon_machine.specs.Refusals.{is_of_keeper};
ghost use Rattle.melon_machine.specs.State.{as_kept};
ghost use Rattle.melon_machine.specs.Apps.{place_of, on_app, looks, answered, fetched, rows_shown, encodings_at};
ghost use Rattle.melon_machine.specs.Outcomes.{stepped};
ghost use Rattle.melon_machine.specs.Calls.{Done};

use crate::app::App;
use crate::apps::place_of;
use crate::refusals::{app_refusal, query_refusal, table_refusal};
use melon_board::Store;
use melon_eval::run;
use melon_query::{Query, QueryFault};
use melon_raw::Steps;
use melon_raw::steps::new_counter;
use melon_schema::{List, TableSchema, Text, Twin};
use melon_script::Item;
use melon_table::Table;
use serde_json::Value;
use std::alloc::{AllocError, Global};
use std::marker::Brand;
use std::sync::ledger::{Blank, Ledger};

fn encodings_counted<L: Ledger>(
    counter: Blank,
    alloc: Global,
    table: &Table,
    declared: &TableSchema,
) -> Result<List<List<u8>>, AllocError>
    requires name { counter.name ≡ L.name }
    requires parts { counter.parts ≡ L.parts }
    requires shared { 0 < counter.parts }
    ensures { IfOk result (λ bodies. bodies ≡ map (encoding declared.now) table.now.rows) }
{
    let mut steps = Steps::<L>::open(counter);
    let mut bodies = List::new(alloc);
    for place in 0..table.len() {
        let row = table.row(place, &mut steps);
        bodies.push(List::from_vec(row.encode(alloc, declared)?))?;
    }
    Ok(bodies)
}

/// The encodings of all rows, by ascending id.
fn encodings(
    alloc: Global,
    table: &Table,
    declared: &TableSchema,
) -> Result<List<List<u8>>, AllocError>
    ensures { IfOk result (λ bodies. bodies ≡ map (encoding declared.now) table.now.rows) }
{
    encodings_counted::<Brand>(new_counter(), alloc, table, declared)
}

/// The answer to a query over a declared table, or why it is none.
fn answered<L: Ledger>(
    store: &Store,
    alloc: Global,
    app: &Text,
    table: &Text,
    json: &Value,
    steps: &mut Steps<L>,
) -> Result<Item, AllocError>
    ensures item { IfOk result (λ item. item ≡ answered app.now store.now (query_of store.now.schema.tables table.now (view json.now))) }
    ensures quiet { IfOk result (λ item. is_of_keeper item ≡ false) }
{
    match Query::read(alloc, json, store.schema(), table.as_str()) {
        Ok(query) => Ok(Item::Fetch {
            app: app.copy(alloc)?,
            ids: run(alloc, &query, store.board().tables(), steps)?,
        }),
        Err(QueryFault::Memory) => Err(AllocError),
        Err(fault) => Ok(query_refusal(alloc, fault)),
    }
}

fn fetched<L: Ledger>(
    opened: &App,
    alloc: Global,
    app: &Text,
    table: &Text,
    json: &Value,
    steps: &mut Steps<L>,
) -> Result<Item, AllocError>
    ensures item { IfOk result (λ item. item ≡ fetched app.now table.now (view json.now) opened.now.store) }
    ensures quiet { IfOk result (λ item. is_of_keeper item ≡ false) }
{
    let store = &opened.store;
    match store.schema().table(table.as_str()) {
        Some(_) => answered(store, alloc, app, table, json, steps),
        None => table_refusal(alloc, table),
    }
}

fn rows_shown(opened: &App, alloc: Global, app: &Text, table: &Text) -> Result<Item, AllocError>
    ensures item { IfOk result (λ item. item ≡ rows_shown app.now table.now opened.now.store) }
    ensures quiet { IfOk result (λ item. is_of_keeper item ≡ false) }
{
    let store = &opened.store;
    match store.schema().table(table.as_str()) {
        Some(place) => {
            let tables = store.board().tables();
            Ok(Item::Rows {
                app: app.copy(alloc)?,
                table: table.copy(alloc)?,
                rows: encodings(alloc, tables.of(place), store.schema().at(place))?,
            })
        }
        None => table_refusal(alloc, table),
    }
}

/// The answer to a query: the ids of records, in their order.
pub fn fetch<L: Ledger>(
    apps: &[App],
    alloc: Global,
    app: &Text,
    table: &Text,
    query: &Value,
    steps: &mut Steps<L>,
) -> Result<Item, AllocError>
    ensures item { IfOk result (λ item. on_app as_kept apps.now app.now (looks as_kept (fetched app.now table.now (view query.now))) ≡ Done (stepped apps.now item)) }
    ensures quiet { IfOk result (λ item. is_of_keeper item ≡ false) }
{
    match place_of(apps, app.as_str()) {
        Some(place) => fetched(&apps[place], alloc, app, table, query, steps),
        None => app_refusal(alloc, 2, app),
    }
}

/// All rows of a table, those marked as deleted too.
pub fn rows(apps: &[App], alloc: Global, app: &Text, table: &Text) -> Result<Item, AllocError>
    ensures item { IfOk result (λ item. on_app as_kept apps.now app.now (looks as_kept (rows_shown app.now table.now)) ≡ Done (stepped apps.now item)) }
    ensures quiet { IfOk result (λ item. is_of_keeper item ≡ false) }
{
    match place_of(apps, app.as_str()) {
        Some(place) => rows_shown(&apps[place], alloc, app, table),
        None => app_refusal(alloc, 2, app),
    }
}
