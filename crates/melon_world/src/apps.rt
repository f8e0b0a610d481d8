//! Opening and closing apps.
ghost use Rattle.std.specs.Prelude.{◌≡◌, ◌+◌, [], length, IfOk, OnErr, Ok, false};
ghost use Rattle.serde_json.specs.View.{view};
ghost use Rattle.melon_schema.specs.Schema.{schema_of};
ghost use Rattle.melon_table.specs.Seen.{rows_of};
ghost use Rattle.melon_machine.specs.Refusals.{is_of_keeper};
ghost use Rattle.melon_machine.specs.State.{as_kept, kept_app, no_writers};
ghost use Rattle.melon_machine.specs.Apps.{place_of, open_fault, opens_under, open_step, close_step, row_count};
ghost use Rattle.melon_machine.specs.Outcomes.{stepped};
ghost use Rattle.melon_world.specs.Handled.{IsHandled};

use crate::app::App;
use crate::refusals::{app_refusal, open_refusal, schema_refusal};
use melon_board::Store;
use melon_outside::Keeper;
use melon_queue::Queue;
use melon_schema::names::is_name;
use melon_schema::{AppSchema, SchemaFault, Text, Twin};
use melon_script::Item;
use melon_table::Tables;
use serde_json::Value;
use std::alloc::{AllocError, Global};

/// The most apps that are open at once.
const MOST_APPS: usize = 4;

/// The place of the open app of that name.
pub fn place_of(apps: &[App], name: &str) -> Option<usize>
    ensures { result ≡ place_of as_kept name.now apps.now }
{
    apps.iter().position(|app| app.store.name() == name)
}

/// The number of the refusal to open an app of that name.
fn open_fault(apps: &[App], name: &str) -> Option<u64>
    ensures { result ≡ open_fault as_kept apps.now name.now }
{
    if !is_name(name) {
        return Some(4);
    }
    if place_of(apps, name).is_some() {
        return Some(1);
    }
    if apps.len() >= MOST_APPS {
        return Some(3);
    }
    None
}

/// How many rows there are in all tables. A count at its type's end stands still.
fn row_count(tables: &Tables) -> u64
    ensures { result ≡ row_count (rows_of tables.now) }
{
    let mut count: u64 = 0;
    for place in 0..tables.len() {
        count = count.saturating_add(tables.of(place).len() as u64);
    }
    count
}

/// An app whose queue nobody has entered, without observers.
fn just_opened(alloc: Global, store: Store) -> App
    ensures { result ≡ kept_app store no_writers [] }
{
    App {
        store,
        queue: Queue::new(alloc),
        observers: Vec::new(alloc),
    }
}

/// Opens an app under a schema. All other memory is taken before the keeper is asked.
fn open_under<K: Keeper>(
    apps: &mut Vec<App>,
    alloc: Global,
    keeper: &mut K,
    app: &Text,
    schema: AppSchema,
) -> Result<Item, AllocError>
    ensures { IsHandled (opens_under as_kept apps.old.items app.now (Ok schema)) (stepped apps.new.items) is_of_keeper (K.seen keeper.old) (K.seen keeper.new) apps.old.items apps.new.items result }
{
    apps.reserve(1)?;
    let name = app.copy(alloc)?;
    match Store::open(alloc, keeper, app.as_str(), schema) {
        Ok(store) => {
            let rows = row_count(store.board().tables());
            let last = store.last();
            apps.push_reserved(just_opened(alloc, store));
            Ok(Item::Open {
                app: name,
                rows,
                last,
            })
        }
        Err(fault) => open_refusal(alloc, fault),
    }
}

/// Opens an app, where nothing refuses its name.
#[tactic(auto, using(crate::proofs::Meeting::handled_unasked))]
fn open_named<K: Keeper>(
    apps: &mut Vec<App>,
    alloc: Global,
    keeper: &mut K,
    app: &Text,
    json: &Value,
) -> Result<Item, AllocError>
    ensures { IsHandled (opens_under as_kept apps.old.items app.now (schema_of (view json.now))) (stepped apps.new.items) is_of_keeper (K.seen keeper.old) (K.seen keeper.new) apps.old.items apps.new.items result }
{
    match AppSchema::read(alloc, json) {
        Ok(schema) => open_under(apps, alloc, keeper, app, schema),
        Err(SchemaFault::Memory) => Err(AllocError),
        Err(fault) => Ok(schema_refusal(alloc, fault)),
    }
}

/// Opens an app over what the keeper keeps of its store.
#[tactic(auto, using(crate::proofs::Meeting::handled_unasked))]
pub fn open<K: Keeper>(
    apps: &mut Vec<App>,
    alloc: Global,
    keeper: &mut K,
    app: &Text,
    json: &Value,
) -> Result<Item, AllocError>
    ensures { IsHandled (open_step as_kept apps.old.items app.now (view json.now)) (stepped apps.new.items) is_of_keeper (K.seen keeper.old) (K.seen keeper.new) apps.old.items apps.new.items result }
{
    match open_fault(apps.as_slice(), app.as_str()) {
        Some(number) => app_refusal(alloc, number, app),
        None => open_named(apps, alloc, keeper, app, json),
    }
}

/// Closes an app: its opening ends, and its store stays kept.
pub fn close(apps: &mut Vec<App>, alloc: Global, app: &Text) -> Result<Item, AllocError>
    ensures closed { IfOk result (λ item. close_step as_kept apps.old.items app.now ≡ stepped apps.new.items item) }
    ensures quiet { IfOk result (λ item. is_of_keeper item ≡ false) }
    ensures same { OnErr result (apps.new.items ≡ apps.old.items) }
{
    match place_of(apps.as_slice(), app.as_str()) {
        Some(place) => {
            let name = app.copy(alloc)?;
            apps.remove(place);
            Ok(Item::Close { app: name })
        }
        None => app_refusal(alloc, 2, app),
    }
}
