//! Observers and watches are opened and dropped.
ghost use Rattle.std.specs.Prelude.{◌≡◌, [], ℕ, List as Sequence, map, position, bytes_eq, Some, IfOk, OnErr, false};
ghost use Rattle.serde_json.specs.View.{view};
ghost use Rattle.melon_schema.specs.Json.{each};
ghost use Rattle.melon_schema.specs.Names.{is_id};
ghost use Rattle.melon_schema.specs.Places.{table_named, column_named};
ghost use Rattle.melon_table.specs.Seen.{rows_of};
ghost use Rattle.melon_query.specs.Reading.{query_of};
ghost use Rattle.melon_schema.specs.Faults.{Gives};
ghost use Rattle.melon_relation.specs.Relations.{related};
ghost use Rattle.melon_world.specs.Handled.{watch_shown};
ghost use Rattle.melon_machine.specs.Calls.{Done};
ghost use Rattle.melon_machine.specs.Refusals.{is_of_keeper};
ghost use Rattle.melon_machine.specs.State.{as_kept, Answer, Owner, KeptObserver};
ghost use Rattle.melon_machine.specs.Apps.{told, on_app, place_in, taken_fault, unless_told, shape_in, with_place, with_table, watches, observes_as, observes, observe_app, watches_by, watches_id, watch_app, drops, drop_app};
ghost use Rattle.melon_machine.specs.Outcomes.{stepped};

use crate::app::App;
use crate::apps::place_of;
use crate::ids::id_of;
use crate::observer::{NamedObserver, Watching};
use crate::refusals::{
    app_refusal, id_refusal, observer_refusal, query_refusal, relation_refusal, shape_refusal,
    table_refusal,
};
use crate::shown::{columns_at, given_emission, given_parent};
use melon_board::Store;
use melon_observe::Observer;
use melon_query::{Query, QueryFault};
use melon_raw::Id;
use melon_relation::{ParentObserver, RelationFault};
use melon_schema::{ColumnSchema, List, Text, Twin};
use melon_script::{Given, Item, LineShape};
use melon_views::Shape;
use serde_json::Value;
use std::alloc::{AllocError, Global};

/// The most observers that an app has at once.
const MOST_OBSERVERS: usize = 64;

/// The place of the first observer of that name.
fn first_named(observers: &[NamedObserver], name: &str) -> Option<usize>
    ensures { result ≡ position (λ (o : KeptObserver). bytes_eq o.name name.now) observers.now }
{
    observers
        .iter()
        .position(|observer| observer.name.as_str() == name)
}

/// The place of the observer of that name.
pub fn place_in(observers: &[NamedObserver], name: &str) -> Option<usize>
    ensures { result ≡ place_in name.now (map (λ (o : KeptObserver). o.name) observers.now) }
{
    first_named(observers, name)
}

/// The number of the refusal to open another observer of that name.
fn taken_fault(observers: &[NamedObserver], name: &str) -> Option<u64>
    ensures { result ≡ taken_fault name.now (map (λ (o : KeptObserver). o.name) observers.now) }
{
    if place_in(observers, name).is_some() {
        return Some(1);
    }
    if observers.len() >= MOST_OBSERVERS {
        return Some(3);
    }
    None
}

// ---- an observer of a query

/// The place of the column of that name.
fn column_in(columns: &[ColumnSchema], name: &str) -> Option<usize>
    ensures { result ≡ column_named name.now columns.now }
{
    columns.iter().position(|column| column.name.is(name))
}

/// The places of the named columns, if each is declared.
fn places_of(
    alloc: Global,
    columns: &[ColumnSchema],
    names: &[Text],
) -> Result<Option<List<usize>>, AllocError>
    ensures { IfOk result (λ places. places ≡ each (λ name. column_named name columns.now) names.now) }
{
    let mut places = List::new(alloc);
    for name in names {
        match column_in(columns, name.as_str()) {
            Some(place) => places.push(place)?,
            None => return Ok(None),
        }
    }
    Ok(Some(places))
}

fn shape_in(
    alloc: Global,
    columns: &[ColumnSchema],
    shape: &LineShape,
) -> Result<Option<Shape>, AllocError>
    ensures { IfOk result (λ found. found ≡ shape_in columns.now shape.now) }
{
    match shape {
        LineShape::Ids => Ok(Some(Shape::Ids)),
        LineShape::Columns(names) => match places_of(alloc, columns, names.as_slice())? {
            Some(places) => Ok(Some(Shape::Columns(places))),
            None => Ok(None),
        },
    }
}

/// Opens an observer of a query under a name, and shows the answer.
fn observe_now(
    app: &mut App,
    alloc: Global,
    name: &Text,
    observer: Id,
    query: Query,
    shape: Shape,
) -> Result<Item, AllocError>
    ensures item { IfOk result (λ item. told app.new item ≡ watches as_kept name.now observer app.old (Answer query shape)) }
    ensures quiet { IfOk result (λ item. is_of_keeper item ≡ false) }
    ensures same { OnErr result (app.new ≡ app.old) }
{
    let app_name = name.copy(alloc)?;
    let said = observer.copy(alloc)?;
    app.observers.reserve(1)?;
    let board = app.store.board();
    let at = board.len() as u64;
    let (opened, emission) = Observer::open(alloc, query, shape, board)?;
    let columns = columns_at(app.store.schema(), opened.query().table);
    let given = given_emission(alloc, columns, opened.shape(), emission)?;
    let watching = Watching::Answer(opened);
    app.observers.push_reserved(NamedObserver {
        name: observer,
        watching,
    });
    Ok(Item::Emit {
        app: app_name,
        name: said,
        at,
        given,
    })
}

/// Reads the query and the shape, and opens an observer.
fn observe_read(
    app: &mut App,
    alloc: Global,
    name: &Text,
    observer: Id,
    place: usize,
    table: &Text,
    query: &Value,
    shape: &LineShape,
) -> Result<Item, AllocError>
    ensures item { IfOk result (λ item. told app.new item ≡ observes as_kept name.now observer app.old place shape.now (query_of app.old.store.schema.tables table.now (view query.now))) }
    ensures quiet { IfOk result (λ item. is_of_keeper item ≡ false) }
    ensures same { OnErr result (app.new ≡ app.old) }
{
    let schema = app.store.schema();
    match Query::read(alloc, query, schema, table.as_str()) {
        Ok(query) => match shape_in(alloc, columns_at(schema, place), shape)? {
            Some(shape) => observe_now(app, alloc, name, observer, query, shape),
            None => Ok(shape_refusal(alloc)),
        },
        Err(QueryFault::Memory) => Err(AllocError),
        Err(fault) => Ok(query_refusal(alloc, fault)),
    }
}

/// Opens an observer over a table of that name.
fn observe_table(
    app: &mut App,
    alloc: Global,
    name: &Text,
    observer: Id,
    table: &Text,
    query: &Value,
    shape: &LineShape,
) -> Result<Item, AllocError>
    ensures item { IfOk result (λ item. told app.new item ≡ with_table as_kept table.now app.old (λ t. observes as_kept name.now observer app.old t shape.now (query_of app.old.store.schema.tables table.now (view query.now)))) }
    ensures quiet { IfOk result (λ item. is_of_keeper item ≡ false) }
    ensures same { OnErr result (app.new ≡ app.old) }
{
    match app.store.schema().table(table.as_str()) {
        Some(place) => observe_read(app, alloc, name, observer, place, table, query, shape),
        None => table_refusal(alloc, table),
    }
}

/// Opens an observer under a name that has the form of one.
fn observe_named(
    app: &mut App,
    alloc: Global,
    name: &Text,
    observer: &Text,
    id: Id,
    table: &Text,
    query: &Value,
    shape: &LineShape,
) -> Result<Item, AllocError>
    requires { id ≡ observer.now }
    ensures item { IfOk result (λ item. told app.new item ≡ unless_told as_kept observer.now app.old (taken_fault observer.now (as_kept.observers app.old)) (with_table as_kept table.now app.old (λ t. observes as_kept name.now observer.now app.old t shape.now (query_of app.old.store.schema.tables table.now (view query.now))))) }
    ensures quiet { IfOk result (λ item. is_of_keeper item ≡ false) }
    ensures same { OnErr result (app.new ≡ app.old) }
{
    match taken_fault(app.observers.as_slice(), observer.as_str()) {
        Some(number) => observer_refusal(alloc, number, observer),
        None => observe_table(app, alloc, name, id, table, query, shape),
    }
}

fn observe_app(
    app: &mut App,
    alloc: Global,
    name: &Text,
    observer: &Text,
    table: &Text,
    query: &Value,
    shape: &LineShape,
) -> Result<Item, AllocError>
    ensures item { IfOk result (λ item. told app.new item ≡ observe_app as_kept name.now observer.now table.now (view query.now) shape.now app.old) }
    ensures quiet { IfOk result (λ item. is_of_keeper item ≡ false) }
    ensures same { OnErr result (app.new ≡ app.old) }
{
    match id_of(alloc, observer)? {
        Some(id) => observe_named(app, alloc, name, observer, id, table, query, shape),
        None => observer_refusal(alloc, 4, observer),
    }
}

/// Opens an observer of a query, and shows the answer.
pub fn observe(
    apps: &mut Vec<App>,
    alloc: Global,
    app: &Text,
    observer: &Text,
    table: &Text,
    query: &Value,
    shape: &LineShape,
) -> Result<Item, AllocError>
    ensures item { IfOk result (λ item. on_app as_kept apps.old.items app.now (λ a. Done (observe_app as_kept app.now observer.now table.now (view query.now) shape.now a)) ≡ Done (stepped apps.new.items item)) }
    ensures quiet { IfOk result (λ item. is_of_keeper item ≡ false) }
    ensures same { OnErr result (apps.new.items ≡ apps.old.items) }
{
    match place_of(apps.as_slice(), app.as_str()) {
        Some(place) => observe_app(&mut apps[place], alloc, app, observer, table, query, shape),
        None => app_refusal(alloc, 2, app),
    }
}

// ---- a watch on a relation

/// What a watch shows as it is opened on a store.
fn watch_store(
    store: &Store,
    alloc: Global,
    table: usize,
    id: &Id,
    to: usize,
) -> Result<(ParentObserver, Given), RelationFault>
    ensures { Gives RelationFault.Memory result (watch_shown store.now table id.now to) }
{
    let schema = store.schema();
    let (opened, parent) = ParentObserver::open(alloc, store.board(), schema, table, id, to)?;
    let given = given_parent(alloc, schema, opened.relation().to, &parent)?;
    Ok((opened, given))
}

/// Opens a watch under a name, and shows the row.
fn watch_now(
    app: &mut App,
    alloc: Global,
    name: &Text,
    observer: Id,
    table: usize,
    id: &Id,
    to: usize,
) -> Result<Item, AllocError>
    ensures item { IfOk result (λ item. told app.new item ≡ watches_by as_kept name.now observer app.old (related app.old.store.schema.tables app.old.store.rows table id.now to)) }
    ensures quiet { IfOk result (λ item. is_of_keeper item ≡ false) }
    ensures same { OnErr result (app.new ≡ app.old) }
{
    let app_name = name.copy(alloc)?;
    let said = observer.copy(alloc)?;
    app.observers.reserve(1)?;
    let at = app.store.board().len() as u64;
    match watch_store(&app.store, alloc, table, id, to) {
        Ok((opened, given)) => {
            let watching = Watching::Owner(opened);
            app.observers.push_reserved(NamedObserver {
                name: observer,
                watching,
            });
            Ok(Item::Emit {
                app: app_name,
                name: said,
                at,
                given,
            })
        }
        Err(RelationFault::Memory) => Err(AllocError),
        Err(fault) => Ok(relation_refusal(alloc, fault)),
    }
}

fn watch_id(
    app: &mut App,
    alloc: Global,
    name: &Text,
    observer: Id,
    table: usize,
    id: &Text,
    to: usize,
) -> Result<Item, AllocError>
    ensures item { IfOk result (λ item. told app.new item ≡ watches_id as_kept name.now observer app.old table id.now to) }
    ensures quiet { IfOk result (λ item. is_of_keeper item ≡ false) }
    ensures same { OnErr result (app.new ≡ app.old) }
{
    match id_of(alloc, id)? {
        Some(id) => watch_now(app, alloc, name, observer, table, &id, to),
        None => Ok(id_refusal(alloc)),
    }
}

/// Opens a watch over tables of those names.
fn watch_tables(
    app: &mut App,
    alloc: Global,
    name: &Text,
    observer: Id,
    table: &Text,
    id: &Text,
    to: &Text,
) -> Result<Item, AllocError>
    ensures item { IfOk result (λ item. told app.new item ≡ with_table as_kept table.now app.old (λ t. with_table as_kept to.now app.old (λ u. watches_id as_kept name.now observer app.old t id.now u))) }
    ensures quiet { IfOk result (λ item. is_of_keeper item ≡ false) }
    ensures same { OnErr result (app.new ≡ app.old) }
{
    let schema = app.store.schema();
    match schema.table(table.as_str()) {
        Some(own) => match schema.table(to.as_str()) {
            Some(other) => watch_id(app, alloc, name, observer, own, id, other),
            None => table_refusal(alloc, to),
        },
        None => table_refusal(alloc, table),
    }
}

/// Opens a watch under a name that has the form of one.
fn watch_named(
    app: &mut App,
    alloc: Global,
    name: &Text,
    observer: &Text,
    own: Id,
    table: &Text,
    id: &Text,
    to: &Text,
) -> Result<Item, AllocError>
    requires { own ≡ observer.now }
    ensures item { IfOk result (λ item. told app.new item ≡ unless_told as_kept observer.now app.old (taken_fault observer.now (as_kept.observers app.old)) (with_table as_kept table.now app.old (λ t. with_table as_kept to.now app.old (λ u. watches_id as_kept name.now observer.now app.old t id.now u)))) }
    ensures quiet { IfOk result (λ item. is_of_keeper item ≡ false) }
    ensures same { OnErr result (app.new ≡ app.old) }
{
    match taken_fault(app.observers.as_slice(), observer.as_str()) {
        Some(number) => observer_refusal(alloc, number, observer),
        None => watch_tables(app, alloc, name, own, table, id, to),
    }
}

fn watch_app(
    app: &mut App,
    alloc: Global,
    name: &Text,
    observer: &Text,
    table: &Text,
    id: &Text,
    to: &Text,
) -> Result<Item, AllocError>
    ensures item { IfOk result (λ item. told app.new item ≡ watch_app as_kept name.now observer.now table.now id.now to.now app.old) }
    ensures quiet { IfOk result (λ item. is_of_keeper item ≡ false) }
    ensures same { OnErr result (app.new ≡ app.old) }
{
    match id_of(alloc, observer)? {
        Some(own) => watch_named(app, alloc, name, observer, own, table, id, to),
        None => observer_refusal(alloc, 4, observer),
    }
}

/// Opens a watch on the row to which a row belongs, and shows it.
pub fn watch(
    apps: &mut Vec<App>,
    alloc: Global,
    app: &Text,
    observer: &Text,
    table: &Text,
    id: &Text,
    to: &Text,
) -> Result<Item, AllocError>
    ensures item { IfOk result (λ item. on_app as_kept apps.old.items app.now (λ a. Done (watch_app as_kept app.now observer.now table.now id.now to.now a)) ≡ Done (stepped apps.new.items item)) }
    ensures quiet { IfOk result (λ item. is_of_keeper item ≡ false) }
    ensures same { OnErr result (apps.new.items ≡ apps.old.items) }
{
    match place_of(apps.as_slice(), app.as_str()) {
        Some(place) => watch_app(&mut apps[place], alloc, app, observer, table, id, to),
        None => app_refusal(alloc, 2, app),
    }
}

// ---- the end of an observer

fn drop_named(
    app: &mut App,
    alloc: Global,
    name: &Text,
    observer: &Text,
    id: Id,
) -> Result<Item, AllocError>
    requires { id ≡ observer.now }
    ensures item { IfOk result (λ item. told app.new item ≡ drops as_kept name.now observer.now app.old (place_in observer.now (map (λ (o : KeptObserver). o.name) app.old.observers))) }
    ensures quiet { IfOk result (λ item. is_of_keeper item ≡ false) }
    ensures same { OnErr result (app.new ≡ app.old) }
{
    match place_in(app.observers.as_slice(), observer.as_str()) {
        Some(place) => {
            let app_name = name.copy(alloc)?;
            app.observers.remove(place);
            Ok(Item::Drop {
                app: app_name,
                name: id,
            })
        }
        None => observer_refusal(alloc, 2, observer),
    }
}

fn drop_app(app: &mut App, alloc: Global, name: &Text, observer: &Text) -> Result<Item, AllocError>
    ensures item { IfOk result (λ item. told app.new item ≡ drop_app as_kept name.now observer.now app.old) }
    ensures quiet { IfOk result (λ item. is_of_keeper item ≡ false) }
    ensures same { OnErr result (app.new ≡ app.old) }
{
    match id_of(alloc, observer)? {
        Some(id) => drop_named(app, alloc, name, observer, id),
        None => observer_refusal(alloc, 4, observer),
    }
}

/// Ends an observer.
pub fn drop_observer(
    apps: &mut Vec<App>,
    alloc: Global,
    app: &Text,
    observer: &Text,
) -> Result<Item, AllocError>
    ensures item { IfOk result (λ item. on_app as_kept apps.old.items app.now (λ a. Done (drop_app as_kept app.now observer.now a)) ≡ Done (stepped apps.new.items item)) }
    ensures quiet { IfOk result (λ item. is_of_keeper item ≡ false) }
    ensures same { OnErr result (apps.new.items ≡ apps.old.items) }
{
    match place_of(apps.as_slice(), app.as_str()) {
        Some(place) => drop_app(&mut apps[place], alloc, app, observer),
        None => app_refusal(alloc, 2, app),
    }
}
