//! Observers take turns.
ghost use Rattle.std.specs.Prelude.{◌≡◌, ◌∷◌, ◌≤◌, ◌+◌, ◌⊎◌, [], ℕ, List as Sequence, length, map, slice_get, Some, IfOk, OnErr, true, false};
ghost use Rattle.std.specs.List.{list_any};
ghost use Rattle.melon_schema.specs.Names.{is_id};
ghost use Rattle.melon_table.specs.Seen.{rows_of};
ghost use Rattle.melon_query.specs.Simple.{is_simple};
ghost use Rattle.melon_observe.specs.Journals.{changes_between};
ghost use Rattle.melon_views.specs.Standing.{Stands};
ghost use Rattle.melon_views.specs.Turns.{turns_from};
ghost use Rattle.melon_relation.specs.Watching.{Watches, watch_turn};
ghost use Rattle.melon_script.specs.SeenLine as lines;
ghost use Rattle.melon_machine.specs.Calls.{Done, with_end};
ghost use Rattle.melon_machine.specs.Legal.{IsLegalApp, AreKeptAs};
ghost use Rattle.melon_machine.specs.Refusals.{is_of_keeper};
ghost use Rattle.melon_machine.specs.Showing.{answer_turn, owner_turns, turn_items};
ghost use Rattle.melon_machine.specs.State.{App as MachineApp, Observer as MachineObserver, KeptObserver, Watch, kept_at, store_of, history_of, observer_kept, app_kept};
ghost use Rattle.melon_machine.specs.Apps.{kept_told, turned, turns_at, turn_app, place_in, app_step, kept_apps};
ghost use Rattle.melon_machine.specs.Outcomes.{ends_with};
ghost use Rattle.melon_world.specs.Handled.{IsBounded, watch_bound, place_bound, app_bound, turn_bound, StandsAt, StandsOn, IsAppLeft, AreLeft, changed_items};
ghost use Rattle.melon_world.specs.Inside.{watch_in};

use crate::app::App;
use crate::apps::place_of;
use crate::observer::{NamedObserver, Watching};
use crate::observing::place_in;
use crate::refusals::{app_refusal, observer_refusal};
use crate::shown::{columns_at, given_emission, given_parent};
use melon_board::Store;
use melon_observe::{Observer, turn_until_still};
use melon_raw::{Id, Steps};
use melon_relation::ParentObserver;
use melon_schema::names::is_id;
use melon_schema::{AppSchema, Text, Twin};
use melon_script::{Answer, Item};
use melon_views::{Parent, Turn};
use std::alloc::{AllocError, Global};
use std::sync::ledger::Ledger;

/// What one turn of an observer of a query prints.
fn answer_turn(
    alloc: Global,
    schema: &AppSchema,
    app: &Text,
    name: &Id,
    observer: &Observer,
    turn: Turn,
) -> Result<Item, AllocError>
    ensures item { IfOk result (λ item. item ≡ answer_turn schema.now.tables app.now name.now observer.now.query observer.now.shape turn) }
    ensures quiet { IfOk result (λ item. is_of_keeper item ≡ false) }
{
    let app = app.copy(alloc)?;
    let name = name.copy(alloc)?;
    match turn {
        Turn::Emit(at, emission) => {
            let columns = columns_at(schema, observer.query().table);
            let given = given_emission(alloc, columns, observer.shape(), emission)?;
            Ok(Item::Emit {
                app,
                name,
                at,
                given,
            })
        }
        Turn::Still(at) => Ok(Item::Still { app, name, at }),
    }
}

/// What turns of an observer of a query print.
fn answer_turns(
    alloc: Global,
    schema: &AppSchema,
    app: &Text,
    name: &Id,
    observer: &Observer,
    turns: Vec<Turn>,
) -> Result<Answer, AllocError>
    ensures { IfOk result (λ items. items ≡ map (answer_turn schema.now.tables app.now name.now observer.now.query observer.now.shape) turns.items) }
{
    let mut answer = Answer::new(alloc)?;
    for turn in turns {
        answer.push(answer_turn(alloc, schema, app, name, observer, turn)?)?;
    }
    Ok(answer)
}

/// Has an observer of a query take turns until it is still.
fn turn_answer<L: Ledger>(
    observer: &mut Observer,
    alloc: Global,
    store: &Store,
    app: &Text,
    name: &Id,
    steps: &mut Steps<L>,
) -> Result<Answer, AllocError>
    ensures turned { (a : MachineApp) → store_of a ≡ store.now → IsLegalApp a → Stands (history_of a) observer.old
        → IfOk result (λ items. items ≡ map (answer_turn a.schema.tables app.now name.now observer.old.query observer.old.shape) (turns_from observer.old.query observer.old.shape (history_of a) observer.old.at)) }
    ensures quiet { IfOk result (λ items. list_any is_of_keeper items ≡ false) }
    ensures stands { (a : MachineApp) → store_of a ≡ store.now → IsLegalApp a → Stands (history_of a) observer.old → Stands (history_of a) observer.new }
    ensures later { observer.old.at ≤ length store.now.entries → observer.old.at ≤ observer.new.at }
    ensures end { IfOk result (λ items. observer.new.at ≡ length store.now.entries) }
    ensures query { observer.new.query ≡ observer.old.query }
    ensures shape { observer.new.shape ≡ observer.old.shape }
    ensures cost { is_simple observer.old.query ≡ true → IfOk result (λ items. steps.new ≤ steps.old + changes_between observer.old.at (length store.now.entries) store.now.entries) }
{
    let turns = turn_until_still(observer, alloc, store.board(), steps)?;
    answer_turns(alloc, store.schema(), app, name, observer, turns)
}

/// Has a watch take its turn.
fn turn_owner(
    owner: &mut ParentObserver,
    alloc: Global,
    store: &Store,
    app: &Text,
    name: &Id,
) -> Result<Answer, AllocError>
    ensures turned { (a : MachineApp) → store_of a ≡ store.now → Watches (history_of a) owner.old
        → IfOk result (λ items. items ≡ owner_turns a.schema.tables app.now name.now owner.old.relation (length a.entries) (watch_turn owner.old.relation (history_of a) owner.old.at)) }
    ensures quiet { IfOk result (λ items. list_any is_of_keeper items ≡ false) }
    ensures stands { (a : MachineApp) → store_of a ≡ store.now → Watches (history_of a) owner.old → Watches (history_of a) owner.new }
    ensures later { owner.old.at ≤ length store.now.entries → owner.old.at ≤ owner.new.at }
    ensures end { IfOk result (λ items. owner.new.at ≡ length store.now.entries) }
    ensures relation { owner.new.relation ≡ owner.old.relation }
{
    let app_name = app.copy(alloc)?;
    let still = Item::Still {
        app: app.copy(alloc)?,
        name: name.copy(alloc)?,
        at: store.board().len() as u64,
    };
    let name = name.copy(alloc)?;
    let to = owner.relation().to;
    let changed = owner.turn(alloc, store.board())?;
    owner_items(alloc, store.schema(), app_name, name, to, changed, still)
}

/// What a watch's turn prints.
fn owner_items(
    alloc: Global,
    schema: &AppSchema,
    app: Text,
    name: Id,
    to: usize,
    changed: Option<(u64, Parent)>,
    still: Item,
) -> Result<Answer, AllocError>
    requires { is_of_keeper still ≡ false }
    ensures items { IfOk result (λ items. items ≡ changed_items schema.now.tables app name to changed still) }
    ensures quiet { IfOk result (λ items. list_any is_of_keeper items ≡ false) }
{
    let mut answer = Answer::new(alloc)?;
    if let Some((at, parent)) = changed {
        let given = given_parent(alloc, schema, to, &parent)?;
        answer.push(Item::Emit {
            app,
            name,
            at,
            given,
        })?;
    }
    answer.push(still)?;
    Ok(answer)
}

/// Has what is watched take turns until it is still.
fn turn_watching<L: Ledger>(
    watching: &mut Watching,
    alloc: Global,
    store: &Store,
    app: &Text,
    name: &Id,
    steps: &mut Steps<L>,
) -> Result<Answer, AllocError>
    ensures turned { (a : MachineApp) (watch : Watch) (at : ℕ) → store_of a ≡ store.now → IsLegalApp a → at ≤ length a.entries → kept_at (history_of a) at watch ≡ watch_in watching.old
        → IfOk result (λ items. (watch_in watching.new ≡ kept_at (history_of a) (length a.entries) watch) × (items ≡ turn_items a.schema.tables app.now name.now (history_of a) at watch)) }
    ensures quiet { IfOk result (λ items. list_any is_of_keeper items ≡ false) }
    ensures stands { (a : MachineApp) (watch : Watch) (at : ℕ) → store_of a ≡ store.now → IsLegalApp a → at ≤ length a.entries → kept_at (history_of a) at watch ≡ watch_in watching.old → StandsOn (history_of a) at watch (watch_in watching.new) }
    ensures cost { IfOk result (λ items. IsBounded (watch_bound store.now (watch_in watching.old)) steps.old steps.new) }
{
    match watching {
        Watching::Answer(answers) => turn_answer(answers, alloc, store, app, name, steps),
        Watching::Owner(owner) => turn_owner(owner, alloc, store, app, name),
    }
}

/// Has an observer take turns until it is still. On want of memory the turns that were taken stay taken.
fn turn_named<L: Ledger>(
    observer: &mut NamedObserver,
    alloc: Global,
    store: &Store,
    app: &Text,
    steps: &mut Steps<L>,
) -> Result<Answer, AllocError>
    ensures turned { (a : MachineApp) (o : MachineObserver) → store_of a ≡ store.now → IsLegalApp a → o.at ≤ length a.entries → observer_kept (history_of a) o ≡ observer.old
        → IfOk result (λ items. (observer.new ≡ observer_kept (history_of a) (turned a o)) × (items ≡ turn_items a.schema.tables app.now o.name (history_of a) o.at o.watch)) }
    ensures quiet { IfOk result (λ items. list_any is_of_keeper items ≡ false) }
    ensures stands { (a : MachineApp) (o : MachineObserver) → store_of a ≡ store.now → IsLegalApp a → o.at ≤ length a.entries → observer_kept (history_of a) o ≡ observer.old → StandsAt a o observer.new }
    ensures cost { IfOk result (λ items. IsBounded (watch_bound store.now observer.old.watch) steps.old steps.new) }
{
    let watching = &mut observer.watching;
    turn_watching(watching, alloc, store, app, &observer.name, steps)
}

/// Has the observer of a name take turns until it is still.
fn turn_placed<L: Ledger>(
    app: &mut App,
    alloc: Global,
    name: &Text,
    observer: &Text,
    steps: &mut Steps<L>,
) -> Result<Answer, AllocError>
    requires { is_id observer.now ≡ true }
    ensures turned { (a : MachineApp) → app_kept a ≡ app.old → IsLegalApp a → IfOk result (λ items. kept_told (turn_app name.now observer.now a) ≡ record { app = app.new; items = items }) }
    ensures quiet { IfOk result (λ items. list_any is_of_keeper items ≡ false) }
    ensures left { IsAppLeft observer.now app.old app.new }
    ensures cost { IfOk result (λ items. IsBounded (app_bound observer.now (Some app.old)) steps.old steps.new) }
{
    match place_in(app.observers.as_slice(), observer.as_str()) {
        Some(place) => turn_named(&mut app.observers[place], alloc, &app.store, name, steps),
        None => {
            let refusal = observer_refusal(alloc, 2, observer)?;
            Ok(Answer::new(alloc)?.with_first(refusal))
        }
    }
}

fn turn_app<L: Ledger>(
    app: &mut App,
    alloc: Global,
    name: &Text,
    observer: &Text,
    steps: &mut Steps<L>,
) -> Result<Answer, AllocError>
    ensures turned { (a : MachineApp) → app_kept a ≡ app.old → IsLegalApp a → IfOk result (λ items. kept_told (turn_app name.now observer.now a) ≡ record { app = app.new; items = items }) }
    ensures quiet { IfOk result (λ items. list_any is_of_keeper items ≡ false) }
    ensures left { IsAppLeft observer.now app.old app.new }
    ensures cost { IfOk result (λ items. IsBounded (app_bound observer.now (Some app.old)) steps.old steps.new) }
{
    if is_id(observer.as_str()) {
        return turn_placed(app, alloc, name, observer, steps);
    }
    let refusal = observer_refusal(alloc, 4, observer)?;
    Ok(Answer::new(alloc)?.with_first(refusal))
}

/// Has an observer take turns until it is still.
pub fn turn<L: Ledger>(
    apps: &mut Vec<App>,
    alloc: Global,
    app: &Text,
    observer: &Text,
    steps: &mut Steps<L>,
) -> Result<Answer, AllocError>
    ensures turned { (machines : Sequence MachineApp) → AreKeptAs machines apps.old.items
        → IfOk result (λ items. with_end kept_apps (app_step machines (lines.Turn app.now observer.now)) ≡ Done (ends_with apps.new.items items)) }
    ensures quiet { IfOk result (λ items. list_any is_of_keeper items ≡ false) }
    ensures left { AreLeft app.now observer.now apps.old.items apps.new.items }
    ensures cost { IfOk result (λ items. IsBounded (turn_bound apps.old.items app.now observer.now) steps.old steps.new) }
{
    match place_of(apps.as_slice(), app.as_str()) {
        Some(place) => turn_app(&mut apps[place], alloc, app, observer, steps),
        None => {
            let refusal = app_refusal(alloc, 2, app)?;
            Ok(Answer::new(alloc)?.with_first(refusal))
        }
    }
}
