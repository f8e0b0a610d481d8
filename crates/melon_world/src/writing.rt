//! Batches.
ghost use Rattle.std.specs.Prelude.{◌≡◌};
ghost use Rattle.serde_json.specs.View.{view};
ghost use Rattle.melon_board.specs.Plans.{write_plan};
ghost use Rattle.melon_change.specs.Forms.{ops_of};
ghost use Rattle.melon_machine.specs.Refusals.{is_of_keeper};
ghost use Rattle.melon_machine.specs.State.{as_kept};
ghost use Rattle.melon_machine.specs.Apps.{on_app, writes_by, writes, write_app, told};
ghost use Rattle.melon_machine.specs.Outcomes.{stepped};
ghost use Rattle.melon_world.specs.Handled.{IsHandled, Tells};

use crate::app::App;
use crate::apps::place_of;
use crate::queueing::write_fault;
use crate::refusals::{app_refusal, ops_refusal, write_refusal};
use melon_board::WriteFault;
use melon_change::{Op, read_ops};
use melon_outside::Keeper;
use melon_schema::{List, Text, Twin};
use melon_script::Item;
use serde_json::Value;
use std::alloc::{AllocError, Global};

/// What is told of a batch that was made, or of what refused it.
fn written_item(alloc: Global, app: Text, done: Result<u64, WriteFault>) -> Result<Item, AllocError>
    ensures { Tells app done result }
{
    match done {
        Ok(at) => Ok(Item::Write { app, at }),
        Err(fault) => write_refusal(alloc, fault),
    }
}

/// Makes a batch on a store. All other memory is taken before the keeper is asked.
fn write_ops<K: Keeper>(
    app: &mut App,
    alloc: Global,
    keeper: &mut K,
    name: &Text,
    ops: List<Op>,
) -> Result<Item, AllocError>
    ensures { IsHandled (writes_by as_kept name.now app.old (write_plan app.old.store ops)) (told app.new) is_of_keeper (K.seen keeper.old) (K.seen keeper.new) app.old app.new result }
{
    let name = name.copy(alloc)?;
    let done = app.store.write(alloc, keeper, ops);
    written_item(alloc, name, done)
}

/// Reads the operations, and makes the batch.
#[tactic(auto, using(crate::proofs::Meeting::handled_unasked))]
fn write_now<K: Keeper>(
    app: &mut App,
    alloc: Global,
    keeper: &mut K,
    name: &Text,
    ops: &Value,
) -> Result<Item, AllocError>
    ensures { IsHandled (writes as_kept name.now app.old (ops_of (view ops.now))) (told app.new) is_of_keeper (K.seen keeper.old) (K.seen keeper.new) app.old app.new result }
{
    match read_ops(alloc, ops) {
        Ok(ops) => write_ops(app, alloc, keeper, name, ops),
        Err(fault) => ops_refusal(alloc, fault),
    }
}

#[tactic(auto, using(crate::proofs::Meeting::handled_unasked))]
fn write_app<K: Keeper>(
    app: &mut App,
    alloc: Global,
    keeper: &mut K,
    name: &Text,
    ops: &Value,
    writer: &Option<Text>,
) -> Result<Item, AllocError>
    ensures { IsHandled (write_app as_kept name.now (view ops.now) writer.now app.old) (told app.new) is_of_keeper (K.seen keeper.old) (K.seen keeper.new) app.old app.new result }
{
    match write_fault(alloc, &app.queue, writer)? {
        Some(refusal) => Ok(refusal),
        None => write_now(app, alloc, keeper, name, ops),
    }
}

/// Makes a batch on an open app.
#[tactic(auto, using(crate::proofs::Meeting::handled_unasked))]
pub fn write<K: Keeper>(
    apps: &mut Vec<App>,
    alloc: Global,
    keeper: &mut K,
    app: &Text,
    ops: &Value,
    writer: &Option<Text>,
) -> Result<Item, AllocError>
    ensures { IsHandled (on_app as_kept apps.old.items app.now (write_app as_kept app.now (view ops.now) writer.now)) (stepped apps.new.items) is_of_keeper (K.seen keeper.old) (K.seen keeper.new) apps.old.items apps.new.items result }
{
    match place_of(apps.as_slice(), app.as_str()) {
        Some(place) => write_app(&mut apps[place], alloc, keeper, app, ops, writer),
        None => app_refusal(alloc, 2, app),
    }
}
