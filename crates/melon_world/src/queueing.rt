//! The queue of an app's writers.
ghost use Rattle.std.specs.Prelude.{◌≡◌, IfOk, OnErr, Some, None, false, if◌then◌else◌};
ghost use Rattle.std.specs.Option.{option_copied};
ghost use Rattle.melon_schema.specs.Names.{is_id};
ghost use Rattle.melon_queue.specs.Queues.{holds, entered, nested, quit};
ghost use Rattle.melon_machine.specs.Calls.{Done};
ghost use Rattle.melon_machine.specs.Refusals.{is_of_keeper};
ghost use Rattle.melon_machine.specs.State.{as_kept};
ghost use Rattle.melon_machine.specs.Apps.{on_app, queue_fault, write_fault, enter_item, next_item, entered_as, nested_as, left_as, enter_app, nest_app, leave_app, told};
ghost use Rattle.melon_machine.specs.Outcomes.{stepped};

use crate::app::App;
use crate::apps::place_of;
use crate::ids::id_of;
use crate::refusals::{app_refusal, queue_refusal, writer_refusal};
use melon_queue::{Left, Queue, QueueFault};
use melon_raw::Id;
use melon_schema::{Text, Twin};
use melon_script::Item;
use std::alloc::{AllocError, Global};

fn copy_name(alloc: Global, name: Option<&Id>) -> Result<Option<Id>, AllocError>
    ensures { IfOk result (λ copy. copy ≡ option_copied name.entry) }
{
    match name {
        Some(name) => Ok(Some(name.copy(alloc)?)),
        None => Ok(None),
    }
}

/// Whether the writer holds the queue.
fn is_holder(queue: &Queue, writer: &Id) -> bool
    ensures { result ≡ holds writer.now queue.now }
{
    match queue.holder() {
        Some(holder) => holder.as_str() == writer.as_str(),
        None => false,
    }
}

fn queue_fault(alloc: Global, queue: &Queue, writer: &Text) -> Result<Option<Item>, AllocError>
    ensures fault { IfOk result (λ fault. fault ≡ queue_fault writer.now queue.now) }
{
    match id_of(alloc, writer)? {
        Some(id) => {
            if is_holder(queue, &id) {
                return Ok(None);
            }
            let holder = copy_name(alloc, queue.holder())?;
            Ok(Some(queue_refusal(alloc, writer, QueueFault::NotHolder { holder })?))
        }
        None => Ok(Some(writer_refusal(alloc, writer)?)),
    }
}

/// Why nobody of that name, or a block of its own, makes a batch.
pub fn write_fault(
    alloc: Global,
    queue: &Queue,
    writer: &Option<Text>,
) -> Result<Option<Item>, AllocError>
    ensures fault { IfOk result (λ fault. fault ≡ write_fault writer.now queue.now) }
{
    match writer {
        Some(writer) => queue_fault(alloc, queue, writer),
        None => match copy_name(alloc, queue.holder())? {
            Some(holder) => {
                let nobody = Text::empty(alloc);
                let fault = QueueFault::NotHolder {
                    holder: Some(holder),
                };
                Ok(Some(queue_refusal(alloc, &nobody, fault)?))
            }
            None => Ok(None),
        },
    }
}

/// Puts a writer into the queue.
fn enter_named(
    app: &mut App,
    alloc: Global,
    name: &Text,
    writer: &Text,
    id: Id,
) -> Result<Item, AllocError>
    requires { id ≡ writer.now }
    ensures item { IfOk result (λ item. told app.new item ≡ entered_as as_kept name.now writer.now app.old (entered writer.now app.old.queue)) }
    ensures quiet { IfOk result (λ item. is_of_keeper item ≡ false) }
    ensures same { OnErr result (app.new ≡ app.old) }
{
    let app_name = name.copy(alloc)?;
    let said = id.copy(alloc)?;
    match app.queue.enter(alloc, id) {
        Ok(before) => Ok(entered_item(app_name, said, before as u64)),
        Err(fault) => queue_refusal(alloc, writer, fault),
    }
}

/// What is told of a writer behind so many.
fn entered_item(app: Text, writer: Id, before: u64) -> Item
    ensures item { result ≡ enter_item app writer before }
    ensures quiet { is_of_keeper result ≡ false }
{
    if before == 0 {
        Item::EnterHolds { app, writer }
    } else {
        Item::EnterWaits {
            app,
            writer,
            before,
        }
    }
}

fn enter_app(app: &mut App, alloc: Global, name: &Text, writer: &Text) -> Result<Item, AllocError>
    ensures item { IfOk result (λ item. told app.new item ≡ enter_app as_kept name.now writer.now app.old) }
    ensures quiet { IfOk result (λ item. is_of_keeper item ≡ false) }
    ensures same { OnErr result (app.new ≡ app.old) }
{
    match id_of(alloc, writer)? {
        Some(id) => enter_named(app, alloc, name, writer, id),
        None => writer_refusal(alloc, writer),
    }
}

/// Lets the holder enter once more.
fn nest_named(
    app: &mut App,
    alloc: Global,
    name: &Text,
    writer: &Text,
    id: Id,
) -> Result<Item, AllocError>
    requires { id ≡ writer.now }
    ensures item { IfOk result (λ item. told app.new item ≡ nested_as as_kept name.now writer.now app.old (nested writer.now app.old.queue)) }
    ensures quiet { IfOk result (λ item. is_of_keeper item ≡ false) }
    ensures same { OnErr result (app.new ≡ app.old) }
{
    let app_name = name.copy(alloc)?;
    match app.queue.nest(alloc, &id) {
        Ok(depth) => Ok(Item::Nest {
            app: app_name,
            writer: id,
            depth: depth as u64,
        }),
        Err(fault) => queue_refusal(alloc, writer, fault),
    }
}

fn nest_app(app: &mut App, alloc: Global, name: &Text, writer: &Text) -> Result<Item, AllocError>
    ensures item { IfOk result (λ item. told app.new item ≡ nest_app as_kept name.now writer.now app.old) }
    ensures quiet { IfOk result (λ item. is_of_keeper item ≡ false) }
    ensures same { OnErr result (app.new ≡ app.old) }
{
    match id_of(alloc, writer)? {
        Some(id) => nest_named(app, alloc, name, writer, id),
        None => writer_refusal(alloc, writer),
    }
}

/// What is told where the next of the queue holds it, or nobody.
fn next_item(app: Text, writer: Id, next: Option<Id>) -> Item
    ensures item { result ≡ next_item app writer next }
    ensures quiet { is_of_keeper result ≡ false }
{
    match next {
        Some(next) => Item::LeaveNext { app, writer, next },
        None => Item::LeaveFree { app, writer },
    }
}

/// Lets the holder leave once. All memory is taken before.
fn leave_named(
    app: &mut App,
    alloc: Global,
    name: &Text,
    writer: &Text,
    id: Id,
) -> Result<Item, AllocError>
    requires { id ≡ writer.now }
    ensures item { IfOk result (λ item. told app.new item ≡ left_as as_kept name.now writer.now app.old (quit writer.now app.old.queue)) }
    ensures quiet { IfOk result (λ item. is_of_keeper item ≡ false) }
    ensures same { OnErr result (app.new ≡ app.old) }
{
    let app_name = name.copy(alloc)?;
    let next = copy_name(alloc, app.queue.next())?;
    match app.queue.leave(&id) {
        Left::Depth(depth) => Ok(Item::LeaveDepth {
            app: app_name,
            writer: id,
            depth: depth as u64,
        }),
        Left::Next => Ok(next_item(app_name, id, next)),
        Left::Free => Ok(Item::LeaveFree {
            app: app_name,
            writer: id,
        }),
        Left::NotHolder => {
            let holder = copy_name(alloc, app.queue.holder())?;
            queue_refusal(alloc, writer, QueueFault::NotHolder { holder })
        }
    }
}

fn leave_app(app: &mut App, alloc: Global, name: &Text, writer: &Text) -> Result<Item, AllocError>
    ensures item { IfOk result (λ item. told app.new item ≡ leave_app as_kept name.now writer.now app.old) }
    ensures quiet { IfOk result (λ item. is_of_keeper item ≡ false) }
    ensures same { OnErr result (app.new ≡ app.old) }
{
    match id_of(alloc, writer)? {
        Some(id) => leave_named(app, alloc, name, writer, id),
        None => writer_refusal(alloc, writer),
    }
}

/// Queues a writer.
pub fn enter(
    apps: &mut Vec<App>,
    alloc: Global,
    app: &Text,
    writer: &Text,
) -> Result<Item, AllocError>
    ensures item { IfOk result (λ item. on_app as_kept apps.old.items app.now (λ a. Done (enter_app as_kept app.now writer.now a)) ≡ Done (stepped apps.new.items item)) }
    ensures quiet { IfOk result (λ item. is_of_keeper item ≡ false) }
    ensures same { OnErr result (apps.new.items ≡ apps.old.items) }
{
    match place_of(apps.as_slice(), app.as_str()) {
        Some(place) => enter_app(&mut apps[place], alloc, app, writer),
        None => app_refusal(alloc, 2, app),
    }
}

/// Nests a block of the holder inside itself.
pub fn nest(
    apps: &mut Vec<App>,
    alloc: Global,
    app: &Text,
    writer: &Text,
) -> Result<Item, AllocError>
    ensures item { IfOk result (λ item. on_app as_kept apps.old.items app.now (λ a. Done (nest_app as_kept app.now writer.now a)) ≡ Done (stepped apps.new.items item)) }
    ensures quiet { IfOk result (λ item. is_of_keeper item ≡ false) }
    ensures same { OnErr result (apps.new.items ≡ apps.old.items) }
{
    match place_of(apps.as_slice(), app.as_str()) {
        Some(place) => nest_app(&mut apps[place], alloc, app, writer),
        None => app_refusal(alloc, 2, app),
    }
}

/// Lets the holder leave once.
pub fn leave(
    apps: &mut Vec<App>,
    alloc: Global,
    app: &Text,
    writer: &Text,
) -> Result<Item, AllocError>
    ensures item { IfOk result (λ item. on_app as_kept apps.old.items app.now (λ a. Done (leave_app as_kept app.now writer.now a)) ≡ Done (stepped apps.new.items item)) }
    ensures quiet { IfOk result (λ item. is_of_keeper item ≡ false) }
    ensures same { OnErr result (apps.new.items ≡ apps.old.items) }
{
    match place_of(apps.as_slice(), app.as_str()) {
        Some(place) => leave_app(&mut apps[place], alloc, app, writer),
        None => app_refusal(alloc, 2, app),
    }
}
