//! The printed refusals, made of faults. Want of memory is never printed.
ghost use Rattle.std.specs.Prelude.{◌≡◌, ◌≢◌, ◌∷◌, [], IfOk, false};
ghost use Rattle.melon_machine.specs.Refusals.{refused, app_refusal, backend_refusal, schema_refusal, query_refusal, writer_refusal, holder_detail, queue_refusal, is_of_keeper, table_refusal, keeper_refusal, shape_refusal, observer_refusal, relation_refusal, id_refusal, open_refusal, ops_refusal, record_refusal, column_refusal, batch_refusal, write_refusal};

use melon_board::WriteFault;
use melon_change::{BatchFault, OpsFault};
use melon_outside::OpenFault;
use melon_query::QueryFault;
use melon_queue::QueueFault;
use melon_raw::Id;
use melon_relation::RelationFault;
use melon_schema::{List, SchemaFault, Text, Twin};
use melon_script::{Detail, Group, Item};
use std::alloc::{AllocError, Global};

fn refused(group: Group, number: u64, details: List<Detail>) -> Item
    ensures { result ≡ refused group number details }
{
    Item::Refused {
        group,
        number,
        details,
    }
}

/// The refusal that the keeper failed. It takes no memory.
pub fn keeper_refusal(alloc: Global) -> Item
    ensures { result ≡ keeper_refusal }
{
    refused(Group::Keeper, 1, List::new(alloc))
}

/// 1 already open, 2 not open. It takes no memory.
pub fn backend_refusal(alloc: Global, number: u64) -> Item
    ensures { result ≡ backend_refusal number }
{
    refused(Group::Backend, number, List::new(alloc))
}

/// 1 already open, 2 not open, 3 four are open, 4 a bad name.
pub fn app_refusal(alloc: Global, number: u64, app: &Text) -> Result<Item, AllocError>
    ensures { IfOk result (λ item. item ≡ app_refusal number app.now) }
{
    let mut details = List::new(alloc);
    details.push(Detail::Words(app.copy(alloc)?))?;
    Ok(refused(Group::App, number, details))
}

pub fn table_refusal(alloc: Global, table: &Text) -> Result<Item, AllocError>
    ensures { IfOk result (λ item. item ≡ table_refusal table.now) }
{
    let mut details = List::new(alloc);
    details.push(Detail::Words(table.copy(alloc)?))?;
    Ok(refused(Group::Table, 1, details))
}

pub fn schema_refusal(alloc: Global, fault: SchemaFault) -> Item
    ensures { result ≡ schema_refusal fault }
{
    refused(Group::Schema, fault.number(), List::new(alloc))
}

pub fn query_refusal(alloc: Global, fault: QueryFault) -> Item
    ensures { result ≡ query_refusal fault }
{
    refused(Group::Query, fault.number(), List::new(alloc))
}

/// A column of a shape that the table doesn't have.
pub fn shape_refusal(alloc: Global) -> Item
    ensures { result ≡ shape_refusal }
{
    refused(Group::Query, 3, List::new(alloc))
}

/// 1 a taken name, 2 no such observer, 3 sixty-four are open, 4 a bad name.
pub fn observer_refusal(alloc: Global, number: u64, observer: &Text) -> Result<Item, AllocError>
    ensures item { IfOk result (λ item. item ≡ observer_refusal number observer.now) }
    ensures quiet { IfOk result (λ item. is_of_keeper item ≡ false) }
{
    let mut details = List::new(alloc);
    details.push(Detail::Words(observer.copy(alloc)?))?;
    Ok(refused(Group::Observer, number, details))
}

/// 1 no visible row, 2 no association.
pub fn relation_refusal(alloc: Global, fault: RelationFault) -> Item
    ensures { result ≡ relation_refusal fault }
{
    refused(Group::Relation, fault.number(), List::new(alloc))
}

/// An id outside the form of ids.
pub fn id_refusal(alloc: Global) -> Item
    ensures { result ≡ id_refusal }
{
    refused(Group::Relation, 1, List::new(alloc))
}

fn numbered(alloc: Global, group: Group, number: u64, detail: u64) -> Result<Item, AllocError>
    ensures { IfOk result (λ item. item ≡ refused group number (Detail.Number detail ∷ [])) }
{
    let mut details = List::new(alloc);
    details.push(Detail::Number(detail))?;
    Ok(refused(group, number, details))
}

fn stored_row(alloc: Global, table: Text, id: Text) -> Result<Item, AllocError>
    ensures { IfOk result (λ item. item ≡ open_refusal (OpenFault.BadRow table id)) }
{
    let mut details = List::new(alloc);
    details.push(Detail::Words(table))?;
    details.push(Detail::Words(id))?;
    Ok(refused(Group::Open, 1, details))
}

pub fn open_refusal(alloc: Global, fault: OpenFault) -> Result<Item, AllocError>
    ensures item { IfOk result (λ item. item ≡ open_refusal fault) }
    ensures memory { IfOk result (λ _. fault ≢ OpenFault.Memory) }
{
    match fault {
        OpenFault::BadRow { table, id } => stored_row(alloc, table, id),
        OpenFault::Version { stored } => numbered(alloc, Group::Open, 2, stored),
        OpenFault::Full { bytes } => numbered(alloc, Group::Open, 3, bytes),
        OpenFault::KeeperFault => Ok(keeper_refusal(alloc)),
        OpenFault::Memory => Err(AllocError),
    }
}

pub fn ops_refusal(alloc: Global, fault: OpsFault) -> Result<Item, AllocError>
    ensures item { IfOk result (λ item. item ≡ ops_refusal fault) }
    ensures memory { IfOk result (λ _. fault ≢ OpsFault.Memory) }
{
    match fault {
        OpsFault::Form { op } => numbered(alloc, Group::Ops, 1, op),
        OpsFault::Number { op } => numbered(alloc, Group::Ops, 2, op),
        OpsFault::Memory => Err(AllocError),
    }
}

/// 4 a name outside the form of ids.
pub fn writer_refusal(alloc: Global, writer: &Text) -> Result<Item, AllocError>
    ensures item { IfOk result (λ item. item ≡ writer_refusal writer.now) }
    ensures quiet { IfOk result (λ item. is_of_keeper item ≡ false) }
{
    let mut details = List::new(alloc);
    details.push(Detail::Words(writer.copy(alloc)?))?;
    Ok(refused(Group::Queue, 4, details))
}

/// The name that holds a queue, or nobody.
fn holder_detail(alloc: Global, holder: &Option<Id>) -> Result<Detail, AllocError>
    ensures { IfOk result (λ detail. detail ≡ holder_detail holder.now) }
{
    match holder {
        Some(holder) => Ok(Detail::Words(Text::new(alloc, holder.as_str())?)),
        None => Ok(Detail::Absent),
    }
}

/// 1 already queued, 2 not the holder, 3 full.
pub fn queue_refusal(alloc: Global, writer: &Text, fault: QueueFault) -> Result<Item, AllocError>
    ensures item { IfOk result (λ item. item ≡ queue_refusal writer.now fault) }
    ensures quiet { IfOk result (λ item. is_of_keeper item ≡ false) }
    ensures memory { IfOk result (λ _. fault ≢ QueueFault.Memory) }
{
    match fault {
        QueueFault::Queued => {
            let mut details = List::new(alloc);
            details.push(Detail::Words(writer.copy(alloc)?))?;
            Ok(refused(Group::Queue, 1, details))
        }
        QueueFault::NotHolder { holder } => {
            let mut details = List::new(alloc);
            details.push(holder_detail(alloc, &holder)?)?;
            Ok(refused(Group::Queue, 2, details))
        }
        QueueFault::Full { count } => numbered(alloc, Group::Queue, 3, count),
        QueueFault::Memory => Err(AllocError),
    }
}

/// A broken rule that tells the operation and the record.
fn record_refusal(
    alloc: Global,
    number: u64,
    op: u64,
    table: Text,
    id: Text,
) -> Result<Item, AllocError>
    ensures { IfOk result (λ item. item ≡ record_refusal number op table id) }
{
    let mut details = List::new(alloc);
    details.push(Detail::Number(op))?;
    details.push(Detail::Words(table))?;
    details.push(Detail::Words(id))?;
    Ok(refused(Group::Batch, number, details))
}

/// A broken rule that tells the column too.
fn column_refusal(
    alloc: Global,
    number: u64,
    op: u64,
    table: Text,
    id: Text,
    column: Text,
) -> Result<Item, AllocError>
    ensures { IfOk result (λ item. item ≡ column_refusal number op table id column) }
{
    let mut details = List::new(alloc);
    details.push(Detail::Number(op))?;
    details.push(Detail::Words(table))?;
    details.push(Detail::Words(id))?;
    details.push(Detail::Words(column))?;
    Ok(refused(Group::Batch, number, details))
}

pub fn batch_refusal(alloc: Global, fault: BatchFault) -> Result<Item, AllocError>
    ensures { IfOk result (λ item. item ≡ batch_refusal fault) }
{
    match fault {
        BatchFault::UnknownTable { op, table, id } => record_refusal(alloc, 1, op, table, id),
        BatchFault::UnknownColumn {
            op,
            table,
            id,
            column,
        } => column_refusal(alloc, 2, op, table, id, column),
        BatchFault::BadId { op, table, id } => record_refusal(alloc, 3, op, table, id),
        BatchFault::Twice { op, table, id } => record_refusal(alloc, 4, op, table, id),
        BatchFault::Taken { op, table, id } => record_refusal(alloc, 5, op, table, id),
        BatchFault::NoRow { op, table, id } => record_refusal(alloc, 6, op, table, id),
        BatchFault::LongText {
            op,
            table,
            id,
            column,
        } => column_refusal(alloc, 7, op, table, id, column),
        BatchFault::TooMany { count } => numbered(alloc, Group::Batch, 8, count),
        BatchFault::Memory => Err(AllocError),
    }
}

pub fn write_refusal(alloc: Global, fault: WriteFault) -> Result<Item, AllocError>
    ensures item { IfOk result (λ item. item ≡ write_refusal fault) }
    ensures memory { IfOk result (λ _. fault ≢ WriteFault.Memory) }
{
    match fault {
        WriteFault::Batch(fault) => batch_refusal(alloc, fault),
        WriteFault::StoreFull { bytes } => numbered(alloc, Group::Full, 1, bytes),
        WriteFault::SessionFull { bytes } => numbered(alloc, Group::Full, 2, bytes),
        WriteFault::KeeperFault => Ok(keeper_refusal(alloc)),
        WriteFault::Memory => Err(AllocError),
    }
}
