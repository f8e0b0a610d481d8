//! Rows that are put into their tables, once the keeper has them.
ghost use Rattle.std.specs.Prelude.{◌≡◌, ◌<◌, length, map, true, false, Some, OnOk, OnErr, IfErr};
ghost use Rattle.std.specs.List.{AllByRecursion};
ghost use Rattle.melon_outside.specs.Asking.{Asks};
ghost use Rattle.melon_raw.specs.Rows.{is_key};
ghost use Rattle.melon_wire.specs.Keys.{are_apart};
ghost use Rattle.melon_backend.specs.Rows.{with_put, with_puts};
ghost use Rattle.melon_backend.specs.Inside.{tables_rows, AreKept};
ghost use Rattle.melon_backend.specs.Drafts.{key_put, is_ready_at, are_ready, IsPutWithin};
ghost use Rattle.melon_backend.specs.Pushed.{IsOfKeeper};
ghost use Rattle.melon_backend.specs.declared.put.Put.{Put};

use crate::put::Put;
use crate::table::ServerTable;
use melon_log::PushFault;
use melon_outside::{Keeper, KeeperError, KeptBatch};
use std::alloc::{AllocError, Global};

/// Makes room for one row.
fn ready_at(tables: &mut Vec<ServerTable>, alloc: Global, put: &Put) -> Result<(), AllocError>
    requires kept { AreKept tables.old.items }
    requires within { put.now.table < length tables.old.items }
    ensures kept { AreKept tables.new.items }
    ensures long { length tables.new.items ≡ length tables.old.items }
    ensures rows { tables_rows tables.new.items ≡ tables_rows tables.old.items }
    ensures ready { OnOk result (is_ready_at tables.new.items put.now ≡ true) }
    ensures keeps { (q : Put) → is_ready_at tables.old.items q ≡ true → is_ready_at tables.new.items q ≡ true }
{
    tables[put.table].ready(alloc, &put.row)
}

/// Makes room for all rows.
fn ready_all(tables: &mut Vec<ServerTable>, alloc: Global, puts: &[Put]) -> Result<(), AllocError>
    requires kept { AreKept tables.old.items }
    requires within { AllByRecursion (IsPutWithin (length tables.old.items)) puts.now }
    ensures kept { AreKept tables.new.items }
    ensures long { length tables.new.items ≡ length tables.old.items }
    ensures rows { tables_rows tables.new.items ≡ tables_rows tables.old.items }
    ensures ready { OnOk result (are_ready tables.new.items puts.now ≡ true) }
{
    for put in puts {
        ready_at(tables, alloc, put)?;
    }
    Ok(())
}

/// Puts one row, for which there is room.
fn put_at(tables: &mut Vec<ServerTable>, put: Put)
    requires kept { AreKept tables.old.items }
    requires within { put.table < length tables.old.items }
    requires ready { is_ready_at tables.old.items put ≡ true }
    ensures kept { AreKept tables.new.items }
    ensures long { length tables.new.items ≡ length tables.old.items }
    ensures rows { tables_rows tables.new.items ≡ with_put (tables_rows tables.old.items) put }
    ensures keeps { (q : Put) → is_key (key_put put) (key_put q) ≡ false → is_ready_at tables.old.items q ≡ true → is_ready_at tables.new.items q ≡ true }
{
    let Put { table, row } = put;
    tables[table].put(row);
}

/// Puts all rows, which takes no memory.
fn put_all(tables: &mut Vec<ServerTable>, puts: Vec<Put>)
    requires kept { AreKept tables.old.items }
    requires within { AllByRecursion (IsPutWithin (length tables.old.items)) puts.items }
    requires ready { are_ready tables.old.items puts.items ≡ true }
    requires apart { are_apart (map key_put puts.items) ≡ true }
    ensures kept { AreKept tables.new.items }
    ensures long { length tables.new.items ≡ length tables.old.items }
    ensures rows { tables_rows tables.new.items ≡ with_puts (tables_rows tables.old.items) puts.items }
{
    for put in puts {
        put_at(tables, put);
    }
}

fn ask<K: Keeper>(
    alloc: Global,
    keeper: &mut K,
    key: &str,
    batch: &KeptBatch,
) -> Result<(), PushFault>
    ensures fault { IfErr result IsOfKeeper }
    ensures keeper { Asks (Some batch.now) key.now PushFault.KeeperFault result (K.seen keeper.old) (K.seen keeper.new) }
{
    match keeper.commit(alloc, key, batch) {
        Ok(()) => Ok(()),
        Err(KeeperError::Memory) => Err(PushFault::Memory),
        Err(KeeperError::Failed) => Err(PushFault::KeeperFault),
    }
}

/// Takes all room, commits, and puts the rows, which takes none.
pub(crate) fn commit_puts<K: Keeper>(
    tables: &mut Vec<ServerTable>,
    alloc: Global,
    keeper: &mut K,
    key: &str,
    batch: &KeptBatch,
    puts: Vec<Put>,
) -> Result<(), PushFault>
    requires kept { AreKept tables.old.items }
    requires within { AllByRecursion (IsPutWithin (length tables.old.items)) puts.items }
    requires apart { are_apart (map key_put puts.items) ≡ true }
    ensures kept_tables { AreKept tables.new.items }
    ensures long { length tables.new.items ≡ length tables.old.items }
    ensures rows { OnOk result (tables_rows tables.new.items ≡ with_puts (tables_rows tables.old.items) puts.items) }
    ensures same_rows { OnErr result (tables_rows tables.new.items ≡ tables_rows tables.old.items) }
    ensures fault { IfErr result IsOfKeeper }
    ensures keeper { Asks (Some batch.now) key.now PushFault.KeeperFault result (K.seen keeper.old) (K.seen keeper.new) }
{
    ready_all(tables, alloc, puts.as_slice())?;
    ask(alloc, keeper, key, batch)?;
    put_all(tables, puts);
    Ok(())
}
