//! What a keeper keeps of a store, and the batches that change it.

use melon_schema::{List, Text};

/// The key of a row that is kept.
#[derive(Debug, Drop)]
pub struct KeptKey {
    pub table: Text,
    pub id: Text,
}

/// A row that is kept.
#[derive(Debug, Drop)]
pub struct KeptRow {
    pub table: Text,
    pub id: Text,
    pub body: List<u8>,
}

/// A value that is kept.
#[derive(Debug, Drop)]
pub struct KeptValue {
    pub name: Text,
    pub number: u64,
}

/// What is kept of a store: its rows ascend by table and id, its values by name, all by their bytes.
#[derive(Debug, Drop)]
pub struct Kept {
    pub rows: List<KeptRow>,
    pub values: List<KeptValue>,
}

/// What is done to a store, in the order of the fields. `clear` removes the rows and leaves the values.
#[derive(Debug, Drop)]
pub struct KeptBatch {
    pub clear: bool,
    pub removes: List<KeptKey>,
    pub puts: List<KeptRow>,
    pub values: List<KeptValue>,
}

/// A store and what is kept of it.
#[derive(Debug, Drop)]
pub struct KeptStore {
    pub name: Text,
    pub kept: Kept,
}

/// Why a store or a backend was not opened over what is kept.
#[derive(Debug, Drop)]
pub enum OpenFault {
    /// The first row, in ascending order, that is no row of its table.
    BadRow { table: Text, id: Text },
    /// The kept schema's version.
    Version { stored: u64 },
    /// The rows have so many bytes, which is too many.
    Full { bytes: u64 },
    KeeperFault,
    Memory,
}
