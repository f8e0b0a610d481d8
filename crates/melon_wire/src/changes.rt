use melon_raw::{Id, OpField};
use melon_schema::{List, Text};

/// A row as it is sent: its id, and the fields that the sender has, ascending by column, each once.
#[derive(Debug, Drop)]
pub struct Remote {
    pub id: Id,
    pub fields: List<OpField>,
}

/// What is told of one table: rows that are new, rows that were changed, and ids of rows that are gone.
#[derive(Debug, Drop)]
pub struct TableChanges {
    pub table: Text,
    pub created: List<Remote>,
    pub updated: List<Remote>,
    pub deleted: List<Id>,
}

/// A changes object of WatermelonDB's sync protocol: its tables, ascending by name, each once.
#[derive(Debug, Drop)]
pub struct Changes {
    pub tables: List<TableChanges>,
}
