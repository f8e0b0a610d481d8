use melon_raw::{Datum, Id};
use melon_schema::List;

/// The row that a server keeps of a record: the revisions at which it was created, last changed and deleted, and one cell
/// for each column. A deleted row has no cells.
#[derive(Debug, Drop)]
pub struct ServerRow {
    pub id: Id,
    pub created: u64,
    pub changed: u64,
    pub deleted: Option<u64>,
    pub cells: List<Datum>,
}
