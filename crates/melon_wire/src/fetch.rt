ghost use Rattle.std.specs.Prelude.{◌≡◌};

use melon_raw::{Id, Raw};
use melon_schema::List;

/// A collected row, with the place of its table.
#[derive(Debug, Drop)]
pub struct Held {
    pub table: usize,
    pub row: Raw,
}

/// The id of a collected row that is marked as deleted, with the place of its table.
#[derive(Debug, Drop)]
pub struct Gone {
    pub table: usize,
    pub id: Id,
}

/// What a push collected, each list ascending by the table's place and then by id.
#[derive(Debug, Drop)]
pub struct Fetch {
    pub created: List<Held>,
    pub updated: List<Held>,
    pub deleted: List<Gone>,
}

impl Fetch {
    ghost use Rattle.melon_wire.specs.Collected.{is_nothing};

    /// Whether nothing was collected.
    pub fn is_empty(&self) -> bool
        ensures { result ≡ is_nothing self.now }
    {
        self.created.is_empty() && self.updated.is_empty() && self.deleted.is_empty()
    }
}
