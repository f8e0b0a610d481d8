use melon_raw::Id;
use melon_schema::Text;
use std::alloc::AllocError;

/// Why a pull was not answered.
#[derive(Clone, Copy, Debug, PartialEq, Eq)]
pub enum AskFault {
    /// The timestamp is above the server's revision.
    Future { revision: u64 },
    Memory,
}

impl From<AllocError> for AskFault {
    ghost use Rattle.std.specs.Prelude.{◌≡◌};
    ghost use Rattle.melon_log.specs.declared.fault.AskFault.TheVariants.{Memory};

    ghost from_gives = { λ _ e. e ≡ Memory };

    fn from(_: AllocError) -> Self {
        AskFault::Memory
    }
}

/// Why a push was not accepted. The first kind that holds is told, and of that kind the first record by ascending table
/// and id. After each the server, and what is kept of it, are as they were.
#[derive(Debug, Drop)]
pub enum PushFault {
    /// The timestamp is above the server's revision.
    Future { revision: u64 },
    /// A table that the schema lacks, and then the column is empty, or a column that its table lacks.
    UnknownName { table: Text, column: Text },
    /// An id stands twice in the lists of one table.
    Repeated { table: Text, id: Id },
    /// The server's row is newer than the push knows; its greatest revision.
    Conflict { table: Text, id: Id, revision: u64 },
    /// A row that is sent as updated was deleted; its greatest revision.
    Gone { table: Text, id: Id, revision: u64 },
    /// A text of more than 65536 bytes is sent.
    LongText { table: Text, id: Id },
    /// The rows would have so many bytes, which is more than 134217728.
    StoreFull { bytes: u64 },
    KeeperFault,
    Memory,
}

impl From<AllocError> for PushFault {
    ghost use Rattle.std.specs.Prelude.{◌≡◌};
    ghost use Rattle.melon_log.specs.declared.fault.PushFault.TheVariants.{Memory};

    ghost from_gives = { λ _ e. e ≡ Memory };

    fn from(_: AllocError) -> Self {
        PushFault::Memory
    }
}
