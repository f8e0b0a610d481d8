use melon_raw::Id;
use melon_schema::Text;
use std::alloc::AllocError;

/// Why what was pulled was refused. Each is told for the first record by declared table and ascending id.
#[derive(Debug, Drop)]
pub enum PullFault {
    /// The record stands in two places of its table's lists. This is told before all else.
    Repeated { table: Text, id: Id },
    /// More than 65536 bytes are sent for a declared column of texts. It is the first such column that is sent.
    LongText { table: Text, id: Id, column: Text },
    Memory,
}

impl From<AllocError> for PullFault {
    ghost use Rattle.std.specs.Prelude.{◌≡◌};
    ghost use Rattle.melon_pull.specs.declared.fault.PullFault.TheVariants.{Memory};

    ghost from_gives = { λ _ e. e ≡ Memory };

    fn from(_: AllocError) -> Self {
        PullFault::Memory
    }
}
