use melon_schema::Text;
use std::alloc::AllocError;

/// A rule that one operation breaks. `BatchFault` has the same rules with the operation that breaks them.
#[derive(Debug, Drop)]
pub enum Rule {
    UnknownTable,
    UnknownColumn { column: Text },
    BadId,
    Twice,
    Taken,
    NoRow,
    LongText { column: Text },
    Memory,
}

impl From<AllocError> for Rule {
    ghost use Rattle.std.specs.Prelude.{◌≡◌};
    ghost use Rattle.melon_change.specs.declared.rule.Rule.TheVariants.{Memory};

    ghost from_gives = { λ _ e. e ≡ Memory };

    fn from(_: AllocError) -> Self {
        Rule::Memory
    }
}

/// Why a batch was refused: the first operation that breaks a rule, counted from 1, with the table and the id that it
/// names, and the first rule of this order that it breaks.
#[derive(Debug, Drop)]
pub enum BatchFault {
    /// The schema lacks the table.
    UnknownTable {
        op: u64,
        table: Text,
        id: Text,
    },
    /// The table lacks the column. It is the first such one by name.
    UnknownColumn {
        op: u64,
        table: Text,
        id: Text,
        column: Text,
    },
    /// The id is outside the form of ids.
    BadId {
        op: u64,
        table: Text,
        id: Text,
    },
    /// The record stands earlier in the batch.
    Twice {
        op: u64,
        table: Text,
        id: Text,
    },
    /// There is a row of the id already, of any status.
    Taken {
        op: u64,
        table: Text,
        id: Text,
    },
    /// There is no visible row of the id; to destroy, no row.
    NoRow {
        op: u64,
        table: Text,
        id: Text,
    },
    /// A column of texts is given more than 65536 bytes. It is the first such one by name.
    LongText {
        op: u64,
        table: Text,
        id: Text,
        column: Text,
    },
    /// There are more than 100000 operations, which is told before all else.
    TooMany {
        count: u64,
    },
    Memory,
}

impl From<AllocError> for BatchFault {
    ghost use Rattle.std.specs.Prelude.{◌≡◌};
    ghost use Rattle.melon_change.specs.declared.rule.BatchFault.TheVariants.{Memory};

    ghost from_gives = { λ _ e. e ≡ Memory };

    fn from(_: AllocError) -> Self {
        BatchFault::Memory
    }
}
