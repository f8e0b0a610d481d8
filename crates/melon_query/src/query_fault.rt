ghost use Rattle.std.specs.Prelude.{◌≡◌};

use std::alloc::AllocError;

/// Why a JSON value was not read as a query. Where several faults hold, the first in the order of reading is told: the
/// form of the whole, the limits, the main table, the joins, the conditions from left to right and depth first, the
/// sort columns, and last `skip` without `take`.
#[derive(Clone, Copy, Debug, PartialEq, Eq)]
pub enum QueryFault {
    /// The value is outside the form, or has a number outside -9007199254740991 to 9007199254740991.
    Form,
    /// The main table, or one of `joins` or of an `on`, isn't declared.
    UnknownTable,
    /// A column isn't declared.
    UnknownColumn,
    /// The operator isn't for columns of this kind, or the right side isn't of the column's kind or not what the operator
    /// takes.
    WrongKind,
    /// A list has null.
    NullInList,
    /// The main table isn't associated with the other table.
    NoAssociation,
    /// An `on` stands below `and` or `or`, and `joins` doesn't have its table.
    UndeclaredJoin,
    /// There is a `skip` without a `take`.
    SkipWithoutTake,
    /// More than 16 `and`, `or` and `on` stand above a condition, or there are more than 256 conditions, 1000 values in
    /// one list, or 8 joined tables.
    Limit,
    Memory,
}

impl From<AllocError> for QueryFault {
    ghost use Rattle.std.specs.Prelude.{◌≡◌};
    ghost use Rattle.melon_query.specs.declared.query_fault.QueryFault.TheVariants.{Memory};

    ghost from_gives = { λ _ e. e ≡ Memory };

    fn from(_: AllocError) -> Self {
        QueryFault::Memory
    }
}

impl QueryFault {
    ghost use Rattle.melon_query.specs.Numbers.{fault_number};

    /// The number under which the fault is told. `Memory`, which is never told so, has 0.
    pub fn number(&self) -> u64
        ensures { result ≡ fault_number self.now }
    {
        match self {
            QueryFault::Form => 1,
            QueryFault::UnknownTable => 2,
            QueryFault::UnknownColumn => 3,
            QueryFault::WrongKind => 4,
            QueryFault::NullInList => 5,
            QueryFault::NoAssociation => 6,
            QueryFault::UndeclaredJoin => 7,
            QueryFault::SkipWithoutTake => 8,
            QueryFault::Limit => 9,
            QueryFault::Memory => 0,
        }
    }
}
