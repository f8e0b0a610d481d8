ghost use Rattle.std.specs.Prelude.{◌≡◌};

use crate::Refusal;
use std::alloc::AllocError;

/// Why a JSON value was not read as a schema. Where several faults hold, the first in the order of reading is told:
/// the form of the whole, the limits, then table by table its name and its columns, and last the associations.
#[derive(Clone, Copy, Debug, PartialEq, Eq)]
pub enum SchemaFault {
    /// The value is outside the form: a key is missing or unknown, a value is of the wrong sort, or the version is
    /// outside 1 to 9007199254740991.
    Form,
    /// A name isn't a letter or `_` with letters, digits and `_` after it, or has more than 64 bytes.
    BadName,
    /// The table `local_storage`, or a column `id`, `_status` or `_changed`, is declared.
    Reserved,
    /// A table, or a column of one table, is declared twice.
    Repeated,
    /// A column's type is neither `string`, `number` nor `boolean`.
    UnknownKind,
    /// An association's table isn't declared, or its key isn't a `string` column: of the own table under `belongs_to`,
    /// of the other under `has_many`.
    NoAssociation,
    /// More than 64 tables are declared, or more than 64 columns of one table.
    Limit,
    Memory,
}

impl From<AllocError> for SchemaFault {
    ghost use Rattle.std.specs.Prelude.{◌≡◌};
    ghost use Rattle.melon_schema.specs.declared.schema_fault.SchemaFault.TheVariants.{Memory};

    ghost from_gives = { λ _ e. e ≡ Memory };

    fn from(_: AllocError) -> Self {
        SchemaFault::Memory
    }
}

impl SchemaFault {
    ghost use Rattle.melon_schema.specs.Schema.{fault_number};

    /// The number under which the fault is told. `Memory`, which is never told so, has 0.
    pub fn number(&self) -> u64
        ensures { result ≡ fault_number self.now }
    {
        match self {
            SchemaFault::Form => 1,
            SchemaFault::BadName => 2,
            SchemaFault::Reserved => 3,
            SchemaFault::Repeated => 4,
            SchemaFault::UnknownKind => 5,
            SchemaFault::NoAssociation => 6,
            SchemaFault::Limit => 7,
            SchemaFault::Memory => 0,
        }
    }
}
