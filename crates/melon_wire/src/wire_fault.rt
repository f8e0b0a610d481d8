ghost use Rattle.std.specs.Prelude.{◌≡◌};

use melon_raw::IdFault;
use std::alloc::AllocError;

/// Why bytes were not read as a changes object or a reply. The first fault in the order of reading is told: that the
/// bytes are no JSON, and then table by table, ascending by name, its name, its form, and its rows and ids.
#[derive(Clone, Copy, Debug, PartialEq, Eq)]
pub enum WireFault {
    /// The bytes are no JSON.
    NotJson,
    /// A value is of the wrong sort, or a key is missing or unknown.
    Form,
    /// A number isn't a whole number from -9007199254740991 to 9007199254740991, or a timestamp not one from 0.
    Number,
    /// A table's name isn't a letter or `_` with letters, digits and `_` after it, or has more than 64 bytes.
    Name,
    /// A text in the place of an id is none.
    BadId,
    Memory,
}

impl From<AllocError> for WireFault {
    ghost use Rattle.std.specs.Prelude.{◌≡◌};
    ghost use Rattle.melon_wire.specs.declared.wire_fault.WireFault.TheVariants.{Memory};

    ghost from_gives = { λ _ e. e ≡ Memory };

    fn from(_: AllocError) -> Self {
        WireFault::Memory
    }
}

impl From<IdFault> for WireFault {
    ghost use Rattle.std.specs.Prelude.{◌≡◌};
    ghost use Rattle.melon_wire.specs.Faults.{fault_of_id};

    ghost from_gives = { λ id e. e ≡ fault_of_id id };

    fn from(fault: IdFault) -> Self {
        match fault {
            IdFault::Bad => WireFault::BadId,
            IdFault::Memory => WireFault::Memory,
        }
    }
}

impl WireFault {
    ghost use Rattle.melon_wire.specs.Faults.{fault_number};

    /// The number under which the fault is told. `Memory`, which is never told so, has 0.
    pub fn number(&self) -> u64
        ensures { result ≡ fault_number self.now }
    {
        match self {
            WireFault::NotJson => 1,
            WireFault::Form => 2,
            WireFault::Number => 3,
            WireFault::Name => 4,
            WireFault::BadId => 5,
            WireFault::Memory => 0,
        }
    }
}
