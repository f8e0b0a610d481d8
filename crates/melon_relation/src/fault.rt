ghost use Rattle.std.specs.Prelude.{◌≡◌};

use std::alloc::AllocError;

/// Why a relation was not followed, in the order in which it is tried.
#[derive(Clone, Copy, Debug, PartialEq, Eq)]
pub enum RelationFault {
    /// The row whose relation it is isn't visible.
    NoRow,
    /// The table isn't associated with the other table in the way that is asked for.
    NoAssociation,
    Memory,
}

impl From<AllocError> for RelationFault {
    ghost use Rattle.std.specs.Prelude.{◌≡◌};
    ghost use Rattle.melon_relation.specs.declared.fault.RelationFault.TheVariants.{Memory};

    ghost from_gives = { λ _ e. e ≡ Memory };

    fn from(_: AllocError) -> Self {
        RelationFault::Memory
    }
}

impl RelationFault {
    ghost use Rattle.melon_relation.specs.Faults.{fault_number};

    /// The number under which the fault is told. `Memory`, which is never told so, has 0.
    pub fn number(&self) -> u64
        ensures { result ≡ fault_number self.now }
    {
        match self {
            RelationFault::NoRow => 1,
            RelationFault::NoAssociation => 2,
            RelationFault::Memory => 0,
        }
    }
}
