//! How the faults of keepers and of memory are told by an opening.

use crate::{KeeperError, OpenFault};
use std::alloc::AllocError;

impl From<AllocError> for OpenFault {
    ghost use Rattle.std.specs.Prelude.{◌≡◌};
    ghost use Rattle.melon_outside.specs.declared.kept.OpenFault.TheVariants.{Memory};

    ghost from_gives = { λ _ e. e ≡ Memory };

    fn from(_: AllocError) -> Self {
        OpenFault::Memory
    }
}

impl From<KeeperError> for OpenFault {
    ghost use Rattle.std.specs.Prelude.{◌≡◌};
    ghost use Rattle.melon_outside.specs.Keeping.{open_fault_of};

    ghost from_gives = { λ k e. e ≡ open_fault_of k };

    fn from(error: KeeperError) -> Self {
        match error {
            KeeperError::Memory => OpenFault::Memory,
            KeeperError::Failed => OpenFault::KeeperFault,
        }
    }
}
