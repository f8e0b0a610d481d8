use melon_change::BatchFault;
use melon_outside::KeeperError;
use std::alloc::AllocError;

/// Why a batch or a change set was not taken. After each the store, and what is kept of it, are as they were.
#[derive(Debug, Drop)]
pub enum WriteFault {
    /// The first operation that breaks a rule.
    Batch(BatchFault),
    /// The encoded rows would have so many bytes, which is more than 134217728.
    StoreFull { bytes: u64 },
    /// The journal would have so many bytes, which is more than 134217728.
    SessionFull { bytes: u64 },
    KeeperFault,
    Memory,
}

impl From<AllocError> for WriteFault {
    ghost use Rattle.std.specs.Prelude.{◌≡◌};
    ghost use Rattle.melon_board.specs.declared.fault.WriteFault.TheVariants.{Memory};

    ghost from_gives = { λ _ e. e ≡ Memory };

    fn from(_: AllocError) -> Self {
        WriteFault::Memory
    }
}

impl From<KeeperError> for WriteFault {
    ghost use Rattle.std.specs.Prelude.{◌≡◌};
    ghost use Rattle.melon_board.specs.Faults.{fault_of_keeper};

    ghost from_gives = { λ k e. e ≡ fault_of_keeper k };

    fn from(error: KeeperError) -> Self {
        match error {
            KeeperError::Memory => WriteFault::Memory,
            KeeperError::Failed => WriteFault::KeeperFault,
        }
    }
}

impl From<BatchFault> for WriteFault {
    ghost use Rattle.std.specs.Prelude.{◌≡◌};
    ghost use Rattle.melon_board.specs.Faults.{fault_of_batch};

    ghost from_gives = { λ b e. e ≡ fault_of_batch b };

    fn from(fault: BatchFault) -> Self {
        match fault {
            BatchFault::Memory => WriteFault::Memory,
            fault => WriteFault::Batch(fault),
        }
    }
}
