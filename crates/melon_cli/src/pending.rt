//! Text that was printed and waits to be written in large pieces.
ghost use Rattle.std.specs.Prelude.{◌≡◌, ◌≤◌, ◌++◌, [], OnOk, OnErr, IsErrOf};
ghost use Rattle.melon_outside.specs.Moves.{Grows, GrowsByFront};
ghost use Rattle.melon_outside.specs.Causes.{HasCause, HasCauseOf};
ghost use Rattle.melon_cli.specs.Runs.{Pends};

use melon_outside::{Failed, Sink, write_all};
use std::alloc::AllocError;

/// How much is printed before it is written.
const LARGE_PIECE: usize = 65536;

/// Why a text was not added to what is pending.
#[derive(Clone, Copy, Debug, PartialEq, Eq)]
pub enum PutFault {
    Memory,
    Failed,
}

impl From<AllocError> for PutFault {
    ghost use Rattle.melon_cli.specs.declared.pending.PutFault.TheVariants.{Memory};

    ghost from_gives = { λ _ e. e ≡ Memory };

    fn from(_: AllocError) -> Self {
        PutFault::Memory
    }
}

impl From<Failed> for PutFault {
    ghost use Rattle.melon_cli.specs.declared.pending.PutFault.TheVariants as faults;

    ghost from_gives = { λ _ e. e ≡ faults.Failed };

    fn from(_: Failed) -> Self {
        PutFault::Failed
    }
}

/// Writes all that is pending.
pub fn flush<W: Sink>(output: &mut W, pending: &mut Vec<u8>) -> Result<(), Failed>
    ensures ok { OnOk result (Grows (W.written output.old) (W.written output.new) pending.old.items) }
    ensures none { OnOk result (pending.new.items ≡ []) }
    ensures front { OnErr result (GrowsByFront (W.written output.old) (W.written output.new) pending.old.items) }
    ensures cause { HasCause (W.faults output.old) (W.faults output.new) result }
{
    write_all(output, pending.as_slice())?;
    pending.clear();
    Ok(())
}

/// Writes what is pending where it has become large.
fn flush_large<W: Sink>(output: &mut W, pending: &mut Vec<u8>) -> Result<(), Failed>
    ensures ok { OnOk result (Pends (W.written output.old) (W.written output.new) pending.new.items pending.old.items) }
    ensures front { OnErr result (GrowsByFront (W.written output.old) (W.written output.new) pending.old.items) }
    ensures cause { HasCause (W.faults output.old) (W.faults output.new) result }
{
    if pending.len() < LARGE_PIECE {
        return Ok(());
    }
    flush(output, pending)
}

/// Adds a text to what is pending.
pub fn put<W: Sink>(output: &mut W, pending: &mut Vec<u8>, text: &[u8]) -> Result<(), PutFault>
    ensures ok { OnOk result (Pends (W.written output.old) (W.written output.new) pending.new.items (pending.old.items ++ text.now)) }
    ensures memory { IsErrOf result PutFault.Memory → (W.written output.new ≡ W.written output.old) × (pending.new.items ≡ pending.old.items) }
    ensures front { IsErrOf result PutFault.Failed → GrowsByFront (W.written output.old) (W.written output.new) (pending.old.items ++ text.now) }
    ensures cause { HasCauseOf PutFault.Failed (W.faults output.old) (W.faults output.new) result }
{
    pending.extend_from_slice(text)?;
    flush_large(output, pending)?;
    Ok(())
}
