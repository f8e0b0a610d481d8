//! The lines of a script, taken one after another.
ghost use Rattle.std.specs.Prelude.{◌≡◌, ◌≢◌, ◌≤◌, ◌<◌, ◌^◌, ◌⊎◌, ◌++◌, ℕ, [], length, Some, None, OnOk, IsErrOf};
ghost use Rattle.melon_outside.specs.Causes.{Rose};
ghost use Rattle.melon_outside.specs.Moves.{GrowsByFront};
ghost use Rattle.melon_outside.specs.SeenKeeper.{Later};
ghost use Rattle.melon_script.specs.Script.{bad_line, IsLine, IsOutside};
ghost use Rattle.melon_script.specs.Seen.{seen};
ghost use Rattle.melon_machine.specs.Run.{line_calls};
ghost use Rattle.melon_machine.specs.Step.{step};
ghost use Rattle.melon_world.specs.Handled.{InterruptsAs};
ghost use Rattle.melon_cli.specs.Runs.{Pends, PendsFront, RunsTo, RunsSoFar, Takes, IsUntouched};

use crate::pending::{PutFault, put};
use crate::status::Status;
use melon_outside::{Keeper, Sink};
use melon_raw::Steps;
use melon_script::{Line, LineFault, next_line, print};
use melon_world::World;
use std::alloc::{AllocError, Global};
use std::sync::ledger::Ledger;

/// Why a line was not taken, or not whole.
#[derive(Clone, Copy, Debug, PartialEq, Eq)]
enum LineStop {
    /// It is outside the grammar.
    Outside,
    Memory,
    /// The output failed.
    Failed,
}

impl From<AllocError> for LineStop {
    ghost use Rattle.melon_cli.specs.declared.lines.LineStop.TheVariants.{Memory};

    ghost from_gives = { λ _ e. e ≡ Memory };

    fn from(_: AllocError) -> Self {
        LineStop::Memory
    }
}

/// Steps the machine by a line, and adds what it prints to what is pending.
fn step_line<W: Sink, K: Keeper, N: Ledger>(
    world: &mut World,
    alloc: Global,
    keeper: &mut K,
    output: &mut W,
    pending: &mut Vec<u8>,
    line: &Line,
    steps: &mut Steps<N>,
) -> Result<(), LineStop>
    ensures ok { OnOk result (Takes (λ m. step m (seen line.now)) world.old world.new (K.seen keeper.old) (K.seen keeper.new) (λ text. Pends (W.written output.old) (W.written output.new) pending.new.items (pending.old.items ++ text))) }
    ensures untouched { IsErrOf result LineStop.Memory → IsUntouched (W.written output.old) (W.written output.new) pending.old.items pending.new.items }
    ensures memory { IsErrOf result LineStop.Memory → InterruptsAs (λ m. step m (seen line.now)) world.old (K.seen keeper.old) (K.seen keeper.new) ⊎ Takes (λ m. step m (seen line.now)) world.old world.new (K.seen keeper.old) (K.seen keeper.new) (λ _. Unit {0}) }
    ensures failed { IsErrOf result LineStop.Failed → Takes (λ m. step m (seen line.now)) world.old world.new (K.seen keeper.old) (K.seen keeper.new) (λ text. GrowsByFront (W.written output.old) (W.written output.new) (pending.old.items ++ text)) }
    ensures cause { IsErrOf result LineStop.Failed → Rose (W.faults output.old) (W.faults output.new) }
    ensures outside { IsErrOf result LineStop.Outside → ⊥ }
    ensures keeper_later { Later (K.seen keeper.old) (K.seen keeper.new) }
    ensures output_later { W.faults output.old ≤ W.faults output.new }
{
    let answer = world.step(alloc, keeper, line, steps)?;
    let text = print(alloc, &answer)?;
    match put(output, pending, text.as_slice()) {
        Ok(()) => Ok(()),
        Err(PutFault::Memory) => Err(LineStop::Memory),
        Err(PutFault::Failed) => Err(LineStop::Failed),
    }
}

/// Takes a line of bytes.
fn take_line<W: Sink, K: Keeper, N: Ledger>(
    world: &mut World,
    alloc: Global,
    keeper: &mut K,
    output: &mut W,
    pending: &mut Vec<u8>,
    bytes: &[u8],
    steps: &mut Steps<N>,
) -> Result<(), LineStop>
    ensures line { OnOk result (IsLine bytes.now) }
    ensures ok { OnOk result (Takes (λ m. line_calls m bytes.now) world.old world.new (K.seen keeper.old) (K.seen keeper.new) (λ text. Pends (W.written output.old) (W.written output.new) pending.new.items (pending.old.items ++ text))) }
    ensures untouched { IsErrOf result LineStop.Memory → IsUntouched (W.written output.old) (W.written output.new) pending.old.items pending.new.items }
    ensures memory { IsErrOf result LineStop.Memory → InterruptsAs (λ m. line_calls m bytes.now) world.old (K.seen keeper.old) (K.seen keeper.new) ⊎ (IsLine bytes.now × Takes (λ m. line_calls m bytes.now) world.old world.new (K.seen keeper.old) (K.seen keeper.new) (λ _. Unit {0})) }
    ensures failed { IsErrOf result LineStop.Failed → IsLine bytes.now × Takes (λ m. line_calls m bytes.now) world.old world.new (K.seen keeper.old) (K.seen keeper.new) (λ text. GrowsByFront (W.written output.old) (W.written output.new) (pending.old.items ++ text)) }
    ensures cause { IsErrOf result LineStop.Failed → Rose (W.faults output.old) (W.faults output.new) }
    ensures outside { IsErrOf result LineStop.Outside → IsOutside bytes.now × IsUntouched (W.written output.old) (W.written output.new) pending.old.items pending.new.items × (keeper.new ≡ keeper.old) }
    ensures keeper_later { Later (K.seen keeper.old) (K.seen keeper.new) }
    ensures output_later { W.faults output.old ≤ W.faults output.new }
{
    match Line::read(alloc, bytes) {
        Ok(None) => Ok(()),
        Ok(Some(line)) => step_line(world, alloc, keeper, output, pending, &line, steps),
        Err(LineFault::Form) => Err(LineStop::Outside),
        Err(LineFault::Memory) => Err(LineStop::Memory),
    }
}

/// Takes the lines of a script in order, and prints what each gives.
pub fn run_lines<W: Sink, K: Keeper, N: Ledger>(
    alloc: Global,
    script: &[u8],
    output: &mut W,
    keeper: &mut K,
    pending: &mut Vec<u8>,
    steps: &mut Steps<N>,
) -> Status
    requires short { length script.now < 2 ^ 63 }
    requires none { pending.old.items ≡ [] }
    ensures done { result ≡ Status.Done → (bad_line script.now ≡ None) × RunsTo script.now (K.seen keeper.old) (K.seen keeper.new) [] (Pends (W.written output.old) (W.written output.new) pending.new.items) }
    ensures bad_script { (line : ℕ) → result ≡ Status.BadScript line → (bad_line script.now ≡ Some line) × RunsTo script.now (K.seen keeper.old) (K.seen keeper.new) [] (Pends (W.written output.old) (W.written output.new) pending.new.items) }
    ensures front { result ≢ Status.WriteFault → RunsSoFar script.now (K.seen keeper.old) (K.seen keeper.new) (PendsFront (W.written output.old) (W.written output.new) pending.new.items) }
    ensures write_fault { result ≡ Status.WriteFault → Rose (W.faults output.old) (W.faults output.new) × RunsSoFar script.now (K.seen keeper.old) (K.seen keeper.new) (GrowsByFront (W.written output.old) (W.written output.new)) }
    ensures keeper_later { Later (K.seen keeper.old) (K.seen keeper.new) }
    ensures output_later { W.faults output.old ≤ W.faults output.new }
    ensures words { result ≢ Status.BadWords }
    ensures read_fault { result ≢ Status.ReadFault }
    ensures too_long { result ≢ Status.TooLong }
{
    let mut world = World::new(alloc);
    let mut rest = script;
    let mut number: u64 = 0;
    while !rest.is_empty() {
        let (bytes, later) = next_line(rest);
        number += 1;
        match take_line(&mut world, alloc, keeper, output, pending, bytes, steps) {
            Ok(()) => rest = later,
            Err(LineStop::Outside) => return Status::BadScript { line: number },
            Err(LineStop::Memory) => return Status::Memory,
            Err(LineStop::Failed) => return Status::WriteFault,
        }
    }
    Status::Done
}
