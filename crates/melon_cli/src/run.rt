ghost use Rattle.std.specs.Prelude.{◌≡◌, ◌≤◌, ◌<◌, ◌⊎◌, ◌↔◌, ◌≢◌, ◌^◌, IsTrue, ℕ, length, Some, None};
ghost use Rattle.melon_outside.specs.Moves.{GrowsByFront, TakesCount, TakesUpTo};
ghost use Rattle.melon_outside.specs.Causes.{Rose};
ghost use Rattle.melon_outside.specs.SeenKeeper.{Later};
ghost use Rattle.melon_script.specs.Script.{bad_line};
ghost use Rattle.melon_cli.specs.Runs.{IsRun, Prints, PrintsFront, RunsWhole, RunsSoFar};

use crate::lines::run_lines;
use crate::pending::flush;
use crate::status::Status;
use melon_outside::{Failed, Keeper, ReadFault, Sink, Source, read_all};
use melon_raw::Steps;
use melon_raw::steps::new_counter;
use std::alloc::Global;
use std::marker::Brand;
use std::sync::ledger::{Blank, Ledger};

/// The most bytes of a script.
const LONGEST_SCRIPT: usize = 16777216;

fn is_run(words: &[String]) -> bool
    ensures { IsTrue result ↔ IsRun words.now }
{
    words.len() == 1 && words[0].as_str() == "run"
}

fn run_counted<W: Sink, K: Keeper, N: Ledger>(
    alloc: Global,
    script: &[u8],
    output: &mut W,
    keeper: &mut K,
    counter: Blank,
) -> Status
    requires name { counter.name ≡ N.name }
    requires parts { counter.parts ≡ N.parts }
    requires shared { 0 < counter.parts }
    requires short { length script.now < 2 ^ 63 }
    ensures done { result ≡ Status.Done → (bad_line script.now ≡ None) × RunsWhole script.now (K.seen keeper.old) (K.seen keeper.new) (W.written output.old) (W.written output.new) }
    ensures bad_script { (line : ℕ) → result ≡ Status.BadScript line → (bad_line script.now ≡ Some line) × RunsWhole script.now (K.seen keeper.old) (K.seen keeper.new) (W.written output.old) (W.written output.new) }
    ensures memory { result ≡ Status.Memory → RunsSoFar script.now (K.seen keeper.old) (K.seen keeper.new) (GrowsByFront (W.written output.old) (W.written output.new)) }
    ensures write_fault { result ≡ Status.WriteFault → Rose (W.faults output.old) (W.faults output.new) × RunsSoFar script.now (K.seen keeper.old) (K.seen keeper.new) (GrowsByFront (W.written output.old) (W.written output.new)) }
    ensures keeper_later { Later (K.seen keeper.old) (K.seen keeper.new) }
    ensures output_later { W.faults output.old ≤ W.faults output.new }
    ensures words { result ≢ Status.BadWords }
    ensures read_fault { result ≢ Status.ReadFault }
    ensures too_long { result ≢ Status.TooLong }
{
    let mut steps = Steps::<N>::open(counter);
    let mut pending = Vec::new(alloc);
    match run_lines(alloc, script, output, keeper, &mut pending, &mut steps) {
        Status::WriteFault => Status::WriteFault,
        ended => match flush(output, &mut pending) {
            Ok(()) => ended,
            Err(Failed) => Status::WriteFault,
        },
    }
}

/// Runs a script, and writes all that it prints.
fn run_script<W: Sink, K: Keeper>(
    alloc: Global,
    script: &[u8],
    output: &mut W,
    keeper: &mut K,
) -> Status
    requires { length script.now < 2 ^ 63 }
    ensures done { result ≡ Status.Done → (bad_line script.now ≡ None) × RunsWhole script.now (K.seen keeper.old) (K.seen keeper.new) (W.written output.old) (W.written output.new) }
    ensures bad_script { (line : ℕ) → result ≡ Status.BadScript line → (bad_line script.now ≡ Some line) × RunsWhole script.now (K.seen keeper.old) (K.seen keeper.new) (W.written output.old) (W.written output.new) }
    ensures memory { result ≡ Status.Memory → RunsSoFar script.now (K.seen keeper.old) (K.seen keeper.new) (GrowsByFront (W.written output.old) (W.written output.new)) }
    ensures write_fault { result ≡ Status.WriteFault → Rose (W.faults output.old) (W.faults output.new) × RunsSoFar script.now (K.seen keeper.old) (K.seen keeper.new) (GrowsByFront (W.written output.old) (W.written output.new)) }
    ensures keeper_later { Later (K.seen keeper.old) (K.seen keeper.new) }
    ensures output_later { W.faults output.old ≤ W.faults output.new }
    ensures words { result ≢ Status.BadWords }
    ensures read_fault { result ≢ Status.ReadFault }
    ensures too_long { result ≢ Status.TooLong }
{
    run_counted::<W, K, Brand>(alloc, script, output, keeper, new_counter())
}

/// The program: `run` reads a script of at most 16777216 bytes to its end, takes its lines in order, writes what they
/// print, and keeps what the apps write with the keeper. It returns, and waits for nobody.
pub fn melon_run<S: Source, W: Sink, K: Keeper>(
    alloc: Global,
    words: &[String],
    input: &mut S,
    output: &mut W,
    keeper: &mut K,
) -> Status
    // The text of every line was written, and what the machine keeps is kept.
    ensures done { result ≡ Status.Done → Prints (S.left input.old) (S.left input.new) (W.written output.old) (W.written output.new) (K.seen keeper.old) (K.seen keeper.new) None }
    // The first line outside the grammar, the text of the lines before it, and what they keep.
    ensures bad_script { (line : ℕ) → result ≡ Status.BadScript line → Prints (S.left input.old) (S.left input.new) (W.written output.old) (W.written output.new) (K.seen keeper.old) (K.seen keeper.new) (Some line) }
    ensures bad_words { (result ≡ Status.BadWords) ↔ (IsRun words.now → ⊥) }
    ensures untouched { result ≡ Status.BadWords → (S.left input.new ≡ S.left input.old) × (W.written output.new ≡ W.written output.old) × (keeper.new ≡ keeper.old) }
    // The input failed before it was too long.
    ensures read_fault { result ≡ Status.ReadFault → Rose (S.faults input.old) (S.faults input.new) × TakesUpTo (S.left input.old) (S.left input.new) 16777216 × (W.written output.new ≡ W.written output.old) × (keeper.new ≡ keeper.old) }
    // With every other status fewer bytes were taken.
    ensures too_long { result ≡ Status.TooLong → TakesCount (S.left input.old) (S.left input.new) 16777217 × (W.written output.new ≡ W.written output.old) × (keeper.new ≡ keeper.old) }
    // A front of the text of some lines was written, and what the machine keeps after these lines is kept.
    ensures write_fault { result ≡ Status.WriteFault → Rose (W.faults output.old) (W.faults output.new) × PrintsFront (S.left input.old) (S.left input.new) (W.written output.old) (W.written output.new) (K.seen keeper.old) (K.seen keeper.new) }
    ensures memory { result ≡ Status.Memory → (TakesUpTo (S.left input.old) (S.left input.new) 16777216 × (W.written output.new ≡ W.written output.old) × (keeper.new ≡ keeper.old)) ⊎ PrintsFront (S.left input.old) (S.left input.new) (W.written output.old) (W.written output.new) (K.seen keeper.old) (K.seen keeper.new) }
    // The counts never fall. Over a keeper that never fails the count stays, and the keeper never fails afterwards.
    ensures keeper_later { Later (K.seen keeper.old) (K.seen keeper.new) }
    ensures input_later { S.faults input.old ≤ S.faults input.new }
    ensures output_later { W.faults output.old ≤ W.faults output.new }
{
    if !is_run(words) {
        return Status::BadWords;
    }
    match read_all(alloc, input, LONGEST_SCRIPT) {
        Err(ReadFault::Memory) => Status::Memory,
        Err(ReadFault::Failed) => Status::ReadFault,
        Err(ReadFault::TooLong) => Status::TooLong,
        Ok(script) => run_script(alloc, script.as_slice(), output, keeper),
    }
}
