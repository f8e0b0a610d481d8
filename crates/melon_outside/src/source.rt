ghost use Rattle.std.specs.Prelude.{◌≡◌, ◌≤◌, ◌<◌, ◌+◌, ◌^◌, length, take, drop, List, ℕ, IfOk, OnErr, IsErrOf, is_err, vec_len};
ghost use Rattle.std.specs.declared.option.Option.{Option};
ghost use Rattle.std.specs.Io.KnownBytes.{ReadConsumes};
ghost use Rattle.melon_outside.specs.Moves.{Reads, Takes, IsAtEnd, IsWhole, TakesCount, TakesUpTo};
ghost use Rattle.melon_outside.specs.Causes.{HasCause, HasCauseOf, Rose};
ghost use Rattle.melon_outside.specs.Memory.{faults_after};

use crate::Failed;
use std::alloc::{AllocError, Global};
use std::io::Read;
use std::marker::Model;

/// Bytes that come in.
pub trait Source {
    /// The bytes still to come, where the source tells them.
    ghost left: { Self → Option (List ℕ) };

    /// How often it has failed.
    ghost faults: { Self → ℕ };

    /// Zero for a buffer that isn't empty is the end.
    fn read(&mut self, into: &mut [u8]) -> Result<usize, Failed>
        ensures bytes { Reads (left self.old) (left self.new) into.new result }
        ensures cause { HasCause (faults self.old) (faults self.new) result };
}

/// A reader of std, whose every error is a fault. As a source it tells no bytes; contracts see it
/// as the reader and the count of its faults.
#[derive(Drop)]
pub struct StdSource<R: Read> {
    inner: R,
    faults: u64,
}

impl<R: Read> Model for StdSource<R> {
    ghost use Rattle.std.specs.Prelude.{ℕ};

    ghost Value = { R × ℕ };

    ghost view = { λ s. (s.inner, s.faults) };
}

impl<R: Read> StdSource<R> {
    /// A source over a reader, with no fault counted.
    pub fn new(inner: R) -> StdSource<R>
        ensures { result ≡ (inner, 0) }
    {
        StdSource { inner, faults: 0 }
    }
}

impl<R: Read> Source for StdSource<R> {
    ghost use Rattle.std.specs.Prelude.{None};

    ghost left = { λ s. None };

    ghost faults = { λ s. s.1 };

    fn read(&mut self, into: &mut [u8]) -> Result<usize, Failed>
        ensures bytes { Reads None None into.new result }
        ensures cause { HasCause self.old.1 self.new.1 result }
        ensures told { ReadConsumes (R.remaining self.old.0) (R.remaining self.new.0) result into.new }
        ensures counted { self.new.1 ≡ faults_after (is_err result) self.old.1 }
    {
        match self.inner.read(into) {
            Ok(count) => Ok(count),
            Err(_) => {
                self.faults = self.faults.saturating_add(1);
                Err(Failed)
            }
        }
    }
}

/// Why not all was read.
#[derive(Clone, Copy, Debug, PartialEq, Eq)]
pub enum ReadFault {
    Memory,
    Failed,
    TooLong,
}

impl From<AllocError> for ReadFault {
    ghost use Rattle.melon_outside.specs.declared.source.ReadFault.TheVariants.{Memory};

    ghost from_gives = { λ _ e. e ≡ Memory };

    fn from(_: AllocError) -> Self {
        ReadFault::Memory
    }
}

const FIRST_ROOM: usize = 65536;

/// How long a full buffer becomes: twice as long, and no longer than `end`.
fn grown(filled: usize, end: usize) -> usize
    requires { filled < end }
    ensures longer { filled < result }
    ensures within { result ≤ end }
{
    filled.saturating_mul(2).max(FIRST_ROOM).min(end)
}

/// Makes room behind the filled bytes of a buffer, where it has none.
fn make_room(bytes: &mut Vec<u8>, filled: usize, end: usize) -> Result<(), AllocError>
    requires filled { filled ≤ vec_len bytes.old }
    requires within { vec_len bytes.old ≤ end }
    requires more { filled < end }
    ensures front { take filled bytes.new.items ≡ take filled bytes.old.items }
    ensures within { vec_len bytes.new ≤ end }
    ensures room { IfOk result (λ _. filled < vec_len bytes.new) }
{
    if filled == bytes.len() {
        bytes.resize(grown(filled, end), 0)?;
    }
    Ok(())
}

/// Reads into the part of a buffer behind its filled bytes.
fn read_behind<S: Source>(source: &mut S, bytes: &mut [u8], filled: usize) -> Result<usize, Failed>
    requires { filled < length bytes.old }
    ensures front { take filled bytes.new ≡ take filled bytes.old }
    ensures within { IfOk result (λ n. filled + n ≤ length bytes.new) }
    ensures bytes { IfOk result (λ n. Takes (S.left source.old) (S.left source.new) (take n (drop filled bytes.new))) }
    ensures end { IfOk result (λ n. n ≡ 0 → IsAtEnd (S.left source.old)) }
    ensures failed { OnErr result (S.left source.new ≡ S.left source.old) }
    ensures cause { HasCause (S.faults source.old) (S.faults source.new) result }
{
    source.read(&mut bytes[filled..])
}

/// One read behind the filled bytes of a buffer, which grows first where it is full.
fn read_more<S: Source>(
    source: &mut S,
    bytes: &mut Vec<u8>,
    filled: usize,
    end: usize,
) -> Result<usize, ReadFault>
    requires filled { filled ≤ vec_len bytes.old }
    requires within { vec_len bytes.old ≤ end }
    requires more { filled < end }
    ensures front { take filled bytes.new.items ≡ take filled bytes.old.items }
    ensures within { vec_len bytes.new ≤ end }
    ensures fits { IfOk result (λ n. filled + n ≤ vec_len bytes.new) }
    ensures bytes { IfOk result (λ n. Takes (S.left source.old) (S.left source.new) (take n (drop filled bytes.new.items))) }
    ensures end { IfOk result (λ n. n ≡ 0 → IsAtEnd (S.left source.old)) }
    ensures unmoved { OnErr result (S.left source.new ≡ S.left source.old) }
    ensures never { IsErrOf result ReadFault.TooLong → ⊥ }
    ensures cause { HasCauseOf ReadFault.Failed (S.faults source.old) (S.faults source.new) result }
{
    make_room(bytes, filled, end)?;
    match read_behind(source, bytes.as_mut_slice(), filled) {
        Ok(count) => Ok(count),
        Err(_) => Err(ReadFault::Failed),
    }
}

/// Reads to the end, and no more than `most + 1` bytes, into one buffer that grows by doubling.
///
/// TooLong comes where there are more than `most` bytes. Whatever else is answered, at most `most`
/// bytes were taken.
pub fn read_all<S: Source>(alloc: Global, source: &mut S, most: usize) -> Result<Vec<u8>, ReadFault>
    requires { most < 2 ^ 63 }
    ensures whole { IfOk result (λ bytes. IsWhole (S.left source.old) (S.left source.new) most bytes.items) }
    ensures too_long { IsErrOf result ReadFault.TooLong → TakesCount (S.left source.old) (S.left source.new) (most + 1) }
    ensures failed { IsErrOf result ReadFault.Failed → Rose (S.faults source.old) (S.faults source.new) × TakesUpTo (S.left source.old) (S.left source.new) most }
    ensures memory { IsErrOf result ReadFault.Memory → TakesUpTo (S.left source.old) (S.left source.new) most }
    ensures later { S.faults source.old ≤ S.faults source.new }
{
    let mut bytes = Vec::new(alloc);
    let mut filled = 0;
    while filled <= most {
        let count = read_more(source, &mut bytes, filled, most + 1)?;
        if count == 0 {
            bytes.truncate(filled);
            return Ok(bytes);
        }
        filled += count;
    }
    Err(ReadFault::TooLong)
}
