ghost use Rattle.std.specs.Prelude.{◌≡◌, ◌≤◌, ◌<◌, ◌+◌, ◌-◌, ◌++◌, [], min, length, drop, take, is_err, false, Some, IfOk};
ghost use Rattle.melon_outside.specs.Causes.{next_count, HasCause};
ghost use Rattle.melon_outside.specs.Moves.{Reads, Writes};
ghost use Rattle.melon_outside.specs.Memory.{fails_next, fails_later, read_count, read_fails, read_into, after_read, write_count, write_fails, after_write};

use crate::{Failed, Sink, Source};
use melon_schema::List;
use std::alloc::{AllocError, Global};
use std::marker::Model;

/// Bytes in memory, of which a call moves at most `most`. The calls in `fails` fail.
#[derive(Drop)]
pub struct MemorySource {
    bytes: List<u8>,
    at: usize,
    most: usize,
    fails: List<u64>,
    call: u64,
    faults: u64,
}

impl Model for MemorySource {
    ghost use Rattle.std.specs.Prelude.{◌≤◌, ◌<◌, length, drop};
    ghost use Rattle.melon_outside.specs.Memory.{Plan};

    ghost Value = { Plan };

    ghost view = { λ s. record { left = drop s.at s.bytes; most = s.most; fails = s.fails; calls = s.call; faults = s.faults } };

    ghost invariant = { λ s. (0 < s.most) × (s.at ≤ length s.bytes) };
}

impl MemorySource {
    /// `fails` are the numbers, from 1, of the calls that are to fail.
    pub fn new(bytes: List<u8>, most: usize, fails: List<u64>) -> MemorySource
        requires { 0 < most }
        ensures { result ≡ record { left = bytes; most = most; fails = fails; calls = 0; faults = 0 } }
    {
        MemorySource {
            bytes,
            at: 0,
            most,
            fails,
            call: 0,
            faults: 0,
        }
    }
}

/// Counts a call, and answers whether it is one that is to fail.
pub(crate) fn count_call(call: &mut u64, fails: &[u64]) -> bool
    ensures fails { result ≡ fails_next fails.now call.old }
    ensures counted { call.new ≡ next_count call.old }
    ensures never { fails_later fails.now call.old ≡ false → result ≡ false }
    ensures none_later { fails_later fails.now call.old ≡ false → fails_later fails.now call.new ≡ false }
{
    *call = call.saturating_add(1);
    fails.contains(call)
}

/// Copies the next bytes, as many as both have and `most` allows.
fn copy_next(bytes: &[u8], at: usize, most: usize, into: &mut [u8]) -> usize
    requires { at ≤ length bytes.now }
    ensures count { result ≡ min (min (length (drop at bytes.now)) most) (length into.old) }
    ensures copied { into.new ≡ take result (drop at bytes.now) ++ drop result into.old }
{
    let count = (bytes.len() - at).min(most).min(into.len());
    into[..count].copy_from_slice(&bytes[at..at + count]);
    count
}

impl Source for MemorySource {
    ghost left = { λ s. Some s.left };

    ghost faults = { λ s. s.faults };

    fn read(&mut self, into: &mut [u8]) -> Result<usize, Failed>
        ensures bytes { Reads (Some self.old.left) (Some self.new.left) into.new result }
        ensures cause { HasCause self.old.faults self.new.faults result }
        ensures planned { is_err result ≡ read_fails self.old }
        ensures count { IfOk result (λ n. n ≡ read_count self.old (length into.old)) }
        ensures moved { self.new ≡ after_read self.old (length into.old) }
        ensures buffer { into.new ≡ read_into self.old into.old }
    {
        if count_call(&mut self.call, self.fails.as_slice()) {
            self.faults = self.faults.saturating_add(1);
            return Err(Failed);
        }
        let count = copy_next(self.bytes.as_slice(), self.at, self.most, into);
        self.at += count;
        Ok(count)
    }
}

/// A sink in memory with room for so many bytes, of which a call takes at most `most`. The calls in
/// `fails` fail, and so does a write of a piece that isn't empty where no room is left.
#[derive(Drop)]
pub struct MemorySink {
    bytes: Vec<u8>,
    room: usize,
    most: usize,
    fails: List<u64>,
    call: u64,
    faults: u64,
}

impl Model for MemorySink {
    ghost use Rattle.std.specs.Prelude.{◌+◌, ◌≤◌, ◌<◌, vec_len, vec_capacity};
    ghost use Rattle.melon_outside.specs.Memory.{SinkPlan};

    ghost Value = { SinkPlan };

    ghost view = { λ s. record { written = s.bytes.items; room = s.room; most = s.most; fails = s.fails; calls = s.call; faults = s.faults } };

    ghost invariant = { λ s. (0 < s.most) × (vec_len s.bytes + s.room ≤ vec_capacity s.bytes) };
}

impl MemorySink {
    /// Makes the room, so that no write takes memory. `fails` are the numbers, from 1, of the calls
    /// that are to fail.
    pub fn new(
        alloc: Global,
        room: usize,
        most: usize,
        fails: List<u64>,
    ) -> Result<MemorySink, AllocError>
        requires { 0 < most }
        ensures { IfOk result (λ s. s ≡ record { written = []; room = room; most = most; fails = fails; calls = 0; faults = 0 }) }
    {
        Ok(MemorySink {
            bytes: Vec::with_capacity(alloc, room)?,
            room,
            most,
            fails,
            call: 0,
            faults: 0,
        })
    }

    /// What was written.
    pub fn bytes(&self) -> &[u8]
        ensures { result.now ≡ self.now.written }
    {
        self.bytes.as_slice()
    }
}

impl Sink for MemorySink {
    ghost written = { λ s. Some s.written };

    ghost faults = { λ s. s.faults };

    fn write(&mut self, bytes: &[u8]) -> Result<usize, Failed>
        ensures bytes { Writes (Some self.old.written) (Some self.new.written) bytes.now result }
        ensures cause { HasCause self.old.faults self.new.faults result }
        ensures planned { is_err result ≡ write_fails self.old bytes.now }
        ensures count { IfOk result (λ n. n ≡ write_count self.old bytes.now) }
        ensures moved { self.new ≡ after_write self.old bytes.now }
    {
        let planned = count_call(&mut self.call, self.fails.as_slice());
        if planned || self.room == 0 && !bytes.is_empty() {
            self.faults = self.faults.saturating_add(1);
            return Err(Failed);
        }
        let count = self.room.min(self.most).min(bytes.len());
        self.bytes.extend_from_slice(&bytes[..count]).unwrap();
        self.room -= count;
        Ok(count)
    }
}
