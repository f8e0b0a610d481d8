//! A connection: bytes that come in, and bytes that go out.
ghost use Rattle.std.specs.Prelude.{◌≡◌, ◌≤◌, List, ℕ, IfOk, OnOk, OnErr, length, is_err};
ghost use Rattle.std.specs.declared.option.Option.{Option};
ghost use Rattle.std.specs.Io.KnownBytes.{ReadConsumes, WriteAppends};
ghost use Rattle.melon_outside.specs.Moves.{Reads, Writes, Grows, GrowsByFront};
ghost use Rattle.melon_outside.specs.Causes.{HasCause};
ghost use Rattle.melon_outside.specs.Memory.{faults_after, read_fails, read_count, read_into, write_fails, write_count};
ghost use Rattle.melon_outside.specs.Conns.{conn_faults, conn_after_read, conn_after_write, IsSoundConn};

use crate::{Failed, MemorySink, MemorySource, Sink, Source};
use std::io::{Read, Write};
use std::marker::Model;

/// A connection.
pub trait Duplex {
    /// The bytes still to come in, where it tells them.
    ghost left: { Self → Option (List ℕ) };

    /// The bytes that it has taken, where it tells them.
    ghost written: { Self → Option (List ℕ) };

    /// How often it has failed.
    ghost faults: { Self → ℕ };

    /// Its reads never fail.
    ghost sound: { Self → Type 0 };

    /// Zero for a buffer that isn't empty is the end.
    fn read(&mut self, into: &mut [u8]) -> Result<usize, Failed>
        ensures bytes { Reads (left self.old) (left self.new) into.new result }
        ensures kept { written self.new ≡ written self.old }
        ensures cause { HasCause (faults self.old) (faults self.new) result }
        ensures sound_stays { sound self.old → sound self.new }
        ensures sound_count { sound self.old → faults self.new ≡ faults self.old }
        ensures sound_never { sound self.old → OnErr result ⊥ };

    /// Takes at least one byte of a piece that has any.
    fn write(&mut self, bytes: &[u8]) -> Result<usize, Failed>
        ensures bytes { Writes (written self.old) (written self.new) bytes.now result }
        ensures kept { left self.new ≡ left self.old }
        ensures cause { HasCause (faults self.old) (faults self.new) result }
        ensures sound_stays { sound self.old → sound self.new };
}

/// Sends all of the bytes, or a front of them.
pub fn send_all<C: Duplex>(conn: &mut C, bytes: &[u8]) -> Result<(), Failed>
    ensures ok { OnOk result (Grows (C.written conn.old) (C.written conn.new) bytes.now) }
    ensures front { OnErr result (GrowsByFront (C.written conn.old) (C.written conn.new) bytes.now) }
    ensures kept { C.left conn.new ≡ C.left conn.old }
    ensures cause { HasCause (C.faults conn.old) (C.faults conn.new) result }
    ensures sound_stays { C.sound conn.old → C.sound conn.new }
{
    let mut done = 0;
    while done < bytes.len() {
        done += conn.write(&bytes[done..])?;
    }
    Ok(())
}

/// A connection in memory: a source and a sink.
#[derive(Drop)]
pub struct MemoryConn {
    source: MemorySource,
    sink: MemorySink,
}

impl Model for MemoryConn {
    ghost use Rattle.melon_outside.specs.Conns.{ConnPlan};

    ghost Value = { ConnPlan };

    ghost view = { λ s. record { source = s.source; sink = s.sink } };
}

impl MemoryConn {
    pub fn new(source: MemorySource, sink: MemorySink) -> MemoryConn
        ensures { result ≡ record { source = source; sink = sink } }
    {
        MemoryConn { source, sink }
    }

    /// What was written.
    pub fn bytes(&self) -> &[u8]
        ensures { result.now ≡ self.now.sink.written }
    {
        self.sink.bytes()
    }
}

impl Duplex for MemoryConn {
    ghost use Rattle.std.specs.Prelude.{Some};

    ghost left = { λ s. Some s.source.left };

    ghost written = { λ s. Some s.sink.written };

    ghost faults = { λ s. conn_faults s };

    ghost sound = { λ s. IsSoundConn s };

    fn read(&mut self, into: &mut [u8]) -> Result<usize, Failed>
        ensures bytes { Reads (Some self.old.source.left) (Some self.new.source.left) into.new result }
        ensures kept { self.new.sink ≡ self.old.sink }
        ensures cause { HasCause (conn_faults self.old) (conn_faults self.new) result }
        ensures sound_stays { IsSoundConn self.old → IsSoundConn self.new }
        ensures sound_count { IsSoundConn self.old → conn_faults self.new ≡ conn_faults self.old }
        ensures sound_never { IsSoundConn self.old → OnErr result ⊥ }
        ensures planned { is_err result ≡ read_fails self.old.source }
        ensures count { IfOk result (λ n. n ≡ read_count self.old.source (length into.old)) }
        ensures moved { self.new ≡ conn_after_read self.old (length into.old) }
        ensures buffer { into.new ≡ read_into self.old.source into.old }
    {
        self.source.read(into)
    }

    fn write(&mut self, bytes: &[u8]) -> Result<usize, Failed>
        ensures bytes { Writes (Some self.old.sink.written) (Some self.new.sink.written) bytes.now result }
        ensures kept { self.new.source ≡ self.old.source }
        ensures cause { HasCause (conn_faults self.old) (conn_faults self.new) result }
        ensures planned { is_err result ≡ write_fails self.old.sink bytes.now }
        ensures count { IfOk result (λ n. n ≡ write_count self.old.sink bytes.now) }
        ensures moved { self.new ≡ conn_after_write self.old bytes.now }
    {
        self.sink.write(bytes)
    }
}

/// A stream of std, whose every error is a fault, and so is a write that takes nothing of a piece
/// that isn't empty. As a connection it tells no bytes; contracts see it as the stream and the count
/// of its faults.
#[derive(Drop)]
pub struct StreamConn<S: Read + Write> {
    stream: S,
    faults: u64,
}

impl<S: Read + Write> Model for StreamConn<S> {
    ghost use Rattle.std.specs.Prelude.{ℕ};

    ghost Value = { S × ℕ };

    ghost view = { λ s. (s.stream, s.faults) };
}

impl<S: Read + Write> StreamConn<S> {
    /// A connection over a stream, with no fault counted.
    pub fn new(stream: S) -> StreamConn<S>
        ensures { result ≡ (stream, 0) }
    {
        StreamConn { stream, faults: 0 }
    }

    /// The stream.
    pub fn into_stream(self) -> S
        ensures { result ≡ self.0 }
    {
        let StreamConn { stream, .. } = self;
        stream
    }
}

impl<S: Read + Write> Duplex for StreamConn<S> {
    ghost use Rattle.std.specs.Prelude.{None};

    ghost left = { λ s. None };

    ghost written = { λ s. None };

    ghost faults = { λ s. s.1 };

    ghost sound = { λ s. ⊥ };

    fn read(&mut self, into: &mut [u8]) -> Result<usize, Failed>
        ensures bytes { Reads None None into.new result }
        ensures cause { HasCause self.old.1 self.new.1 result }
        ensures told { ReadConsumes (S.remaining self.old.0) (S.remaining self.new.0) result into.new }
        ensures counted { self.new.1 ≡ faults_after (is_err result) self.old.1 }
    {
        match self.stream.read(into) {
            Ok(count) => Ok(count),
            Err(_) => {
                self.faults = self.faults.saturating_add(1);
                Err(Failed)
            }
        }
    }

    fn write(&mut self, bytes: &[u8]) -> Result<usize, Failed>
        ensures bytes { Writes None None bytes.now result }
        ensures cause { HasCause self.old.1 self.new.1 result }
        ensures told { WriteAppends (S.contents self.old.0) (S.contents self.new.0) result bytes.now }
        ensures counted { self.new.1 ≡ faults_after (is_err result) self.old.1 }
    {
        match self.stream.write(bytes) {
            Ok(count) if 0 < count || bytes.is_empty() => Ok(count),
            _ => {
                self.faults = self.faults.saturating_add(1);
                Err(Failed)
            }
        }
    }
}
