ghost use Rattle.std.specs.Prelude.{◌≡◌, List, ℕ, OnOk, OnErr, is_err};
ghost use Rattle.std.specs.declared.option.Option.{Option};
ghost use Rattle.std.specs.Io.KnownBytes.{WriteAppends};
ghost use Rattle.melon_outside.specs.Moves.{Writes, Grows, GrowsByFront};
ghost use Rattle.melon_outside.specs.Causes.{HasCause};
ghost use Rattle.melon_outside.specs.Memory.{faults_after};

use crate::Failed;
use std::io::Write;
use std::marker::Model;

/// Bytes that go out.
pub trait Sink {
    /// The bytes that it has taken, where the sink tells them.
    ghost written: { Self → Option (List ℕ) };

    /// How often it has failed.
    ghost faults: { Self → ℕ };

    /// Takes at least one byte of a piece that has any.
    fn write(&mut self, bytes: &[u8]) -> Result<usize, Failed>
        ensures bytes { Writes (written self.old) (written self.new) bytes.now result }
        ensures cause { HasCause (faults self.old) (faults self.new) result };
}

/// A writer of std. Its every error is a fault, and so is a write that takes nothing of a piece
/// that isn't empty. As a sink it tells no bytes; contracts see it as the writer and the count of
/// its faults.
#[derive(Drop)]
pub struct StdSink<W: Write> {
    inner: W,
    faults: u64,
}

impl<W: Write> Model for StdSink<W> {
    ghost use Rattle.std.specs.Prelude.{ℕ};

    ghost Value = { W × ℕ };

    ghost view = { λ s. (s.inner, s.faults) };
}

impl<W: Write> StdSink<W> {
    /// A sink over a writer, with no fault counted.
    pub fn new(inner: W) -> StdSink<W>
        ensures { result ≡ (inner, 0) }
    {
        StdSink { inner, faults: 0 }
    }
}

impl<W: Write> Sink for StdSink<W> {
    ghost use Rattle.std.specs.Prelude.{None};

    ghost written = { λ s. None };

    ghost faults = { λ s. s.1 };

    fn write(&mut self, bytes: &[u8]) -> Result<usize, Failed>
        ensures bytes { Writes None None bytes.now result }
        ensures cause { HasCause self.old.1 self.new.1 result }
        ensures told { WriteAppends (W.contents self.old.0) (W.contents self.new.0) result bytes.now }
        ensures counted { self.new.1 ≡ faults_after (is_err result) self.old.1 }
    {
        match self.inner.write(bytes) {
            Ok(count) if 0 < count || bytes.is_empty() => Ok(count),
            _ => {
                self.faults = self.faults.saturating_add(1);
                Err(Failed)
            }
        }
    }
}

/// Writes all of the bytes, or a front of them.
pub fn write_all<K: Sink>(sink: &mut K, bytes: &[u8]) -> Result<(), Failed>
    ensures ok { OnOk result (Grows (K.written sink.old) (K.written sink.new) bytes.now) }
    ensures front { OnErr result (GrowsByFront (K.written sink.old) (K.written sink.new) bytes.now) }
    ensures cause { HasCause (K.faults sink.old) (K.faults sink.new) result }
{
    let mut done = 0;
    while done < bytes.len() {
        done += sink.write(&bytes[done..])?;
    }
    Ok(())
}
