//! Connections, one after another.
ghost use Rattle.std.specs.Prelude.{◌≡◌, ◌≤◌, ◌<◌, ◌+◌, List, ℕ, [], Some, IfOk, OnErr};
ghost use Rattle.std.specs.declared.option.Option.{Option};
ghost use Rattle.melon_outside.specs.Causes.{HasCause};
ghost use Rattle.melon_outside.specs.Conns.{Comes, Gains, Tells, out_after, after_next};

use crate::{Duplex, Failed, MemoryConn};
use melon_schema::List;
use std::alloc::{AllocError, Global};
use std::marker::Model;
use std::vec::IntoIter;

/// Connections that come.
pub trait Arrivals {
    type Conn: Duplex;

    /// The connections still to come, where it tells them.
    ghost coming: { Self → Option (List Self.Conn) };

    /// The connections that were handed back, in their order, where it tells them.
    ghost finished: { Self → Option (List Self.Conn) };

    /// How many were taken and not handed back.
    ghost out: { Self → ℕ };

    /// How often it has failed.
    ghost faults: { Self → ℕ };

    /// It tells, its connections are sound, and it fails only where none is to come.
    ghost sound: { Self → Type 0 };

    /// Takes the next connection.
    fn next(&mut self) -> Result<Self::Conn, Failed>
        ensures comes { Comes (coming self.old) (coming self.new) result }
        ensures kept { finished self.new ≡ finished self.old }
        ensures out { out self.new ≡ out_after (out self.old) result }
        ensures cause { HasCause (faults self.old) (faults self.new) result }
        ensures sound_gives { sound self.old → IfOk result (λ one. Self.Conn.sound one) }
        ensures sound_fails { sound self.old → OnErr result (coming self.old ≡ Some []) }
        ensures sound_stays { sound self.old → sound self.new };

    /// Hands a connection back, and closes it.
    fn finish(&mut self, conn: Self::Conn)
        requires { 0 < out self.old }
        ensures gains { Gains (finished self.old) (finished self.new) conn }
        ensures kept { coming self.new ≡ coming self.old }
        ensures out { out self.new + 1 ≡ out self.old }
        ensures count { faults self.new ≡ faults self.old }
        ensures sound_stays { sound self.old → sound self.new };

    /// A sound one tells.
    ghost told: { (arrivals : Self) → sound arrivals → Tells (coming arrivals) × Tells (finished arrivals) };
}

/// Connections in memory. To ask for one past the last is a fault.
#[derive(Drop)]
pub struct MemoryArrivals {
    coming: IntoIter<MemoryConn, Global>,
    finished: Vec<MemoryConn>,
    out: usize,
    faults: u64,
}

impl Model for MemoryArrivals {
    ghost use Rattle.std.specs.Prelude.{◌+◌, ◌≤◌, vec_len, vec_capacity};
    ghost use Rattle.std.specs.Vec.Iter.{into_iter_items, into_iter_len};
    ghost use Rattle.melon_outside.specs.Conns.{Visits};

    ghost Value = { Visits };

    ghost view = { λ s. record { coming = into_iter_items s.coming; finished = s.finished.items; out = s.out; faults = s.faults } };

    ghost invariant = { λ s. vec_len s.finished + (s.out + into_iter_len s.coming) ≤ vec_capacity s.finished };
}

impl MemoryArrivals {
    /// Makes the room for those that are handed back.
    pub fn new(alloc: Global, conns: List<MemoryConn>) -> Result<MemoryArrivals, AllocError>
        ensures { IfOk result (λ s. s ≡ record { coming = conns; finished = []; out = 0; faults = 0 }) }
    {
        Ok(MemoryArrivals {
            finished: Vec::with_capacity(alloc, conns.len())?,
            coming: conns.into_vec().into_iter(),
            out: 0,
            faults: 0,
        })
    }

    /// The connections that were handed back.
    pub fn finished(&self) -> &[MemoryConn]
        ensures { result.now ≡ self.now.finished }
    {
        self.finished.as_slice()
    }
}

impl Arrivals for MemoryArrivals {
    ghost use Rattle.std.specs.Prelude.{All, ◌++◌, ◌∷◌, ◌-◌};
    ghost use Rattle.melon_outside.specs.Conns.{IsSoundConn};

    type Conn = MemoryConn;

    ghost coming = { λ s. Some s.coming };

    ghost finished = { λ s. Some s.finished };

    ghost out = { λ s. s.out };

    ghost faults = { λ s. s.faults };

    ghost sound = { λ s. All IsSoundConn s.coming };

    ghost told = { λ s is. (tt, tt) };

    fn next(&mut self) -> Result<MemoryConn, Failed>
        ensures comes { Comes (Some self.old.coming) (Some self.new.coming) result }
        ensures kept { self.new.finished ≡ self.old.finished }
        ensures out { self.new.out ≡ out_after self.old.out result }
        ensures cause { HasCause self.old.faults self.new.faults result }
        ensures sound_gives { All IsSoundConn self.old.coming → IfOk result IsSoundConn }
        ensures sound_stays { All IsSoundConn self.old.coming → All IsSoundConn self.new.coming }
        ensures moved { self.new ≡ after_next self.old }
        ensures last { OnErr result (self.old.coming ≡ []) }
    {
        match self.coming.next() {
            Some(conn) => {
                self.out += 1;
                Ok(conn)
            }
            None => {
                self.faults = self.faults.saturating_add(1);
                Err(Failed)
            }
        }
    }

    fn finish(&mut self, conn: MemoryConn)
        requires { 0 < self.old.out }
        ensures out { self.new.out + 1 ≡ self.old.out }
        ensures moved { self.new ≡ record { coming = self.old.coming; finished = self.old.finished ++ conn ∷ []; out = self.old.out - 1; faults = self.old.faults } }
    {
        self.out -= 1;
        self.finished.push(conn).unwrap();
    }
}
