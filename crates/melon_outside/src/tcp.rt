//! Connections over TCP. A connection that stays silent, or takes nothing, for five seconds has failed.
ghost use Rattle.std.specs.Prelude.{◌≡◌, IfOk};
ghost use Rattle.melon_outside.specs.Causes.{HasCause};
ghost use Rattle.melon_outside.specs.Conns.{out_after};

use crate::{Arrivals, Failed, StreamConn};
use std::io;
use std::io::{ErrorKind, Read};
use std::marker::Model;
use std::net::{Shutdown, TcpListener, TcpStream};
use std::time::{Clock, Duration, Instant};

/// How many seconds a connection may stay silent.
const SILENCE: u64 = 5;

/// For how many milliseconds what is left of a request is read after the reply.
const LINGER: u64 = 250;

/// The most reads of what is left.
const MOST_LEFT: u32 = 65536;

/// How many connections in a row may break before they are taken.
const MOST_BROKEN: u32 = 1024;

/// The connections of a listener.
#[derive(Drop)]
pub struct TcpArrivals<T: Clock> {
    listener: TcpListener,
    clock: T,
    out: u64,
    faults: u64,
}

impl<T: Clock> Model for TcpArrivals<T> {
    ghost use Rattle.std.specs.Prelude.{ℕ};

    ghost Value = { ℕ × ℕ };

    ghost view = { λ s. (s.out, s.faults) };
}

impl<T: Clock> TcpArrivals<T> {
    /// The connections of a listener, with none taken and no fault counted.
    pub fn new(listener: TcpListener, clock: T) -> TcpArrivals<T>
        ensures { result ≡ (0, 0) }
    {
        TcpArrivals {
            listener,
            clock,
            out: 0,
            faults: 0,
        }
    }
}

/// Takes a connection. One that broke before it was taken is passed over.
fn accept(listener: &TcpListener) -> io::Result<TcpStream> {
    for _ in 0..MOST_BROKEN {
        match listener.accept() {
            Ok((stream, _)) => return Ok(stream),
            Err(fault) if fault.kind() == ErrorKind::ConnectionAborted => {}
            Err(fault) => return Err(fault),
        }
    }
    Err(io::Error::from(ErrorKind::ConnectionAborted))
}

/// Takes a connection, and bounds how long its calls wait.
fn accept_timed(listener: &TcpListener) -> io::Result<TcpStream> {
    let stream = accept(listener)?;
    let silence = Some(Duration::from_secs(SILENCE));
    stream.set_read_timeout(silence)?;
    stream.set_write_timeout(silence)?;
    stream.set_nodelay(true)?;
    Ok(stream)
}

/// Ends what is written, and reads what is left of a request for a while, so that the reply isn't
/// lost to a reset.
fn linger<T: Clock>(clock: &T, stream: &mut TcpStream) -> io::Result<()> {
    stream.shutdown(Shutdown::Write)?;
    let start = Instant::now(clock)?;
    let mut piece = [0u8; 16384];
    for _ in 0..MOST_LEFT {
        match Duration::from_millis(LINGER).checked_sub(start.elapsed(clock)?) {
            Some(rest) if !rest.is_zero() => stream.set_read_timeout(Some(rest))?,
            _ => return Ok(()),
        }
        if stream.read(&mut piece)? == 0 {
            return Ok(());
        }
    }
    Ok(())
}

impl<T: Clock> Arrivals for TcpArrivals<T> {
    ghost use Rattle.std.specs.Prelude.{None, ◌+◌};

    type Conn = StreamConn<TcpStream>;

    ghost coming = { λ s. None };

    ghost finished = { λ s. None };

    ghost out = { λ s. s.0 };

    ghost faults = { λ s. s.1 };

    ghost sound = { λ s. ⊥ };

    ghost told = { λ s no. absurd no };

    fn next(&mut self) -> Result<StreamConn<TcpStream>, Failed>
        ensures out { self.new.0 ≡ out_after self.old.0 result }
        ensures cause { HasCause self.old.1 self.new.1 result }
        ensures fresh { IfOk result (λ conn. conn.1 ≡ 0) }
    {
        if let Some(out) = self.out.checked_add(1)
            && let Ok(stream) = accept_timed(&self.listener)
        {
            self.out = out;
            return Ok(StreamConn::new(stream));
        }
        self.faults = self.faults.saturating_add(1);
        Err(Failed)
    }

    fn finish(&mut self, conn: StreamConn<TcpStream>) {
        self.out -= 1;
        let mut stream = conn.into_stream();
        // Whether or not what is left could be read, the connection is closed here.
        let _ = linger(&self.clock, &mut stream);
    }
}
