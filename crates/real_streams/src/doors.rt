//! A port of this machine as a door.
ghost use Rattle.std.specs.Prelude.{◌≡◌, None, false};

use crate::faults::Faults;
use crate::halves::{TcpSink, TcpSource};
use lib_base::{Door, Outside};
use std::fmt;
use std::io::{self, ErrorKind, Read};
use std::net::{Ipv4Addr, Net, OpenListener, OpenStream, Shutdown, TcpListener};
use std::rt::Clock;
use std::time::{Duration, Instant};

/// How often `accept` is called where each peer went away before it.
const MOST_ACCEPTS: u32 = 1000;

/// How long a read or a write of a connection may wait: else one idle peer would hold the only
/// session for ever.
const WAIT_SECONDS: u64 = 30;

/// How many bytes of a peer are dropped after its connection ended, and for how long: a peer that
/// still sends where its connection is closed loses the reply that says why.
const MOST_DROPPED: usize = 4 << 20;

const DROP_SECONDS: u64 = 2;

/// A port of 127.0.0.1 as a door. The first `next` binds it, with address reuse, so that a restart
/// finds it free.
#[derive(Drop)]
pub struct TcpDoor<'r, R: Net + Clock + Eprint> {
    rt: &'r R,
    port: u16,
    listener: Option<R::Listener>,
    out: bool,
    faults: Faults,
    failed_sources: u64,
    failed_sinks: u64,
}

impl<'r, R: Net + Clock + Eprint> TcpDoor<'r, R> {
    /// A door at this port, with no connection out and no fault yet.
    pub fn at(rt: &'r R, port: u16) -> TcpDoor<'r, R>
        ensures { ⟦<TcpDoor<'r, R> as Door>⟧.shown result ≡ record {
          waiting = None;
          ended = None;
          is_out = false;
          faults = 0;
          failed_sources = 0;
          failed_sinks = 0;
        } }
    {
        TcpDoor {
            rt,
            port,
            listener: None,
            out: false,
            faults: Faults::none(),
            failed_sources: 0,
            failed_sinks: 0,
        }
    }

    pub fn faults(&self) -> u64
        ensures { result ≡ (⟦<TcpDoor<'r, R> as Door>⟧.shown self.now).faults }
    {
        self.faults.count()
    }
}

impl<'r, R: Net + Clock + Eprint> Door for TcpDoor<'r, R> {
    type In = TcpSource<'r, R>;

    type Out = TcpSink<'r, R>;

    ghost shown = { λ d. record {
      waiting = None;
      ended = None;
      is_out = d.out;
      faults = d.faults;
      failed_sources = d.failed_sources;
      failed_sinks = d.failed_sinks;
    } };

    /// Binds the port where that has not happened yet, and waits for a peer. It wants no memory.
    fn next(&mut self) -> Result<(TcpSource<'r, R>, TcpSink<'r, R>), Outside> {
        match accept_at(self.rt, self.port, &mut self.listener) {
            Ok((reading, writing)) => {
                self.out = true;
                let source = TcpSource::new(self.rt, reading);
                Ok((source, TcpSink::new(self.rt, writing)))
            }
            Err(reason) => {
                self.faults.add(self.rt, Port(self.port), reason);
                Err(Outside::Failed)
            }
        }
    }

    /// Shuts the writing half, drops what the peer still sends for a while, and closes.
    fn back(&mut self, source: TcpSource<'r, R>, sink: TcpSink<'r, R>) {
        if source.faults() > 0 {
            self.failed_sources = self.failed_sources.saturating_add(1);
        }
        if sink.faults() > 0 {
            self.failed_sinks = self.failed_sinks.saturating_add(1);
        }
        self.out = false;
        drop(sink);
        hang_up(self.rt, source.into_stream());
    }
}

/// A port, which prints as a line on standard error names it.
#[derive(Clone, Copy)]
struct Port(u16);

impl fmt::Display for Port {
    fn fmt<W: fmt::Write>(&self, f: &mut fmt::Formatter<W>) -> fmt::Result {
        write!(f, "port {}", self.0)
    }
}

/// The next connection, twice: to read from, and to write to.
fn accept_at<R: Net + Eprint>(
    rt: &R,
    port: u16,
    listener: &mut Option<R::Listener>,
) -> io::Result<(R::Stream, R::Stream)> {
    let stream = match listener {
        Some(listener) => accept(listener)?,
        None => accept(listener.insert(listen(rt, port)?))?,
    };
    let wait = Some(Duration::from_secs(WAIT_SECONDS));
    stream.set_read_timeout(wait)?;
    stream.set_write_timeout(wait)?;
    stream.set_nodelay(true)?;
    let writing = stream.try_clone()?;
    Ok((stream, writing))
}

/// Binds the port, and says so.
fn listen<R: Net + Eprint>(rt: &R, port: u16) -> io::Result<R::Listener> {
    let listener = TcpListener::bind(rt, (Ipv4Addr::LOCALHOST, port))?;
    let _ = eprintln!(rt; "loudlib: listening on {}", listener.local_addr()?);
    Ok(listener)
}

/// The next peer that did not go away before its turn.
fn accept<L: OpenListener>(listener: &L) -> io::Result<L::Stream> {
    for _ in 1..MOST_ACCEPTS {
        match listener.accept() {
            Ok((stream, _)) => return Ok(stream),
            Err(reason) if !went_away(&reason) => return Err(reason),
            Err(_) => {}
        }
    }
    Ok(listener.accept()?.0)
}

/// Whether a peer went away before it was accepted.
fn went_away(reason: &io::Error) -> bool {
    matches!(
        reason.kind(),
        ErrorKind::ConnectionAborted | ErrorKind::ConnectionReset | ErrorKind::Interrupted
    )
}

/// Shuts the writing half, and drops what the peer still sends. What fails here fails nobody.
fn hang_up<R: Clock, S: Read + OpenStream + Drop>(rt: &R, mut stream: S) {
    let _ = stream.shutdown(Shutdown::Write);
    let _ = drain(rt, &mut stream);
}

/// Reads and drops what a peer sends until it closes, within the most bytes and the longest time.
fn drain<R: Clock, S: Read + OpenStream>(rt: &R, stream: &mut S) -> io::Result<()> {
    let start = Instant::now(rt)?;
    let most = Duration::from_secs(DROP_SECONDS);
    let mut left = MOST_DROPPED;
    for _ in 0..MOST_DROPPED {
        let rest = most.saturating_sub(start.elapsed(rt)?);
        stream.set_read_timeout(Some(rest))?;
        let count = stream.read(&mut [0; 4096])?;
        left = left.saturating_sub(count);
        if count == 0 || left == 0 {
            break;
        }
    }
    Ok(())
}
