//! What no clause says of the objects: what they do with the system.
ghost use Rattle.std.specs.Prelude.{◌≡◌, ◌+◌, ◌≤◌, length, IfOk, string_len};

use crate::{StdSink, StdSource, TcpDoor};
use lib_base::{Door, Outside, Sink, Source};
use std::alloc::Allocator;
use std::cell::Cell;
use std::fmt::Display;
use std::io::{self, BufRead, ErrorKind, Input, Lines, Print, Read, Write};
use std::net::{Ipv4Addr, Net, OpenListener, Shutdown, SocketAddr, TcpListener, TcpStream};
use std::os::fd::{AsRawFd, RawFd};
use std::rt::Clock;
use std::test::Fail;
use std::time::Duration;

/// A system whose port is bound already, whose input is short, and whose output takes as much at
/// once as it is told.
#[derive(Drop)]
struct System<'r> {
    rt: &'r HostRuntime,
    bound: TcpListener,
    /// How many calls of `accept` fail, and why.
    refusals: u32,
    kind: ErrorKind,
    input: &'static [u8],
    takes: usize,
    /// How many lines went to standard error.
    lines: Cell<u32>,
}

impl<'r> System<'r> {
    /// A system of which nothing fails.
    fn new(rt: &'r HostRuntime) -> io::Result<System<'r>> {
        Ok(System {
            rt,
            bound: TcpListener::bind(rt, (Ipv4Addr::LOCALHOST, 0))?,
            refusals: 0,
            kind: ErrorKind::ConnectionAborted,
            input: b"",
            takes: 3,
            lines: Cell::new(0),
        })
    }

    /// A peer, whose connection waits at the port.
    fn peer(&self) -> io::Result<TcpStream> {
        TcpStream::connect(self.rt, self.bound.local_addr()?)
    }
}

/// A listener of which the first calls of `accept` fail.
#[derive(Drop)]
struct Listener {
    bound: TcpListener,
    refusals: Cell<u32>,
    kind: ErrorKind,
}

impl OpenListener for Listener {
    type Stream = TcpStream;

    fn accept(&self) -> io::Result<(TcpStream, SocketAddr)> {
        let left = self.refusals.get();
        if left > 0 {
            self.refusals.set(left - 1);
            return Err(self.kind.into());
        }
        self.bound.accept()
    }

    fn local_addr(&self) -> io::Result<SocketAddr> {
        self.bound.local_addr()
    }
}

impl AsRawFd for Listener {
    fn as_raw_fd(&self) -> RawFd {
        self.bound.as_raw_fd()
    }
}

impl Net for System<'_> {
    type Stream = TcpStream;

    type Listener = Listener;

    fn bind(&self, _: SocketAddr) -> io::Result<Listener> {
        Ok(Listener {
            bound: self.bound.try_clone()?,
            refusals: Cell::new(self.refusals),
            kind: self.kind,
        })
    }

    fn connect(&self, addr: SocketAddr) -> io::Result<TcpStream> {
        TcpStream::connect(self.rt, addr)
    }
}

impl Clock for System<'_> {
    fn monotonic(&self) -> io::Result<Duration> {
        self.rt.monotonic()
    }

    fn since_1970(&self) -> io::Result<Duration> {
        self.rt.since_1970()
    }
}

impl Eprint for System<'_> {
    fn eprint<D: Display + Drop>(&self, _: D) -> io::Result<()> {
        Ok(())
    }

    fn eprintln<D: Display + Drop>(&self, value: D) -> io::Result<()> {
        self.lines.set(self.lines.get().saturating_add(1));
        self.rt.eprintln(value)
    }
}

impl Print for System<'_> {
    fn print<D: Display + Drop>(&self, _: D) -> io::Result<()> {
        Ok(())
    }

    fn println<D: Display + Drop>(&self, _: D) -> io::Result<()> {
        Ok(())
    }

    fn write_all(&self, _: &[u8]) -> io::Result<()> {
        Err(ErrorKind::StorageFull.into())
    }

    fn write_some(&self, bytes: &[u8]) -> io::Result<usize> {
        Ok(bytes.len().min(self.takes))
    }
}

impl Input for System<'_> {
    type Reader = &'static [u8];

    fn read_line<A: Allocator + Clone>(&self, _: &mut String<A>) -> io::Result<usize> {
        Ok(0)
    }

    fn lines<A: Allocator>(&self, alloc: A) -> Lines<&'static [u8], A> {
        self.input.lines(alloc)
    }

    fn reader(&self) -> &'static [u8] {
        self.input
    }
}

#[test]
fn standard_streams_move_bytes(rt: HostRuntime) -> Result<(), Fail> {
    let mut system = System::new(&rt)?;
    system.input = b"short";
    let mut source = StdSource::new(&system);
    let mut piece = [0; 4];
    for (count, bytes) in [
        (4, b"shor".as_slice()),
        (1, b"t".as_slice()),
        (0, b"".as_slice()),
    ] {
        assert_eq!(rt; source.read(&mut piece), Ok(count));
        assert_eq!(rt; &piece[..bytes.len()], bytes);
    }
    assert_eq!(rt; source.faults(), 0);
    let mut sink = StdSink::new(&system);
    for (bytes, count) in [
        (b"four".as_slice(), 3),
        (b"r".as_slice(), 1),
        (b"".as_slice(), 0),
    ] {
        assert_eq!(rt; sink.write(bytes), Ok(count));
    }
    assert_eq!(rt; sink.faults(), 0);
    Ok(())
}

// A write that takes nothing is a fault.
#[test]
fn full_output_is_a_fault(rt: HostRuntime) -> Result<(), Fail> {
    let mut system = System::new(&rt)?;
    system.takes = 0;
    let mut sink = StdSink::new(&system);
    assert_eq!(rt; sink.write(b"four"), Err(Outside::Failed));
    assert_eq!(rt; sink.faults(), 1);
    assert_eq!(rt; sink.write(b""), Ok(0));
    assert_eq!(rt; sink.faults(), 1);
    assert_eq!(rt; system.lines.get(), 1);
    Ok(())
}

// Port 0 is one that the system chooses.
#[test]
fn port_in_use_is_a_fault(rt: HostRuntime) -> Result<(), Fail> {
    let held = TcpListener::bind(&rt, (Ipv4Addr::LOCALHOST, 0))?;
    let mut door = TcpDoor::at(&rt, held.local_addr()?.port());
    assert_eq!(rt; door.next().err(), Some(Outside::Failed));
    assert_eq!(rt; door.faults(), 1);
    Ok(())
}

// A line says where the door listens, and one each fault.
#[test]
fn door_tries_again_where_peers_went_away(rt: HostRuntime) -> Result<(), Fail> {
    for (refusals, kind, opens) in [
        (0, ErrorKind::ConnectionAborted, true),
        (999, ErrorKind::ConnectionAborted, true),
        (1000, ErrorKind::ConnectionAborted, false),
        (1, ErrorKind::Uncategorized, false),
    ] {
        let mut system = System::new(&rt)?;
        system.refusals = refusals;
        system.kind = kind;
        let peer = system.peer()?;
        peer.shutdown(Shutdown::Write)?;
        let mut door = TcpDoor::at(&system, 1);
        match door.next() {
            Ok((source, sink)) => {
                assert!(rt; opens, "{refusals} refusals");
                door.back(source, sink);
            }
            Err(why) => {
                assert!(rt; !opens, "{refusals} refusals");
                assert_eq!(rt; why, Outside::Failed);
            }
        }
        let faults = u32::from(!opens);
        assert_eq!(rt; door.faults(), u64::from(faults));
        assert_eq!(rt; system.lines.get(), 1 + faults);
    }
    Ok(())
}

// The peer sends, and gets its reply to the end while it is still open. Then comes the next.
#[test]
fn door_gives_both_halves(rt: HostRuntime) -> Result<(), Fail> {
    let system = System::new(&rt)?;
    let mut door = TcpDoor::at(&system, 1);
    let mut peer = system.peer()?;
    peer.write_all(b"ask")?;
    let (mut source, mut sink) = door.next()?;
    let mut piece = [0; 4];
    assert_eq!(rt; source.read(&mut piece), Ok(3));
    assert_eq!(rt; &piece[..3], b"ask".as_slice());
    assert_eq!(rt; sink.write(b"ok"), Ok(2));
    peer.write_all(b"more")?;
    door.back(source, sink);
    let mut reply = Vec::new(rt.alloc());
    peer.read_to_end(&mut reply)?;
    assert_eq!(rt; reply.as_slice(), b"ok".as_slice());
    let _second = system.peer()?;
    assert!(rt; door.next().is_ok());
    assert_eq!(rt; door.faults(), 0);
    Ok(())
}
