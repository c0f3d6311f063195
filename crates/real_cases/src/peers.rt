//! Connections over TCP, served.
use keeper_store::{MemKeeper, MemVault, Tables};
use lib_base::{Bytes, MemSink, MemSource};
use real_streams::TcpDoor;
use std::alloc::Global;
use std::fmt::Display;
use std::io::{self, Read, Write};
use std::net::{Ipv4Addr, Net, Shutdown, SocketAddr, TcpListener, TcpStream};
use std::rt::Clock;
use std::thread::Threads;
use std::time::Duration;

/// A system of which each port is one that is bound already: peers come before the door opens it.
#[derive(Drop)]
struct Bound<'r> {
    rt: &'r HostRuntime,
    listener: TcpListener,
}

impl Net for Bound<'_> {
    type Stream = TcpStream;

    type Listener = TcpListener;

    fn bind(&self, _: SocketAddr) -> io::Result<TcpListener> {
        self.listener.try_clone()
    }

    fn connect(&self, addr: SocketAddr) -> io::Result<TcpStream> {
        TcpStream::connect(self.rt, addr)
    }
}

impl Clock for Bound<'_> {
    fn monotonic(&self) -> io::Result<Duration> {
        self.rt.monotonic()
    }

    fn since_1970(&self) -> io::Result<Duration> {
        self.rt.since_1970()
    }
}

// The line that says where the door listens names another port in each run.
impl Eprint for Bound<'_> {
    fn eprint<D: Display + Drop>(&self, _: D) -> io::Result<()> {
        Ok(())
    }

    fn eprintln<D: Display + Drop>(&self, _: D) -> io::Result<()> {
        Ok(())
    }
}

pub fn run<R: Threads + Sync>(rt: &HostRuntime, threads: &R) -> io::Result<()> {
    println!(rt; "two peers, each with a connection of its own")?;
    let system = Bound {
        rt,
        listener: TcpListener::bind(rt, (Ipv4Addr::LOCALHOST, 0))?,
    };
    let asks = peer(
        &system,
        b"GET /recordings/9 HTTP/1.1\r\nConnection: close\r\n\r\n",
    )?;
    let sends = peer(&system, b"PUT /recordings/9/audio HTTP/1.1\r\n\r\n")?;
    serve(rt, threads, &system)?;
    tell_reply(rt, asks)?;
    tell_reply(rt, sends)
}

/// A peer that has sent this, and sends no more.
fn peer(system: &Bound<'_>, request: &[u8]) -> io::Result<TcpStream> {
    let mut peer = TcpStream::connect(system.rt, system.listener.local_addr()?)?;
    peer.write_all(request)?;
    peer.shutdown(Shutdown::Write)?;
    Ok(peer)
}

/// Serves both over a library in memory, and tells the lines and the status.
fn serve<R: Threads + Sync>(rt: &HostRuntime, threads: &R, system: &Bound<'_>) -> io::Result<()> {
    let alloc = rt.alloc();
    let words = words(alloc)?;
    let mut sink = MemSink::new(alloc, Vec::new(alloc));
    let status = report_cli::run(
        threads,
        alloc,
        words.as_slice(),
        &mut MemSource::new(Bytes::of(Vec::new(alloc)), Vec::new(alloc)),
        &mut sink,
        &mut MemKeeper::new(Tables::empty(alloc), Vec::new(alloc)),
        &mut MemVault::new(alloc, Vec::new(alloc)),
        &mut TcpDoor::at(system, 1),
    );
    tell_lines(rt, sink.written())?;
    println!(rt; "status {status}")
}

fn words(alloc: Global) -> io::Result<Vec<String>> {
    let mut words = Vec::new(alloc);
    for word in ["serve", "--connections=2"] {
        words.push(String::from_str(alloc, word)?)?;
    }
    Ok(words)
}

/// Reads a reply to its end, and tells its lines.
fn tell_reply(rt: &HostRuntime, mut peer: TcpStream) -> io::Result<()> {
    let mut reply = Vec::new(rt.alloc());
    peer.read_to_end(&mut reply)?;
    tell_lines(rt, reply.as_slice())
}

fn tell_lines(rt: &HostRuntime, bytes: &[u8]) -> io::Result<()> {
    for line in str::from_utf8(bytes).unwrap_or("no text").lines() {
        println!(rt; "  {line}")?;
    }
    Ok(())
}
