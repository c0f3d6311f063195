//! The halves of a connection.
ghost use Rattle.std.specs.Prelude.{◌≡◌, None};

use crate::faults::Faults;
use lib_base::{Failed, Outside, Sink, Source};
use std::io::{ErrorKind, Read, Write};
use std::net::Net;
use std::{fmt, io};

/// What a peer sends, as a source. It holds the connection open.
#[derive(Drop)]
pub struct TcpSource<'r, R: Net + Eprint> {
    rt: &'r R,
    stream: R::Stream,
    faults: Faults,
}

impl<'r, R: Net + Eprint> TcpSource<'r, R> {
    /// The source, with nothing read and no fault yet.
    pub(crate) fn new(rt: &'r R, stream: R::Stream) -> TcpSource<'r, R>
        ensures { (⟦<TcpSource<'r, R> as Source>⟧.shown result).faults ≡ 0 }
    {
        TcpSource {
            rt,
            stream,
            faults: Faults::none(),
        }
    }

    pub fn faults(&self) -> u64
        ensures { result ≡ (⟦<TcpSource<'r, R> as Source>⟧.shown self.now).faults }
    {
        self.faults.count()
    }

    pub(crate) fn into_stream(self) -> R::Stream {
        self.stream
    }
}

impl<'r, R: Net + Eprint> Source for TcpSource<'r, R> {
    ghost shown = { λ s. record { left = None; faults = s.faults } };

    /// Reads once, into the whole piece, and waits as long as the stream's timeout says.
    fn read(&mut self, into: &mut [u8]) -> Result<usize, Failed> {
        match self.stream.read(into) {
            Ok(count) => Ok(count),
            Err(reason) => {
                self.faults
                    .add(self.rt, "reading a connection", Reason(reason));
                Err(Failed)
            }
        }
    }
}

/// What a peer is sent, as a sink.
#[derive(Drop)]
pub struct TcpSink<'r, R: Net + Eprint> {
    rt: &'r R,
    stream: R::Stream,
    faults: Faults,
}

impl<'r, R: Net + Eprint> TcpSink<'r, R> {
    /// The sink, with nothing written and no fault yet.
    pub(crate) fn new(rt: &'r R, stream: R::Stream) -> TcpSink<'r, R>
        ensures { (⟦<TcpSink<'r, R> as Sink>⟧.shown result).faults ≡ 0 }
    {
        TcpSink {
            rt,
            stream,
            faults: Faults::none(),
        }
    }

    pub fn faults(&self) -> u64
        ensures { result ≡ (⟦<TcpSink<'r, R> as Sink>⟧.shown self.now).faults }
    {
        self.faults.count()
    }
}

impl<'r, R: Net + Eprint> Sink for TcpSink<'r, R> {
    ghost shown = { λ s. record { written = None; faults = s.faults } };

    /// Writes once, and waits as long as the stream's timeout says. A write that takes nothing of a
    /// piece that isn't empty is a fault.
    fn write(&mut self, piece: &[u8]) -> Result<usize, Outside> {
        let reason = match self.stream.write(piece) {
            Ok(count) if count > 0 || piece.is_empty() => return Ok(count),
            Ok(_) => ErrorKind::WriteZero.into(),
            Err(reason) => reason,
        };
        self.faults
            .add(self.rt, "writing to a connection", Reason(reason));
        Err(Outside::Failed)
    }
}

/// The system's reason. A stream whose time is up gives `WouldBlock`.
#[derive(Drop)]
struct Reason(io::Error);

impl fmt::Display for Reason {
    fn fmt<W: fmt::Write>(&self, f: &mut fmt::Formatter<W>) -> fmt::Result {
        if self.0.kind() == ErrorKind::WouldBlock {
            return f.write_str("nothing moved within 30 seconds");
        }
        write!(f, "{}", self.0)
    }
}
