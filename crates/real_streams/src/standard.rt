//! Standard input and output.
ghost use Rattle.std.specs.Prelude.{◌≡◌, None};

use crate::faults::Faults;
use lib_base::{Failed, Outside, Sink, Source};
use std::io::{self, Input, Print, Read, Write};

/// Standard input as a source.
#[derive(Drop)]
pub struct StdSource<'r, R: Input + Eprint> {
    rt: &'r R,
    reader: R::Reader,
    faults: Faults,
}

impl<'r, R: Input + Eprint> StdSource<'r, R> {
    /// The source, with nothing read and no fault yet.
    pub fn new(rt: &'r R) -> StdSource<'r, R>
        ensures { (⟦<StdSource<'r, R> as Source>⟧.shown result).faults ≡ 0 }
    {
        StdSource {
            rt,
            reader: rt.reader(),
            faults: Faults::none(),
        }
    }

    pub fn faults(&self) -> u64
        ensures { result ≡ (⟦<StdSource<'r, R> as Source>⟧.shown self.now).faults }
    {
        self.faults.count()
    }
}

impl<'r, R: Input + Eprint> Source for StdSource<'r, R> {
    ghost shown = { λ s. record { left = None; faults = s.faults } };

    /// Reads once, into the whole piece.
    fn read(&mut self, into: &mut [u8]) -> Result<usize, Failed> {
        match self.reader.read(into) {
            Ok(count) => Ok(count),
            Err(reason) => {
                self.faults.add(self.rt, "standard input", reason);
                Err(Failed)
            }
        }
    }
}

/// Standard output as a sink.
#[derive(Drop)]
pub struct StdSink<'r, R: Print + Eprint> {
    rt: &'r R,
    faults: Faults,
}

impl<'r, R: Print + Eprint> StdSink<'r, R> {
    /// The sink, with nothing written and no fault yet.
    pub fn new(rt: &'r R) -> StdSink<'r, R>
        ensures { (⟦<StdSink<'r, R> as Sink>⟧.shown result).faults ≡ 0 }
    {
        StdSink {
            rt,
            faults: Faults::none(),
        }
    }

    pub fn faults(&self) -> u64
        ensures { result ≡ (⟦<StdSink<'r, R> as Sink>⟧.shown self.now).faults }
    {
        self.faults.count()
    }
}

impl<'r, R: Print + Eprint> Sink for StdSink<'r, R> {
    ghost shown = { λ s. record { written = None; faults = s.faults } };

    /// Writes once. A write that takes nothing of a piece that isn't empty is a fault.
    fn write(&mut self, piece: &[u8]) -> Result<usize, Outside> {
        let reason = match io::writer(self.rt).write(piece) {
            Ok(count) if count > 0 || piece.is_empty() => return Ok(count),
            Ok(_) => io::ErrorKind::WriteZero.into(),
            Err(reason) => reason,
        };
        self.faults.add(self.rt, "standard output", reason);
        Err(Outside::Failed)
    }
}
