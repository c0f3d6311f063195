//! A source and a sink that move a part of what they are asked to.
ghost use Rattle.std.specs.Prelude.{◌≡◌, None};

use lib_base::{Failed, MemSink, MemSource, Outside, Sink, Source};

/// An object in memory of which each call moves at most so many bytes, and at least one. It tells
/// no content.
#[derive(Drop)]
pub struct Pieces<T> {
    pub inner: T,
    pub most: usize,
}

impl Source for Pieces<MemSource> {
    ghost use Rattle.lib_base.specs.Sources.{SourceView};

    ghost shown = { λ p. record {
      left = None;
      faults = (⟦<MemSource as Source>⟧.shown p.inner).faults;
    } };

    fn read(&mut self, into: &mut [u8]) -> Result<usize, Failed> {
        let most = into.len().min(self.most.max(1));
        self.inner.read(into.split_at_mut(most).0)
    }
}

impl Sink for Pieces<MemSink> {
    ghost use Rattle.lib_base.specs.Writes.{SinkView};

    ghost shown = { λ p. record {
      written = None;
      faults = (⟦<MemSink as Sink>⟧.shown p.inner).faults;
    } };

    fn write(&mut self, piece: &[u8]) -> Result<usize, Outside> {
        let most = piece.len().min(self.most.max(1));
        self.inner.write(piece.split_at(most).0)
    }
}
