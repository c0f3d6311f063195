//! When a session reads its source.
ghost use Rattle.std.specs.Prelude.{None};
ghost use Rattle.std.specs.Io.{ReadsAtMost};
ghost use Rattle.std.specs.Io.KnownBytes.{ReadConsumes};

use catalogue_core::Library;
use keeper_store::{MemKeeper, MemVault, Tables};
use lib_base::{Bytes, Failed, MemSink, MemSource, Outside, Sink, Source};
use library_http::{How, SessionEnd, session};
use std::sync::atomic::{AtomicU64, Ordering};
use std::test::Fail;

/// A request after which the session goes on, and one that asks to close.
const STAYS: &[u8] = b"GET /albums/1 HTTP/1.1\r\nHost: a\r\n\r\n";

const CLOSES: &[u8] = b"GET /albums/1 HTTP/1.1\r\nHost: a\r\nConnection: close\r\n\r\n";

/// A source of two requests. The second is there only once a reply was written: before that a read
/// behind the first fails.
#[derive(Drop)]
struct Asking<'a> {
    first: MemSource,
    second: MemSource,
    replies: &'a AtomicU64,
    faults: u64,
}

impl Source for Asking<'_> {
    ghost use Rattle.std.specs.Prelude.{None};

    ghost shown = { λ s. record { left = None; faults = s.faults } };

    fn read(&mut self, into: &mut [u8]) -> Result<usize, Failed> {
        let read = give(self.replies, &mut self.first, &mut self.second, into);
        if read.is_err() {
            self.faults = self.faults.saturating_add(1);
        }
        read
    }
}

/// Gives bytes of the second request where a reply was written, and else of the first.
fn give(
    replies: &AtomicU64,
    first: &mut MemSource,
    second: &mut MemSource,
    into: &mut [u8],
) -> Result<usize, Failed>
    ensures within { ReadsAtMost result into.new }
    ensures content { ReadConsumes None None result into.new }
{
    if replies.load(Ordering::SeqCst) > 0 {
        return second.read(into);
    }
    match first.read(into) {
        Ok(0) => Err(Failed),
        read => read,
    }
}

/// A sink that tells the source of each write.
#[derive(Drop)]
struct Telling<'a> {
    sink: MemSink,
    replies: &'a AtomicU64,
}

impl Sink for Telling<'_> {
    ghost shown = { λ s. ⟦<MemSink as Sink>⟧.shown s.sink };

    fn write(&mut self, piece: &[u8]) -> Result<usize, Outside> {
        self.replies.fetch_add(1, Ordering::SeqCst);
        self.sink.write(piece)
    }
}

// A body that reads all before it answers ends by the source's fault after the first request, and one
// that reads on behind a request that closes takes bytes of the second.
#[test]
fn answers_before_it_reads_on(rt: HostRuntime) -> Result<(), Fail> {
    let alloc = rt.alloc();
    for (text, answered, left) in [(STAYS, 2, 0), (CLOSES, 1, STAYS.len())] {
        let replies = AtomicU64::new(0);
        let mut source = Asking {
            first: MemSource::new(Bytes::copy(alloc, text)?, Vec::new(alloc)),
            second: MemSource::new(Bytes::copy(alloc, STAYS)?, Vec::new(alloc)),
            replies: &replies,
            faults: 0,
        };
        let mut sink = Telling {
            sink: MemSink::new(alloc, Vec::new(alloc)),
            replies: &replies,
        };
        let mut keeper = MemKeeper::new(Tables::empty(alloc), Vec::new(alloc));
        let mut vault = MemVault::new(alloc, Vec::new(alloc));
        let mut library = Library::open(&rt, alloc, &mut keeper)?;
        let end = session(
            &rt,
            alloc,
            &mut library,
            &mut keeper,
            &mut vault,
            &mut source,
            &mut sink,
            1,
            9,
        );
        let how = How::Ended;
        assert_eq!(rt; end, SessionEnd { how, answered });
        assert_eq!(rt; source.second.read(&mut [0u8; 64]), Ok(left));
    }
    Ok(())
}
