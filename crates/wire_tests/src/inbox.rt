//! Reading to where bytes are wanted, and requests out of pieces.
ghost use Rattle.std.specs.Prelude.{◌≡◌};
ghost use Rattle.httparse.specs.Grammar.{RequestHead};
ghost use Rattle.http_inbox.specs.Heads.{IsHeadingOf};

use http_inbox::{HeadRead, Inbox, Next, Request, fill, next_request};
use http_model::FramingRefusal;
use lib_base::{Bytes, Failed, MemSource, ReadEnd, Source};
use std::alloc::Global;
use std::test::Fail;

#[test]
fn fills(rt: HostRuntime) -> Result<(), Fail> {
    let alloc = rt.alloc();
    for (text, size, failing, want) in [
        ("abcd", 4, 0, (4, ReadEnd::Full)),
        ("abcd", 3, 0, (3, ReadEnd::Full)),
        ("abc", 4, 0, (3, ReadEnd::End)),
        ("", 1, 0, (0, ReadEnd::End)),
        ("abcd", 0, 1, (0, ReadEnd::Full)),
        ("abcd", 4, 1, (0, ReadEnd::Fault)),
        ("abc", 4, 2, (3, ReadEnd::Fault)),
    ] {
        let mut source = MemSource::new(
            Bytes::copy(alloc, text.as_bytes())?,
            [failing].to_vec(alloc)?,
        );
        let mut into = [0u8; 4];
        let filled = fill(&mut source, into.split_at_mut(size).0);
        assert_eq!(rt; filled, want, "{text} to {size}, failing {failing}");
        assert_eq!(rt; into.split_at(want.0).0, text.as_bytes().split_at(want.0).0);
    }
    Ok(())
}

/// A source that gives at most so many bytes at a time, and counts its reads.
#[derive(Drop)]
struct Pieces {
    source: MemSource,
    most: usize,
    reads: u32,
}

impl Pieces {
    /// A source of these bytes, whose read of that number fails.
    fn new(alloc: Global, text: &[u8], most: usize, failing: u32) -> Result<Pieces, Fail> {
        Ok(Pieces {
            source: MemSource::new(Bytes::copy(alloc, text)?, [failing].to_vec(alloc)?),
            most,
            reads: 0,
        })
    }
}

impl Source for Pieces {
    ghost use Rattle.std.specs.Prelude.{None};

    ghost shown = { λ s. record { left = None; faults = (⟦<MemSource as Source>⟧.shown s.source).faults } };

    fn read(&mut self, into: &mut [u8]) -> Result<usize, Failed> {
        self.reads = self.reads.saturating_add(1);
        let most = self.most.min(into.len());
        self.source.read(into.split_at_mut(most).0)
    }
}

/// What a reading of a head found, with the length of the head and whether it asks to close.
fn told(read: HeadRead) -> (&'static str, usize, bool) {
    match read {
        HeadRead::Ended => ("ended", 0, false),
        HeadRead::Head(heading) => ("head", heading.len, heading.closes),
        HeadRead::NoHead => ("none", 0, false),
        HeadRead::Fault => ("fault", 0, false),
    }
}

#[test]
fn reads_heads(rt: HostRuntime) -> Result<(), Fail> {
    let alloc = rt.alloc();
    for (text, most, failing, want) in [
        ("GET / HTTP/1.1\r\n\r\n", 1, 0, ("head", 18, false)),
        ("GET / HTTP/1.0\r\n\r\nabc", 5, 0, ("head", 18, true)),
        (
            "GET / HTTP/1.1\r\nConnection: CLOSE\r\n\r\n",
            99,
            0,
            ("head", 37, true),
        ),
        (
            "GET / HTTP/1.1\r\nConnection: close, x\r\n\r\n",
            7,
            0,
            ("head", 40, false),
        ),
        ("", 1, 0, ("ended", 0, false)),
        ("\r\n", 1, 0, ("none", 0, false)),
        ("GET / HTTP/1.1\r\n", 5, 0, ("none", 0, false)),
        ("GET  / HTTP/1.1\r\n\r\n", 1, 0, ("none", 0, false)),
        ("GET / HTTP/1.1\r\n\r\n", 5, 2, ("fault", 0, false)),
        ("GET / HTTP/1.1\r\n\r\n", 5, 5, ("head", 18, false)),
        ("", 1, 1, ("fault", 0, false)),
    ] {
        let mut source = Pieces::new(alloc, text.as_bytes(), most, failing)?;
        let mut inbox = Inbox::new(alloc)?;
        let found = told(inbox.read_head(&mut source));
        assert_eq!(rt; found, want, "{text} by {most}, failing {failing}");
    }
    Ok(())
}

#[test]
fn reads_heads_up_to_the_limits(rt: HostRuntime) -> Result<(), Fail> {
    let alloc = rt.alloc();
    for (lines, size, want) in [
        (0, 8169, ("head", 8192, false)),
        (0, 8170, ("none", 0, false)),
        (31, 5, ("head", 214, false)),
        (32, 5, ("none", 0, false)),
    ] {
        let mut text = Vec::from_slice(alloc, b"GET / HTTP/1.1\r\nA: ".as_slice())?;
        for _ in 0..size {
            text.push(b'a')?;
        }
        for _ in 0..lines {
            text.extend_from_slice(b"\r\nB: b".as_slice())?;
        }
        text.extend_from_slice(b"\r\n\r\n".as_slice())?;
        let mut source = MemSource::new(Bytes::of(text), Vec::new(alloc));
        let mut inbox = Inbox::new(alloc)?;
        let found = told(inbox.read_head(&mut source));
        assert_eq!(rt; found, want, "{lines} lines, a value of {size} bytes");
    }
    Ok(())
}

/// Appends the method, the target and the length of the body.
fn tell(alloc: Global, told: &mut Vec<u8>, inbox: &Inbox, request: &Request) -> Result<(), Fail>
    requires { (head : RequestHead) × IsHeadingOf inbox.now request.now.heading head }
{
    let bytes = inbox.bytes();
    told.extend_from_slice(request.heading.method.of(bytes))?;
    told.push(b' ')?;
    told.extend_from_slice(request.heading.target.of(bytes))?;
    let size = format!(in alloc; " {}, ", request.body.len())?;
    told.extend_from_slice(size.as_bytes())?;
    Ok(())
}

/// How the requests end where no further one is answered.
fn last(inbox: &mut Inbox, source: &mut Pieces) -> &'static str {
    match inbox.read_head(source) {
        HeadRead::Ended => "ended",
        HeadRead::Fault => "fault",
        HeadRead::Head(_) | HeadRead::NoHead => "turns",
    }
}

/// The requests of a source, of which so many are answered at most, and how they end.
fn requests_of(alloc: Global, source: &mut Pieces, turns: u32) -> Result<Vec<u8>, Fail> {
    let mut inbox = Inbox::new(alloc)?;
    let mut told = Vec::new(alloc);
    for _ in 0..turns {
        let end = match next_request(alloc, &mut inbox, source) {
            Next::Framed(request) => {
                tell(alloc, &mut told, &inbox, &request)?;
                inbox.pass(&request.heading, request.body.len());
                if !request.heading.closes {
                    continue;
                }
                "closed"
            }
            Next::Ended => "ended",
            Next::Refused(FramingRefusal::Frame) => "400",
            Next::Refused(FramingRefusal::Length) => "411",
            Next::Refused(FramingRefusal::Size) => "413",
            Next::Fault => "fault",
            Next::Memory => "memory",
        };
        told.extend_from_slice(end.as_bytes())?;
        return Ok(told);
    }
    told.extend_from_slice(last(&mut inbox, source).as_bytes())?;
    Ok(told)
}

#[test]
fn reads_requests_in_any_pieces(rt: HostRuntime) -> Result<(), Fail> {
    let alloc = rt.alloc();
    for (text, turns, want) in [
        ("", 9, "ended"),
        ("", 0, "ended"),
        ("G", 0, "turns"),
        (
            "POST /a HTTP/1.1\r\nContent-Length: 3\r\n\r\nabcGET /b HTTP/1.1\r\n\r\n",
            0,
            "turns",
        ),
        (
            "POST /a HTTP/1.1\r\nContent-Length: 3\r\n\r\nabcGET /b HTTP/1.1\r\n\r\n",
            1,
            "POST /a 3, turns",
        ),
        (
            "POST /a HTTP/1.1\r\nContent-Length: 3\r\n\r\nabcGET /b HTTP/1.1\r\n\r\n",
            2,
            "POST /a 3, GET /b 0, ended",
        ),
        (
            "POST /a HTTP/1.1\r\nContent-Length: 3\r\n\r\nabcGET /b HTTP/1.1\r\n\r\n",
            9,
            "POST /a 3, GET /b 0, ended",
        ),
        ("GET /a HTTP/1.1\r\n\r\n\r\n", 9, "GET /a 0, 400"),
        (
            "GET /a HTTP/1.1\r\nContent-Length: 5\r\n\r\nGET /X",
            9,
            "GET /a 5, 400",
        ),
        ("GET /a HTTP/1.0\r\n\r\nrest", 9, "GET /a 0, closed"),
        (
            "PUT /a HTTP/1.1\r\nConnection: Close\r\nContent-Length: 1\r\n\r\nabc",
            9,
            "PUT /a 1, closed",
        ),
        (
            "DELETE /a HTTP/1.1\r\n\r\nDELETE /b HTTP/1.1\r\n\r\n",
            9,
            "DELETE /a 0, DELETE /b 0, ended",
        ),
        ("nonsense\r\n\r\n", 9, "400"),
        (
            "GET /a HTTP/1.1\r\n\r\nnonsense\r\n\r\n",
            9,
            "GET /a 0, 400",
        ),
        ("GET /a HTTP/1.1\r\n", 9, "400"),
        ("POST /a HTTP/1.1\r\n\r\n", 9, "411"),
        ("PUT /a HTTP/1.1\r\nHost: a\r\n\r\nabc", 9, "411"),
        (
            "POST /a HTTP/1.1\r\nContent-Length: 1\r\nContent-Length: 1\r\n\r\na",
            9,
            "400",
        ),
        ("POST /a HTTP/1.1\r\nContent-Length: \r\n\r\n", 9, "400"),
        (
            "POST /a HTTP/1.1\r\nContent-Length: +5\r\n\r\nabcde",
            9,
            "400",
        ),
        (
            "POST /a HTTP/1.1\r\nContent-Length: 0000000000000000003\r\n\r\nabc",
            9,
            "400",
        ),
        (
            "POST /a HTTP/1.1\r\nContent-Length: 000000000000000003\r\n\r\nabc",
            9,
            "POST /a 3, ended",
        ),
        (
            "POST /a HTTP/1.1\r\nContent-Length: 999999999999999999\r\n\r\nabc",
            9,
            "413",
        ),
        (
            "GET /a HTTP/1.1\r\nContent-Length: 268435457\r\n\r\nabc",
            9,
            "413",
        ),
        (
            "PUT /a HTTP/1.1\r\nContent-Length: 268435456\r\n\r\nabc",
            9,
            "400",
        ),
        ("POST /a HTTP/1.1\r\nContent-Length: 4\r\n\r\nabc", 9, "400"),
        (
            "POST /a HTTP/1.1\r\nTransfer-Encoding: chunked\r\n\r\n0\r\n\r\n",
            9,
            "400",
        ),
        (
            "GET /a HTTP/1.1\r\nTransfer-Encoding: chunked\r\nContent-Length: 3\r\n\r\nabc",
            9,
            "400",
        ),
    ] {
        for most in [1, 5, 39, 99_999] {
            let mut source = Pieces::new(alloc, text.as_bytes(), most, 0)?;
            let told = requests_of(alloc, &mut source, turns)?;
            assert_eq!(rt;
                told.as_slice(),
                want.as_bytes(),
                "{text} by {most}, {turns} answered"
            );
        }
    }
    Ok(())
}

#[test]
fn tells_where_a_source_fails(rt: HostRuntime) -> Result<(), Fail> {
    let alloc = rt.alloc();
    let text = "POST /a HTTP/1.1\r\nContent-Length: 3\r\n\r\nabcGET /b HTTP/1.1\r\n\r\n";
    for (most, failing, want) in [
        (99, 1, "fault"),
        (5, 3, "fault"),
        (39, 2, "fault"),
        (40, 2, "fault"),
        (42, 2, "POST /a 3, fault"),
        (43, 2, "POST /a 3, fault"),
        (61, 2, "POST /a 3, GET /b 0, fault"),
        (61, 3, "POST /a 3, GET /b 0, ended"),
    ] {
        let mut source = Pieces::new(alloc, text.as_bytes(), most, failing)?;
        let told = requests_of(alloc, &mut source, 9)?;
        assert_eq!(rt;
            told.as_slice(),
            want.as_bytes(),
            "{failing} fails, by {most}"
        );
    }
    Ok(())
}

#[test]
fn reads_a_long_body_in_few_reads(rt: HostRuntime) -> Result<(), Fail> {
    let alloc = rt.alloc();
    let mut text = Vec::from_slice(
        alloc,
        b"POST /a HTTP/1.1\r\nContent-Length: 1000000\r\n\r\n".as_slice(),
    )?;
    for _ in 0..1_000_000 {
        text.push(b'a')?;
    }
    for (most, few) in [(usize::MAX, 20), (1_000, 2_000)] {
        let mut source = Pieces::new(alloc, text.as_slice(), most, 0)?;
        let told = requests_of(alloc, &mut source, 1)?;
        assert_eq!(rt; told.as_slice(), b"POST /a 1000000, ended".as_slice());
        assert!(rt; source.reads <= few, "{} reads of {most}", source.reads);
    }
    Ok(())
}
