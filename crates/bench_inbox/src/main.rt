//! Reads a request over and over out of a source in memory, for `bench/inbox.sh` to time.
//!
//! The words are the request and how many times to read it: `body` is one of 100 MB, which the
//! source hands out in pieces as great as are asked for, `head` one of a head of 8,192 bytes alone,
//! handed out one byte at a time. It prints how many bytes the requests had that were read.
#![tactic(auto)]

mod rounds;

use anyhow::{Result, bail};
use http_inbox::{Inbox, Next, next_request};
use rounds::{Rounds, request_of};
use std::alloc::Global;
use std::env;

/// The length of the long body, in bytes.
const BODY: usize = 100_000_000;

/// How long a header's value makes its head 8,192 bytes long.
const VALUE: usize = 8_169;

fn main(rt: HostRuntime) -> Result<()> {
    let alloc = rt.alloc();
    let words: Vec<String> = env::args(&rt)?.skip(1).collect(alloc)?;
    let [kind, times] = words.as_slice() else {
        bail!("usage: bench_inbox KIND TIMES");
    };
    let times: u32 = times.as_str().parse()?;
    let (bytes, most) = match kind.as_str() {
        "body" => {
            let head = b"PUT / HTTP/1.1\r\nContent-Length: 100000000\r\n\r\n".as_slice();
            (request_of(alloc, head, BODY, b"")?, usize::MAX)
        }
        "head" => {
            let start = b"GET / HTTP/1.1\r\nA: ".as_slice();
            (request_of(alloc, start, VALUE, b"\r\n\r\n")?, 1)
        }
        _ => bail!("no such kind"),
    };
    let mut source = Rounds::new(bytes, most, times);
    println!(rt; "{}", bytes_read(alloc, &mut source)?)?;
    Ok(())
}

/// Reads requests until no further one comes: how many bytes they had.
fn bytes_read(alloc: Global, source: &mut Rounds) -> Result<u64> {
    let Ok(mut inbox) = Inbox::new(alloc) else {
        bail!("want of memory");
    };
    let mut sum = 0u64;
    for _ in 0..u64::MAX {
        let Next::Framed(request) = next_request(alloc, &mut inbox, source) else {
            break;
        };
        let size = request.body.len();
        sum = sum
            .wrapping_add(request.heading.len as u64)
            .wrapping_add(size as u64);
        inbox.pass(&request.heading, size);
    }
    Ok(sum)
}
