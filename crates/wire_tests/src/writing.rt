//! Replies on a sink, and the sinks that fail.
use http_replies::{write_memory, write_reply};
use http_routes::Route;
use lib_base::{Bytes, MemSink, Outside};
use library_model::{BodyKind, Reply};
use std::alloc::Global;
use std::test::Fail;

fn reply(alloc: Global, status: u16) -> Result<Reply, Fail> {
    Ok(Reply {
        status,
        kind: BodyKind::Json,
        body: Bytes::copy(alloc, b"{}")?,
    })
}

#[test]
fn replies_are_written(rt: HostRuntime) -> Result<(), Fail> {
    let alloc = rt.alloc();
    for (status, allows, closes, want) in [
        (
            200,
            None,
            false,
            "HTTP/1.1 200 OK\r\nContent-Type: application/json\r\nContent-Length: 2\r\n\r\n{}",
        ),
        (
            409,
            None,
            true,
            "HTTP/1.1 409 Conflict\r\nContent-Type: application/json\r\nContent-Length: 2\r\nConnection: close\r\n\r\n{}",
        ),
        (
            405,
            Some(Route::Album),
            false,
            "HTTP/1.1 405 Method Not Allowed\r\nContent-Type: application/json\r\nAllow: GET, DELETE\r\nContent-Length: 2\r\n\r\n{}",
        ),
    ] {
        let mut sink = MemSink::new(alloc, Vec::new(alloc));
        let written = write_reply(alloc, &mut sink, &reply(alloc, status)?, allows, closes);
        assert!(rt; written.is_ok());
        assert_eq!(rt; sink.written(), want.as_bytes());
    }
    Ok(())
}

#[test]
fn a_sink_fails_in_either_part(rt: HostRuntime) -> Result<(), Fail> {
    let alloc = rt.alloc();
    for (call, parts) in [
        (1, ""),
        (
            2,
            "HTTP/1.1 200 OK\r\nContent-Type: application/json\r\nContent-Length: 2\r\n\r\n",
        ),
    ] {
        let mut sink = MemSink::new(alloc, vec![in alloc; call]?);
        let written = write_reply(alloc, &mut sink, &reply(alloc, 200)?, None, false);
        assert!(rt; matches!(&written, Err(Outside::Failed)));
        assert_eq!(rt; sink.written(), parts.as_bytes());
    }
    let mut sink = MemSink::new(alloc, vec![in alloc; 1]?);
    assert!(rt; write_memory(&mut sink, true).is_err());
    Ok(())
}
