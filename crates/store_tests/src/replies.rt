//! Tokens made, and replies looked up under them.
use keeper_store::ReplyRow;
use kept_replies::{KeptReplies, Seen, Token};
use lib_base::{Bytes, Memory, Text};
use std::alloc::Global;
use std::test::Fail;

#[test]
fn tokens_have_their_form(rt: HostRuntime) -> Result<(), Fail> {
    let alloc = rt.alloc();
    let longest = b"abcdefghijklmnopqrstuvwxyz-ABCDEFGHIJKLMNOPQRSTUVWXYZ-0123456789".as_slice();
    let longer = b"abcdefghijklmnopqrstuvwxyz-ABCDEFGHIJKLMNOPQRSTUVWXYZ-01234567890".as_slice();
    for (bytes, is_one) in [
        (b"t1".as_slice(), true),
        (b"-", true),
        (longest, true),
        (longer, false),
        (b"", false),
        (b"t 1", false),
        (b"t_1", false),
        (b"t\xc3\xa9", false),
        (b"t\xff", false),
    ] {
        let token = Token::of(alloc, bytes)?;
        assert_eq!(rt; token.is_some(), is_one, "{bytes:?}");
    }
    Ok(())
}

fn row(alloc: Global, token: &str, mark: u8, status: u16) -> Result<ReplyRow, Memory> {
    Ok(ReplyRow {
        token: Text::of(String::from_str(alloc, token)?),
        mark: [7, 7, 7, 7, 7, 7, 7, 7, 7, 7, 7, 7, 7, 7, 7, mark],
        status,
        body: Bytes::of(Vec::new(alloc)),
    })
}

/// The status of the reply that is seen, 0 for a fresh token and 1 for another request's.
fn status_seen(
    alloc: Global,
    kept: &KeptReplies,
    token: &str,
    mark: u8,
) -> Result<Option<u16>, Memory> {
    let Some(token) = Token::of(alloc, token.as_bytes())? else {
        return Ok(None);
    };
    let mark = [7, 7, 7, 7, 7, 7, 7, 7, 7, 7, 7, 7, 7, 7, 7, mark];
    Ok(Some(match kept.seen(&token, &mark) {
        Seen::Fresh => 0,
        Seen::Kept(reply) => reply.status,
        Seen::Other => 1,
    }))
}

#[test]
fn replies_are_seen_under_their_tokens(rt: HostRuntime) -> Result<(), Fail> {
    let alloc = rt.alloc();
    let mut kept = KeptReplies::of(alloc, Vec::new(alloc))?;
    for (token, mark, status) in [
        ("m", 1, 200),
        ("t1", 2, 201),
        ("t", 3, 201),
        ("A", 4, 200),
        ("z", 5, 201),
    ] {
        let row = row(alloc, token, mark, status)?;
        kept.reserve(1)?;
        kept.put(row);
    }
    for (token, mark, seen) in [
        ("m", 1, 200),
        ("m", 2, 1),
        ("t1", 2, 201),
        ("t1", 3, 1),
        ("t", 3, 201),
        ("A", 4, 200),
        ("z", 5, 201),
        ("a", 4, 0),
        ("M", 1, 0),
        ("t11", 2, 0),
        ("zz", 5, 0),
        ("-", 1, 0),
    ] {
        assert_eq!(rt;
            status_seen(alloc, &kept, token, mark)?,
            Some(seen),
            "{token} {mark}"
        );
    }
    Ok(())
}
