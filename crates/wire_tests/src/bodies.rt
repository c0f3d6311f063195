//! What bodies of requests say, and those of replies. Memory is ample here, so no answer is want of it.
use json_bodies::{describe_album, describe_removed, is_name, read_album, read_name};
use keeper_store::AlbumRow;
use lib_base::{Memory, Summary, Text};
use library_model::Reply;
use std::alloc::{AllocError, Global};
use std::test::Fail;

/// The parts, one after another.
fn joined(alloc: Global, parts: &[&[u8]]) -> Result<Vec<u8>, AllocError> {
    let mut whole = Vec::new(alloc);
    for part in parts {
        whole.extend_from_slice(part)?;
    }
    Ok(whole)
}

#[test]
fn bodies_give_names(rt: HostRuntime) -> Result<(), Fail> {
    let alloc = rt.alloc();
    for (body, want) in [
        (br#"{"name":"A"}"#.as_slice(), Some("A")),
        (b" {\"name\" :\t\"A\"}\r\n", Some("A")),
        (br#"{"name":""}"#, Some("")),
        (br#"{"name":"F\u00fcr"}"#, Some("F\u{fc}r")),
        (b"{\"name\":\"F\xc3\xbcr\"}", Some("F\u{fc}r")),
        (br#"{"name":"A","name":"B"}"#, Some("B")),
        (br#"{"name":1,"name":"B"}"#, Some("B")),
        (br#"{"name":"A","name":1}"#, None),
        (br#"{"name":"A","x":1}"#, None),
        (br#"{"name":1}"#, None),
        (br#"{"name":null}"#, None),
        (br#"{"Name":"A"}"#, None),
        (br#"{"x":{"name":"A"}}"#, None),
        (br#"{"name":"a\u001f"}"#, None),
        (br#"{"name":"a\n"}"#, None),
        (br#"{"name":"a\u007f"}"#, None),
        (br#"{"name":"\ud800"}"#, None),
        (b"{\"name\":\"a\x1f\"}", None),
        (b"{\"name\":\"\xc3\"}", None),
        (br#"{"name":"A"}{}"#, None),
        (br#"{"name":"A"} B"#, None),
        (br#"{"name":"A""#, None),
        (br#"["name"]"#, None),
        (br#""name""#, None),
        (b"{}", None),
        (b"[]", None),
        (b"null", None),
        (b"", None),
    ] {
        let name = read_name(alloc, body)?;
        assert_eq!(rt; name.as_ref().map(|name| name.as_str()), want, "{body:?}");
    }
    for (front, middle, back, given) in [
        (
            b"\"".as_slice(),
            [b'n'; 200].as_slice(),
            b"\"".as_slice(),
            true,
        ),
        (b"\"", [b'n'; 201].as_slice(), b"\"", false),
        (b"0,\"name\":\"", b"n", b"\"", true),
        ([b'['; 127].as_slice(), b"", [b']'; 127].as_slice(), false),
    ] {
        let body = joined(alloc, &[b"{\"name\":", front, middle, back, b"}"])?;
        assert_eq!(rt;
            read_name(alloc, body.as_slice())?.is_some(),
            given,
            "{front:?}"
        );
    }
    Ok(())
}

#[test]
fn bodies_choose_albums(rt: HostRuntime) -> Result<(), Fail> {
    let alloc = rt.alloc();
    for (body, want) in [
        (br#"{"album":1}"#.as_slice(), Some(Some(1))),
        (br#"{"album":2147483646}"#, Some(Some(2_147_483_646))),
        (br#"{"album":null}"#, Some(None)),
        (br#"{"album":1,"album":null}"#, Some(None)),
        (br#"{"album":0}"#, None),
        (br#"{"album":2147483647}"#, None),
        (br#"{"album":4294967297}"#, None),
        (br#"{"album":18446744073709551617}"#, None),
        (br#"{"album":1.0}"#, None),
        (br#"{"album":1e0}"#, None),
        (br#"{"album":-1}"#, None),
        (br#"{"album":01}"#, None),
        (br#"{"album":"1"}"#, None),
        (br#"{"album":true}"#, None),
        (br#"{"album":[1]}"#, None),
        (br#"{"album":1,"x":1}"#, None),
        (br#"{"name":"A"}"#, None),
        (b"{\"album\":1}\xff", None),
        (b"{}", None),
        (b"null", None),
        (b"", None),
    ] {
        assert_eq!(rt; read_album(alloc, body)?, want, "{body:?}");
    }
    Ok(())
}

#[test]
fn names_have_a_form(rt: HostRuntime) -> Result<(), Fail> {
    for (text, is) in [
        (b"".as_slice(), true),
        (b"A B~", true),
        (b"F\xc3\xbcr \"Elise\"", true),
        ([b'n'; 200].as_slice(), true),
        ([b'n'; 201].as_slice(), false),
        (b"a\x1f", false),
        (b"\x7f", false),
        (b"\xc3", false),
        (b"\xed\xa0\x80", false),
    ] {
        assert_eq!(rt; is_name(text), is, "{text:?}");
    }
    Ok(())
}

/// What is replied about an album of these recordings, whose levels can't be measured.
fn described(alloc: Global, ids: &[u32]) -> Result<Reply, Memory> {
    let name = Text::of(String::from_str(alloc, "A")?);
    let summary = Summary {
        frames: 0,
        loudness: None,
        range: None,
        momentary: None,
        short_term: None,
        true_peak: None,
        peak: 0,
        gain: None,
    };
    describe_album(
        alloc,
        201,
        &AlbumRow {
            id: 1,
            name,
            summary,
        },
        ids,
    )
}

#[test]
fn albums_and_removals_are_described(rt: HostRuntime) -> Result<(), Fail> {
    let alloc = rt.alloc();
    let empty = described(alloc, &[])?;
    assert_eq!(rt; empty.status, 201);
    assert_eq!(rt;
        empty.body.as_slice(),
        br#"{"gain":null,"id":1,"loudness":null,"momentary":null,"name":"A","peak":"0.000000","range":null,"recordings":[],"short":null,"true_peak":null}"#.as_slice()
    );
    let two = described(alloc, &[7, 12])?;
    assert_eq!(rt;
        two.body.as_slice(),
        br#"{"gain":null,"id":1,"loudness":null,"momentary":null,"name":"A","peak":"0.000000","range":null,"recordings":[7,12],"short":null,"true_peak":null}"#.as_slice()
    );
    let removed = describe_removed(alloc, 7)?;
    assert_eq!(rt; removed.body.as_slice(), br#"{"removed":7}"#.as_slice());
    Ok(())
}
