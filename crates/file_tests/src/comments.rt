//! Blocks, read and refused.
use file_model::CommentRule;
use lib_base::{Broken, Refused};
use std::alloc::Global;
use std::test::Fail;
use vorbis_comment::{Comments, read};

/// The vendor `ab`, and the comments `A=1` and one of no bytes.
const TWO: [u8; 21] = [
    2, 0, 0, 0, b'a', b'b', 2, 0, 0, 0, 3, 0, 0, 0, b'A', b'=', b'1', 0, 0, 0, 0,
];

/// How many comments a block has, or its refusal.
fn comments_in(alloc: Global, content: &[u8]) -> Result<usize, Refused> {
    let comments = read(alloc, content)?;
    Ok(comments.len())
}

/// The refusal by a rule at a place.
fn by_rule(rule: CommentRule, place: u64) -> Result<usize, Refused> {
    Err(Refused::Broken(Broken {
        rule: rule.rule(),
        place,
    }))
}

/// Each row: a block, and how many comments it has, or its refusal.
#[test]
fn blocks(rt: HostRuntime) {
    let rows = [
        ([0, 0, 0, 0, 0, 0, 0, 0].as_slice(), Ok(0)),
        ([].as_slice(), by_rule(CommentRule::CutVendor, 0)),
        (
            [5, 0, 0, 0, 0, 0, 0, 0].as_slice(),
            by_rule(CommentRule::CutVendor, 0),
        ),
        (
            [4, 0, 0, 0, 0, 0, 0, 0].as_slice(),
            by_rule(CommentRule::CutComment, 8),
        ),
        (
            [0, 0, 0, 0, 1, 0, 0].as_slice(),
            by_rule(CommentRule::CutComment, 4),
        ),
        (
            [0, 0, 0, 0, 1, 0, 0, 0].as_slice(),
            by_rule(CommentRule::CutComment, 8),
        ),
        (
            [0, 0, 0, 0, 0, 0, 0, 255].as_slice(),
            by_rule(CommentRule::CutComment, 8),
        ),
        (
            [0, 0, 0, 0, 0, 0, 0, 0, 0].as_slice(),
            by_rule(CommentRule::BytesLeft, 8),
        ),
    ];
    for (content, answer) in rows {
        assert_eq!(rt; comments_in(rt.alloc(), content), answer);
    }
}

/// A block is cut at each place, and has a byte more.
#[test]
fn cuts_of_a_block(rt: HostRuntime) -> Result<(), Fail> {
    for length in 0..21 {
        let answer = match length {
            0..=5 => by_rule(CommentRule::CutVendor, 0),
            6..=9 => by_rule(CommentRule::CutComment, 6),
            10..=16 => by_rule(CommentRule::CutComment, 10),
            _ => by_rule(CommentRule::CutComment, 17),
        };
        assert_eq!(rt;
            comments_in(rt.alloc(), &TWO[..length]),
            answer,
            "{length} bytes"
        );
    }
    let mut more = Vec::from_slice(rt.alloc(), TWO.as_slice())?;
    more.push(0)?;
    assert_eq!(rt;
        comments_in(rt.alloc(), more.as_slice()),
        by_rule(CommentRule::BytesLeft, 21)
    );
    Ok(())
}

/// What is kept of a block, and of none.
#[test]
fn comments_that_are_kept(rt: HostRuntime) -> Result<(), Fail> {
    let comments = read(rt.alloc(), TWO.as_slice())?;
    assert_eq!(rt; comments.vendor(), b"ab".as_slice());
    assert_eq!(rt; comments.len(), 2);
    assert_eq!(rt; comments.entry(0), b"A=1".as_slice());
    assert_eq!(rt; comments.entry(1), b"".as_slice());
    let none = Comments::empty(rt.alloc());
    assert_eq!(rt; none.vendor(), b"".as_slice());
    assert_eq!(rt; none.len(), 0);
    Ok(())
}

/// Four million comments of no bytes.
#[test]
fn many_comments(rt: HostRuntime) -> Result<(), Fail> {
    let mut content = Vec::new(rt.alloc());
    content.resize(16_000_008, 0)?;
    content[5] = 0x09;
    content[6] = 0x3D;
    assert_eq!(rt; comments_in(rt.alloc(), content.as_slice()), Ok(4_000_000));
    Ok(())
}
