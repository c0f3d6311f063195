//! How long the body is that a head announces.
ghost use Rattle.std.specs.Prelude.{◌≡◌, ℕ, List, [], ◌∷◌};
ghost use Rattle.httparse.specs.Grammar.{RequestHead};
ghost use Rattle.http_model.specs.Requests.{extent, extent_by, limited as limited_by};
ghost use Rattle.http_inbox.specs.Heads.{IsFieldSpan, IsHeadingOf};
ghost use Rattle.http_inbox.specs.Extents.{extent_said, size_written};

use crate::heads::{FieldSpan, Heading};
use http_model::FramingRefusal;
use http_model::limits::MOST_SIZE_DIGITS;
use library_model::limits::MOST_BODY_BYTES;

/// What follows a head.
#[derive(Clone, Copy, Debug, PartialEq, Eq)]
pub enum BodySize {
    /// A body of so many bytes.
    Long(usize),
    /// Nothing that can be framed, for this cause.
    Refused(FramingRefusal),
}

/// What follows the head that begins the bytes (RFC 9110 section 8.6): nothing of a right form is
/// refused as 400, then a missing length as 411, then one past the limit as 413.
pub fn body_size(bytes: &[u8], heading: &Heading) -> BodySize
    requires { (head : RequestHead) × IsHeadingOf bytes.now heading.now head }
    ensures { (head : RequestHead) → IsHeadingOf bytes.now heading.now head
        → extent_said result ≡ extent head }
{
    match heading.encoding {
        FieldSpan::Absent => size_said(bytes, heading.method.of(bytes), heading.size),
        _ => BodySize::Refused(FramingRefusal::Frame),
    }
}

/// What follows a head of that method, by where its `Content-Length` lies.
fn size_said(bytes: &[u8], method: &[u8], size: FieldSpan) -> BodySize
    requires { (values : List (List ℕ)) × IsFieldSpan bytes.now size values }
    ensures { (values : List (List ℕ)) → IsFieldSpan bytes.now size values
        → extent_said result ≡ extent_by method.now values }
{
    match size {
        FieldSpan::Absent => absent_size(method),
        FieldSpan::Value(place) => written_size(place.of(bytes)),
        FieldSpan::Repeated => BodySize::Refused(FramingRefusal::Frame),
    }
}

/// What follows a head of that method that gives no length.
fn absent_size(method: &[u8]) -> BodySize
    ensures { extent_said result ≡ extent_by method.now [] }
{
    if method == b"POST".as_slice() || method == b"PUT".as_slice() {
        BodySize::Refused(FramingRefusal::Length)
    } else {
        BodySize::Long(0)
    }
}

/// What follows a head that gives that length.
fn written_size(digits: &[u8]) -> BodySize
    ensures { extent_said result ≡ extent_by [] (digits.now ∷ []) }
{
    match size_of(digits) {
        Some(size) => limited(size),
        None => BodySize::Refused(FramingRefusal::Frame),
    }
}

/// A body of that size, where it is within the limit.
#[tactic(auto, unfolding(http_model::specs::Requests::body_limit))]
fn limited(size: usize) -> BodySize
    ensures { extent_said result ≡ limited_by size }
{
    if size as u64 <= MOST_BODY_BYTES {
        BodySize::Long(size)
    } else {
        BodySize::Refused(FramingRefusal::Size)
    }
}

/// The number that one to 18 digits write.
fn size_of(digits: &[u8]) -> Option<usize>
    ensures { result ≡ size_written digits.now }
{
    if digits.is_empty() || digits.len() > MOST_SIZE_DIGITS {
        return None;
    }
    let mut number = 0;
    'digits: for digit in digits {
        if !digit.is_ascii_digit() {
            return None;
        }
        number = number * 10 + usize::from(*digit - b'0');
    }
    Some(number)
}
