//! Where the parts of the head lie that begins some bytes.
ghost use Rattle.std.specs.Prelude.{◌≡◌, ◌≢◌, ◌≤◌, ◌<◌, ◌==◌, ◌&&◌, ◌||◌, length, take, map, codes, All, []};
ghost use Rattle.std.specs.List.{list_any};
ghost use Rattle.httparse.specs.Spans.{IsRequestWithin, IsHeaderWithin, IsWithin, header_bytes, span_bytes};
ghost use Rattle.http_model.specs.Fields.{is_named, values_of};
ghost use Rattle.http_model.specs.Requests.{head_limit, field_limit, HasNoHead};
ghost use Rattle.http_inbox.specs.Heads.{IsFieldSpan, GivesFields, IsParsed, Looks};

use http_model::limits::{MOST_FIELDS, MOST_HEAD_BYTES};
use httparse::Status;
use httparse::spans::{EMPTY_HEADER_SPAN, HeaderSpan, RequestSpans, Span, parse_request};

/// Where the values of the header lines of a name lie.
#[derive(Clone, Copy)]
pub enum FieldSpan {
    /// No line has the name.
    Absent,
    /// One has, with this value.
    Value(Span),
    /// Two have, or more.
    Repeated,
}

/// Where the parts of a head lie in the bytes that it begins.
#[derive(Clone, Copy)]
pub struct Heading {
    pub method: Span,
    pub target: Span,
    /// `Content-Length`.
    pub size: FieldSpan,
    /// `Transfer-Encoding`.
    pub encoding: FieldSpan,
    /// `Request-Token`.
    pub token: FieldSpan,
    /// `Recording-Name`.
    pub name: FieldSpan,
    /// The request asks to close.
    pub closes: bool,
    /// The length of the head, where the body starts.
    pub len: usize,
}

/// What is known of the head that begins some bytes.
pub(crate) enum Look {
    /// It is there.
    Head(Heading),
    /// There is none, however the bytes go on.
    Never,
    /// There is none as yet.
    Open,
}

/// What parsing found.
enum Parse {
    Complete(RequestSpans),
    Partial,
    Invalid,
}

/// Looks for the head that begins the bytes.
#[tactic(auto, unfolding(http_model::specs::Requests::field_limit))]
pub(crate) fn look_at(bytes: &[u8]) -> Look
    requires { length bytes.now ≤ head_limit }
    ensures { Looks bytes.now result }
{
    if bytes.is_empty() {
        return Look::Open;
    }
    let mut headers = [EMPTY_HEADER_SPAN; MOST_FIELDS];
    look_in(bytes, &mut headers)
}

/// Looks for the head that begins the bytes, with at most as many header lines as `headers` has
/// places.
fn look_in(bytes: &[u8], headers: &mut [HeaderSpan]) -> Look
    requires some { bytes.now ≢ [] }
    requires short { length bytes.now ≤ head_limit }
    requires few { length headers.old ≡ field_limit }
    ensures { Looks bytes.now result }
{
    match parse_head(bytes, headers) {
        Parse::Complete(head) => Look::Head(heading_of(bytes, &head, headers)),
        Parse::Partial => open_or_full(bytes),
        Parse::Invalid => Look::Never,
    }
}

/// A head that is not yet there can still come while fewer bytes are there than a head may have.
#[tactic(auto, unfolding(http_model::specs::Requests::head_limit))]
fn open_or_full(bytes: &[u8]) -> Look
    requires some { bytes.now ≢ [] }
    requires short { length bytes.now ≤ head_limit }
    requires none { HasNoHead bytes.now }
    ensures { Looks bytes.now result }
{
    if bytes.len() < MOST_HEAD_BYTES {
        Look::Open
    } else {
        Look::Never
    }
}

/// Parses the head that begins the bytes, with at most as many header lines as `headers` has places.
fn parse_head(bytes: &[u8], headers: &mut [HeaderSpan]) -> Parse
    ensures found { IsParsed bytes.now (length headers.old) headers.new result }
    ensures places { length headers.new ≡ length headers.old }
{
    match parse_request(bytes, headers) {
        Ok(Status::Complete(head)) => Parse::Complete(head),
        Ok(Status::Partial) => Parse::Partial,
        Err(_) => Parse::Invalid,
    }
}

/// Where the parts of a head lie.
fn heading_of(bytes: &[u8], head: &RequestSpans, headers: &[HeaderSpan]) -> Heading
    requires within { IsRequestWithin bytes.now headers.now head.now }
    ensures len { result.len ≡ head.now.len }
    ensures method { result.method ≡ head.now.method }
    ensures target { result.target ≡ head.now.path }
    ensures fields { GivesFields bytes.now result head.now.version
        (map (header_bytes bytes.now) (take head.now.headers headers.now)) }
{
    heading_in(bytes, head, headers.split_at(head.headers).0)
}

/// Where the parts of a head with these header lines lie.
fn heading_in(bytes: &[u8], head: &RequestSpans, headers: &[HeaderSpan]) -> Heading
    requires { All (IsHeaderWithin (length bytes.now)) headers.now }
    ensures len { result.len ≡ head.now.len }
    ensures method { result.method ≡ head.now.method }
    ensures target { result.target ≡ head.now.path }
    ensures fields { GivesFields bytes.now result head.now.version
        (map (header_bytes bytes.now) headers.now) }
{
    Heading {
        method: head.method,
        target: head.path,
        size: field_span(bytes, headers, b"Content-Length"),
        encoding: field_span(bytes, headers, b"Transfer-Encoding"),
        token: field_span(bytes, headers, b"Request-Token"),
        name: field_span(bytes, headers, b"Recording-Name"),
        closes: asks_to_close(bytes, head.version, headers),
        len: head.len,
    }
}

/// Whether a request of that version with these header lines asks to close (RFC 9112 section 9.6).
fn asks_to_close(bytes: &[u8], minor: u8, headers: &[HeaderSpan]) -> bool
    requires { All (IsHeaderWithin (length bytes.now)) headers.now }
    ensures { result ≡ (minor == 0 || list_any (is_named (codes "close"))
        (values_of (codes "Connection") (map (header_bytes bytes.now) headers.now))) }
{
    minor == 0 || has_value(bytes, headers, b"Connection", b"close")
}

/// Whether a header line of that name has that whole value, ASCII case aside in both.
fn has_value(bytes: &[u8], headers: &[HeaderSpan], name: &[u8], value: &[u8]) -> bool
    requires { All (IsHeaderWithin (length bytes.now)) headers.now }
    ensures { result ≡ list_any (is_named value.now)
        (values_of name.now (map (header_bytes bytes.now) headers.now)) }
{
    'headers: for header in headers {
        if is_field(bytes, header, name, value) {
            return true;
        }
    }
    false
}

/// Whether a header line has that name and that whole value, ASCII case aside in both.
fn is_field(bytes: &[u8], header: &HeaderSpan, name: &[u8], value: &[u8]) -> bool
    requires { IsHeaderWithin (length bytes.now) header.now }
    ensures { result ≡ (is_named name.now (span_bytes bytes.now header.now.name)
        && is_named value.now (span_bytes bytes.now header.now.value)) }
{
    is_same(header.name.of(bytes), name) && is_same(header.value.of(bytes), value)
}

/// Where the value of the header lines of that name lies, ASCII case aside.
fn field_span(bytes: &[u8], headers: &[HeaderSpan], name: &[u8]) -> FieldSpan
    requires { All (IsHeaderWithin (length bytes.now)) headers.now }
    ensures { IsFieldSpan bytes.now result (values_of name.now (map (header_bytes bytes.now) headers.now)) }
{
    let mut found = None;
    'headers: for header in headers {
        if is_same(header.name.of(bytes), name) {
            if found.is_some() {
                return FieldSpan::Repeated;
            }
            found = Some(header.value);
        }
    }
    match found {
        Some(value) => FieldSpan::Value(value),
        None => FieldSpan::Absent,
    }
}

/// Whether the bytes are that name, ASCII case aside.
fn is_same(bytes: &[u8], name: &[u8]) -> bool
    ensures { result ≡ is_named name.now bytes.now }
{
    bytes.eq_ignore_ascii_case(name)
}
