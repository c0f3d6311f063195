//! Refusals of what can't be framed, with each of which a session ends, and of what is framed and asks
//! for nothing that there is.
ghost use Rattle.std.specs.Prelude.{◌≡◌};
ghost use Rattle.http_model.specs.declared.refusals.FramingRefusal.TheVariants as cause;
ghost use Rattle.http_model.specs.Refusals.{asking_row, framing_refusal};
ghost use Rattle.http_model.specs.Spelling.{spelled_refusal};

/// Why what is left of an input is refused.
#[derive(Clone, Copy, Debug, PartialEq, Eq)]
pub enum FramingRefusal {
    /// No request begins the bytes.
    Frame,
    /// A length is asked for and is not given.
    Length,
    /// A body is longer than may be.
    Size,
}

/// Why a request that is framed is refused, whatever the library holds.
#[derive(Clone, Copy, Debug, PartialEq, Eq)]
pub enum AskingRefusal {
    /// Its target finds no route.
    NoRoute,
    /// The route that is found has no such method.
    Method,
    /// A changing request has no `Request-Token`, two, or one that is no token.
    Token,
    /// An import has two `Recording-Name`, or one that is no name.
    Name,
    /// A body is not of the form that its command wants.
    Body,
}

// The status of each refusal (RFC 9110 section 15), and the word that names it in the reply. The
// definitions cite these constants, so each status and each word stands here alone.
const FRAME: (u16, &str) = (400, "frame");

const LENGTH: (u16, &str) = (411, "length");

const SIZE: (u16, &str) = (413, "size");

const NO_ROUTE: (u16, &str) = (404, "no-route");

const METHOD: (u16, &str) = (405, "method");

const TOKEN: (u16, &str) = (400, "token");

const NAME: (u16, &str) = (400, "name");

const BODY: (u16, &str) = (400, "body");

impl FramingRefusal {
    /// The bytes of the reply, after which the connection closes. They take no memory.
    pub fn text(self) -> &'static [u8]
        ensures { result.now ≡ spelled_refusal (framing_refusal self) }
    {
        match self {
            FramingRefusal::Frame => frame_text(),
            FramingRefusal::Length => length_text(),
            FramingRefusal::Size => size_text(),
        }
    }
}

impl AskingRefusal {
    /// The status of the reply.
    pub fn status(self) -> u16
        ensures { result ≡ (asking_row self).0 }
    {
        self.row().0
    }

    /// The word that names the refusal in the reply.
    pub fn word(self) -> &'static str
        ensures { result.now ≡ (asking_row self).1.now }
    {
        self.row().1
    }

    fn row(self) -> (u16, &'static str)
        ensures status { result.0 ≡ (asking_row self).0 }
        ensures word { result.1.now ≡ (asking_row self).1.now }
    {
        match self {
            AskingRefusal::NoRoute => NO_ROUTE,
            AskingRefusal::Method => METHOD,
            AskingRefusal::Token => TOKEN,
            AskingRefusal::Name => NAME,
            AskingRefusal::Body => BODY,
        }
    }
}

/// The reply to what no request begins.
fn frame_text() -> &'static [u8]
    ensures { result.now ≡ spelled_refusal (framing_refusal cause.Frame) }
{
    b"HTTP/1.1 400 Bad Request\r\nContent-Type: application/json\r\nContent-Length: 17\r\nConnection: close\r\n\r\n{\"error\":\"frame\"}"
}

/// The reply to what gives no length.
fn length_text() -> &'static [u8]
    ensures { result.now ≡ spelled_refusal (framing_refusal cause.Length) }
{
    b"HTTP/1.1 411 Length Required\r\nContent-Type: application/json\r\nContent-Length: 18\r\nConnection: close\r\n\r\n{\"error\":\"length\"}"
}

/// The reply to a body that is longer than may be.
fn size_text() -> &'static [u8]
    ensures { result.now ≡ spelled_refusal (framing_refusal cause.Size) }
{
    b"HTTP/1.1 413 Content Too Large\r\nContent-Type: application/json\r\nContent-Length: 16\r\nConnection: close\r\n\r\n{\"error\":\"size\"}"
}
