//! What a request asks.
ghost use Rattle.std.specs.Prelude.{◌≡◌, IfOk, codes, Some, []};
ghost use Rattle.std.specs.Str.{bytes_eq};
ghost use Rattle.http_inbox.specs.Heads.{IsHeadingOf};
ghost use Rattle.library_model.specs.Asked as asked;
ghost use Rattle.http_model.specs.Asking.{allowed_if, allows_of, asked_if, asked_of, changing, mark_asked, question_about, question_by};
ghost use Rattle.http_model.specs.Refusals.{asking_refusal};
ghost use Rattle.http_model.specs.Requests.{Framed};
ghost use Rattle.http_routes.specs.Routes.{methods_if};
ghost use Rattle.http_asking.specs.Asked.{allowed_by, said, HasHeading};

use crate::fields::{field_of, name_marked, token_asked};
use crate::marks::mark_of;
use crate::wanting::refuse;
use http_inbox::Heading;
use http_model::AskingRefusal;
use http_routes::{Paths, Resource, Route};
use kept_replies::Token;
use lib_base::Memory;
use library_model::{Question, Reply};
use std::alloc::Global;

/// What a request asks.
#[derive(Drop)]
pub enum Asking {
    /// It is refused. The reply to a method that the route has not names those that it has.
    Refused {
        reply: Reply,
        allows: Option<Route>,
    },
    Question(Question),
    /// A change. `wanted` makes its command, or finds a name or a body that breaks its form.
    Change {
        token: Token,
        mark: [u8; 16],
        resource: Resource,
    },
}

/// What a request asks whose head begins the bytes and lies as the heading says, and which has that
/// body.
pub fn ask_for(
    alloc: Global,
    paths: &Paths,
    bytes: &[u8],
    heading: &Heading,
    body: &[u8],
) -> Result<Asking, Memory>
    requires { HasHeading bytes.now heading.now }
    ensures says { IfOk result (λ asking. (q : Framed) → IsHeadingOf bytes.now heading.now q.head → body.now ≡ q.body
        → said asking q ≡ asked_of q) }
    ensures allows { IfOk result (λ asking. (q : Framed) → IsHeadingOf bytes.now heading.now q.head
        → allowed_by asking ≡ allows_of q) }
{
    match paths.resource(heading.target.of(bytes)) {
        Some(resource) => ask_at(alloc, resource, bytes, heading, body),
        None => refused(alloc, AskingRefusal::NoRoute, None),
    }
}

/// What is asked at what the target names.
fn ask_at(
    alloc: Global,
    resource: Resource,
    bytes: &[u8],
    heading: &Heading,
    body: &[u8],
) -> Result<Asking, Memory>
    requires { HasHeading bytes.now heading.now }
    ensures says { IfOk result (λ asking. (q : Framed) → IsHeadingOf bytes.now heading.now q.head → body.now ≡ q.body
        → said asking q ≡ asked_if q (Some resource)) }
    ensures allows { IfOk result (λ asking. (q : Framed) → IsHeadingOf bytes.now heading.now q.head
        → allowed_by asking ≡ allowed_if q.head.method (Some resource)) }
{
    let method = heading.method.of(bytes);
    if !resource.route().has_method(method) {
        return refused(alloc, AskingRefusal::Method, Some(resource.route()));
    }
    match question_by(method, resource) {
        Some(question) => Ok(Asking::Question(question)),
        None => change_at(alloc, resource, bytes, heading, body),
    }
}

/// What is refused for that cause. The reply names the methods of that route, where there is one.
fn refused(alloc: Global, cause: AskingRefusal, allows: Option<Route>) -> Result<Asking, Memory>
    ensures says { IfOk result (λ asking. (q : Framed) → said asking q ≡ asked.refused (asking_refusal cause)) }
    ensures allows { IfOk result (λ asking. allowed_by asking ≡ methods_if allows) }
{
    let reply = refuse(alloc, cause)?;
    Ok(Asking::Refused { reply, allows })
}

/// The question that is asked by GET at what a target names.
fn question_by(method: &[u8], resource: Resource) -> Option<Question>
    ensures { result ≡ question_by method.now resource }
{
    if is_get(method) {
        question_about(resource)
    } else {
        None
    }
}

fn is_get(method: &[u8]) -> bool
    ensures { result ≡ bytes_eq method.now (codes "GET") }
{
    method == b"GET".as_slice()
}

fn question_about(resource: Resource) -> Option<Question>
    ensures { result ≡ question_about resource }
{
    match resource {
        Resource::Recording(id) => Some(Question::Recording(id)),
        Resource::Album(id) => Some(Question::Album(id)),
        Resource::Albums
        | Resource::Recordings
        | Resource::AlbumRecordings(_)
        | Resource::Audio(_)
        | Resource::RecordingAlbum(_) => None,
    }
}

/// The change that is asked at what the target names.
fn change_at(
    alloc: Global,
    resource: Resource,
    bytes: &[u8],
    heading: &Heading,
    body: &[u8],
) -> Result<Asking, Memory>
    requires { HasHeading bytes.now heading.now }
    ensures says { IfOk result (λ asking. (q : Framed) → IsHeadingOf bytes.now heading.now q.head → body.now ≡ q.body
        → said asking q ≡ changing q resource) }
    ensures allows { IfOk result (λ asking. allowed_by asking ≡ []) }
{
    match token_asked(alloc, field_of(bytes, heading.token))? {
        Some(token) => Ok(Asking::Change {
            token,
            mark: mark_asked(bytes, heading, body),
            resource,
        }),
        None => refused(alloc, AskingRefusal::Token, None),
    }
}

/// The mark of the request.
fn mark_asked(bytes: &[u8], heading: &Heading, body: &[u8]) -> [u8; 16]
    requires { HasHeading bytes.now heading.now }
    ensures { (q : Framed) → IsHeadingOf bytes.now heading.now q.head → body.now ≡ q.body
        → result ≡ mark_asked q }
{
    let name = name_marked(field_of(bytes, heading.name));
    let method = heading.method.of(bytes);
    mark_of(method, heading.target.of(bytes), name, body)
}
