//! Marks of requests.
ghost use Rattle.std.specs.Prelude.{◌≡◌};
ghost use Rattle.http_model.specs.Asking as model;

use md5::{Digest, Md5};

/// The mark of a request: the MD5 (RFC 1321) of its method, target, name and body, with a line feed
/// between two. It takes no memory.
pub fn mark_of(method: &[u8], target: &[u8], name: &[u8], body: &[u8]) -> [u8; 16]
    ensures { result ≡ model.mark_of method.now target.now name.now body.now }
{
    let mut hasher = Md5::new();
    hasher.update(method);
    hasher.update(b"\n".as_slice());
    hasher.update(target);
    hasher.update(b"\n".as_slice());
    hasher.update(name);
    hasher.update(b"\n".as_slice());
    hasher.update(body);
    hasher.finalize()
}
