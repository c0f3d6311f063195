//! Comments as they are kept, and what reads them.
ghost use Rattle.std.specs.Prelude.{◌≡◌, ◌<◌, [], length, slice_index_or, Ok, IfOk, IfErr};
ghost use Rattle.file_model.specs.Comments.{comments_at};
ghost use Rattle.vorbis_comment.specs.Answers.{IsRefusalOf};

use crate::parts::read_parts;
use crate::texts::text_in;
use lib_base::{Refused, Span};
use std::alloc::Global;
use std::marker::Model;

/// A vendor, and comments in their order, each of any bytes. They lie in one piece of memory.
#[derive(Drop)]
pub struct Comments {
    content: Vec<u8>,
    vendor: Span,
    entries: Vec<Span>,
}

impl Model for Comments {
    ghost use Rattle.file_model.specs.Comments.{Comments as Shape};
    ghost use Rattle.vorbis_comment.specs.Spans.{comments_of, AreWithin};

    ghost Value = { Shape };

    ghost view = { λ c. comments_of c.content.items c.vendor c.entries.items };

    ghost invariant = { λ c. AreWithin c.content.items c.vendor c.entries.items };
}

impl Comments {
    /// No vendor bytes and no comment. It takes no memory.
    pub fn empty(alloc: Global) -> Comments
        ensures { result ≡ record { vendor = []; entries = [] } }
    {
        Comments {
            content: Vec::new(alloc),
            vendor: Span { start: 0, end: 0 },
            entries: Vec::new(alloc),
        }
    }

    /// The bytes that name the vendor.
    pub fn vendor(&self) -> &[u8]
        ensures { result.now ≡ self.now.vendor }
    {
        text_in(self.content.as_slice(), self.vendor)
    }

    /// How many comments there are.
    pub fn len(&self) -> usize
        ensures { result ≡ length self.now.entries }
    {
        self.entries.len()
    }

    /// The bytes of a comment, counted from 0.
    pub fn entry(&self, index: usize) -> &[u8]
        requires { index < length self.now.entries }
        ensures { result.now ≡ slice_index_or self.now.entries index [] }
    {
        text_in(self.content.as_slice(), self.entries[index])
    }
}

/// Reads the content of a block of comments. What is none is broken by the first rule that it
/// breaks, at its place in the content.
///
/// The content is copied once, and each comment takes a span, whatever the count says.
///
/// # Errors
///
/// `Broken` with the rule and its place, a byte offset in the content; `Memory` says nothing of the
/// bytes.
pub fn read(alloc: Global, content: &[u8]) -> Result<Comments, Refused>
    ensures ok { IfOk result (λ comments. comments_at content.now ≡ Ok comments) }
    ensures err { IfErr result (λ refused. IsRefusalOf content.now refused) }
{
    let parts = read_parts(alloc, content)?;
    let kept = Vec::from_slice(alloc, content)?;
    Ok(Comments {
        content: kept,
        vendor: parts.vendor,
        entries: parts.entries,
    })
}
