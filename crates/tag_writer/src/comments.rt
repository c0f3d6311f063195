//! A FLAC file, and the comments in it.
ghost use Rattle.std.specs.Prelude.{◌≡◌, ◌≤◌, ◌<◌, ◌+◌, ◌-◌, ◌^◌, length, slice_index_or, MatchOption, Ok, None, IfOk, IfErr, OnOk};
ghost use Rattle.file_model.specs.Files.{comments_in};
ghost use Rattle.file_model.specs.declared.flac_fields.TheConstants.{BLOCKS_AT};
ghost use Rattle.flac_stream.specs.declared.blocks.Block.{Block};
ghost use Rattle.flac_stream.specs.Shape.{IsReadOf};
ghost use Rattle.tag_writer.specs.Answers.{IsFlacRead, IsFlacRefusalOf, IsCommentsSpan, AreComments, IsRefusalAt};

use flac_stream::FlacFile;
use lib_base::{Broken, Refused, Span, content_of};
use std::alloc::Global;

/// Reads a FLAC file, and tries its comments.
pub(crate) fn read_flac(alloc: Global, bytes: &[u8]) -> Result<FlacFile, Refused>
    ensures ok { IfOk result (λ file. IsFlacRead bytes.now file) }
    ensures err { IfErr result (λ refused. IsFlacRefusalOf bytes.now refused) }
{
    let file = match flac_stream::read(alloc, bytes) {
        Ok(file) => file,
        Err(refused) => return Err(refused),
    };
    match check_comments(alloc, bytes, &file) {
        Ok(()) => Ok(file),
        Err(refused) => Err(refused),
    }
}

/// Tries the comments of a file, where it has some.
fn check_comments(alloc: Global, bytes: &[u8], file: &FlacFile) -> Result<(), Refused>
    requires { IsReadOf bytes.now file.now }
    ensures ok { OnOk result (IsFlacRead bytes.now file.now) }
    ensures err { IfErr result (λ refused. IsFlacRefusalOf bytes.now refused) }
{
    let Some(span) = comments_span(bytes, file) else {
        return Ok(());
    };
    match check_content(alloc, content_of(bytes, span), span.start) {
        Ok(()) => Ok(()),
        Err(refused) => Err(refused),
    }
}

/// Where the content of a file's comments lies, where it has some.
fn comments_span(bytes: &[u8], file: &FlacFile) -> Option<Span>
    requires { IsReadOf bytes.now file.now }
    ensures { (read : IsReadOf bytes.now file.now) → MatchOption result
        (comments_in BLOCKS_AT read.blocks ≡ Ok None)
        (λ span. IsCommentsSpan bytes.now read.blocks span) }
{
    match file.comments() {
        Some(index) => Some(content_span(file, index)),
        None => None,
    }
}

/// Where the content of a block lies.
fn content_span(file: &FlacFile, index: usize) -> Span
    requires { index < length file.now.blocks }
    ensures { (other : Block) → result ≡ (slice_index_or file.now.blocks index other).content }
{
    file.blocks()[index].content
}

/// Tries the content of a block of comments, which begins at a place of the file.
fn check_content(alloc: Global, content: &[u8], start: usize) -> Result<(), Refused>
    requires { start + length content.now < 2 ^ 63 }
    ensures ok { OnOk result (AreComments content.now) }
    ensures err { IfErr result (λ refused. IsRefusalAt content.now start refused) }
{
    match vorbis_comment::read(alloc, content) {
        Ok(_) => Ok(()),
        Err(Refused::Broken(broken)) => Err(Refused::Broken(Broken {
            rule: broken.rule,
            place: start as u64 + broken.place,
        })),
        Err(Refused::Memory) => Err(Refused::Memory),
    }
}
