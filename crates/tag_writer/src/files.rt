//! What is accepted as a file.
ghost use Rattle.std.specs.Prelude.{◌≡◌, ℕ, List, None, Some, IfOk, IfErr};
ghost use Rattle.lib_base.specs.Kinds.{kind_named};
ghost use Rattle.lib_base.specs.declared.files.Kind.TheVariants as kinds;
ghost use Rattle.tag_writer.specs.Answers.{IsAcceptedOf, IsRefusalOf};

use crate::comments::read_flac;
use file_model::KindRule;
use flac_stream::FlacFile;
use lib_base::{Broken, Kind, Refused, kind_of};
use std::alloc::Global;
use wave_chunks::Wave;

/// The parts of a file of either kind.
#[derive(Drop)]
pub enum Accepted {
    Wave(Wave),
    Flac(FlacFile),
}

/// Reads a file of the kind that its first four bytes name. What is none is broken by the rule that
/// it breaks first, at its place: as a wave, or as a FLAC file, or else by its comments.
///
/// A FLAC file is decoded once, and its comments are read.
///
/// # Errors
///
/// `Broken` with the rule and its place, a byte offset in the file; `Memory` says nothing of the
/// bytes.
pub fn accept(alloc: Global, bytes: &[u8]) -> Result<Accepted, Refused>
    ensures ok { IfOk result (λ accepted. IsAcceptedOf bytes.now accepted) }
    ensures err { IfErr result (λ refused. IsRefusalOf bytes.now refused) }
{
    match kind_of(bytes) {
        Some(Kind::Wave) => accept_wave(alloc, bytes),
        Some(Kind::Flac) => accept_flac(alloc, bytes),
        None => Err(other_kind()),
    }
}

/// The refusal of bytes that name no kind of file.
fn other_kind() -> Refused
    ensures { (bytes : List ℕ) → kind_named bytes ≡ None → IsRefusalOf bytes result }
{
    Refused::Broken(Broken {
        rule: KindRule::OtherKind.rule(),
        place: 0,
    })
}

/// Accepts a wave.
fn accept_wave(alloc: Global, bytes: &[u8]) -> Result<Accepted, Refused>
    requires { kind_named bytes.now ≡ Some kinds.Wave }
    ensures ok { IfOk result (λ accepted. IsAcceptedOf bytes.now accepted) }
    ensures err { IfErr result (λ refused. IsRefusalOf bytes.now refused) }
{
    match wave_chunks::read(alloc, bytes) {
        Ok(wave) => Ok(Accepted::Wave(wave)),
        Err(refused) => Err(refused),
    }
}

/// Accepts a FLAC file.
fn accept_flac(alloc: Global, bytes: &[u8]) -> Result<Accepted, Refused>
    requires { kind_named bytes.now ≡ Some kinds.Flac }
    ensures ok { IfOk result (λ accepted. IsAcceptedOf bytes.now accepted) }
    ensures err { IfErr result (λ refused. IsRefusalOf bytes.now refused) }
{
    match read_flac(alloc, bytes) {
        Ok(file) => Ok(Accepted::Flac(file)),
        Err(refused) => Err(refused),
    }
}
