//! What stands before the frames of a file: its mark, its blocks, and what STREAMINFO says.
ghost use Rattle.std.specs.Prelude.{◌≡◌, ◌≤◌, ◌+◌, ◌↔◌, length, codes, IsTrue, IfOk, IfErr, OnOk};
ghost use Rattle.lib_base.specs.Sounds.{part};
ghost use Rattle.flac_stream.specs.Answers.{IsRefusalOf};
ghost use Rattle.flac_stream.specs.Blocks.{IsOpening};

use crate::blocks::{Blocks, read_blocks};
use crate::info::{INFO_AT, find_info, place_in};
use crate::rules::refused;
use file_model::flac_fields::{BLOCKS_AT, STREAMINFO_BYTES};
use file_model::{FlacRule, Info};
use lib_base::Refused;
use std::alloc::Global;

/// The blocks of a file, and what STREAMINFO says.
#[derive(Drop)]
pub(crate) struct Opening {
    pub(crate) info: Info,
    pub(crate) blocks: Blocks,
}

/// Reads a file up to its first frame.
pub(crate) fn read_opening(alloc: Global, bytes: &[u8]) -> Result<Opening, Refused>
    ensures ok { IfOk result (λ opening. IsOpening bytes.now opening.info opening.blocks.items.items
        opening.blocks.comments opening.blocks.end) }
    ensures err { IfErr result (λ refused. IsRefusalOf bytes.now refused) }
{
    check_mark(bytes)?;
    let blocks = read_blocks(alloc, bytes)?;
    match find_info(info_content(bytes)) {
        Ok(info) => Ok(Opening { info, blocks }),
        Err(rule) => Err(refused(rule, place_in(rule))),
    }
}

/// Tries whether the file begins with `fLaC`.
fn check_mark(bytes: &[u8]) -> Result<(), Refused>
    ensures long { OnOk result (BLOCKS_AT ≤ length bytes.now) }
    ensures marked { OnOk result (part bytes.now 0 BLOCKS_AT ≡ codes "fLaC") }
    ensures err { IfErr result (λ refused. IsRefusalOf bytes.now refused) }
{
    if bytes.len() < BLOCKS_AT {
        return Err(refused(FlacRule::NoFlac, 0));
    }
    if !begins_with(bytes, b"fLaC".as_slice()) {
        return Err(refused(FlacRule::NoFlac, 0));
    }
    Ok(())
}

/// Whether these bytes stand first.
fn begins_with(bytes: &[u8], wanted: &[u8]) -> bool
    requires { length wanted.now ≤ length bytes.now }
    ensures { IsTrue result ↔ (part bytes.now 0 (length wanted.now) ≡ wanted.now) }
{
    bytes.split_at(wanted.len()).0 == wanted
}

/// The content of STREAMINFO, which is the first block.
fn info_content(bytes: &[u8]) -> &[u8]
    requires { INFO_AT + STREAMINFO_BYTES ≤ length bytes.now }
    ensures value { result.now ≡ part bytes.now INFO_AT STREAMINFO_BYTES }
    ensures long { length result.now ≡ STREAMINFO_BYTES }
{
    let rest = bytes.split_at(INFO_AT).1;
    rest.split_at(STREAMINFO_BYTES).0
}
