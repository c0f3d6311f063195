//! The rows of a file: that of the recording that it is a take of, and that of its segments.
ghost use Rattle.std.specs.Prelude.{◌≡◌, IfOk};
ghost use Rattle.md5.specs.Md5.{md5};
ghost use Rattle.keeper_store.specs.EnergyBytes.{AreEnergies};
ghost use Rattle.library_model.specs.Findings as findings;
ghost use Rattle.library_model.specs.Stands as stands;

use keeper_store::{RecordingRow, SegmentRow, bytes_of};
use lib_base::{Kind, Measured, Memory, Summary, Text, kind_of};
use md5::{Digest, Md5};
use std::alloc::Global;

/// Whose take a file is.
#[derive(Debug, Drop)]
pub(crate) struct Named {
    pub(crate) id: u32,
    pub(crate) album: Option<u32>,
    pub(crate) name: Text,
}

/// The row of a recording with this file under this take, of which that is measured.
pub(crate) fn row_of(
    named: Named,
    take: u32,
    file: &[u8],
    measured: &Measured,
    summary: Summary,
) -> RecordingRow
    ensures { result ≡ stands.row_of named.id named.album named.name take (findings.kind_of file.now) (md5 file.now) measured.now summary }
{
    RecordingRow {
        id: named.id,
        album: named.album,
        name: named.name,
        take,
        kind: kind_of(file).unwrap_or(Kind::Wave),
        channels: measured.channels,
        depth: measured.depth,
        digest: digest_of(file),
        summary,
    }
}

/// The row of a take's segments.
pub(crate) fn segments_of(
    alloc: Global,
    take: u32,
    measured: &Measured,
) -> Result<SegmentRow, Memory>
    requires { AreEnergies measured.now.energies }
    ensures { IfOk result (λ row. row ≡ stands.segments_of take measured.now) }
{
    let energies = bytes_of(alloc, measured.energies.as_slice())?;
    Ok(SegmentRow { take, energies })
}

/// The MD5 of a file.
fn digest_of(file: &[u8]) -> [u8; 16]
    ensures { result ≡ md5 file.now }
{
    Md5::digest(file)
}
