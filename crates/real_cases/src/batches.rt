//! Batches of changes.
use crate::text;
use keeper_store::{AlbumRow, Batch, Change, Changes, RecordingRow, ReplyRow, SegmentRow};
use lib_base::{Bytes, Kind, Summary};
use std::alloc::Global;
use std::io;

/// A recording, with all that may be absent where `levels` is.
fn recording(alloc: Global, id: u32, frames: u64, levels: Option<i32>) -> io::Result<Change> {
    Ok(Change::PutRecording(RecordingRow {
        id,
        album: levels.map(|_| 4_000_000_000),
        name: text(alloc, "Ä 'name'")?,
        take: 4_294_967_295,
        kind: if levels.is_some() {
            Kind::Flac
        } else {
            Kind::Wave
        },
        channels: 6,
        depth: 24,
        digest: [7; 16],
        summary: summary(frames, levels),
    }))
}

fn summary(frames: u64, levels: Option<i32>) -> Summary {
    Summary {
        frames,
        loudness: levels,
        range: levels,
        momentary: levels,
        short_term: levels,
        true_peak: levels,
        peak: 139_007_098_880,
        gain: levels,
    }
}

fn album(alloc: Global, id: u32, levels: Option<i32>) -> io::Result<Change> {
    Ok(Change::PutAlbum(AlbumRow {
        id,
        name: text(alloc, "É")?,
        summary: summary(7, levels),
    }))
}

fn segments(alloc: Global, take: u32, energies: &[u8]) -> io::Result<Change> {
    Ok(Change::PutSegments(SegmentRow {
        take,
        energies: Bytes::of(Vec::from_slice(alloc, energies)?),
    }))
}

fn reply(alloc: Global, token: &str, status: u16) -> io::Result<Change> {
    Ok(Change::PutReply(ReplyRow {
        token: text(alloc, token)?,
        mark: [5; 16],
        status,
        body: Bytes::of(Vec::from_slice(alloc, b"\0\n")?),
    }))
}

/// Each kind of change. The second row has so many frames; rows are put again, and dropped where
/// they are and where they are not.
pub fn batch(alloc: Global, frames: u64) -> io::Result<Batch> {
    let mut changes = Vec::new(alloc);
    changes.push(Change::Counters {
        next_album: 2,
        next_recording: 10,
        next_take: 4_294_967_295,
    })?;
    changes.push(recording(alloc, 9, 7, Some(-2300))?)?;
    changes.push(recording(alloc, 3, frames, None)?)?;
    changes.push(recording(alloc, 9, 8, Some(i32::MIN))?)?;
    changes.push(recording(alloc, 4, 7, None)?)?;
    push_others(alloc, &mut changes)?;
    push_drops(&mut changes)?;
    Ok(Batch {
        changes: Changes::of(changes),
    })
}

fn push_others(alloc: Global, changes: &mut Vec<Change>) -> io::Result<()> {
    for (id, levels) in [(7, Some(1)), (2, None), (7, None), (5, Some(-1))] {
        changes.push(album(alloc, id, levels)?)?;
    }
    for (take, energies) in [(5, b"\0\xff".as_slice()), (2, b"".as_slice())] {
        changes.push(segments(alloc, take, energies)?)?;
    }
    for (token, status) in [("b", 201), ("B", 200), ("b-1", 409), ("b", 404)] {
        changes.push(reply(alloc, token, status)?)?;
    }
    Ok(())
}

fn push_drops(changes: &mut Vec<Change>) -> io::Result<()> {
    for (id, album, take) in [(4, 5, 2), (6, 8, 4)] {
        changes.push(Change::DropRecording { id })?;
        changes.push(Change::DropAlbum { id: album })?;
        changes.push(Change::DropSegments { take })?;
    }
    Ok(())
}
