//! The objects in memory, called in turn.
use keeper_store::{
    AlbumRow, Batch, Change, Changes, Keeper, MemKeeper, MemVault, RecordingRow, ReplyRow,
    RowFault, Rows, SegmentRow, Tables, Vault, bytes_of, drop_row, energies_of, find_row, put_row,
};
use lib_base::{Bytes, Kind, Memory, Outside, Summary, Text};
use std::alloc::Global;
use std::test::Fail;

fn recording(alloc: Global, id: u32, take: u32) -> Result<RecordingRow, Memory> {
    let name = String::from_str(alloc, "take")?;
    Ok(RecordingRow {
        id,
        album: None,
        name: Text::of(name),
        take,
        kind: Kind::Wave,
        channels: 2,
        depth: 16,
        digest: [0; 16],
        summary: silence(),
    })
}

fn silence() -> Summary {
    Summary {
        frames: 0,
        loudness: None,
        range: None,
        momentary: None,
        short_term: None,
        true_peak: None,
        peak: 0,
        gain: None,
    }
}

fn album(alloc: Global, id: u32) -> AlbumRow {
    AlbumRow {
        id,
        name: Text::of(String::new(alloc)),
        summary: silence(),
    }
}

fn reply(alloc: Global, token: &str, status: u16) -> Result<ReplyRow, Memory> {
    Ok(ReplyRow {
        token: Text::of(String::from_str(alloc, token)?),
        mark: [0; 16],
        status,
        body: Bytes::of(Vec::new(alloc)),
    })
}

fn batch(alloc: Global, last_take: u32) -> Result<Batch, Memory> {
    let counters = Change::Counters {
        next_album: 2,
        next_recording: 10,
        next_take: 9,
    };
    let mut changes = Vec::new(alloc);
    changes.push(counters)?;
    changes.push(Change::PutRecording(recording(alloc, 5, 1)?))?;
    changes.push(Change::PutRecording(recording(alloc, 3, 2)?))?;
    changes.push(Change::PutRecording(recording(alloc, 5, last_take)?))?;
    Ok(Batch {
        changes: Changes::of(changes),
    })
}

fn segments(alloc: Global, take: u32, byte: u8) -> Result<SegmentRow, Memory> {
    let energies = Bytes::copy(alloc, &[byte])?;
    Ok(SegmentRow { take, energies })
}

fn ids_and_takes(alloc: Global, rows: &[RecordingRow]) -> Result<Vec<(u32, u32)>, Memory> {
    let mut pairs = Vec::new(alloc);
    for row in rows {
        pairs.push((row.id, row.take))?;
    }
    Ok(pairs)
}

// The second and the fourth call fail, and leave the tables.
#[test]
fn keeper_makes_a_batch_whole_or_not_at_all(rt: HostRuntime) -> Result<(), Fail> {
    let alloc = rt.alloc();
    let failing = [2, 4].to_vec(alloc)?;
    let mut keeper = MemKeeper::new(Tables::empty(alloc), failing);
    assert_eq!(rt; keeper.apply(&batch(alloc, 8)?), Ok(()));
    assert_eq!(rt; keeper.apply(&batch(alloc, 9)?), Err(Outside::Failed));
    for fails in [false, true, false] {
        let loaded = keeper.load();
        if fails {
            assert_eq!(rt; loaded.err(), Some(Outside::Failed));
            continue;
        }
        let tables = loaded?;
        let counters = (tables.next_album, tables.next_recording, tables.next_take);
        assert_eq!(rt; counters, (2, 10, 9));
        let pairs = ids_and_takes(alloc, tables.recordings.as_slice())?;
        assert_eq!(rt; pairs.as_slice(), [(3, 2), (5, 8)].as_slice());
    }
    Ok(())
}

// The second call fails.
#[test]
fn vault_holds_bytes_by_key(rt: HostRuntime) -> Result<(), Fail> {
    let alloc = rt.alloc();
    let failing = [2].to_vec(alloc)?;
    let mut vault = MemVault::new(alloc, failing);
    assert_eq!(rt; vault.put(7, b"one"), Ok(()));
    assert_eq!(rt; vault.put(7, b"two"), Err(Outside::Failed));
    assert_eq!(rt; vault.put(7, b"three"), Ok(()));
    assert_eq!(rt; vault.put(8, b""), Ok(()));
    for (key, want) in [
        (7, Some(b"three".as_slice())),
        (8, Some(b"".as_slice())),
        (9, None),
    ] {
        let held = vault.get(key)?;
        assert_eq!(rt;
            held.as_ref().map(|bytes| bytes.as_slice()),
            want,
            "under {key}"
        );
    }
    assert_eq!(rt; vault.drop_blob(7), Ok(()));
    assert_eq!(rt; vault.drop_blob(9), Ok(()));
    for (key, holds) in [(7, false), (8, true)] {
        assert_eq!(rt; vault.get(key)?.is_some(), holds, "under {key}");
    }
    assert_eq!(rt; vault.calls(), 11);
    Ok(())
}

#[test]
fn rows_go_to_their_places(rt: HostRuntime) -> Result<(), Fail> {
    let alloc = rt.alloc();
    let mut rows = Vec::with_capacity(alloc, 4)?;
    put_row(&mut rows, recording(alloc, 5, 1)?);
    put_row(&mut rows, recording(alloc, 3, 2)?);
    put_row(&mut rows, recording(alloc, 9, 3)?);
    put_row(&mut rows, recording(alloc, 5, 4)?);
    let pairs = ids_and_takes(alloc, rows.as_slice())?;
    assert_eq!(rt; pairs.as_slice(), [(3, 2), (5, 4), (9, 3)].as_slice());
    drop_row(&mut rows, 4);
    drop_row(&mut rows, 5);
    drop_row(&mut rows, 10);
    let pairs = ids_and_takes(alloc, rows.as_slice())?;
    assert_eq!(rt; pairs.as_slice(), [(3, 2), (9, 3)].as_slice());
    for (id, take) in [(3, Some(2)), (5, None), (9, Some(3)), (10, None)] {
        let found = find_row(rows.as_slice(), id).map(|row| row.take);
        assert_eq!(rt; found, take, "{id}");
    }
    Ok(())
}

// A keeper may be given rows that don't ascend: a row stands before the first that isn't less.
#[test]
fn keeper_puts_among_rows_in_any_order(rt: HostRuntime) -> Result<(), Fail> {
    let alloc = rt.alloc();
    let mut rows = Vec::new(alloc);
    rows.push(recording(alloc, 9, 1)?)?;
    rows.push(recording(alloc, 3, 2)?)?;
    let mut tables = Tables::empty(alloc);
    tables.recordings = Rows::of(rows);
    let mut keeper = MemKeeper::new(tables, Vec::new(alloc));
    assert_eq!(rt; keeper.apply(&batch(alloc, 8)?), Ok(()));
    let pairs = ids_and_takes(alloc, keeper.load()?.recordings.as_slice())?;
    assert_eq!(rt;
        pairs.as_slice(),
        [(3, 2), (5, 8), (9, 1), (3, 2)].as_slice()
    );
    let mut drops = Vec::new(alloc);
    drops.push(Change::DropRecording { id: 3 })?;
    let drops = Batch {
        changes: Changes::of(drops),
    };
    assert_eq!(rt; keeper.apply(&drops), Ok(()));
    let pairs = ids_and_takes(alloc, keeper.load()?.recordings.as_slice())?;
    assert_eq!(rt; pairs.as_slice(), [(5, 8), (9, 1)].as_slice());
    Ok(())
}

fn others(alloc: Global) -> Result<Batch, Memory> {
    let mut changes = Vec::new(alloc);
    for id in [7, 2, 7, 5] {
        changes.push(Change::PutAlbum(album(alloc, id)))?;
    }
    for (token, status) in [("b", 201), ("B", 200), ("b-1", 409), ("b", 404)] {
        changes.push(Change::PutReply(reply(alloc, token, status)?))?;
    }
    for take in [4, 6] {
        changes.push(Change::PutSegments(segments(alloc, take, 1)?))?;
    }
    for id in [5, 6] {
        changes.push(Change::DropAlbum { id })?;
        changes.push(Change::DropRecording { id })?;
        changes.push(Change::DropSegments { take: id })?;
    }
    Ok(Batch {
        changes: Changes::of(changes),
    })
}

// Rows of all four lists, each in its order; a later row replaces the one before. What is dropped
// is gone, and what is not there is dropped without a change.
#[test]
fn keeper_makes_all_changes(rt: HostRuntime) -> Result<(), Fail> {
    let alloc = rt.alloc();
    let mut keeper = MemKeeper::new(Tables::empty(alloc), Vec::new(alloc));
    assert_eq!(rt; keeper.apply(&batch(alloc, 8)?), Ok(()));
    assert_eq!(rt; keeper.apply(&others(alloc)?), Ok(()));
    let tables = keeper.load()?;
    let pairs = ids_and_takes(alloc, tables.recordings.as_slice())?;
    assert_eq!(rt; pairs.as_slice(), [(3, 2)].as_slice());
    for (row, id) in tables.albums.as_slice().iter().zip([2, 7]) {
        assert_eq!(rt; row.id, id);
    }
    let replies = [("B", 200), ("b", 404), ("b-1", 409)];
    for (row, (token, status)) in tables.replies.as_slice().iter().zip(replies) {
        assert_eq!(rt; row.token.as_str(), token);
        assert_eq!(rt; row.status, status);
    }
    let lengths = (
        tables.albums.as_slice().len(),
        tables.segments.as_slice().len(),
        tables.replies.as_slice().len(),
    );
    assert_eq!(rt; lengths, (2, 1, 3));
    Ok(())
}

// A later row of a take replaces the one before.
#[test]
fn keeper_puts_segments_by_take(rt: HostRuntime) -> Result<(), Fail> {
    let alloc = rt.alloc();
    let mut changes = Vec::new(alloc);
    for (take, byte) in [(2, 1), (1, 2), (2, 3)] {
        changes.push(Change::PutSegments(segments(alloc, take, byte)?))?;
    }
    let mut keeper = MemKeeper::new(Tables::empty(alloc), Vec::new(alloc));
    let batch = Batch {
        changes: Changes::of(changes),
    };
    assert_eq!(rt; keeper.apply(&batch), Ok(()));
    let tables = keeper.load()?;
    let rows = tables.segments.as_slice();
    assert_eq!(rt; rows.len(), 2);
    for (row, (take, byte)) in rows.iter().zip([(1, 2), (2, 3)]) {
        assert_eq!(rt; row.take, take);
        assert_eq!(rt; row.energies.as_slice(), [byte].as_slice());
    }
    Ok(())
}

/// The bytes of the greatest energy, 0x2aa08 * 2^64, and then of 258.
const ROW: [u8; 22] = *b"\x02\xaa\x08\0\0\0\0\0\0\0\0\0\0\0\0\0\0\0\0\0\x01\x02";

#[test]
fn energies_are_written_and_read(rt: HostRuntime) -> Result<(), Fail> {
    let alloc = rt.alloc();
    let energies = [0x2aa08 << 64, 258];
    let bytes = bytes_of(alloc, &energies)?;
    assert_eq!(rt; bytes.as_slice(), ROW.as_slice());
    let read = energies_of(alloc, bytes.as_slice())?;
    assert_eq!(rt; read.as_slice(), energies.as_slice());
    Ok(())
}

#[test]
fn other_bytes_are_no_energies(rt: HostRuntime) {
    let alloc = rt.alloc();
    let mut over = ROW;
    over[10] = 1;
    for (bytes, fault) in [
        (&ROW[..21], RowFault::Length),
        (&ROW[..1], RowFault::Length),
        (over.as_slice(), RowFault::TooGreat),
    ] {
        assert_eq!(rt; energies_of(alloc, bytes).err(), Some(fault));
    }
}
