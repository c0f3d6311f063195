//! Tables that are opened, each with the bad row that is told, and rows looked up and changed.
ghost use Rattle.std.specs.Prelude.{◌≡◌, ◌<◌, ℕ};
ghost use Rattle.catalogue_rows.specs.Room.{puts_one};

use album_merge::Album;
use catalogue_rows::{CatalogueRows, Fresh, NotOpened, open_rows};
use keeper_store::{AlbumRow, Change, RecordingRow, ReplyRow, Rows, SegmentRow, Tables, bytes_of};
use kept_replies::{Seen, Token};
use lib_base::{Bytes, Kind, Memory, Steps, Summary, Text};
use library_model::{BadRow, RowRule, RowTable};
use std::alloc::Global;
use std::marker::{Brand, Sync};
use std::process::Abort;
use std::sync::ledger::{Blank, Ledger};
use std::test::Fail;
use std::thread::Threads;

/// The energy of a segment at 19 times the square of full scale a frame.
const LOUD: u128 = 364_800 << 54;

/// The levels of recordings of one block of such a segment and three silent ones, and a peak of
/// full scale.
fn summary_of(frames: u64, off: bool) -> Summary {
    Summary {
        frames,
        loudness: Some(-790),
        range: None,
        momentary: Some(-790),
        short_term: None,
        true_peak: Some(0),
        peak: 1 << 36,
        gain: Some(if off { -1_011 } else { -1_010 }),
    }
}

fn album(alloc: Global, id: u32, frames: u64, off: u32) -> AlbumRow {
    AlbumRow {
        id,
        name: Text::of(String::new(alloc)),
        summary: summary_of(frames, off == id),
    }
}

fn recording(alloc: Global, id: u32, album: Option<u32>, take: u32, off: u32) -> RecordingRow {
    RecordingRow {
        id,
        album,
        name: Text::of(String::new(alloc)),
        take,
        kind: Kind::Wave,
        channels: 1,
        depth: 16,
        digest: [0; 16],
        summary: summary_of(19_200, off == id),
    }
}

fn reply(alloc: Global, token: &str, status: u16) -> Result<ReplyRow, Memory> {
    Ok(ReplyRow {
        token: Text::of(String::from_str(alloc, token)?),
        mark: [0; 16],
        status,
        body: Bytes::of(Vec::new(alloc)),
    })
}

/// Two albums, five recordings, of which two are in none, and three replies. The summaries of these
/// ids are a hundredth off, and the last reply has this status.
fn tables(alloc: Global, album_off: u32, off: u32, status: u16) -> Result<Tables, Memory> {
    let mut albums = Vec::new(alloc);
    for (id, frames) in [(2, 38_400), (5, 19_200)] {
        albums.push(album(alloc, id, frames, album_off))?;
    }
    let mut recordings = Vec::new(alloc);
    for (id, album, take) in [
        (1, Some(2), 9),
        (3, Some(2), 7),
        (4, None, 6),
        (6, Some(5), 4),
        (7, None, 3),
    ] {
        recordings.push(recording(alloc, id, album, take, off))?;
    }
    let mut segments = Vec::new(alloc);
    for take in [3, 4, 6, 7, 9] {
        let energies = bytes_of(alloc, &[LOUD, 0, 0, 0])?;
        segments.push(SegmentRow { take, energies })?;
    }
    let mut replies = Vec::new(alloc);
    for (token, status) in [("B", 200), ("b", 201), ("b-1", status)] {
        replies.push(reply(alloc, token, status)?)?;
    }
    Ok(Tables {
        next_album: 6,
        next_recording: 8,
        next_take: 10,
        albums: Rows::of(albums),
        recordings: Rows::of(recordings),
        segments: Rows::of(segments),
        replies: Rows::of(replies),
    })
}

// Another rule is told before that of summaries, and albums before recordings.
#[test]
fn first_bad_row_is_told(rt: HostRuntime) -> Result<(), Fail> {
    let alloc = rt.alloc();
    for (album_off, off, status, want) in [
        (0, 0, 200, None),
        (
            5,
            0,
            200,
            Some((RowTable::Albums, 5, RowRule::OtherSummary)),
        ),
        (
            0,
            3,
            200,
            Some((RowTable::Recordings, 3, RowRule::OtherSummary)),
        ),
        (
            0,
            7,
            200,
            Some((RowTable::Recordings, 7, RowRule::OtherSummary)),
        ),
        (
            2,
            1,
            200,
            Some((RowTable::Albums, 2, RowRule::OtherSummary)),
        ),
        (
            2,
            1,
            202,
            Some((RowTable::Replies, 3, RowRule::OtherStatus)),
        ),
    ] {
        let opened = open_rows(&rt, alloc, tables(alloc, album_off, off, status)?);
        let bad = want.map(|(table, id, rule)| NotOpened::BadRow(BadRow { table, id, rule }));
        assert_eq!(rt;
            opened.err(),
            bad,
            "album {album_off}, recording {off}, status {status}"
        );
    }
    Ok(())
}

/// Makes one change that puts no recording.
fn make(alloc: Global, rows: &mut CatalogueRows, change: Change, fresh: Fresh) -> Result<(), Memory>
    requires { (id : ℕ) → puts_one change id ≡ 0 }
{
    let mut changes = Vec::new(alloc);
    changes.push(change)?;
    rows.reserve(1)?;
    rows.make_all(changes, fresh);
    Ok(())
}

// Once an album and a reply were put, and a recording and the album 5 were dropped.
#[test]
fn opened_rows_are_found(rt: HostRuntime) -> Result<(), Fail> {
    let alloc = rt.alloc();
    let mut rows = open_rows(&rt, alloc, tables(alloc, 0, 0, 200)?)?;
    let fresh = Fresh {
        tally: None,
        album: Some(Album::new(alloc)?),
    };
    make(
        alloc,
        &mut rows,
        Change::PutAlbum(album(alloc, 3, 0, 0)),
        fresh,
    )?;
    make(
        alloc,
        &mut rows,
        Change::PutReply(reply(alloc, "a", 200)?),
        Fresh::none(),
    )?;
    make(
        alloc,
        &mut rows,
        Change::DropRecording { id: 7 },
        Fresh::none(),
    )?;
    make(alloc, &mut rows, Change::DropAlbum { id: 5 }, Fresh::none())?;
    let next = rows.next_numbers();
    assert_eq!(rt; (next.album, next.recording, next.take), (6, 8, 10));
    for (id, take) in [
        (1, Some(9)),
        (2, None),
        (4, Some(6)),
        (6, Some(4)),
        (7, None),
    ] {
        assert_eq!(rt; rows.recording(id).map(|row| row.take), take, "{id}");
    }
    for (id, frames, members) in [
        (2, Some(38_400), Some(2)),
        (3, Some(0), Some(0)),
        (4, None, None),
        (5, None, None),
    ] {
        assert_eq!(rt;
            rows.album(id).map(|row| row.summary.frames),
            frames,
            "{id}"
        );
        assert_eq!(rt; rows.members(id).map(|album| album.len()), members, "{id}");
    }
    for (token, status) in [("B", 200), ("a", 200), ("b", 201), ("b-", 0)] {
        let Some(named) = Token::of(alloc, token.as_bytes())? else {
            return Ok(());
        };
        let seen = match rows.seen(&named, &[0; 16]) {
            Seen::Kept(reply) => reply.status,
            Seen::Fresh | Seen::Other => 0,
        };
        assert_eq!(rt; seen, status, "{token}");
    }
    Ok(())
}

/// Moves a recording into an album, and tells the album's levels as they were tried before.
fn move_into<L: Ledger>(
    alloc: Global,
    rows: &mut CatalogueRows,
    id: u32,
    album: u32,
    steps: &mut Steps<L>,
) -> Result<Option<Summary>, Memory> {
    let Some(found) = rows.recording(id) else {
        return Ok(None);
    };
    let mut row = found.clone()?;
    row.album = Some(album);
    let mut changes = Vec::new(alloc);
    changes.push(Change::PutRecording(row))?;
    rows.reserve(1)?;
    rows.reserve_in(Some(album))?;
    let tried = rows.summary_with_moved(album, id, steps);
    rows.make_all(changes, Fresh::none());
    Ok(tried)
}

/// Moves of recordings between two albums, each with the frames that both have after it.
fn move_all<R: Abort + Threads + Sync, L: Ledger>(
    rt: &R,
    alloc: Global,
    blank: Blank,
) -> Result<(), Fail>
    requires name { blank.name ≡ L.name }
    requires parts { blank.parts ≡ L.parts }
    requires some { 0 < blank.parts }
{
    let mut steps: Steps<L> = Steps::new(blank);
    let mut rows = open_rows(rt, alloc, tables(alloc, 0, 0, 200)?)?;
    for (id, album, in_two, in_five) in [
        (4, 2, 57_600, 19_200),
        (1, 5, 38_400, 38_400),
        (4, 2, 38_400, 38_400),
        (6, 2, 57_600, 19_200),
        (1, 2, 76_800, 0),
        (9, 5, 76_800, 0),
        (7, 5, 76_800, 19_200),
    ] {
        let tried = move_into(alloc, &mut rows, id, album, &mut steps)?;
        let two = rows.summary_without(2, 0, &mut steps);
        let five = rows.summary_without(5, 0, &mut steps);
        if id != 9 {
            assert_eq!(rt; tried, if album == 2 { two } else { five }, "{id} {album}");
        }
        assert_eq!(rt; two.map(|levels| levels.frames), Some(in_two), "{id}");
        assert_eq!(rt; five.map(|levels| levels.frames), Some(in_five), "{id}");
    }
    Ok(())
}

#[test]
fn recordings_move_with_their_tallies(rt: HostRuntime) -> Result<(), Fail> {
    move_all::<HostRuntime, Brand>(&rt, rt.alloc(), Blank::new(1))
}
