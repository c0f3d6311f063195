//! Tables with a fault, each with the row that is found.
use keeper_store::{AlbumRow, RecordingRow, ReplyRow, Rows, SegmentRow, Tables, bytes_of};
use lib_base::{Bytes, Kind, Memory, Summary, Text};
use library_model::{BadRow, RowRule, RowTable};
use row_rules::first_bad;
use std::alloc::Global;
use std::test::Fail;

/// What is wrong with the tables of a row of the test.
#[derive(Clone, Copy, Debug, PartialEq, Eq)]
enum Fault {
    None,
    CounterZero,
    CounterPastTheEnd,
    IdZero,
    IdAtItsCounter,
    IdsFall,
    TakeAtItsCounter,
    TokensFall,
    AlbumNotThere,
    LongName,
    ControlInName,
    SpaceInToken,
    SevenChannels,
    WaveOf20Bits,
    TooManyFrames,
    PeakTooGreat,
    TwelveBytes,
    EnergyTooGreat,
    OneEnergyMore,
    NoSegments,
    SegmentsAlone,
    TakeNamedTwice,
    CrowdedAlbum,
    Status202,
    /// The status and the token of the last reply.
    TwoOfOneRow,
    /// The status of the last reply and the segments' order.
    TwoTables,
}

fn text(alloc: Global, words: &str) -> Result<Text, Memory> {
    Ok(Text::of(String::from_str(alloc, words)?))
}

fn summary_of(frames: u64) -> Summary {
    Summary {
        frames,
        loudness: None,
        range: None,
        momentary: None,
        short_term: None,
        true_peak: None,
        peak: 0,
        gain: None,
    }
}

fn album(alloc: Global, id: u32) -> Result<AlbumRow, Memory> {
    Ok(AlbumRow {
        id,
        name: text(alloc, "Home")?,
        summary: summary_of(0),
    })
}

fn recording(
    alloc: Global,
    id: u32,
    album: Option<u32>,
    take: u32,
) -> Result<RecordingRow, Memory> {
    Ok(RecordingRow {
        id,
        album,
        name: text(alloc, "One")?,
        take,
        kind: Kind::Wave,
        channels: 2,
        depth: 16,
        digest: [0; 16],
        summary: summary_of(4_800),
    })
}

fn segments(alloc: Global, take: u32) -> Result<SegmentRow, Memory> {
    let energies = bytes_of(alloc, &[258])?;
    Ok(SegmentRow { take, energies })
}

fn reply(alloc: Global, token: &str, status: u16) -> Result<ReplyRow, Memory> {
    Ok(ReplyRow {
        token: text(alloc, token)?,
        mark: [0; 16],
        status,
        body: Bytes::copy(alloc, b"{}")?,
    })
}

fn albums(alloc: Global, fault: Fault) -> Result<Rows<AlbumRow>, Memory> {
    let mut first = album(alloc, if fault == Fault::IdZero { 0 } else { 2 })?;
    if fault == Fault::ControlInName {
        first.name = text(alloc, "Ho\x1fme")?;
    }
    let mut rows = Vec::new(alloc);
    rows.push(first)?;
    let last = if fault == Fault::IdAtItsCounter { 5 } else { 4 };
    rows.push(album(alloc, last)?)?;
    Ok(Rows::of(rows))
}

/// Two recordings, with the fault in the second; or so many that they crowd album 4.
fn recordings(alloc: Global, fault: Fault) -> Result<Rows<RecordingRow>, Memory> {
    let mut rows = Vec::new(alloc);
    rows.push(recording(alloc, 3, Some(2), 6)?)?;
    let mut last = recording(alloc, 8, None, 1)?;
    match fault {
        Fault::IdsFall => last.id = 3,
        Fault::TakeAtItsCounter => last.take = 7,
        Fault::AlbumNotThere => last.album = Some(9),
        Fault::LongName => {
            let mut name = String::new(alloc);
            for _ in 0..201 {
                name.push('a')?;
            }
            last.name = Text::of(name);
        }
        Fault::SevenChannels => last.channels = 7,
        Fault::WaveOf20Bits => last.depth = 20,
        Fault::TooManyFrames => last.summary.frames = 134_217_729,
        Fault::PeakTooGreat => last.summary.peak = (16_571 << 23) + 1,
        Fault::TakeNamedTwice => last.take = 6,
        Fault::CrowdedAlbum => {
            for id in 9..266 {
                rows.push(recording(alloc, id, Some(4), id)?)?;
            }
        }
        _ => {}
    }
    rows.push(last)?;
    Ok(Rows::of(rows))
}

fn first_energies(alloc: Global, fault: Fault) -> Result<Bytes, Memory> {
    match fault {
        Fault::TwelveBytes => Bytes::copy(alloc, &[0; 12]),
        Fault::EnergyTooGreat => Bytes::copy(alloc, b"\x02\xaa\x08\0\0\0\0\0\0\0\x01"),
        Fault::OneEnergyMore => bytes_of(alloc, &[1, 2]),
        _ => bytes_of(alloc, &[258]),
    }
}

fn segment_rows(alloc: Global, fault: Fault) -> Result<Rows<SegmentRow>, Memory> {
    let mut rows = Vec::new(alloc);
    if fault != Fault::NoSegments {
        let energies = first_energies(alloc, fault)?;
        rows.push(SegmentRow { take: 1, energies })?;
    }
    if fault == Fault::SegmentsAlone {
        rows.push(segments(alloc, 2)?)?;
    }
    rows.push(segments(alloc, 6)?)?;
    if fault == Fault::TwoTables {
        rows.push(segments(alloc, 6)?)?;
    }
    Ok(Rows::of(rows))
}

fn replies(alloc: Global, fault: Fault) -> Result<Rows<ReplyRow>, Memory> {
    let (token, status) = match fault {
        Fault::TokensFall => ("a-0", 200),
        Fault::SpaceInToken => ("b c", 200),
        Fault::Status202 | Fault::TwoTables => ("b", 202),
        Fault::TwoOfOneRow => ("b c", 202),
        _ => ("b", 201),
    };
    let mut rows = Vec::new(alloc);
    rows.push(reply(alloc, "a-1", 200)?)?;
    rows.push(reply(alloc, token, status)?)?;
    Ok(Rows::of(rows))
}

fn tables(alloc: Global, fault: Fault) -> Result<Tables, Memory> {
    Ok(Tables {
        next_album: if fault == Fault::CounterZero { 0 } else { 5 },
        next_recording: if fault == Fault::CounterPastTheEnd {
            2_147_483_648
        } else {
            300
        },
        next_take: if fault == Fault::CrowdedAlbum { 300 } else { 7 },
        albums: albums(alloc, fault)?,
        recordings: recordings(alloc, fault)?,
        segments: segment_rows(alloc, fault)?,
        replies: replies(alloc, fault)?,
    })
}

#[test]
fn first_bad_row_is_found(rt: HostRuntime) -> Result<(), Fail> {
    let alloc = rt.alloc();
    assert_eq!(rt; first_bad(alloc, &tables(alloc, Fault::None)?)?, None);
    for (fault, table, id, rule) in [
        (
            Fault::CounterZero,
            RowTable::Counters,
            1,
            RowRule::OtherNumber,
        ),
        (
            Fault::CounterPastTheEnd,
            RowTable::Counters,
            1,
            RowRule::OtherNumber,
        ),
        (Fault::IdZero, RowTable::Albums, 0, RowRule::OtherNumber),
        (
            Fault::IdAtItsCounter,
            RowTable::Albums,
            5,
            RowRule::OtherNumber,
        ),
        (
            Fault::IdsFall,
            RowTable::Recordings,
            3,
            RowRule::OtherNumber,
        ),
        (
            Fault::TakeAtItsCounter,
            RowTable::Recordings,
            8,
            RowRule::OtherNumber,
        ),
        (
            Fault::TokensFall,
            RowTable::Replies,
            2,
            RowRule::OtherNumber,
        ),
        (
            Fault::AlbumNotThere,
            RowTable::Recordings,
            8,
            RowRule::NoAlbum,
        ),
        (Fault::LongName, RowTable::Recordings, 8, RowRule::OtherText),
        (
            Fault::ControlInName,
            RowTable::Albums,
            2,
            RowRule::OtherText,
        ),
        (
            Fault::SpaceInToken,
            RowTable::Replies,
            2,
            RowRule::OtherText,
        ),
        (
            Fault::SevenChannels,
            RowTable::Recordings,
            8,
            RowRule::OtherSound,
        ),
        (
            Fault::WaveOf20Bits,
            RowTable::Recordings,
            8,
            RowRule::OtherSound,
        ),
        (
            Fault::TooManyFrames,
            RowTable::Recordings,
            8,
            RowRule::OtherSound,
        ),
        (
            Fault::PeakTooGreat,
            RowTable::Recordings,
            8,
            RowRule::OtherSound,
        ),
        (
            Fault::TwelveBytes,
            RowTable::Segments,
            1,
            RowRule::OtherEnergies,
        ),
        (
            Fault::EnergyTooGreat,
            RowTable::Segments,
            1,
            RowRule::OtherEnergies,
        ),
        (
            Fault::OneEnergyMore,
            RowTable::Segments,
            1,
            RowRule::OtherEnergies,
        ),
        (
            Fault::NoSegments,
            RowTable::Recordings,
            8,
            RowRule::OtherTake,
        ),
        (
            Fault::SegmentsAlone,
            RowTable::Segments,
            2,
            RowRule::OtherTake,
        ),
        (
            Fault::TakeNamedTwice,
            RowTable::Recordings,
            8,
            RowRule::OtherTake,
        ),
        (
            Fault::CrowdedAlbum,
            RowTable::Albums,
            4,
            RowRule::CrowdedAlbum,
        ),
        (Fault::Status202, RowTable::Replies, 2, RowRule::OtherStatus),
        (Fault::TwoOfOneRow, RowTable::Replies, 2, RowRule::OtherText),
        (
            Fault::TwoTables,
            RowTable::Segments,
            6,
            RowRule::OtherNumber,
        ),
    ] {
        let found = first_bad(alloc, &tables(alloc, fault)?)?;
        assert_eq!(rt; found, Some(BadRow { table, id, rule }), "{fault:?}");
    }
    Ok(())
}
