//! Worked albums.
ghost use Rattle.std.specs.Prelude.{◌≡◌, ◌<◌};

use album_merge::{Album, TrackTally};
use lib_base::{
    Energies, GREATEST_ENERGY, MOST_SEGMENTS, Measured, SEGMENT_FRAMES, Steps, Summary,
};
use std::alloc::Global;
use std::marker::{Brand, Sync};
use std::process::Abort;
use std::sync::ledger::{Blank, Ledger};
use std::test::Fail;
use std::thread::Threads;

/// The square of full scale.
const FULL: u128 = 1 << 54;

/// What an album without recordings answers.
const SILENT: Summary = Summary {
    frames: 0,
    loudness: None,
    range: None,
    momentary: None,
    short_term: None,
    true_peak: None,
    peak: 0,
    gain: None,
};

/// The tally of a recording with these segments.
fn tally_of<R: Abort + Threads + Sync>(
    rt: &R,
    alloc: Global,
    segments: &[u128],
) -> Result<TrackTally, Fail> {
    assert!(rt; segments.len() <= MOST_SEGMENTS);
    assert!(rt; segments.iter().all(|energy| *energy <= GREATEST_ENERGY));
    let measured = Measured {
        channels: 1,
        depth: 16,
        frames: (SEGMENT_FRAMES * segments.len()) as u64,
        energies: Energies::of(Vec::from_slice(alloc, segments)?),
        peak: 1 << 36,
    };
    Ok(TrackTally::make(rt, alloc, &measured)?)
}

/// Puts a recording in, over the one of its id.
fn put<R: Abort + Threads + Sync>(
    rt: &R,
    alloc: Global,
    album: &mut Album,
    id: u32,
    segments: &[u128],
) -> Result<(), Fail> {
    let tally = tally_of(rt, alloc, segments)?;
    let _ = album.remove(id);
    assert!(rt; album.len() < 256);
    album.reserve(1)?;
    album.add(id, tally);
    Ok(())
}

// Ten times the first block, times two, is the sum of both: a tie, so it is dropped.
fn change<R: Abort + Threads + Sync, L: Ledger>(
    rt: &R,
    alloc: Global,
    blank: Blank,
) -> Result<(), Fail>
    requires name { blank.name ≡ L.name }
    requires parts { blank.parts ≡ L.parts }
    requires some { 0 < blank.parts }
{
    let mut steps: Steps<L> = Steps::new(blank);
    let mut album = Album::new(alloc)?;
    assert_eq!(rt; album.summary(&mut steps), SILENT);
    put(rt, alloc, &mut album, 1, &[19_200 * FULL, 0, 0, 0])?;
    put(rt, alloc, &mut album, 2, &[364_800 * FULL, 0, 0, 0])?;
    assert_eq!(rt; album.loudness(&mut steps), Some(-790));
    assert_eq!(rt; album.frames(), 38_400);
    for _ in 0..2 {
        let _ = album.remove(2);
        assert_eq!(rt; album.loudness(&mut steps), Some(-2_069));
    }
    Ok(())
}

// A recording is tried in an album with another, or in place of one, and the album is as it was.
fn attempt<R: Abort + Threads + Sync, L: Ledger>(
    rt: &R,
    alloc: Global,
    blank: Blank,
) -> Result<(), Fail>
    requires name { blank.name ≡ L.name }
    requires parts { blank.parts ≡ L.parts }
    requires some { 0 < blank.parts }
{
    let mut steps: Steps<L> = Steps::new(blank);
    let mut album = Album::new(alloc)?;
    let loud = tally_of(rt, alloc, &[364_800 * FULL, 0, 0, 0])?;
    assert_eq!(rt; loud.summary().loudness, Some(-790));
    put(rt, alloc, &mut album, 1, &[19_200 * FULL, 0, 0, 0])?;
    let _ = album.remove(2);
    assert!(rt; album.len() < 256);
    album.reserve(1)?;
    let (both, loud) = album.summary_with(2, loud, &mut steps);
    assert_eq!(rt; (both.loudness, both.frames), (Some(-790), 38_400));
    album.add(2, loud);
    assert_eq!(rt; album.summary_without(2, &mut steps).loudness, Some(-2_069));
    let quiet = tally_of(rt, alloc, &[0; 8])?;
    let (replaced, _) = album.summary_replacing(2, quiet, &mut steps);
    assert_eq!(rt;
        (replaced.loudness, replaced.frames),
        (Some(-2_069), 57_600)
    );
    assert_eq!(rt; album.summary(&mut steps), both);
    Ok(())
}

// Two windows, one of four times the other's power, are 6.02 LU apart, and the louder one is at
// 25 * 30 * 19200 / (36 * 11724653), 0.0341 of the power for 0 LUFS. 29 segments have no window, and
// two such recordings have none together.
fn range<R: Abort + Threads + Sync, L: Ledger>(
    rt: &R,
    alloc: Global,
    blank: Blank,
) -> Result<(), Fail>
    requires name { blank.name ≡ L.name }
    requires parts { blank.parts ≡ L.parts }
    requires some { 0 < blank.parts }
{
    let mut steps: Steps<L> = Steps::new(blank);
    for (segments, want, short) in [(30, Some(602), Some(-1_467)), (29, None, None)] {
        let mut album = Album::new(alloc)?;
        for (id, power) in [(5, 4_800 * FULL), (2, 19_200 * FULL)] {
            let energies = vec![in alloc; power; segments]?;
            put(rt, alloc, &mut album, id, &energies)?;
        }
        assert_eq!(rt; album.range(&mut steps), want, "{segments} segments");
        assert_eq!(rt; album.short_term(), short, "{segments} segments");
    }
    Ok(())
}

#[test]
fn albums_answer_after_changes(rt: HostRuntime) -> Result<(), Fail> {
    change::<HostRuntime, Brand>(&rt, rt.alloc(), Blank::new(1))?;
    attempt::<HostRuntime, Brand>(&rt, rt.alloc(), Blank::new(1))?;
    range::<HostRuntime, Brand>(&rt, rt.alloc(), Blank::new(1))
}

#[test]
fn ids_stand_in_ascending_order(rt: HostRuntime) -> Result<(), Fail> {
    let mut album = Album::new(rt.alloc())?;
    for id in [5, 2, 9] {
        put(&rt, rt.alloc(), &mut album, id, &[])?;
    }
    assert_eq!(rt; album.len(), 3);
    for (place, id) in [2, 5, 9].iter().enumerate() {
        assert!(rt; place < album.len());
        assert_eq!(rt; album.id_at(place), *id);
    }
    Ok(())
}
