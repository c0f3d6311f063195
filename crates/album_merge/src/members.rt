//! The recordings of an album, and what they have together.
ghost use Rattle.std.specs.Prelude.{◌≡◌, ◌≤◌, ◌*◌, length};
ghost use Rattle.lib_base.specs.declared.limits.TheConstants.{GREATEST_ENERGY, GREATEST_PEAK, BLOCK_SEGMENTS, WINDOW_SEGMENTS, MOST_MEMBERS};
ghost use Rattle.album_merge.specs.Members.{AscendBy, IsPlaceOf, member_id};
ghost use Rattle.album_merge.specs.Joined.{frames_in, greatest_block_in, greatest_window_in, peak_in};

use crate::TrackTally;

/// A recording of an album.
#[derive(Debug, Drop)]
pub struct Member {
    pub id: u32,
    pub tally: TrackTally,
}

/// The frames of all members.
pub(crate) fn frames_of(members: &[Member]) -> u64
    requires { length members.now ≤ MOST_MEMBERS }
    ensures { result ≡ frames_in members.now }
{
    let mut frames = 0;
    for member in members {
        frames += member.tally.summary().frames;
    }
    frames
}

/// The greatest peak of the members, 0 where there is none.
pub(crate) fn peak_of(members: &[Member]) -> u64
    ensures value { result ≡ peak_in members.now }
    ensures within { result ≤ GREATEST_PEAK }
{
    let mut most = 0u64;
    for member in members {
        most = most.max(member.tally.summary().peak);
    }
    most
}

/// The energy of the greatest block of the members, 0 where there is none.
pub(crate) fn greatest_block_of(members: &[Member]) -> u128
    ensures value { result ≡ greatest_block_in members.now }
    ensures within { result ≤ BLOCK_SEGMENTS * GREATEST_ENERGY }
{
    let mut most = 0u128;
    for member in members {
        most = most.max(member.tally.greatest_block());
    }
    most
}

/// The energy of the greatest window of the members, 0 where there is none.
pub(crate) fn greatest_window_of(members: &[Member]) -> u128
    ensures value { result ≡ greatest_window_in members.now }
    ensures within { result ≤ WINDOW_SEGMENTS * GREATEST_ENERGY }
{
    let mut most = 0u128;
    for member in members {
        most = most.max(member.tally.greatest_window());
    }
    most
}

/// How many of the members have a lesser id: the place of the id among them.
pub(crate) fn place_of(members: &[Member], id: u32) -> usize
    requires { AscendBy member_id members.now }
    ensures { IsPlaceOf members.now id result }
{
    members.partition_point(|member| member.id < id)
}
