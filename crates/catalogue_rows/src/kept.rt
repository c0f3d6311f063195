//! Rows with the tallies behind them.
use album_merge::{Album, TrackTally};
use keeper_store::{AlbumRow, RecordingRow};

/// An album's row, and the tallies of its recordings.
#[derive(Debug, Drop)]
pub struct KeptAlbum {
    pub(crate) row: AlbumRow,
    pub(crate) members: Album,
}

/// A recording's row, and its tally where it is in no album.
#[derive(Debug, Drop)]
pub struct KeptRecording {
    pub(crate) row: RecordingRow,
    pub(crate) tally: Option<TrackTally>,
}
