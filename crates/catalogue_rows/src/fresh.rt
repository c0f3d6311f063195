//! What changes bring that is new.
ghost use Rattle.std.specs.Prelude.{◌≡◌, None};

use album_merge::{Album, TrackTally};

/// What is new in changes: the tally of a recording, which the first recording that is put takes,
/// and an album of no recording, which the first album takes.
#[derive(Debug, Drop)]
pub struct Fresh {
    pub tally: Option<TrackTally>,
    pub album: Option<Album>,
}

impl Fresh {
    /// Nothing new.
    pub fn none() -> Fresh
        ensures tally { result.tally ≡ None }
        ensures album { result.album ≡ None }
    {
        Fresh {
            tally: None,
            album: None,
        }
    }
}
