//! What is asked of the library, and what it replies.
use lib_base::{Bytes, Text};

/// What a reply's body is.
#[derive(Clone, Copy, Debug, PartialEq, Eq)]
pub enum BodyKind {
    /// `application/json`
    Json,
    /// `text/csv`
    Csv,
    /// `audio/wav`
    Wave,
    /// `audio/flac`
    Flac,
}

/// A reply: a status of HTTP and a body.
#[derive(Debug, Drop)]
pub struct Reply {
    pub status: u16,
    pub kind: BodyKind,
    pub body: Bytes,
}

/// What changes the library. No recording and no album has the id 0.
#[derive(Debug, Drop)]
pub enum Command {
    /// A new album of that name, without recordings.
    NewAlbum {
        name: Text,
    },
    /// A file to be kept as a new recording of that name, in an album or in none.
    Import {
        album: Option<u32>,
        name: Text,
        bytes: Bytes,
    },
    /// Another file for a recording, under a new take.
    Retake {
        recording: u32,
        bytes: Bytes,
    },
    /// A recording into an album, or out of the one that it is in.
    Regroup {
        recording: u32,
        album: Option<u32>,
    },
    /// A recording and its file out of the library.
    RemoveRecording {
        recording: u32,
    },
    /// An album without recordings out of the library.
    RemoveAlbum {
        album: u32,
    },
}

/// What is asked without a change.
#[derive(Clone, Copy, Debug, PartialEq, Eq)]
pub enum Question {
    /// The recording of this id. No recording has the id 0.
    Recording(u32),
    /// The album of this id. No album has the id 0.
    Album(u32),
}
