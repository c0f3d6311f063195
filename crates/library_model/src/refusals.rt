//! Refusals by name.
ghost use Rattle.std.specs.Prelude.{◌≡◌};
ghost use Rattle.library_model.specs.Refusals.{status_of, word_of};

/// Why a request is refused.
#[derive(Clone, Copy, Debug, PartialEq, Eq)]
pub enum Refusal {
    /// No recording has the id that is asked for.
    NoRecording,
    /// No album has the id that is asked for, or that is named.
    NoAlbum,
    /// The album that is to be removed has recordings.
    NotEmpty,
    /// The file breaks a rule at a place, which the reply tells too.
    Format,
    /// The token was given to another request.
    TokenUsed,
    /// An album would have too many recordings.
    AlbumFull,
    /// No number is left for a new album, recording or take.
    Ids,
    /// The vault counted a fault.
    Vault,
    /// The keeper counted a fault.
    Keeper,
    /// Want of memory.
    Memory,
}

// The status of each refusal (RFC 9110 section 15), and the word that names it in the reply. The
// definitions cite these constants, so each status and each word stands here alone.
const NO_RECORDING: (u16, &str) = (404, "no-recording");

const NO_ALBUM: (u16, &str) = (404, "no-album");

const NOT_EMPTY: (u16, &str) = (409, "not-empty");

const ALBUM_FULL: (u16, &str) = (409, "album-full");

const FORMAT: (u16, &str) = (422, "format");

const TOKEN_USED: (u16, &str) = (409, "token-used");

const IDS: (u16, &str) = (409, "ids");

const VAULT: (u16, &str) = (502, "vault");

const KEEPER: (u16, &str) = (504, "keeper");

const MEMORY: (u16, &str) = (503, "memory");

impl Refusal {
    /// The status of the reply.
    pub fn status(self) -> u16
        ensures { result ≡ status_of self }
    {
        self.row().0
    }

    /// The word that names the refusal in the reply.
    pub fn word(self) -> &'static str
        ensures { result.now ≡ word_of self }
    {
        self.row().1
    }

    fn row(self) -> (u16, &'static str)
        ensures status { result.0 ≡ status_of self }
        ensures word { result.1.now ≡ word_of self }
    {
        match self {
            Refusal::NoRecording => NO_RECORDING,
            Refusal::NoAlbum => NO_ALBUM,
            Refusal::NotEmpty => NOT_EMPTY,
            Refusal::AlbumFull => ALBUM_FULL,
            Refusal::Format => FORMAT,
            Refusal::TokenUsed => TOKEN_USED,
            Refusal::Ids => IDS,
            Refusal::Vault => VAULT,
            Refusal::Keeper => KEEPER,
            Refusal::Memory => MEMORY,
        }
    }
}
