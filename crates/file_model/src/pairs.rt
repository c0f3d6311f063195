//! How two channels are coded as one pair.

/// How a pair of coded channels stands for a left and a right one (RFC 9639 section 4.2).
///
/// A side sample is the left one less the right one, and has a bit more; a mid sample is half their
/// sum, rounded down.
#[derive(Clone, Copy, Debug, PartialEq, Eq)]
pub enum Stereo {
    /// The left channel, then the side.
    LeftSide,
    /// The side, then the right channel.
    SideRight,
    /// The mid channel, then the side.
    MidSide,
}
