//! How a stream of frames ends.

/// How a stream of frames ended.
#[derive(Clone, Copy, Debug, PartialEq, Eq)]
pub enum Ending {
    /// Between two frames, or before the first.
    Between,
    /// Inside a frame.
    Inside,
    /// At a length past the limit.
    TooLong,
}
