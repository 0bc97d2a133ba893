//! How the lines of a script end.

/// How the lines of a script end.
#[derive(Clone, Copy, PartialEq, Eq)]
pub enum Ending {
    /// The script was read to its end.
    Finished,
    /// The script has more than 16777216 bytes, or its next line more than 65536.
    TooLong,
}
