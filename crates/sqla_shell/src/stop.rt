//! Why a run does not come to its script's end.

/// Why a run does not come to its script's end.
#[derive(Clone, Copy, PartialEq, Eq)]
pub enum Stop {
    Read,
    Write,
    Keeper,
    Memory,
}
