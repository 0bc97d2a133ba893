//! Where a keeper keeps its tables.

use base_core::Name;

/// Where a keeper keeps its tables.
#[derive(Clone, Drop, PartialEq, Eq)]
pub enum Target {
    Memory,
    File(Name),
}
