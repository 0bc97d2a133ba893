//! Links of a session's objects, over any keeper: they are set, appended to and removed from.
#![tactic(auto)]

mod changing;
mod places;
mod putting;
mod reading;

pub use changing::{change_inside, change_link, change_of, coming_along};
pub use reading::Related;
