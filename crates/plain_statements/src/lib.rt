//! Which statements are plain: well typed and in normal form, with every part where SQL lets it stand.
#![tactic(auto)]

mod bulk;
mod select;
mod standing;
mod statement;

pub use bulk::{is_fitting_bulk, is_plain_bulk};
pub use select::{is_plain_select, is_settled_select};
pub use statement::is_plain;
