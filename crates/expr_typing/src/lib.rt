//! The kinds of expressions, where aggregates stand, and what the values of a select's items are to be.
#![tactic(auto)]

mod aggregate;
mod judge;
mod kind;
mod shapes;

pub use aggregate::{has_aggregate, some_aggregate};
pub use judge::type_of;
pub use shapes::{ItemShape, all_fit, item_shapes};
