//! Classes and relationships, as they are declared and as they are mapped, and the validators that classes name.
#![tactic(auto)]

mod check;
mod declared;
mod hooks;
mod mapped;
mod rule;
mod shipped;
mod validator;

pub use check::check_value;
pub use declared::{Cascade, ClassSpec, RelationSpec};
pub use hooks::Hooks;
pub use mapped::{Attribute, Relation};
pub use rule::Rule;
pub use shipped::{has_at, is_nonempty, is_positive, is_short};
pub use validator::Validator;
