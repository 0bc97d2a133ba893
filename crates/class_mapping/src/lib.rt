//! Classes over tables, of every form: what is declared, when it is a mapping, and what each class has then.
#![tactic(auto)]

mod declarations;
mod lookup;
mod mapping;

pub use class_blocks::is_plain_root;
pub use class_types::{Attribute, Cascade, ClassSpec, Relation, RelationSpec};
pub use declarations::{Declarations, RefusedDeclarations};
pub use mapping::Mapping;
