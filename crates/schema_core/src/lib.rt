//! Tables as they are declared, statements on rows and whether they are well formed, and the changes that a flush makes.
#![tactic(auto)]

mod cells;
mod changes;
mod declaration;
mod keys;
mod order;
mod schema;
mod statement;
mod table;
mod well_formed;

pub use cells::{is_required, kind_of_value};
pub use changes::{ChangedRow, GoneRow, NewRow, Plan, Planned, RowCell, RowChanges};
pub use declaration::{kind_of, same_kind};
pub use keys::has_generated_key;
pub use schema::Schema;
pub use statement::{RowStmt, Unwritten, Violation};
pub use table::{ColumnKind, ColumnSpec, ForeignSpec, TableSpec};
pub use well_formed::is_well_formed;
