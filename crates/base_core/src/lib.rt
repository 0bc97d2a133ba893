//! Values in their order, names, lists, the numbers of objects and tables, dialects, and one refusal for all layers.
#![tactic(auto)]

mod ascending;
mod copied;
mod dialect;
mod ids;
mod list;
mod objects;
mod refusal;
mod text;
mod value;

pub use ascending::is_above_all;
pub use copied::{Copied, both};
pub use dialect::Dialect;
pub use ids::{AttrNo, ClassId, ColumnNo, ObjId, RelNo, TableId};
pub use list::ListOf;
pub use objects::{ObjList, ObjSet};
pub use refusal::{ArgumentKind, IntegrityKind, LimitKind, Refusal, RequestKind, RowName, Warning};
pub use text::{Blob, Name, Text};
pub use value::{ArithOp, Key, KeyList, Kind, RowList, RowValues, Value, compare};
