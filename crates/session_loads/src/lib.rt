//! The calls of a session that read rows into its objects, over any keeper: what is asked, the flush, and the load, which the session
//! makes by its door for loads. An expired cell is read, a link that is not loaded, an object by its key, the objects of a query, and
//! an object anew; a collection that is not loaded is read before it changes. And an object is expired, to be read again.
#![tactic(auto)]

mod asking;
mod cells;
mod collections;
mod expiring;
mod getting;
mod links;
mod loads;
mod queries;
mod refreshing;
mod rows;

pub use cells::read_cell;
pub use collections::change_collection;
pub use expiring::expire;
pub use getting::get;
pub use links::read_related;
pub use queries::select_objects;
pub use refreshing::refresh;
