//! The session: its objects, its scopes in progress with the handles of its savepoints, and what a command did so far.
#![tactic(auto)]

mod handles;
mod load;
mod making;
mod session;
mod step;

pub use handles::Handles;
pub use load::ObjectLoad;
pub use making::{Given, first_fault, put_given};
pub use session::Session;
pub use step::ObjectStep;
