//! What a shell stands at: declarations, and then the session, with the commands that lines give it, what is told with its names, and
//! the names that its answers bind.
#![tactic(auto)]

mod compiling;
mod names;
mod session;
mod stage;

pub use names::bind;
pub use session::perform_line;
pub use stage::Stage;
