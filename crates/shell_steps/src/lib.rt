//! One line of a script done over a keeper: what it comes to, what the stage or the session makes of it, and what the line answers.
#![tactic(auto)]

mod shell;

pub use shell::Shell;
