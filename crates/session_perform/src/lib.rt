//! A resolved line is performed in a session, over any keeper: one program for each case.
#![tactic(auto)]

mod acting;
mod changing;
mod links;
mod objects;
mod performing;
mod reading;

pub use performing::perform;
