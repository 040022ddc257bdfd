// Calls in a list on one shared sheet.
#![tactic(auto)]

pub mod call;
mod perform;
pub mod runs;

pub use call::{Call, Fault, Reply};
pub use runs::run;
