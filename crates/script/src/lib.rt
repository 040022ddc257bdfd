// From the text of a script to its commands, or to its first line that is no call.
#![tactic(auto)]

mod calls;
pub mod command;
mod cuts;
pub mod fault;
pub mod forms;
pub mod messages;
mod names;
mod numbers;
mod script;
#[cfg(test)]
mod tests;
mod words;

pub use command::{Command, SheetCall};
pub use fault::{Expected, ReadError, ScriptFault, Unread};
pub use forms::Form;
pub use script::read_script;
