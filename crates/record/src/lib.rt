// The term record: the bytes of a sheet's terms and spread.
#![tactic(auto)]

mod cell;
mod entries;
mod fault;
mod field;
mod fields;
mod filling;
mod listed;
mod loading;
mod placed;
mod reader;
mod saving;
mod word;
mod writer;

pub use fault::RecordFault;
pub use loading::load;
pub use saving::save;
