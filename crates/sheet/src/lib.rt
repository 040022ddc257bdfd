// A sheet of terms on a lattice: figures, marks, and what its calls refuse.
#![tactic(auto)]

pub mod answer;
mod back;
pub mod draft;
pub mod edit;
pub mod fault;
mod laying;
pub mod price;
mod rows;
pub mod sheet;
pub mod state;
mod step;
mod valuation;

pub use answer::{Costs, Entry};
pub use draft::Draft;
pub use edit::Edit;
pub use fault::SheetFault;
pub use price::{Released, Struck};
pub use sheet::Sheet;
pub use sheet::work::all_nodes;
