// Calls and puts on a rate lattice, as a game between issuer and holder.
#![tactic(auto)]

pub mod clash;
pub mod mark;
pub mod node;
pub mod terms;
