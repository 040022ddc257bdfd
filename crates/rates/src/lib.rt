// What the lattices that we supply are made of: kinds, weights, the checks of a table, and why one is refused.
#![tactic(auto)]

pub mod fault;
pub mod kind;
pub mod row;
pub mod table;
pub mod weights;
