// A region seen through its areas: what its words say, and the rank and slot of a prefix.
#![tactic(auto)]

pub mod find;
pub mod hints;
pub mod rank;
pub mod read;
