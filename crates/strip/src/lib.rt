// The container of the Rust's `src/trievec`: its record, and the strip of entries that it lends, read and changed as one part.
#![tactic(auto)]

pub mod bounds;
pub mod differ;
pub mod search;
pub mod store;
pub mod trievec;
