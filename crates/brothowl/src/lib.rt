// Every entry of the library, over the proved crates; `brothowl_c` exports them. No entry has a `requires`.
#![tactic(auto)]

pub mod making;
pub mod preview;
pub mod sets;
