// The first half of the region check: the header, and prefixes, ranks, records and the container free stack, on any contents.
// Each test says yes exactly if its condition holds, so that a word that the condition does not name counts for nothing.
#![tactic(auto)]

pub mod header;
pub mod ranks;
pub mod sizes;
pub mod stack;
