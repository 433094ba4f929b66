// The leaves of the library for a program of the tests: no part of what users link. Nothing is asked of a caller:
// what a leaf asks is checked here, and a call that does not keep it is refused by REFUSED, with nothing written.
// One call does many, so that the cost of a call does not count.
#![tactic(auto)]

pub mod arenas;
pub mod bits;
pub mod bytes;
mod checks;
pub mod map;
pub mod tries;

// The C interface's number for a refusal.
pub const REFUSED: u64 = u64::MAX;
