// What the programs that replay the oracle's answers share: the text of a file, the lines of numbers out of it, runs of words, walks, and the tally of what was as recorded.
#![tactic(auto)]

pub mod input;
pub mod lines;
pub mod runs;
pub mod stop;
pub mod tally;
pub mod walks;
