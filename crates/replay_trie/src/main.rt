// Replays the oracle's answers on one trie (answers/trie.txt, on standard input) over the proved trie, its walk and its planting, and compares every number with the corrected copy's.
// Before every operation the arena is checked: so what an operation asks for is known, and a fault that an earlier one left shows.
#![tactic(auto)]

mod cases;
mod tree;

use replay::input;
use replay::stop::Stop;
use replay::tally::Tally;
use std::alloc::Global;
use std::io;

// The most bytes that are read of the text.
const LONGEST: usize = 262144;

fn all_lines(rt: &impl Print, alloc: Global, tally: &mut Tally, text: &[u8]) -> Result<(), Stop> {
    let mut case = None;
    for line in text.split_inclusive(|b| *b == b'\n') {
        if let Some(numbers) = tally.take(line)? {
            cases::carry_out(rt, alloc, tally, &mut case, &numbers)?;
        }
    }
    tally.at_end()
}

fn main(rt: HostRuntime) -> io::Result<()> {
    let alloc = rt.alloc();
    let text = input::read(&rt, LONGEST)?;
    println!(rt; "answers/trie.txt over trie, trie_walk and trie_pour:")?;
    let mut tally = Tally::new(alloc);
    let end = all_lines(&rt, alloc, &mut tally, &text);
    let to_the_end = tally.came_to_end(&rt, end)?;
    tally.say_commands(&rt)?;
    tally.say_rows(
        &rt,
        &[
            ("walk", 3),
            ("walk as runs", 4),
            ("suffixes", 5),
            ("nodes in use", 6),
        ],
    )?;
    tally.verdict(&rt, to_the_end, 0)
}
