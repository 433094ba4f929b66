// Replays the oracle's answers on the word set (answers/lists.txt, on standard input) over the proved entries make, list and walk, and compares every number.
// Each case runs in a region with exactly the room that it is recorded to need. A case whose region is larger than 524,288 words is passed over, and counted.
#![tactic(auto)]

mod cases;
mod commands;
mod seen;
mod walks;

use cases::Case;
use replay::input;
use replay::stop::Stop;
use replay::tally::Tally;
use std::alloc::Global;
use std::io;

// The most bytes that are read of the text.
const LONGEST: usize = 262144;

fn all_lines(rt: &impl Print, alloc: Global, tally: &mut Tally, text: &[u8]) -> Result<(), Stop> {
    let mut region = vec![in alloc; 0u64; cases::WORDS]?;
    let mut case = Case::Before;
    for line in text.split_inclusive(|b| *b == b'\n') {
        if let Some(numbers) = tally.take(line)? {
            cases::carry_out(rt, alloc, tally, &mut case, &mut region, &numbers)?;
        }
    }
    tally.at_end()
}

fn main(rt: HostRuntime) -> io::Result<()> {
    let alloc = rt.alloc();
    let text = input::read(&rt, LONGEST)?;
    println!(rt; "answers/lists.txt over make, list and walk:")?;
    let mut tally = Tally::new(alloc);
    let end = all_lines(&rt, alloc, &mut tally, &text);
    let to_the_end = tally.came_to_end(&rt, end)?;
    tally.say_commands(&rt)?;
    tally.say_rows(
        &rt,
        &[
            ("walk", 3),
            ("walk as runs", 4),
            ("members", 5),
            ("nodes in use", 6),
            ("containers in use", 7),
            ("slot of a rank", 8),
        ],
    )?;
    let (cases, lines) = (tally.row(cases::PASSED_CASE), tally.row(cases::PASSED_LINE));
    println!(rt;
        "  passed over, since the region is more than 524,288 words: cases {cases}, their other lines {lines}"
    )?;
    tally.verdict(&rt, to_the_end, cases.saturating_add(lines))
}
