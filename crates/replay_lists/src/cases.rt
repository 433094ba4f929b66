// A line of the file: it opens a case, or stands in one.
use crate::{commands, seen, walks};
use promises::MakeRefusal;
use replay::stop::Stop;
use replay::tally::Tally;
use std::alloc::Global;

// The words of the largest region that a case is replayed in. All cases have their regions at the front of the same words, one after the other.
pub const WORDS: usize = 524288;

// The rows that count what is passed over.
pub const PASSED_CASE: u64 = 90;

pub const PASSED_LINE: u64 = 91;

// Where a line stands: before the first case, in one that is replayed in a region, in one that is passed over.
#[derive(Clone, Copy, Debug, PartialEq, Eq)]
pub enum Case {
    Before,
    Open,
    Passed,
}

// Opens the case `0 P S C N r`: a fresh region with exactly that room.
fn open(
    rt: &impl Print,
    tally: &mut Tally,
    region: &mut [u64],
    [p, s, c, n]: [u64; 4],
) -> Result<Case, Stop> {
    match make::make(region, p, s, c, n) {
        Ok(()) => {
            tally.judge(rt, 0, &[], &[])?;
            Ok(Case::Open)
        }
        Err(MakeRefusal::TooShort) => {
            tally.judge(rt, PASSED_CASE, &[], &[])?;
            Ok(Case::Passed)
        }
        Err(MakeRefusal::OutOfRange) => Err(Stop::BadNumbers),
    }
}

fn replayed(
    rt: &impl Print,
    alloc: Global,
    tally: &mut Tally,
    region: &mut [u64],
    line: &[u64],
) -> Result<(), Stop> {
    match line {
        [3 | 4, ..] => walks::line(rt, alloc, tally, region, line),
        [op @ (5 | 6 | 7), recorded] => seen::number(rt, tally, region, *op, *recorded),
        [8, r, p, c, k, n] => seen::rank(rt, tally, region, *r, &[*p, *c, *k, *n]),
        [5 | 6 | 7 | 8, ..] => Err(Stop::BadNumbers),
        _ => commands::line(rt, alloc, tally, region, line),
    }
}

// Carries a line out.
pub fn carry_out(
    rt: &impl Print,
    alloc: Global,
    tally: &mut Tally,
    case: &mut Case,
    region: &mut [u64],
    line: &[u64],
) -> Result<(), Stop> {
    match (line, *case) {
        ([0, p, s, c, n, _], _) => {
            *case = open(rt, tally, region, [*p, *s, *c, *n])?;
            Ok(())
        }
        ([0, ..], _) => Err(Stop::BadNumbers),
        (_, Case::Open) => replayed(rt, alloc, tally, region, line),
        (_, Case::Passed) => tally.judge(rt, PASSED_LINE, &[], &[]),
        (_, Case::Before) => {
            tally.say(rt, "no case was opened before this line")?;
            Err(Stop::BadNumbers)
        }
    }
}
