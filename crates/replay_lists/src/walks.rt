// The walk of the whole region, in its order.
use promises::WalkRefusal;
use replay::stop::Stop;
use replay::tally::Tally;
use replay::{lines, walks};
use std::alloc::Global;

// The walk; 4,096 words stand for more, too, and for one that was refused: no recorded walk has so many words.
fn walked(rt: &impl Print, alloc: Global, tally: &Tally, region: &[u64]) -> Result<Vec<u64>, Stop> {
    let mut words = vec![in alloc; 0u64; lines::MOST]?;
    match wordset_walk::walk(region, 0, &mut words) {
        Ok(many) => words.truncate(many),
        Err(WalkRefusal::Malformed) => {
            tally.say_first(rt, "the walk was refused: the region is not well formed")?;
        }
        Err(WalkRefusal::StartTooFar) => {
            tally.say_first(rt, "the walk was refused: the start is too far")?;
        }
    }
    Ok(words)
}

pub fn line(
    rt: &impl Print,
    alloc: Global,
    tally: &mut Tally,
    region: &[u64],
    line: &[u64],
) -> Result<(), Stop> {
    let came = walked(rt, alloc, tally, region)?;
    match line {
        [3, ..] => walks::in_words(rt, tally, line, &came),
        _ => walks::in_runs(rt, tally, line, &came),
    }
}
