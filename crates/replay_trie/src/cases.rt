// A line of the file: it opens a case, or stands in one.
use crate::tree;
use crate::tree::{Fault, Tree};
use arena::Shape;
use replay::runs::Run;
use replay::stop::Stop;
use replay::tally::Tally;
use replay::{runs, walks};
use std::alloc::{AllocError, Global};

// What came where a command found no room, and where the arena was not well formed or the suffix too large. Numbers, since they are held against recorded ones.
const NO_ROOM: u64 = 1001;

const REFUSED: u64 = 1000;

fn number(answer: Result<bool, Fault>) -> u64 {
    match answer {
        Ok(yes) => u64::from(yes),
        Err(Fault::NoRoom) => NO_ROOM,
        Err(Fault::Refused) => REFUSED,
    }
}

// What the commands of a line answered, or the first answer that is not as recorded.
fn answer_of(
    alloc: Global,
    tree: &mut Tree,
    run: Run<'_>,
    recorded: u64,
) -> Result<u64, AllocError> {
    for x in runs::words_of(alloc, run.start, run.step, run.many)? {
        let answer = number(tree.command(run.action, x));
        if answer != recorded {
            return Ok(answer);
        }
    }
    Ok(recorded)
}

// A line of commands. The last number is the published copy's answer: it is not compared.
fn commands(
    rt: &impl Print,
    alloc: Global,
    tally: &mut Tally,
    tree: &mut Tree,
    op: u64,
    line: &[u64],
) -> Result<(), Stop> {
    let run = runs::commands_of(line, 2)?;
    let &[recorded, _] = run.recorded else {
        return Err(Stop::BadNumbers);
    };
    let came = answer_of(alloc, tree, run, recorded)?;
    tally.judge(rt, op, &[recorded], &[came])
}

// A line in a case.
fn in_case(
    rt: &impl Print,
    alloc: Global,
    tally: &mut Tally,
    tree: &mut Tree,
    line: &[u64],
) -> Result<(), Stop> {
    match line {
        [3, ..] => walks::in_words(rt, tally, line, &tree.walk(alloc)?),
        [4, ..] => walks::in_runs(rt, tally, line, &tree.walk(alloc)?),
        [5, recorded @ ..] => tally.judge(rt, 5, recorded, &[tree.count()]),
        [6, recorded @ ..] => tally.judge(rt, 6, recorded, &[tree.nodes()]),
        [op, ..] => commands(rt, alloc, tally, tree, *op, line),
        [] => Err(Stop::BadNumbers),
    }
}

// Carries a line out: `0 b` opens a case.
pub fn carry_out(
    rt: &impl Print,
    alloc: Global,
    tally: &mut Tally,
    case: &mut Option<Tree>,
    line: &[u64],
) -> Result<(), Stop> {
    match (line, &mut *case) {
        ([0, b @ 1..=5], _) => {
            let shape = Shape {
                slots: tree::SLOTS,
                b: *b as usize,
            };
            *case = Some(match case.take() {
                Some(tree) => tree.anew(shape),
                None => Tree::new(alloc, shape)?,
            });
            tally.judge(rt, 0, &[], &[])
        }
        ([0, ..], _) => Err(Stop::BadNumbers),
        (_, Some(tree)) => in_case(rt, alloc, tally, tree, line),
        (_, None) => {
            tally.say(rt, "no case was opened before this line")?;
            Err(Stop::BadNumbers)
        }
    }
}
