// Runs of words, and the lines of commands, which lists.txt and trie.txt have in common.
ghost use Rattle.std.specs.Prelude.{◌≡◌, ◌≤◌, IfOk, vec_len};

use super::lines::MOST;
use super::stop::Stop;
use std::alloc::{AllocError, Global};

#[derive(Clone, Copy, Debug, PartialEq, Eq)]
pub enum Action {
    Lookup,
    Insert,
    Remove,
}

// What a line of commands says: `many` commands of one action, on words each `step` after the one before, and the answers that are recorded.
#[derive(Clone, Copy)]
pub struct Run<'a> {
    pub action: Action,
    pub start: u64,
    pub step: u64,
    pub many: u64,
    pub recorded: &'a [u64],
}

impl Action {
    // The code of the command in a list.
    pub fn code(self) -> u8 {
        match self {
            Action::Lookup => 0,
            Action::Insert => 1,
            Action::Remove => 2,
        }
    }
}

fn action_of(op: u64) -> Result<Action, Stop> {
    match op {
        10 | 20 => Ok(Action::Lookup),
        11 | 21 => Ok(Action::Insert),
        12 | 22 => Ok(Action::Remove),
        _ => Err(Stop::Unknown(op)),
    }
}

// The commands of a line that ends with so many answers.
pub fn commands_of(line: &[u64], answers: usize) -> Result<Run<'_>, Stop> {
    let op = *line.first().ok_or(Stop::BadNumbers)?;
    let action = action_of(op)?;
    let (start, step, many, recorded) = match line {
        [10..=12, word, recorded @ ..] => (*word, 0, 1, recorded),
        [20..=22, start, step, many @ 0..=4096, recorded @ ..] => (*start, *step, *many, recorded),
        _ => return Err(Stop::BadNumbers),
    };
    if recorded.len() != answers {
        return Err(Stop::BadNumbers);
    }
    Ok(Run {
        action,
        start,
        step,
        many,
        recorded,
    })
}

// So many words, each `step` after the one before.
pub fn words_of(alloc: Global, start: u64, step: u64, many: u64) -> Result<Vec<u64>, AllocError>
    ensures { IfOk result (λ v. vec_len v ≡ many) }
{
    (0..many)
        .map(|i| start.wrapping_add(step.wrapping_mul(i)))
        .collect(alloc)
}

// Words each `step` after the one before.
pub fn fill(words: &mut [u64], start: u64, step: u64) {
    let mut w = start;
    for word in words.iter_mut() {
        *word = w;
        w = w.wrapping_add(step);
    }
}

// The words of the runs, one behind the other, and how many they are; 4,096 where there are as many or more, or a run has none.
pub fn spread(runs: &[u64], words: &mut [u64; MOST]) -> usize
    ensures { result ≤ 4096 }
{
    let mut many = 0;
    for run in runs.chunks_exact(3) {
        let &[start, step, more] = run else {
            return MOST;
        };
        if more == 0 || more >= (MOST - many) as u64 {
            return MOST;
        }
        let after = many + more as usize;
        fill(&mut words[many..after], start, step);
        many = after;
    }
    many
}
