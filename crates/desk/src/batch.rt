// Caches, deletes and looks up frames, as lists of at most 2,048 commands, and does the same to the script's own list.
use super::refusal::Refusal;
use super::script::{Batch, Verb};
use super::stop::Stop;
use promises::{Card, FieldOutOfRange, Fields, Folder, Frame, Kind, ListRefusal, Rollover};
use std::alloc::{AllocFailed, Global};
use std::collections::BTreeSet;

// The most commands of one list.
const MOST: usize = 2048;

// What became of a batch: how many commands are done, how many of them answered 1, and how many would by the script's own list.
#[derive(Clone, Copy, Default)]
pub struct Ran {
    pub done: usize,
    pub yes: usize,
    pub own: usize,
}

impl Ran {
    fn one_more(&mut self, yes: bool, own: bool) {
        self.done = self.done.saturating_add(1);
        self.yes = self.yes.saturating_add(usize::from(yes));
        self.own = self.own.saturating_add(usize::from(own));
    }
}

fn key(b: Batch, frame: u64) -> Result<u64, FieldOutOfRange> {
    keys::pack(Fields {
        card: Card(b.card),
        rollover: Rollover(b.rollover),
        folder: Folder(b.folder),
        frame: Frame(frame),
        kind: Kind(b.kind.code()),
    })
}

pub fn keys_of(alloc: Global, b: Batch) -> Result<Vec<u64>, Stop> {
    let mut keys = Vec::new(alloc);
    for frame in b.first..=b.last {
        keys.push(key(b, frame).map_err(Refusal::from)?)?;
    }
    Ok(keys)
}

// The keys of the script's own list from a batch's first key to its last, ascending. Looked for once: to look for each key in the tree takes three times as long.
pub fn there_of(alloc: Global, own: &BTreeSet<u64>, keys: &[u64]) -> Result<Vec<u64>, Stop> {
    let mut there = Vec::new(alloc);
    let (Some(first), Some(last)) = (keys.first(), keys.last()) else {
        return Ok(there);
    };
    for key in own.range(*first..) {
        if *key > *last {
            break;
        }
        there.push(*key)?;
    }
    Ok(there)
}

// Does to the script's own list what a command says, and says whether the command answers 1. The keys of a batch are all different, so its commands leave `there` true for the keys behind them.
fn follow(
    own: &mut BTreeSet<u64>,
    there: &[u64],
    verb: Verb,
    key: u64,
) -> Result<bool, AllocFailed<u64>> {
    let member = there.binary_search(&key).is_ok();
    match verb {
        Verb::Look => Ok(member),
        Verb::Cache if member => Ok(false),
        Verb::Cache => own.insert(key),
        Verb::Delete => Ok(member && own.remove(&key)),
    }
}

// How many of a list's commands are done.
fn done_of(told: Result<(), ListRefusal>, many: usize) -> usize {
    match told {
        Ok(()) => many,
        Err(ListRefusal::NoRoom(done)) => done,
        Err(_) => 0,
    }
}

// Runs a batch, list after list, up to the first refusal.
pub fn run(
    alloc: Global,
    region: &mut [u64],
    own: &mut BTreeSet<u64>,
    there: &[u64],
    b: Batch,
    keys: &[u64],
) -> Result<Ran, Stop> {
    let mut ran = Ran::default();
    for list in keys.chunks(MOST) {
        let codes = vec![in alloc; b.verb.code(); list.len()]?;
        let mut answers = vec![in alloc; 0u8; list.len()]?;
        let told = wordset_list::list(region, &codes, list, &mut answers);
        let done = done_of(told, list.len());
        for (key, answer) in list.iter().zip(answers.iter()).take(done) {
            ran.one_more(*answer == 1, follow(own, there, b.verb, *key)?);
        }
        if let Err(refusal) = told {
            return Err(Stop::Partly {
                refusal: Refusal::from(refusal),
                frame: b.first.saturating_add(ran.done as u64),
                done: ran.done,
            });
        }
    }
    Ok(ran)
}
