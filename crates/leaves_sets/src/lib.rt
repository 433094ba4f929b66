// The set for a program of the tests: no part of what users link. Nothing is asked of a caller:
// what is asked below an entry is checked here. A region that is not well formed, or lengths that do not fit, are refused by REFUSED,
// with nothing written; a list with a bad code or word is not begun, and what the lists before it did stays.
// One check, then any number of commands or walks, so that a clock can tell them apart.
#![tactic(auto)]

ghost use Rattle.std.specs.Prelude.{◌≡◌, ◌+◌, ◌<◌, ◌≤◌, length};
ghost use Rattle.region.specs.Ranges.{longest};
ghost use Rattle.region.specs.WellFormed.{WellFormed};

use inspect::well_formed;
use lens::read;
use promises::ListRefusal;
use wordset_list::commands::run;
use wordset_list::judge::{LONGEST, first_large, first_unknown};
use wordset_walk::words_from;

// C takes a number, and no Option.
pub const REFUSED: u64 = u64::MAX;

// Judges one list and runs it: how many of its commands were done, none of a list that is not good.
fn run_list(region: &mut [u64], codes: &[u8], words: &[u64], answers: &mut [u8]) -> usize
    requires well_formed { WellFormed region.old }
    requires codes_len { length codes.now ≡ length words.now }
    requires words_in_bounds { length words.now ≤ length answers.old }
    ensures { WellFormed region.new }
{
    if first_unknown(codes).is_some() {
        return 0;
    }
    if first_large(words, read::p(region), read::s(region)).is_some() {
        return 0;
    }
    match run(region, codes, words, answers) {
        Err(ListRefusal::NoRoom(i)) => i,
        _ => words.len(),
    }
}

// Commands on a region, in lists of at most 4,096 one after the other, as a caller of the exported entry would, but with one check for all:
// how many were done. A list that is not good, or finds no room, ends them.
pub fn leaf_set_run(region: &mut [u64], codes: &[u8], words: &[u64], answers: &mut [u8]) -> u64 {
    if !well_formed(region) {
        return REFUSED;
    }
    if codes.len() != words.len() {
        return REFUSED;
    }
    if answers.len() < words.len() {
        return REFUSED;
    }
    let mut i = 0;
    while i < words.len() {
        let end = (i + LONGEST).min(words.len());
        let done = run_list(region, &codes[i..end], &words[i..end], &mut answers[i..end]);
        if done < end - i {
            return (i + done) as u64;
        }
        i = end;
    }
    i as u64
}

// Walks a region from its start so many times: how many words were written in all, modulo 2^64.
pub fn leaf_set_walk(region: &[u64], times: u64, out: &mut [u64]) -> u64 {
    if !well_formed(region) {
        return REFUSED;
    }
    let mut written: u64 = 0;
    for _ in 0..times {
        written = written.wrapping_add(words_from(region, 0, out) as u64);
    }
    written
}
