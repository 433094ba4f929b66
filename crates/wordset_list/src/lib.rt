// Runs a command list on a region, and asks whether all words of a list are members. A whole list is judged before anything runs.
#![tactic(auto)]

ghost use Rattle.promises.specs.Answers.{listed, asked};
ghost use Rattle.promises.specs.List.{ListPromise};
ghost use Rattle.promises.specs.AllMembers.{AllPromise};

use crate::commands::run;
use crate::judge::{LONGEST, bad_lengths, first_large, first_unknown};
use crate::members::has_all;
use inspect::well_formed;
use lens::read;
use promises::{AskRefusal, ListRefusal};

pub mod commands;
pub mod judge;
mod members;
mod twice;

// Run a command list: one code, one word and one answer byte each.
pub fn list(
    region: &mut [u64],
    codes: &[u8],
    words: &[u64],
    answers: &mut [u8],
) -> Result<(), ListRefusal>
    ensures { ListPromise region.old codes.now words.now answers.old (listed result) region.new answers.new }
{
    if !well_formed(region) {
        return Err(ListRefusal::Malformed);
    }
    if bad_lengths(codes, words, answers) {
        return Err(ListRefusal::BadLengths);
    }
    let unknown = first_unknown(codes);
    let large = first_large(words, read::p(region), read::s(region));
    if let Some(k) = unknown {
        return Err(ListRefusal::UnknownCode(k));
    }
    if let Some(k) = large {
        return Err(ListRefusal::WordTooLarge(k));
    }
    run(region, codes, words, answers)
}

// Ask whether all words of a list are members: yes for an empty list.
pub fn all_members(region: &[u64], words: &[u64]) -> Result<bool, AskRefusal>
    ensures { AllPromise region.now words.now (asked result) }
{
    if !well_formed(region) {
        return Err(AskRefusal::Malformed);
    }
    if words.len() > LONGEST {
        return Err(AskRefusal::TooMany);
    }
    if let Some(k) = first_large(words, read::p(region), read::s(region)) {
        return Err(AskRefusal::WordTooLarge(k));
    }
    Ok(has_all(region, words))
}
