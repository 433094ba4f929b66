// The entries of the set for C and Rust: slices and numbers in, a verdict of numbers out.
ghost use Rattle.promises.specs.Answers.{checked, listed, asked, walked, combined};
ghost use Rattle.promises.specs.Check.{CheckPromise};
ghost use Rattle.promises.specs.List.{ListPromise};
ghost use Rattle.promises.specs.AllMembers.{AllPromise};
ghost use Rattle.promises.specs.Walk.{WalkPromise};
ghost use Rattle.promises.specs.Combine.{CombinePromise};
ghost use Rattle.brothowl.specs.Verdicts.{verdict_of, ask_verdict, walk_verdict, Crosses};
ghost use Rattle.std.specs.Prelude.{◌≡◌};
ghost use Rattle.lists.specs.Lists.{one};

use crate::making::Verdict;
use promises::{AskRefusal, CombineRefusal, ListRefusal, Malformed, WalkRefusal};

// number 0 and place 0: asked, and all is 1 if all words are members. Else the refusal's number and place, and 0.
#[repr(C)]
#[derive(Clone, Copy)]
pub struct AskVerdict {
    pub number: u64,
    pub place: u64,
    pub all: u64,
}

// number 0 and place 0: walked, with how many words were written. Else the refusal's number and place, and 0.
#[repr(C)]
#[derive(Clone, Copy)]
pub struct WalkVerdict {
    pub number: u64,
    pub place: u64,
    pub written: u64,
}

impl AskVerdict {
    fn new(number: u64, place: usize, all: bool) -> AskVerdict
        ensures { result ≡ record { number = number; place = place; all = one all } }
    {
        AskVerdict {
            number,
            place: place as u64,
            all: all as u64,
        }
    }
}

impl WalkVerdict {
    fn new(number: u64, written: usize) -> WalkVerdict
        ensures { result ≡ record { number = number; place = 0; written = written } }
    {
        WalkVerdict {
            number,
            place: 0,
            written: written as u64,
        }
    }
}

impl From<Result<(), Malformed>> for Verdict {
    ghost from_gives = { λ answer v. v ≡ verdict_of (checked answer) };

    fn from(answer: Result<(), Malformed>) -> Verdict {
        match answer {
            Ok(()) => Verdict::new(0, 0),
            Err(Malformed) => Verdict::new(1, 0),
        }
    }
}

impl From<Result<(), ListRefusal>> for Verdict {
    ghost from_gives = { λ answer v. v ≡ verdict_of (listed answer) };

    fn from(answer: Result<(), ListRefusal>) -> Verdict {
        match answer {
            Ok(()) => Verdict::new(0, 0),
            Err(ListRefusal::Malformed) => Verdict::new(1, 0),
            Err(ListRefusal::BadLengths) => Verdict::new(4, 0),
            Err(ListRefusal::UnknownCode(k)) => Verdict::new(5, k),
            Err(ListRefusal::WordTooLarge(k)) => Verdict::new(6, k),
            Err(ListRefusal::NoRoom(k)) => Verdict::new(9, k),
        }
    }
}

impl From<Result<bool, AskRefusal>> for AskVerdict {
    ghost from_gives = { λ answer v. v ≡ ask_verdict (asked answer) };

    fn from(answer: Result<bool, AskRefusal>) -> AskVerdict {
        match answer {
            Ok(all) => AskVerdict::new(0, 0, all),
            Err(AskRefusal::Malformed) => AskVerdict::new(1, 0, false),
            Err(AskRefusal::TooMany) => AskVerdict::new(4, 0, false),
            Err(AskRefusal::WordTooLarge(k)) => AskVerdict::new(6, k, false),
        }
    }
}

impl From<Result<usize, WalkRefusal>> for WalkVerdict {
    ghost from_gives = { λ answer v. v ≡ walk_verdict (walked answer) };

    fn from(answer: Result<usize, WalkRefusal>) -> WalkVerdict {
        match answer {
            Ok(written) => WalkVerdict::new(0, written),
            Err(WalkRefusal::Malformed) => WalkVerdict::new(1, 0),
            Err(WalkRefusal::StartTooFar) => WalkVerdict::new(8, 0),
        }
    }
}

impl From<Result<(), CombineRefusal>> for Verdict {
    ghost from_gives = { λ answer v. v ≡ verdict_of (combined answer) };

    fn from(answer: Result<(), CombineRefusal>) -> Verdict {
        match answer {
            Ok(()) => Verdict::new(0, 0),
            Err(CombineRefusal::Malformed(k)) => Verdict::new(1, k),
            Err(CombineRefusal::UnknownCode) => Verdict::new(5, 0),
            Err(CombineRefusal::SetsDiffer) => Verdict::new(7, 0),
            Err(CombineRefusal::NoRoom) => Verdict::new(9, 0),
        }
    }
}

pub fn brothowl_check(region: &[u64]) -> Verdict
    ensures { Crosses verdict_of (CheckPromise region.now) result }
{
    inspect::check(region).into()
}

pub fn brothowl_list(region: &mut [u64], codes: &[u8], words: &[u64], answers: &mut [u8]) -> Verdict
    ensures { Crosses verdict_of (λ told. ListPromise region.old codes.now words.now answers.old told region.new answers.new) result }
{
    wordset_list::list(region, codes, words, answers).into()
}

pub fn brothowl_all_members(region: &[u64], words: &[u64]) -> AskVerdict
    ensures { Crosses ask_verdict (AllPromise region.now words.now) result }
{
    wordset_list::all_members(region, words).into()
}

pub fn brothowl_walk(region: &[u64], start: u64, output: &mut [u64]) -> WalkVerdict
    ensures { Crosses walk_verdict (λ told. WalkPromise region.now start output.old told output.new) result }
{
    wordset_walk::walk(region, start, output).into()
}

pub fn brothowl_combine(code: u64, a: &[u64], b: &[u64], destination: &mut [u64]) -> Verdict
    ensures { Crosses verdict_of (λ told. CombinePromise code a.now b.now destination.old told destination.new) result }
{
    set_ops::combine(code, a, b, destination).into()
}
