// The library that C and Rust link: each entry of `brothowl`, exported under its name with the promise that it keeps there.
// No entry has a `requires`.
#![tactic(auto)]

ghost use Rattle.model.specs.Keys.{fields_are};
ghost use Rattle.promises.specs.Make.{MakePromise};
ghost use Rattle.promises.specs.Keys.{PackPromise, UnpackPromise};
ghost use Rattle.promises.specs.Check.{CheckPromise};
ghost use Rattle.promises.specs.List.{ListPromise};
ghost use Rattle.promises.specs.AllMembers.{AllPromise};
ghost use Rattle.promises.specs.Walk.{WalkPromise};
ghost use Rattle.promises.specs.Combine.{CombinePromise};
ghost use Rattle.brothowl.specs.Verdicts.{Crosses, verdict_of, pack_verdict, unpack_verdict, ask_verdict, walk_verdict};

use brothowl::making::Verdict;
use brothowl::preview::{PackVerdict, UnpackVerdict};
use brothowl::sets::{AskVerdict, WalkVerdict};
use brothowl::{making, preview, sets};

#[unsafe(no_mangle)]
pub extern "C" fn brothowl_make(region: &mut [u64], p: u64, s: u64, c: u64, n: u64) -> Verdict
    ensures { Crosses verdict_of (λ told. MakePromise p s c n region.old told region.new) result }
{
    making::brothowl_make(region, p, s, c, n)
}

#[unsafe(no_mangle)]
pub extern "C" fn brothowl_pack(
    card: u64,
    rollover: u64,
    folder: u64,
    frame: u64,
    kind: u64,
) -> PackVerdict
    ensures { Crosses pack_verdict (PackPromise (fields_are card rollover folder frame kind)) result }
{
    preview::brothowl_pack(card, rollover, folder, frame, kind)
}

#[unsafe(no_mangle)]
pub extern "C" fn brothowl_unpack(word: u64) -> UnpackVerdict
    ensures { Crosses unpack_verdict (UnpackPromise word) result }
{
    preview::brothowl_unpack(word)
}

#[unsafe(no_mangle)]
pub extern "C" fn brothowl_check(region: &[u64]) -> Verdict
    ensures { Crosses verdict_of (CheckPromise region.now) result }
{
    sets::brothowl_check(region)
}

#[unsafe(no_mangle)]
pub extern "C" fn brothowl_list(
    region: &mut [u64],
    codes: &[u8],
    words: &[u64],
    answers: &mut [u8],
) -> Verdict
    ensures { Crosses verdict_of (λ told. ListPromise region.old codes.now words.now answers.old told region.new answers.new) result }
{
    sets::brothowl_list(region, codes, words, answers)
}

#[unsafe(no_mangle)]
pub extern "C" fn brothowl_all_members(region: &[u64], words: &[u64]) -> AskVerdict
    ensures { Crosses ask_verdict (AllPromise region.now words.now) result }
{
    sets::brothowl_all_members(region, words)
}

#[unsafe(no_mangle)]
pub extern "C" fn brothowl_walk(region: &[u64], start: u64, output: &mut [u64]) -> WalkVerdict
    ensures { Crosses walk_verdict (λ told. WalkPromise region.now start output.old told output.new) result }
{
    sets::brothowl_walk(region, start, output)
}

#[unsafe(no_mangle)]
pub extern "C" fn brothowl_combine(
    code: u64,
    a: &[u64],
    b: &[u64],
    destination: &mut [u64],
) -> Verdict
    ensures { Crosses verdict_of (λ told. CombinePromise code a.now b.now destination.old told destination.new) result }
{
    sets::brothowl_combine(code, a, b, destination)
}
