// The commands of a list, block by block and in order, on a region that is known to be well formed.
ghost use Rattle.std.specs.Prelude.{◌≡◌, ℕ, ◌+◌, ◌^◌, ◌≤◌, ◌<◌, length, drop, get_or};
ghost use Rattle.lists.specs.Lists.{all, first_bad};
ghost use Rattle.model.specs.Commands.{code_of, known_code};
ghost use Rattle.region.specs.Areas.{numbers};
ghost use Rattle.region.specs.Read.{reading};
ghost use Rattle.region.specs.WellFormed.{WellFormed};
ghost use Rattle.promises.specs.Answers.{listed};
ghost use Rattle.promises.specs.List.{word_of};
ghost use Rattle.wordset_list.specs.Performing.{BlockRanAs, PerformedAs, RanAs, TriedAs, is_lookup, is_insert, meant};

use arena::NoRoom;
use lens::hints::{any_set, guess};
use promises::ListRefusal;
use wordset_insert::insert;
use wordset_lookup::contains;
use wordset_lookup::each::contains_each;
use wordset_many::open_new;
use wordset_remove::remove;

// A block is run at a time: the ranks of up to so many words are guessed side by side.
pub(crate) const BLOCK: usize = 64;

// What a known code asks for.
#[derive(Clone, Copy, Debug, PartialEq, Eq)]
enum Command {
    Lookup,
    Insert,
    Remove,
}

// The place in a block of the command that found no room.
#[derive(Clone, Copy, Debug, PartialEq, Eq)]
struct NoRoomAt(usize);

// The command of a code that was judged good: it cannot fail, so it is no TryFrom.
fn command_of(code: u8) -> Command
    requires { code ≤ 2 }
    ensures { meant result ≡ code_of code }
{
    match code {
        0 => Command::Lookup,
        1 => Command::Insert,
        _ => Command::Remove,
    }
}

// Performs one command: 0 lookup, 1 insert, 2 remove. The hint says at which rank its container may stand.
// A code is a byte that C lends, and stays one: the whole list was judged good where it lies, and there is no room for a list of commands.
pub fn perform(region: &mut [u64], code: u8, w: u64, hint: usize) -> Result<u8, NoRoom>
    requires well_formed { WellFormed region.old }
    requires w_bound { w < 2 ^ ((numbers region.old).P + (numbers region.old).S) }
    requires code_bound { code ≤ 2 }
    ensures { PerformedAs code w region.old result region.new }
{
    match command_of(code) {
        Command::Lookup => Ok(u8::from(contains(region, w, hint))),
        Command::Insert => Ok(u8::from(insert(region, w, hint)?)),
        Command::Remove => Ok(u8::from(remove(region, w, hint))),
    }
}

// Whether all codes are 0: their joined bits are. Codes are bytes that C lends, judged good before.
fn all_lookups(codes: &[u8]) -> bool
    ensures { result ≡ all is_lookup codes.now }
{
    let mut bits: u8 = 0;
    for &code in codes {
        bits |= code;
    }
    bits == 0
}

// Whether all codes are 1, every code looked at. Codes are bytes that C lends, judged good before.
fn all_inserts(codes: &[u8]) -> bool
    ensures { result ≡ all is_insert codes.now }
{
    let mut inserts = true;
    for &code in codes {
        inserts &= code == 1;
    }
    inserts
}

// Answers yes to the first n commands.
fn yes_each(n: usize, answers: &mut [u8])
    requires { n ≤ length answers.old }
    ensures each { (i : ℕ) → i < n → get_or answers.new i 0 ≡ 1 }
    ensures long { length answers.new ≡ length answers.old }
    ensures later { drop n answers.new ≡ drop n answers.old }
{
    answers[..n].fill(1);
}

// Runs a block of inserts at once, if each needs a container of its own and there are slots for all: whether it was done. If not, nothing is changed.
fn open_block(
    region: &mut [u64],
    codes: &[u8],
    words: &[u64],
    hints: &[u64; 64],
    answers: &mut [u8],
) -> bool
    requires well_formed { WellFormed region.old }
    requires codes_len { length codes.now ≡ length words.now }
    requires words_len_bound { length words.now ≤ 64 }
    requires words_in_bounds { length words.now ≤ length answers.old }
    requires words_len_bound_2 { length words.now ≤ first_bad (word_of (reading region.old)) words.now }
    ensures { TriedAs region.old codes.now words.now answers.old result region.new answers.new }
{
    if !all_inserts(codes) {
        return false;
    }
    if any_set(region, words) {
        return false;
    }
    if !open_new(region, words, hints) {
        return false;
    }
    yes_each(words.len(), answers);
    true
}

// Runs a block one command after the other, up to the first that finds no room.
fn run_each(
    region: &mut [u64],
    codes: &[u8],
    words: &[u64],
    hints: &[u64; 64],
    answers: &mut [u8],
) -> Result<(), NoRoomAt>
    requires well_formed { WellFormed region.old }
    requires codes_len { length codes.now ≡ length words.now }
    requires words_len_bound { length words.now ≤ 64 }
    requires words_in_bounds { length words.now ≤ length answers.old }
    requires codes_len_bound { length codes.now ≤ first_bad known_code codes.now }
    requires words_len_bound_2 { length words.now ≤ first_bad (word_of (reading region.old)) words.now }
    ensures { BlockRanAs region.old codes.now words.now answers.old result region.new answers.new }
{
    for i in 0..words.len() {
        match perform(region, codes[i], words[i], hints[i] as usize) {
            Ok(answer) => answers[i] = answer,
            Err(NoRoom) => return Err(NoRoomAt(i)),
        }
    }
    Ok(())
}

// Runs a block that may change the region: the ranks of its words are guessed side by side, and new containers are opened at once if that is all.
fn change_block(
    region: &mut [u64],
    codes: &[u8],
    words: &[u64],
    hints: &mut [u64; 64],
    answers: &mut [u8],
) -> Result<(), NoRoomAt>
    requires well_formed { WellFormed region.old }
    requires codes_len { length codes.now ≡ length words.now }
    requires words_len_bound { length words.now ≤ 64 }
    requires words_in_bounds { length words.now ≤ length answers.old }
    requires codes_len_bound { length codes.now ≤ first_bad known_code codes.now }
    requires words_len_bound_2 { length words.now ≤ first_bad (word_of (reading region.old)) words.now }
    ensures { BlockRanAs region.old codes.now words.now answers.old result region.new answers.new }
{
    guess(region, words, hints);
    if open_block(region, codes, words, hints, answers) {
        return Ok(());
    }
    run_each(region, codes, words, hints, answers)
}

// Runs a block: lookups alone are answered side by side, since they change nothing.
fn run_block(
    region: &mut [u64],
    codes: &[u8],
    words: &[u64],
    hints: &mut [u64; 64],
    answers: &mut [u8],
) -> Result<(), NoRoomAt>
    requires well_formed { WellFormed region.old }
    requires codes_len { length codes.now ≡ length words.now }
    requires words_len_bound { length words.now ≤ 64 }
    requires words_in_bounds { length words.now ≤ length answers.old }
    requires codes_len_bound { length codes.now ≤ first_bad known_code codes.now }
    requires words_len_bound_2 { length words.now ≤ first_bad (word_of (reading region.old)) words.now }
    ensures { BlockRanAs region.old codes.now words.now answers.old result region.new answers.new }
{
    if all_lookups(codes) {
        contains_each(region, words, hints, answers);
        return Ok(());
    }
    change_block(region, codes, words, hints, answers)
}

// Runs a list that was judged good, up to the first command that finds no room.
// No `chunks`: three lists are cut at one place, one of them to be written, and the refusal's place is that of a block and in it.
pub fn run(
    region: &mut [u64],
    codes: &[u8],
    words: &[u64],
    answers: &mut [u8],
) -> Result<(), ListRefusal>
    requires well_formed { WellFormed region.old }
    requires codes_len { length codes.now ≡ length words.now }
    requires words_in_bounds { length words.now ≤ length answers.old }
    requires codes_len_bound { length codes.now ≤ first_bad known_code codes.now }
    requires words_len_bound { length words.now ≤ first_bad (word_of (reading region.old)) words.now }
    ensures { RanAs region.old codes.now words.now answers.old (listed result) region.new answers.new }
{
    let mut hints: [u64; BLOCK] = [0; BLOCK];
    let mut i: usize = 0;
    while i < words.len() {
        let end = (i + BLOCK).min(words.len());
        let done = run_block(
            region,
            &codes[i..end],
            &words[i..end],
            &mut hints,
            &mut answers[i..end],
        );
        if let Err(NoRoomAt(at)) = done {
            return Err(ListRefusal::NoRoom(i + at));
        }
        i = end;
    }
    Ok(())
}
