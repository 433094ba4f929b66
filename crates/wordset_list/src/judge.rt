// What is judged of a list before anything runs: its lengths, its codes, its words.
ghost use Rattle.std.specs.Prelude.{◌≡◌, ◌≤◌};
ghost use Rattle.lists.specs.Lists.{all};
ghost use Rattle.model.specs.Words.{is_word};
ghost use Rattle.model.specs.Commands.{known_code};
ghost use Rattle.promises.specs.List.{bad_lengths};
ghost use Rattle.wordset_list.specs.Judged.{FirstBad};

use strip::bounds::below;

// The most commands in a list.
pub const LONGEST: usize = 4096;

// Whether codes and words differ in length, answers are shorter, or the words are too many.
pub fn bad_lengths(codes: &[u8], words: &[u64], answers: &[u8]) -> bool
    ensures { result ≡ bad_lengths codes.now words.now answers.now }
{
    if codes.len() != words.len() {
        return true;
    }
    if answers.len() < words.len() {
        return true;
    }
    LONGEST < words.len()
}

// Whether all codes are known, every code looked at: codes are bytes that C lends, and none is a command before it is judged.
fn all_known(codes: &[u8]) -> bool
    ensures { result ≡ all known_code codes.now }
{
    let mut known = true;
    for &code in codes {
        known &= code <= 2;
    }
    known
}

// The first place of an unknown code. Mostly there is none, and that is told without a branch for each code.
pub fn first_unknown(codes: &[u8]) -> Option<usize>
    ensures { FirstBad known_code codes.now result }
{
    if all_known(codes) {
        return None;
    }
    codes.iter().position(|code| *code > 2)
}

// The first place of a word of more than p + s bits: no word has more than 64, and the joined words tell if none has. Two shifts, since p + s may be 64.
pub fn first_large(words: &[u64], p: usize, s: usize) -> Option<usize>
    requires p_bound { p ≤ 24 }
    requires s_bound { s ≤ 40 }
    ensures { FirstBad (is_word p s) words.now result }
{
    if p + s == 64 {
        return None;
    }
    if below(words, 1u64 << (p + s)) {
        return None;
    }
    words.iter().position(|w| (*w >> s) >> p != 0)
}
