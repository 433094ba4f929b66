// Whether a region holds words, up to 64 side by side: vectors at once, then the tries together, so that the waits for memory overlap. Where no prefix is set nothing is looked at.
ghost use Rattle.std.specs.Prelude.{◌≡◌, ◌≢◌, cond, ℕ, ◌+◌, ◌^◌, ◌<◌, ◌≤◌, length, drop, get_or};
ghost use Rattle.lists.specs.Lists.{mem};
ghost use Rattle.model.specs.Words.{suffix_of, bytes_of};
ghost use Rattle.model.specs.Reading.{has};
ghost use Rattle.region.specs.Areas.{numbers};
ghost use Rattle.region.specs.Seen.{seen};
ghost use Rattle.region.specs.Read.{suffixes, reading};
ghost use Rattle.region.specs.WellFormed.{WellFormed};
ghost use Rattle.arena.specs.Arena.{Root};
ghost use Rattle.trie_look.specs.Each.{answer_at};
ghost use Rattle.trie_look.specs.Levels.{Changed};
ghost use Rattle.wordset_lookup.specs.Meeting.{Settles, Met};

use super::{in_vector, prefix_of, suffix_of};
use lens::find::find;
use lens::hints::{any_set, guess};
use lens::read;

// Where a word's answer is to be had: from the trie with the root, or, if that is no node, it is the answer here. Tried: with an Option for the root, here and in trie_look, a lookup in a trie takes up to 30 % longer.
#[derive(Clone, Copy)]
struct Lead {
    root: usize,
    answer: u8,
}

// A vector is searched at once; of a trie the root is told.
fn lead_in_slot(region: &[u64], slots: usize, c: usize, s: u64) -> Lead
    requires well_formed { WellFormed region.now }
    requires slots_value { slots ≡ (numbers region.now).N }
    requires c_bound { c < (numbers region.now).C }
    requires c_nonzero { (seen (numbers region.now) region.now).kind c ≢ 0 }
    ensures { Settles region.now s (mem s (suffixes (numbers region.now) (seen (numbers region.now) region.now) c)) result.root result.answer }
{
    if read::kind(region, c) != 1 {
        return Lead {
            root: read::link(region, c),
            answer: 0,
        };
    }
    if in_vector(region, c, s) {
        return Lead {
            root: slots,
            answer: 1,
        };
    }
    Lead {
        root: slots,
        answer: 0,
    }
}

// Where the answer of the word w is to be had.
fn meet(region: &[u64], slots: usize, bits: usize, w: u64, hint: usize) -> Lead
    requires well_formed { WellFormed region.now }
    requires slots_value { slots ≡ (numbers region.now).N }
    requires bits_value { bits ≡ (numbers region.now).S }
    requires w_bound { w < 2 ^ ((numbers region.now).P + (numbers region.now).S) }
    ensures { Settles region.now (suffix_of (numbers region.now).S w) (has (reading region.now) w) result.root result.answer }
{
    match find(region, prefix_of(w, bits), hint) {
        Some(c) => lead_in_slot(region, slots, c, suffix_of(w, bits)),
        None => Lead {
            root: slots,
            answer: 0,
        },
    }
}

// Meets every word: its root, its suffix, and its answer if it is known. Whether a trie is left to ask.
fn meet_each(
    region: &[u64],
    words: &[u64],
    hints: &[u64; 64],
    roots: &mut [u64],
    suffixes: &mut [u64],
    answers: &mut [u8],
) -> bool
    requires well_formed { WellFormed region.now }
    requires words_len_bound { length words.now ≤ 64 }
    requires words_in_bounds { length words.now ≤ length answers.old }
    requires roots_len { length roots.old ≡ 64 }
    requires suffixes_len { length suffixes.old ≡ 64 }
    requires by_index { (i : ℕ) → i < length words.now → get_or words.now i 0 < 2 ^ ((numbers region.now).P + (numbers region.now).S) }
    ensures { Met region.now words.now answers.old (length words.now) roots.new suffixes.new answers.new result }
{
    let slots = read::n(region);
    let bits = read::s(region);
    let mut left = false;
    for (i, &w) in words.iter().enumerate() {
        let lead = meet(region, slots, bits, w, hints[i] as usize);
        roots[i] = lead.root as u64;
        suffixes[i] = suffix_of(w, bits);
        answers[i] = lead.answer;
        left |= lead.root < slots;
    }
    left
}

// Asks the tries together: node stack and nodes are lent as one part.
fn ask(region: &[u64], roots: &[u64], suffixes: &[u64], answers: &mut [u8])
    requires well_formed { WellFormed region.now }
    requires suffixes_len_bound { length suffixes.now ≤ 64 }
    requires roots_len { length roots.now ≡ length suffixes.now }
    requires suffixes_in_bounds { length suffixes.now ≤ length answers.old }
    requires by_index { (i : ℕ) → i < length roots.now → get_or roots.now i 0 < (numbers region.now).N → Root (seen (numbers region.now) region.now).node (numbers region.now).N (get_or roots.now i 0) }
    requires by_index_2 { (i : ℕ) → i < length suffixes.now → get_or suffixes.now i 0 < 2 ^ (numbers region.now).S }
    ensures each { (i : ℕ) → i < length suffixes.now → get_or answers.new i 0 ≡ answer_at (seen (numbers region.now) region.now).node (numbers region.now).N (bytes_of (numbers region.now).S) (get_or roots.now i 0) (get_or suffixes.now i 0) (get_or answers.old i 0) }
    ensures long { length answers.new ≡ length answers.old }
    ensures later { drop (length suffixes.now) answers.new ≡ drop (length suffixes.now) answers.old }
{
    let shape = read::shape(region);
    let start = region[13] as usize;
    let end = region[15] as usize;
    trie_look::contains_each(&region[start..end], shape, roots, suffixes, answers);
}

// Answers no to the first n words.
fn none_each(n: usize, answers: &mut [u8])
    requires { n ≤ length answers.old }
    ensures { Changed (λ _ _. 0) n answers.old answers.new }
{
    answers[..n].fill(0);
}

// Whether the words are members: 1 or 0 each. The hints may be any numbers, and are guessed anew.
pub fn contains_each(region: &[u64], words: &[u64], hints: &mut [u64; 64], answers: &mut [u8])
    requires well_formed { WellFormed region.now }
    requires words_len_bound { length words.now ≤ 64 }
    requires words_in_bounds { length words.now ≤ length answers.old }
    requires by_index { (i : ℕ) → i < length words.now → get_or words.now i 0 < 2 ^ ((numbers region.now).P + (numbers region.now).S) }
    ensures each { (i : ℕ) → i < length words.now → get_or answers.new i 0 ≡ cond (has (reading region.now) (get_or words.now i 0)) 1 0 }
    ensures long { length answers.new ≡ length answers.old }
    ensures later { drop (length words.now) answers.new ≡ drop (length words.now) answers.old }
{
    let n = words.len();
    if !any_set(region, words) {
        none_each(n, answers);
        return;
    }
    guess(region, words, hints);
    let mut roots: [u64; 64] = [0; 64];
    let mut suffixes: [u64; 64] = [0; 64];
    if meet_each(region, words, hints, &mut roots, &mut suffixes, answers) {
        ask(region, &roots[0..n], &suffixes[0..n], answers);
    }
}
