// Opens containers for a block of words none of whose prefixes has one: the rank table is moved once for all, and not once for each.
#![tactic(auto)]

ghost use Rattle.std.specs.Prelude.{◌≡◌, ℕ, suc, ◌+◌, ◌^◌, ◌<◌, ◌≤◌, length, get_or};
ghost use Rattle.region.specs.Areas.{numbers};
ghost use Rattle.region.specs.Seen.{seen};
ghost use Rattle.region.specs.Read.{reading};
ghost use Rattle.region.specs.WellFormed.{Ready, WellFormed};
ghost use Rattle.promises.specs.Reads.{ReadsAs};
ghost use Rattle.wordset_slots.specs.Writes.{RanksBy};
ghost use Rattle.wordset_many.specs.Wedge.{place_in, Wedged};
ghost use Rattle.wordset_many.specs.Line.{prefix_at, LinedUp};
ghost use Rattle.wordset_many.specs.Many.{opened_all, OpenedAs};

use crate::line::line_up;
use crate::wedge::wedge;
use lens::read;
use wordset_lookup::{prefix_of, suffix_of};
use wordset_slots::write;

mod line;
mod wedge;

// Opens the rank table, of which k places are in use, for the slots of all keys.
fn ranks_apart(region: &mut [u64], k: usize, keys: &[u64])
    requires ready { Ready region.old }
    requires keys_len_bound { length keys.now ≤ 64 }
    requires keys_bound { k + length keys.now ≤ (numbers region.old).C }
    requires by_index { (j : ℕ) → j < length keys.now → place_in (get_or keys.now j 0) ≤ k }
    requires by_index_2 { (j : ℕ) → suc j < length keys.now → place_in (get_or keys.now j 0) ≤ place_in (get_or keys.now (suc j) 0) }
    ensures { RanksBy (Wedged k keys.now) region.old region.new }
{
    let start = region[9] as usize;
    let end = region[10] as usize;
    wedge(&mut region[start..end], k, keys);
}

// Opens a container for each word, by the keys that are lined up.
fn open_all(region: &mut [u64], words: &[u64], keys: &[u64])
    requires well_formed { WellFormed region.old }
    requires words_len_bound { length words.now ≤ 64 }
    requires keys_len { length keys.now ≡ length words.now }
    requires words_bound { (numbers region.old).k + length words.now ≤ (numbers region.old).C }
    requires by_index { (i : ℕ) → i < length words.now → get_or words.now i 0 < 2 ^ ((numbers region.old).P + (numbers region.old).S) }
    requires by_index_2 { (i : ℕ) → i < length words.now → (seen (numbers region.old) region.old).bit (prefix_at region.old words.now i) ≡ 0 }
    requires lined_up { LinedUp region.old words.now (length words.now) keys.now }
    ensures { ReadsAs region.old (opened_all words.now (length words.now) (reading region.old)) region.new }
{
    let k = read::k(region);
    let slots = read::c(region);
    let bits = read::s(region);
    let count = read::count(region);
    for (i, &w) in words.iter().enumerate() {
        let p = prefix_of(w, bits);
        let c = read::free(region, slots - (k + i + 1));
        write::fill(region, c, p, suffix_of(w, bits));
        write::mark(region, p);
    }
    ranks_apart(region, k, keys);
    write::counts(region, k + words.len(), count + words.len() as u64);
}

// Opens a container for each word, if there are slots for all and no two share a prefix: whether it was done. Each hint, any number, is the rank that its prefix may have.
pub fn open_new(region: &mut [u64], words: &[u64], hints: &[u64; 64]) -> bool
    requires well_formed { WellFormed region.old }
    requires words_len_bound { length words.now ≤ 64 }
    requires by_index { (i : ℕ) → i < length words.now → get_or words.now i 0 < 2 ^ ((numbers region.old).P + (numbers region.old).S) }
    requires by_index_2 { (i : ℕ) → i < length words.now → (seen (numbers region.old) region.old).bit (prefix_at region.old words.now i) ≡ 0 }
    ensures { OpenedAs words.now (length words.now) region.old result region.new }
{
    let n = words.len();
    if read::c(region) - read::k(region) < n {
        return false;
    }
    let mut keys: [u64; 64] = [0; 64];
    if !line_up(region, words, hints, &mut keys) {
        return false;
    }
    open_all(region, words, &keys[..n]);
    true
}
