// Removes a word from a region. The answer is whether the word was there: the entry found in the vector, the bit in the trie's last node.
#![tactic(auto)]

ghost use Rattle.std.specs.Prelude.{◌≡◌, ◌+◌, ◌^◌, ◌<◌};
ghost use Rattle.model.specs.Commands.{Code};
ghost use Rattle.region.specs.Areas.{numbers};
ghost use Rattle.region.specs.Seen.{seen};
ghost use Rattle.region.specs.WellFormed.{WellFormed};
ghost use Rattle.steps.specs.Commands.{Did};
ghost use Rattle.wordset_remove.specs.Answers.{LeftAs};

use lens::find::find as find_slot;
use lens::read;
use strip::search::find;
use strip::trievec::TrieVec;
use wordset_cross::shrink;
use wordset_lookup::{prefix_of, suffix_of};
use wordset_slots::close;

// Takes s out of the vector in slot c, if it is there: whether it was. Taking the last one frees the slot, whose rank may be the hint.
fn from_vector(region: &mut [u64], c: usize, s: u64, hint: usize) -> bool
    requires well_formed { WellFormed region.old }
    requires c_bound { c < (numbers region.old).C }
    requires is_vector { (seen (numbers region.old) region.old).kind c ≡ 1 }
    ensures { LeftAs c s region.old result region.new }
{
    let len = read::size(region, c);
    let start = region[12] as usize + 1024 * c;
    let Some(i) = find(&region[start..start + len], s) else {
        return false;
    };
    if len == 1 {
        close(region, c, hint);
    } else {
        wordset_vector::take(region, c, i);
    }
    true
}

// Takes s out of the trie in slot c, if it is there: whether it was. On falling to the threshold the trie becomes a vector.
fn from_trie(region: &mut [u64], c: usize, s: u64) -> bool
    requires well_formed { WellFormed region.old }
    requires c_bound { c < (numbers region.old).C }
    requires is_trie { (seen (numbers region.old) region.old).kind c ≡ 2 }
    requires s_bound { s < 2 ^ (numbers region.old).S }
    ensures { LeftAs c s region.old result region.new }
{
    if read::size(region, c) == TrieVec::THRESHOLD + 1 {
        shrink(region, c, s)
    } else {
        wordset_trie::take(region, c, s)
    }
}

// Removes the word w, if it is a member: whether it was one. The hint, any number, is where its container may stand. Removing the last suffix of a prefix frees its container.
pub fn remove(region: &mut [u64], w: u64, hint: usize) -> bool
    requires well_formed { WellFormed region.old }
    requires w_bound { w < 2 ^ ((numbers region.old).P + (numbers region.old).S) }
    ensures { Did Code.Remove w region.old result region.new }
{
    let bits = read::s(region);
    let p = prefix_of(w, bits);
    match find_slot(region, p, hint) {
        Some(c) => {
            let s = suffix_of(w, bits);
            if read::kind(region, c) == 1 {
                from_vector(region, c, s, hint)
            } else {
                from_trie(region, c, s)
            }
        }
        None => false,
    }
}
