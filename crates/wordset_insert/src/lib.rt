// Inserts a word into a region: the prefix's bit, then the slot at its rank, then the vector or the trie there.
#![tactic(auto)]

ghost use Rattle.std.specs.Prelude.{◌≢◌, ◌+◌, ◌^◌, ◌<◌};
ghost use Rattle.model.specs.Words.{joined};
ghost use Rattle.region.specs.Areas.{numbers};
ghost use Rattle.region.specs.Seen.{seen};
ghost use Rattle.region.specs.WellFormed.{WellFormed};
ghost use Rattle.wordset_insert.specs.Answers.{InsertedAs};

use arena::NoRoom;
use lens::find::find;
use lens::read;
use strip::trievec::TrieVec;
use wordset_cross::grow;
use wordset_lookup::{in_vector, prefix_of, suffix_of};
use wordset_slots::open;
use wordset_trie::put;
use wordset_vector::push;

// Inserts the word of slot c's prefix and the suffix s, as `insert` does: for words under one prefix its slot is found once.
pub fn insert_at(region: &mut [u64], c: usize, s: u64) -> Result<bool, NoRoom>
    requires well_formed { WellFormed region.old }
    requires c_bound { c < (numbers region.old).C }
    requires c_nonzero { (seen (numbers region.old) region.old).kind c ≢ 0 }
    requires s_bound { s < 2 ^ (numbers region.old).S }
    ensures { InsertedAs (joined (numbers region.old).S ((seen (numbers region.old) region.old).prefix c) s) region.old result region.new }
{
    if read::kind(region, c) != 1 {
        return put(region, c, s);
    }
    if in_vector(region, c, s) {
        return Ok(false);
    }
    if read::size(region, c) < TrieVec::THRESHOLD {
        push(region, c, s);
        return Ok(true);
    }
    grow(region, c, s)?;
    Ok(true)
}

// Inserts the word w: whether it is new. The hint, any number, is where its container may stand. Refused exactly when the set with it would not fit; then nothing is changed.
pub fn insert(region: &mut [u64], w: u64, hint: usize) -> Result<bool, NoRoom>
    requires well_formed { WellFormed region.old }
    requires w_bound { w < 2 ^ ((numbers region.old).P + (numbers region.old).S) }
    ensures { InsertedAs w region.old result region.new }
{
    let bits = read::s(region);
    let p = prefix_of(w, bits);
    let s = suffix_of(w, bits);
    match find(region, p, hint) {
        Some(c) => insert_at(region, c, s),
        None => {
            if read::k(region) >= read::c(region) {
                return Err(NoRoom);
            }
            open(region, p, s, hint);
            Ok(true)
        }
    }
}
