// Changes of a trie in a region: node stack and nodes are lent as one writable arena, then its length, the nodes in use and the member count are stored.
#![tactic(auto)]

ghost use Rattle.std.specs.Prelude.{◌≡◌, ℕ, ◌+◌, ◌^◌, ◌<◌, length, get_or};
ghost use Rattle.model.specs.Room.{threshold};
ghost use Rattle.region.specs.Areas.{numbers};
ghost use Rattle.region.specs.Seen.{seen};
ghost use Rattle.region.specs.WellFormed.{Ready, WellFormed};
ghost use Rattle.wordset_trie.specs.Settled.{Settled};
ghost use Rattle.wordset_trie.specs.Answers.{PutAs, PutEach, TakenAs};

use arena::NoRoom;
use lens::read;
use trie::{Removed, insert, remove};
use trie_each::insert_each;

// Stores the length of slot c, the nodes in use and the member count.
fn settle(region: &mut [u64], c: usize, len: usize, used: usize, count: u64)
    requires ready { Ready region.old }
    requires c_bound { c < (numbers region.old).C }
    ensures { Settled c len used count region.old region.new }
{
    let start = region[11] as usize;
    region[start + (4 * c + 2)] = len as u64;
    region[6] = used as u64;
    region[7] = count;
}

// Puts s into the trie in slot c: whether it is new. Refused exactly when the nodes that its members would need pass what is there.
pub fn put(region: &mut [u64], c: usize, s: u64) -> Result<bool, NoRoom>
    requires well_formed { WellFormed region.old }
    requires c_bound { c < (numbers region.old).C }
    requires c_value { (seen (numbers region.old) region.old).kind c ≡ 2 }
    requires s_bound { s < 2 ^ (numbers region.old).S }
    ensures { PutAs c s region.old result region.new }
{
    let root = read::link(region, c);
    let len = read::size(region, c);
    let shape = read::shape(region);
    let used = region[6] as usize;
    let grown = len + 1;
    let more = region[7] + 1;
    let start = region[13] as usize;
    let end = region[15] as usize;
    match insert(&mut region[start..end], shape, used, root, s) {
        Ok(Some(left)) => {
            settle(region, c, grown, left, more);
            Ok(true)
        }
        Ok(None) => Ok(false),
        Err(NoRoom) => Err(NoRoom),
    }
}

// Takes s out of the trie in slot c, which stays one: whether s was there.
pub fn take(region: &mut [u64], c: usize, s: u64) -> bool
    requires well_formed { WellFormed region.old }
    requires c_bound { c < (numbers region.old).C }
    requires c_value { (seen (numbers region.old) region.old).kind c ≡ 2 }
    requires s_bound { s < 2 ^ (numbers region.old).S }
    requires threshold_bound { threshold + 1 < (seen (numbers region.old) region.old).size c }
    ensures { TakenAs c s region.old result region.new }
{
    let root = read::link(region, c);
    let len = read::size(region, c);
    let shape = read::shape(region);
    let used = region[6] as usize;
    let left = len - 1;
    let fewer = region[7] - 1;
    let start = region[13] as usize;
    let end = region[15] as usize;
    match remove(&mut region[start..end], shape, used, root, s) {
        Removed::Gone(rest) => {
            settle(region, c, left, rest, fewer);
            true
        }
        Removed::Last(_) => true, // not with so many members
        Removed::Absent => false,
    }
}

// Puts suffixes into the trie in slot c, in order, until one finds no room: the arena is lent once and the counts stored once. Answers how many were put.
pub fn put_each(region: &mut [u64], c: usize, suffixes: &[u64]) -> usize
    requires well_formed { WellFormed region.old }
    requires c_bound { c < (numbers region.old).C }
    requires c_value { (seen (numbers region.old) region.old).kind c ≡ 2 }
    requires by_index { (i : ℕ) → i < length suffixes.now → get_or suffixes.now i 0 < 2 ^ (numbers region.old).S }
    ensures { PutEach c suffixes.now region.old result region.new }
{
    let root = read::link(region, c);
    let len = read::size(region, c);
    let count = region[7];
    let shape = read::shape(region);
    let used = region[6] as usize;
    let start = region[13] as usize;
    let end = region[15] as usize;
    let many = insert_each(&mut region[start..end], shape, used, root, suffixes);
    settle(
        region,
        c,
        len + many.added,
        many.used,
        count + many.added as u64,
    );
    many.done
}
