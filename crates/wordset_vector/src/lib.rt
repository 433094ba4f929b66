// Changes of a vector in a region: its entries are lent as one writable strip, then its length and the member count are stored.
#![tactic(auto)]

ghost use Rattle.std.specs.Prelude.{◌≡◌, false, [], ◌∷◌, ◌++◌, ℕ, ◌+◌, ◌^◌, ◌<◌, ◌≤◌, length, get_or};
ghost use Rattle.lists.specs.Lists.{mem};
ghost use Rattle.model.specs.Room.{threshold};
ghost use Rattle.model.specs.Change.{placed, swap_out, with};
ghost use Rattle.region.specs.Areas.{numbers};
ghost use Rattle.region.specs.Seen.{seen};
ghost use Rattle.region.specs.Read.{suffixes as suffixes_of, reading};
ghost use Rattle.region.specs.WellFormed.{Ready, WellFormed};
ghost use Rattle.promises.specs.Reads.{ReadsAs};
ghost use Rattle.strip.specs.Entries.{gathered};
ghost use Rattle.wordset_vector.specs.Settled.{Settled};

use lens::read;
use strip::store;

// Stores the length of slot c and the member count.
fn settle(region: &mut [u64], c: usize, len: usize, count: u64)
    requires ready { Ready region.old }
    requires c_bound { c < (numbers region.old).C }
    ensures { Settled c len count region.old region.new }
{
    let start = region[11] as usize;
    region[start + (4 * c + 2)] = len as u64;
    region[7] = count;
}

// Appends s to the vector in slot c, which has room for it and does not hold it.
pub fn push(region: &mut [u64], c: usize, s: u64)
    requires well_formed { WellFormed region.old }
    requires c_bound { c < (numbers region.old).C }
    requires c_value { (seen (numbers region.old) region.old).kind c ≡ 1 }
    requires c_bound_2 { (seen (numbers region.old) region.old).size c < threshold }
    requires s_bound { s < 2 ^ (numbers region.old).S }
    requires c_value_2 { mem s (suffixes_of (numbers region.old) (seen (numbers region.old) region.old) c) ≡ false }
    ensures { ReadsAs region.old (with (reading region.old) (placed ((seen (numbers region.old) region.old).prefix c) 0 (suffixes_of (numbers region.old) (seen (numbers region.old) region.old) c ++ (s ∷ [])) (reading region.old).containers) (reading region.old).free) region.new }
{
    let len = read::size(region, c);
    let count = read::count(region);
    let grown = len + 1;
    let more = count + 1;
    let start = region[12] as usize + 1024 * c;
    store::append(&mut region[start..start + 1024], len, s);
    settle(region, c, grown, more);
}

// Inserts suffixes into the vector in slot c, which has room for all of them: the entries are lent once and the counts stored once.
pub fn push_all(region: &mut [u64], c: usize, suffixes: &[u64])
    requires well_formed { WellFormed region.old }
    requires c_bound { c < (numbers region.old).C }
    requires c_value { (seen (numbers region.old) region.old).kind c ≡ 1 }
    requires suffixes_bound { (seen (numbers region.old) region.old).size c + length suffixes.now ≤ threshold }
    requires by_index { (i : ℕ) → i < length suffixes.now → get_or suffixes.now i 0 < 2 ^ (numbers region.old).S }
    ensures { ReadsAs region.old (with (reading region.old) (placed ((seen (numbers region.old) region.old).prefix c) 0 (gathered (suffixes_of (numbers region.old) (seen (numbers region.old) region.old) c) suffixes.now) (reading region.old).containers) (reading region.old).free) region.new }
{
    let len = read::size(region, c);
    let count = read::count(region);
    let start = region[12] as usize + 1024 * c;
    let n = store::gather(&mut region[start..start + 1024], len, suffixes);
    settle(region, c, n, count + (n - len) as u64);
}

// Takes entry i out of the vector in slot c, which has another: the last one moves into the hole.
pub fn take(region: &mut [u64], c: usize, i: usize)
    requires well_formed { WellFormed region.old }
    requires c_bound { c < (numbers region.old).C }
    requires c_value { (seen (numbers region.old) region.old).kind c ≡ 1 }
    requires bound { 2 ≤ (seen (numbers region.old) region.old).size c }
    requires i_bound { i < (seen (numbers region.old) region.old).size c }
    ensures { ReadsAs region.old (with (reading region.old) (placed ((seen (numbers region.old) region.old).prefix c) 0 (swap_out ((seen (numbers region.old) region.old).entry c i) (suffixes_of (numbers region.old) (seen (numbers region.old) region.old) c)) (reading region.old).containers) (reading region.old).free) region.new }
{
    let len = read::size(region, c);
    let count = read::count(region);
    let left = len - 1;
    let fewer = count - 1;
    let start = region[12] as usize + 1024 * c;
    store::remove_at(&mut region[start..start + 1024], len, i);
    settle(region, c, left, fewer);
}
