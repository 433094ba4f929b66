// Whether a region holds a word: the slot of its prefix, then the suffix in the vector or the trie of that slot.
#![tactic(auto)]

ghost use Rattle.std.specs.Prelude.{◌≡◌, ◌≢◌, ◌+◌, ◌^◌, ◌<◌, ◌≤◌};
ghost use Rattle.lists.specs.Lists.{mem};
ghost use Rattle.model.specs.Words.{prefix_of, suffix_of};
ghost use Rattle.model.specs.Reading.{has};
ghost use Rattle.region.specs.Areas.{numbers};
ghost use Rattle.region.specs.Seen.{seen};
ghost use Rattle.region.specs.Read.{suffixes, reading};
ghost use Rattle.region.specs.WellFormed.{WellFormed};

use lens::find::find;
use lens::read;
use strip::search;

pub mod each;

// Word div 2^S.
pub fn prefix_of(w: u64, bits: usize) -> usize
    requires { bits ≤ 40 }
    ensures { result ≡ prefix_of bits w }
{
    (w >> bits) as usize
}

// Word mod 2^S.
pub fn suffix_of(w: u64, bits: usize) -> u64
    requires { bits ≤ 40 }
    ensures { result ≡ suffix_of bits w }
{
    w % (1u64 << bits)
}

// Whether the vector in slot c holds the suffix s: its first entries, as many as its length says.
pub fn in_vector(region: &[u64], c: usize, s: u64) -> bool
    requires well_formed { WellFormed region.now }
    requires c_bound { c < (numbers region.now).C }
    requires is_vector { (seen (numbers region.now) region.now).kind c ≡ 1 }
    ensures { result ≡ mem s (suffixes (numbers region.now) (seen (numbers region.now) region.now) c) }
{
    let len = read::size(region, c);
    let start = region[12] as usize + 1024 * c;
    search::contains(&region[start..start + len], s)
}

// Whether the trie in slot c holds the suffix s: node stack and nodes are lent as one part.
pub fn in_trie(region: &[u64], c: usize, s: u64) -> bool
    requires well_formed { WellFormed region.now }
    requires c_bound { c < (numbers region.now).C }
    requires is_trie { (seen (numbers region.now) region.now).kind c ≡ 2 }
    requires s_bound { s < 2 ^ (numbers region.now).S }
    ensures { result ≡ mem s (suffixes (numbers region.now) (seen (numbers region.now) region.now) c) }
{
    let shape = read::shape(region);
    let root = read::link(region, c);
    let start = region[13] as usize;
    let end = region[15] as usize;
    trie::contains(&region[start..end], shape, root, s)
}

// Whether the container in slot c holds the suffix s.
fn in_slot(region: &[u64], c: usize, s: u64) -> bool
    requires well_formed { WellFormed region.now }
    requires c_bound { c < (numbers region.now).C }
    requires in_use { (seen (numbers region.now) region.now).kind c ≢ 0 }
    requires s_bound { s < 2 ^ (numbers region.now).S }
    ensures { result ≡ mem s (suffixes (numbers region.now) (seen (numbers region.now) region.now) c) }
{
    if read::kind(region, c) == 1 {
        in_vector(region, c, s)
    } else {
        in_trie(region, c, s)
    }
}

// Whether the word w is a member. The hint may be any number.
pub fn contains(region: &[u64], w: u64, hint: usize) -> bool
    requires well_formed { WellFormed region.now }
    requires w_bound { w < 2 ^ ((numbers region.now).P + (numbers region.now).S) }
    ensures { result ≡ has (reading region.now) w }
{
    let bits = read::s(region);
    match find(region, prefix_of(w, bits), hint) {
        Some(c) => in_slot(region, c, suffix_of(w, bits)),
        None => false,
    }
}
