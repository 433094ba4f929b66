// The check of the vectors: 1 to 1,024 distinct suffixes below 2^S, on any contents. Only a vector's first entries are looked at, as many as its length says.
#![tactic(auto)]

ghost use Rattle.std.specs.Prelude.{◌≡◌, true, false, ℕ, ◌^◌, ◌<◌, ◌≤◌, ltb};
ghost use Rattle.lists.specs.Lists.{all, Ascending, Distinct};
ghost use Rattle.region.specs.Areas.{numbers};
ghost use Rattle.region.specs.Seen.{seen};
ghost use Rattle.region.specs.WellFormed.{Ready, Vector};

use lens::read;
use strip::bounds::below;
use strip::differ::{distinct, rising};
use strip::trievec::TrieVec;

// So many strips are fetched together.
const AHEAD: usize = 16;

// Whether suffixes that ascend are below a bound: the last one says so for all.
fn last_below(suffixes: &[u64], bound: u64) -> bool
    requires { Ascending suffixes.now }
    ensures { result ≡ all (λ x. ltb x bound) suffixes.now }
{
    match suffixes.last() {
        Some(last) => *last < bound,
        None => true,
    }
}

// Whether suffixes are distinct and below 2^bits. Those that ascend are told by one pass.
fn suffixes_ok(suffixes: &[u64], bits: usize) -> bool
    requires { bits ≤ 40 }
    ensures yes { result ≡ true → (all (λ x. ltb x (2 ^ bits)) suffixes.now ≡ true) × Distinct suffixes.now }
    ensures no { result ≡ false → (all (λ x. ltb x (2 ^ bits)) suffixes.now ≡ true) × Distinct suffixes.now → ⊥ }
{
    let bound = 1u64 << bits;
    if rising(suffixes) {
        last_below(suffixes, bound)
    } else {
        below(suffixes, bound) && distinct(suffixes)
    }
}

// Whether slot c holds what a vector may hold.
fn vector_ok(region: &[u64], c: usize) -> bool
    requires ready { Ready region.now }
    requires c_bound { c < (numbers region.now).C }
    ensures yes { result ≡ true → Vector (numbers region.now) (seen (numbers region.now) region.now) c }
    ensures no { result ≡ false → Vector (numbers region.now) (seen (numbers region.now) region.now) c → ⊥ }
{
    let len = read::size(region, c);
    if len == 0 || len > TrieVec::THRESHOLD {
        return false;
    }
    let start = region[12] as usize + 1024 * c;
    let end = start + len;
    suffixes_ok(&region[start..end], read::s(region))
}

// Whether the first entry of each vector from slot c on, up to 16 of them, is below 2^S: strips lie far apart, and so the waits for memory overlap.
fn firsts_ok(region: &[u64], c: usize) -> bool
    requires { Ready region.now }
    ensures no { result ≡ false → ((c : ℕ) → c < (numbers region.now).C → (seen (numbers region.now) region.now).kind c ≡ 1 → Vector (numbers region.now) (seen (numbers region.now) region.now) c) → ⊥ }
{
    let end = read::c(region).min(c.saturating_add(AHEAD));
    let bound = 1u64 << read::s(region);
    for d in c..end {
        if read::kind(region, d) == 1 && read::entry(region, d, 0) >= bound {
            return false;
        }
    }
    true
}

// Whether every vector holds what a vector may hold.
pub fn vectors_ok(region: &[u64]) -> bool
    requires { Ready region.now }
    ensures yes { result ≡ true → (c : ℕ) → c < (numbers region.now).C → (seen (numbers region.now) region.now).kind c ≡ 1 → Vector (numbers region.now) (seen (numbers region.now) region.now) c }
    ensures no { result ≡ false → ((c : ℕ) → c < (numbers region.now).C → (seen (numbers region.now) region.now).kind c ≡ 1 → Vector (numbers region.now) (seen (numbers region.now) region.now) c) → ⊥ }
{
    let slots = read::c(region);
    for c in 0..slots {
        if c % AHEAD == 0 && !firsts_ok(region, c) {
            return false;
        }
        if read::kind(region, c) == 1 && !vector_ok(region, c) {
            return false;
        }
    }
    true
}
