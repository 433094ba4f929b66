// Whether entries differ. Each entry leaves two marks; only where both of an entry's marks are there already are the entries before it searched.
ghost use Rattle.std.specs.Prelude.{◌≡◌, ◌<◌, true, false, length};
ghost use Rattle.lists.specs.Lists.{mem, different, Ascending, Distinct};
ghost use Rattle.strip.specs.Marks.{near, far, marked, Marks, Marking};

use super::search;

// Below this many entries the search of each is quicker than clearing the marks.
const FEW: usize = 32;

// From this many entries on a pass without branches is quicker, where they ascend.
const MANY: usize = 64;

// The place of an entry's first mark.
fn near_of(x: u64) -> usize
    ensures { result ≡ near x }
{
    (x % 8191) as usize
}

// The place of its second.
fn far_of(x: u64) -> usize
    ensures { result ≡ far x }
{
    (8192 + x / 8191 % 8191) as usize
}

// Whether both marks of x are there.
fn is_marked(marks: &[u8; 16384], x: u64) -> bool
    ensures { result ≡ marked marks.now x }
{
    marks[near_of(x)] == 1 && marks[far_of(x)] == 1
}

// Leaves the marks of x.
fn mark(marks: &mut [u8; 16384], x: u64)
    ensures { Marking marks.old x marks.new }
{
    marks[near_of(x)] = 1;
    marks[far_of(x)] = 1;
}

// Whether x stands among the entries before it, whose marks are there.
fn repeats(before: &[u64], marks: &[u8; 16384], x: u64) -> bool
    requires { Marks before.now marks.now }
    ensures { result ≡ mem x before.now }
{
    is_marked(marks, x) && search::contains(before, x)
}

// By marks. What the marks hold before does not matter: one too many costs a search.
fn distinct_marked(entries: &[u64], marks: &mut [u8; 16384]) -> bool
    ensures yes { result ≡ true → Distinct entries.now }
    ensures no { result ≡ false → Distinct entries.now → ⊥ }
{
    for (j, &x) in entries.iter().enumerate() {
        if repeats(&entries[..j], marks, x) {
            return false;
        }
        mark(marks, x);
    }
    true
}

// By a search of the entries before each.
fn distinct_searched(entries: &[u64]) -> bool
    ensures yes { result ≡ true → Distinct entries.now }
    ensures no { result ≡ false → Distinct entries.now → ⊥ }
{
    for (i, &x) in entries.iter().enumerate() {
        if search::in_block(&entries[..i], x) {
            return false;
        }
    }
    true
}

// Entry by entry, up to the first that does not rise.
fn rising_each(entries: &[u64]) -> bool
    ensures yes { result ≡ true → Ascending entries.now }
    ensures no { result ≡ false → Ascending entries.now → ⊥ }
{
    entries.is_sorted_by(|x, y| *x < *y)
}

// Without a branch for each, so that the compiler takes two to a register. A step up by at most 2^48 leaves the upper 16 bits of the wrapped difference set; 2^15 such steps from below 2^63 do not reach 2^64, so none went round. A suffix has at most 40 bits.
fn rising_gently(entries: &[u64]) -> bool
    requires { 0 < length entries.now }
    ensures { result ≡ true → Ascending entries.now }
{
    if entries.len() > 32768 || entries[0] >> 63 != 0 {
        return false;
    }
    let mut common: u64 = u64::MAX;
    for i in 1..entries.len() {
        common &= entries[i - 1].wrapping_sub(entries[i]);
    }
    common >> 48 == 65535
}

// Whether entries ascend strictly. Many are taken together, but not where the first few show already that they are in no order.
pub fn rising(entries: &[u64]) -> bool
    ensures yes { result ≡ true → Ascending entries.now }
    ensures no { result ≡ false → Ascending entries.now → ⊥ }
{
    if entries.len() >= MANY && rising_each(&entries[..8]) && rising_gently(entries) {
        return true;
    }
    rising_each(entries)
}

// Entries that ascend are told at once: those of a vector that was a trie, or was filled in order.
pub fn distinct(entries: &[u64]) -> bool
    ensures yes { result ≡ true → Distinct entries.now }
    ensures no { result ≡ false → Distinct entries.now → ⊥ }
{
    if rising(entries) {
        true
    } else if entries.len() < FEW {
        distinct_searched(entries)
    } else {
        distinct_marked(entries, &mut [0; 16384])
    }
}

// Whether x stands at place k of some entries.
fn stands_at(entries: &[u64], k: usize, x: u64) -> bool
    ensures { result ≡ true → mem x entries.now ≡ true }
{
    k < entries.len() && entries[k] == x
}

// As repeats, but place k is looked at first.
fn known(before: &[u64], marks: &[u8; 16384], k: usize, x: u64) -> bool
    requires { Marks before.now marks.now }
    ensures { result ≡ mem x before.now }
{
    stands_at(before, k, x) || repeats(before, marks, x)
}

// The place of an entry's hint: a small table, so that little stack is used.
fn hint_of(x: u64) -> usize
    ensures { result < 1024 }
{
    (x % 1024) as usize
}

// By marks; an entry is counted where it stands first. A hint says where an entry with the same hint stood last, which spares most entries that repeat a search; a wrong one costs it.
fn different_marked(entries: &[u64], marks: &mut [u8; 16384], hints: &mut [u16; 1024]) -> usize
    ensures { result ≡ different entries.now }
{
    let mut n: usize = 0;
    for (i, &x) in entries.iter().enumerate() {
        let p = hint_of(x);
        let seen = known(&entries[..i], marks, hints[p] as usize, x);
        mark(marks, x);
        hints[p] = (i % 65536) as u16;
        if !seen {
            n += 1;
        }
    }
    n
}

// How many different entries there are.
pub fn different(entries: &[u64]) -> usize
    ensures { result ≡ different entries.now }
{
    different_marked(entries, &mut [0; 16384], &mut [0; 1024])
}
