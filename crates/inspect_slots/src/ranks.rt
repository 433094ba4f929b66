// Prefixes, ranks and records agree.
ghost use Rattle.std.specs.Prelude.{◌≡◌, true, false, [], ◌*◌, ◌^◌, ◌<◌, ◌≤◌, min, length};
ghost use Rattle.region.specs.Geometry.{bitmap_words, record_words};
ghost use Rattle.region.specs.WellFormed.{Placed};
ghost use Rattle.inspect_slots.specs.Slots.{slot_numbers, slot_seen, BorneAt, AllBorne, InUse};

use bitvector::word;
use make::geometry::RECORD_WORDS;

// 2^P: one more than the greatest prefix.
fn prefixes_end(p: u64) -> usize
    requires { p ≤ 24 }
    ensures { result ≡ 2 ^ p }
{
    1usize << p
}

// Whether the prefix p, of rank n, is borne by the record at place n. Words are compared before they are indices.
fn borne_at(ranks: &[u64], records: &[u64], slots: usize, k: usize, p: usize, n: usize) -> bool
    requires ranks_len { (length ranks.now ≡ slots) × (length records.now ≡ record_words * slots) }
    requires k_le_slots { k ≤ slots }
    ensures yes { result ≡ true → BorneAt slots k ranks.now records.now p n }
    ensures no { result ≡ false → BorneAt slots k ranks.now records.now p n → ⊥ }
{
    if n >= k {
        return false;
    }
    let slot = ranks[n];
    if slot >= slots as u64 {
        return false;
    }
    let at = RECORD_WORDS * slot as usize;
    records[at] != 0 && records[at + 1] == p as u64
}

// Whether k prefixes are set, each borne by the record at its rank. What is left of word j is kept by itself: a clear word costs one
// look, and a set bit no second one.
fn all_borne(bitmap: &[u64], ranks: &[u64], records: &[u64], p: u64, slots: usize, k: usize) -> bool
    requires bitmap_len { (length bitmap.now ≡ bitmap_words p) × (p ≤ 24) }
    requires ranks_len { (length ranks.now ≡ slots) × (length records.now ≡ record_words * slots) }
    requires k_le_slots { k ≤ slots }
    ensures yes { result ≡ true → AllBorne p slots k bitmap.now ranks.now records.now }
    ensures no { result ≡ false → AllBorne p slots k bitmap.now ranks.now records.now → ⊥ }
{
    let end = prefixes_end(p);
    let mut j: usize = 0;
    let mut left = bitmap[0];
    let mut rank: usize = 0;
    loop {
        if left == 0 {
            j += 1;
            if j >= bitmap.len() {
                break;
            }
            left = bitmap[j];
            continue;
        }
        let b = word::lowest(left);
        let i = j * 64 + b;
        if i >= end {
            return false;
        }
        if !borne_at(ranks, records, slots, k, i, rank) {
            return false;
        }
        left = word::without(left, b);
        rank += 1;
    }
    rank == k
}

// Whether each slot is free, a vector or a trie, and k are in use.
fn in_use(records: &[u64], slots: usize, k: usize) -> bool
    requires { length records.now ≡ record_words * slots }
    ensures yes { result ≡ true → InUse slots k records.now }
    ensures no { result ≡ false → InUse slots k records.now → ⊥ }
{
    let mut n: usize = 0;
    for c in 0..slots {
        let kind = records[RECORD_WORDS * c];
        if kind > 2 {
            return false;
        }
        n += usize::from(kind != 0);
    }
    n == k
}

// Whether prefixes, ranks and records agree. That each record in use stands at its rank is not looked for: k prefixes have each
// a record of their own, so if k records are in use there is no other.
pub fn ranks_ok(
    bitmap: &[u64],
    ranks: &[u64],
    records: &[u64],
    p: u64,
    slots: usize,
    k: u64,
) -> bool
    requires bitmap_len { (length bitmap.now ≡ bitmap_words p) × (p ≤ 24) }
    requires ranks_len { (length ranks.now ≡ slots) × (length records.now ≡ record_words * slots) }
    ensures yes { result ≡ true → Placed (slot_numbers p slots k) (slot_seen bitmap.now ranks.now [] records.now) }
    ensures no { result ≡ false → Placed (slot_numbers p slots k) (slot_seen bitmap.now ranks.now [] records.now) → ⊥ }
{
    // with more in use than there are, the rank table would be overrun
    if k > slots as u64 {
        return false;
    }
    let used = k as usize;
    all_borne(bitmap, ranks, records, p, slots, used) && in_use(records, slots, used)
}
