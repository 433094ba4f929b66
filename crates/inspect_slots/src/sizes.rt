// The sum of the stored lengths.
ghost use Rattle.std.specs.Prelude.{◌≡◌, ◌≢◌, cond, [], ℕ, ◌*◌, ◌^◌, ◌<◌, ◌≤◌, eqb, length};
ghost use Rattle.lists.specs.Sums.{sum};
ghost use Rattle.region.specs.Geometry.{record_words};
ghost use Rattle.inspect_slots.specs.Slots.{slot_seen, kind_in, size_in, stored};

use make::geometry::RECORD_WORDS;

// The length of a slot in use, and 0 of a free one, whose length is not looked at. Kinds are numbers here: words that are not checked yet hold any.
fn size_if_used(kind: u64, size: u64) -> u64
    ensures { result ≡ cond (eqb kind 0) 0 size }
{
    if kind == 0 { 0 } else { size }
}

// The lengths of the slots in use, added up. At most 65,536 of at most 2^40 each: no sum wraps.
pub fn sizes(records: &[u64], slots: usize) -> u64
    requires records_len { (length records.now ≡ record_words * slots) × (slots ≤ 65536) }
    requires by_index { (c : ℕ) → c < slots → kind_in records.now c ≢ 0 → size_in records.now c ≤ 2 ^ 40 }
    ensures { result ≡ sum (stored (slot_seen [] [] [] records.now)) slots }
{
    let mut total: u64 = 0;
    for c in 0..slots {
        let at = RECORD_WORDS * c;
        total += size_if_used(records[at], records[at + 2]);
    }
    total
}
