// The container free stack.
ghost use Rattle.std.specs.Prelude.{◌≡◌, true, false, [], ◌-◌, ◌*◌, ◌<◌, ◌≤◌, min, length};
ghost use Rattle.region.specs.Geometry.{record_words};
ghost use Rattle.region.specs.WellFormed.{Stacked};
ghost use Rattle.inspect_slots.specs.Slots.{slot_numbers, slot_seen, kind_in, FreeStack};

use make::geometry::RECORD_WORDS;

// Whether slot c, if it is free, stands among the first slots - k places of the stack, at the one that it is linked to.
fn stacked(stack: &[u64], records: &[u64], slots: usize, k: usize, c: usize) -> bool
    requires stack_len { (length stack.now ≡ slots) × (length records.now ≡ record_words * slots) }
    requires k_le_slots { (k ≤ slots) × (c < slots) }
    ensures yes { result ≡ true → kind_in records.now c ≡ 0 → Stacked (slot_numbers 0 slots k) (slot_seen [] [] stack.now records.now) c }
    ensures no { result ≡ false → (kind_in records.now c ≡ 0 → Stacked (slot_numbers 0 slots k) (slot_seen [] [] stack.now records.now) c) → ⊥ }
{
    let at = RECORD_WORDS * c;
    if records[at] != 0 {
        return true;
    }
    let link = records[at + 3];
    let free = slots - k;
    link < free as u64 && stack[link as usize] == c as u64
}

// Whether the free slots are once in the stack, each linked to its place. The places are not walked: no two free slots are linked to
// the same one, so if they are as many as the places, each place has its slot.
pub fn stack_ok(stack: &[u64], records: &[u64], slots: usize, k: usize) -> bool
    requires stack_len { (length stack.now ≡ slots) × (length records.now ≡ record_words * slots) }
    requires k_le_slots { k ≤ slots }
    ensures yes { result ≡ true → FreeStack (slot_numbers 0 slots k) (slot_seen [] [] stack.now records.now) }
    ensures no { result ≡ false → FreeStack (slot_numbers 0 slots k) (slot_seen [] [] stack.now records.now) → ⊥ }
{
    let mut n: usize = 0;
    for c in 0..slots {
        if !stacked(stack, records, slots, k, c) {
            return false;
        }
        n += usize::from(records[RECORD_WORDS * c] == 0);
    }
    n == slots - k
}
