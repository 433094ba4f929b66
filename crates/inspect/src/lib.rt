// The region check: yes exactly when a slice of words is a well-formed region, on any slice of any length and contents.
// The order is that of what each test leans on: the header, the slots, the nodes, then what the containers hold.
#![tactic(auto)]

ghost use Rattle.std.specs.Prelude.{◌≡◌, true, false, ◌≤◌, length};
ghost use Rattle.model.specs.Words.{bytes_of};
ghost use Rattle.model.specs.Reading.{walk};
ghost use Rattle.region.specs.Areas.{numbers};
ghost use Rattle.region.specs.Seen.{seen};
ghost use Rattle.region.specs.Read.{read};
ghost use Rattle.region.specs.WellFormed.{Placed, Held, Ready, WellFormed};
ghost use Rattle.arena_check.specs.Answers.{CheckedAs};
ghost use Rattle.lens.specs.Parts.{arena_of};
ghost use Rattle.inspect_slots.specs.Slots.{FreeStack};
ghost use Rattle.promises.specs.Answers.{checked};
ghost use Rattle.promises.specs.Check.{CheckPromise};

use arena_check::Sound;
use inspect_slots::header::header_ok;
use inspect_slots::ranks::ranks_ok;
use inspect_slots::sizes::sizes;
use inspect_slots::stack::stack_ok;
use inspect_tries::tries_ok;
use inspect_vectors::vectors_ok;
use lens::read;
use promises::Malformed;

// Whether prefixes, ranks and records agree.
fn slots_placed(region: &[u64]) -> bool
    requires { Ready region.now }
    ensures yes { result ≡ true → Placed (numbers region.now) (seen (numbers region.now) region.now) }
    ensures no { result ≡ false → Placed (numbers region.now) (seen (numbers region.now) region.now) → ⊥ }
{
    let bitmap = region[8] as usize;
    let ranks = region[9] as usize;
    let stack = region[10] as usize;
    let records = region[11] as usize;
    let entries = region[12] as usize;
    let slots = region[3] as usize;
    ranks_ok(
        &region[bitmap..ranks],
        &region[ranks..stack],
        &region[records..entries],
        region[1],
        slots,
        region[5],
    )
}

// Whether the free slots are once in the stack, each linked to its place.
fn slots_stacked(region: &[u64]) -> bool
    requires ready { Ready region.now }
    requires placed { Placed (numbers region.now) (seen (numbers region.now) region.now) }
    ensures yes { result ≡ true → FreeStack (numbers region.now) (seen (numbers region.now) region.now) }
    ensures no { result ≡ false → FreeStack (numbers region.now) (seen (numbers region.now) region.now) → ⊥ }
{
    let stack = region[10] as usize;
    let records = region[11] as usize;
    let entries = region[12] as usize;
    let slots = region[3] as usize;
    let k = region[5] as usize;
    stack_ok(&region[stack..records], &region[records..entries], slots, k)
}

// Whether the nodes hang together and the free ones are stacked.
fn nodes_hung(region: &[u64]) -> Option<Sound>
    requires { Ready region.now }
    ensures { CheckedAs (numbers region.now).N (bytes_of (numbers region.now).S) (numbers region.now).used (arena_of (numbers region.now) region.now) result }
{
    let start = region[13] as usize;
    let end = region[15] as usize;
    let used = region[6] as usize;
    let shape = read::shape(region);
    arena_check::well_formed(&region[start..end], shape.slots, used, shape.b)
}

// Whether the member count is true, where each stored length is.
fn count_true(region: &[u64]) -> bool
    requires ready { Ready region.now }
    requires placed { Placed (numbers region.now) (seen (numbers region.now) region.now) }
    requires held { Held (numbers region.now) (seen (numbers region.now) region.now) }
    ensures yes { result ≡ true → length (walk (read (numbers region.now) (seen (numbers region.now) region.now))) ≡ (numbers region.now).count }
    ensures no { result ≡ false → length (walk (read (numbers region.now) (seen (numbers region.now) region.now))) ≡ (numbers region.now).count → ⊥ }
{
    let records = region[11] as usize;
    let entries = region[12] as usize;
    let slots = region[3] as usize;
    sizes(&region[records..entries], slots) == region[7]
}

// Whether what lies behind the slots is well formed: the nodes, and what the containers hold.
fn contents_ok(region: &[u64]) -> bool
    requires ready { Ready region.now }
    requires placed { Placed (numbers region.now) (seen (numbers region.now) region.now) }
    requires stacked { FreeStack (numbers region.now) (seen (numbers region.now) region.now) }
    ensures yes { result ≡ true → WellFormed region.now }
    ensures no { result ≡ false → WellFormed region.now → ⊥ }
{
    match nodes_hung(region) {
        Some(nodes) => vectors_ok(region) && tries_ok(region, nodes) && count_true(region),
        None => false,
    }
}

// Whether the region is well formed.
pub fn well_formed(region: &[u64]) -> bool
    ensures yes { result ≡ true → WellFormed region.now }
    ensures no { result ≡ false → WellFormed region.now → ⊥ }
{
    header_ok(region) && slots_placed(region) && slots_stacked(region) && contents_ok(region)
}

// Check a region.
pub fn check(region: &[u64]) -> Result<(), Malformed>
    ensures { CheckPromise region.now (checked result) }
{
    if !well_formed(region) {
        return Err(Malformed);
    }
    Ok(())
}
