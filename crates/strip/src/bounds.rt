// Whether every entry is below a bound.
ghost use Rattle.std.specs.Prelude.{◌≡◌, ℕ, ◌<◌, true, nat_lt};
ghost use Rattle.lists.specs.Lists.{all};

// All bits of all entries: no entry is above it.
fn joined(entries: &[u64]) -> u64
    ensures { (b : ℕ) → result < b → all (λ x. nat_lt x b) entries.now ≡ true }
{
    let mut bits: u64 = 0;
    for entry in entries {
        bits |= *entry;
    }
    bits
}

// Entry by entry.
fn each_below(entries: &[u64], bound: u64) -> bool
    ensures { result ≡ all (λ x. nat_lt x bound) entries.now }
{
    entries.iter().all(|entry| *entry < bound)
}

// The joined bits tell at once where the bound is a power of two, as it is in a region that is well formed.
pub fn below(entries: &[u64], bound: u64) -> bool
    ensures { result ≡ all (λ x. nat_lt x bound) entries.now }
{
    joined(entries) < bound || each_below(entries, bound)
}
