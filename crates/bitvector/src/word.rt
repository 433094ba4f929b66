// One bit of one word, by shift and mask.
ghost use Rattle.std.specs.Prelude.{◌≡◌, ◌≢◌, ℕ, ◌%◌, ◌^◌, ◌≤◌, ◌<◌, eqb};
ghost use Rattle.std.specs.Int.Count.{ones};
ghost use Rattle.region.specs.Bits.{word_bit};
ghost use Rattle.bitvector.specs.Maps.{MadeIn, Lowest};

// Is bit k of w set?
pub fn test(w: u64, k: usize) -> bool
    requires { k < 64 }
    ensures { result ≡ eqb (word_bit w k) 1 }
{
    (w >> k) & 1 == 1
}

// w with bit k set. With and without stay two functions: the two masks have no plainer form in common.
pub fn with(w: u64, k: usize) -> u64
    requires { k < 64 }
    ensures here { word_bit result k ≡ 1 }
    ensures other { (j : ℕ) → j ≢ k → word_bit result j ≡ word_bit w j }
{
    w | (1u64 << k)
}

// w with bit k clear.
pub fn without(w: u64, k: usize) -> u64
    requires { k < 64 }
    ensures here { word_bit result k ≡ 0 }
    ensures other { (j : ℕ) → j ≢ k → word_bit result j ≡ word_bit w j }
{
    w & !(1u64 << k)
}

// Word j of a map, where bit i of the map is set: only word i div 64 changes.
pub fn with_in(w: u64, j: usize, i: usize) -> u64
    ensures { MadeIn w j i 1 result }
{
    if i / 64 == j {
        return with(w, i % 64);
    }
    w
}

// Word j of a map, where bit i of the map is cleared.
pub fn without_in(w: u64, j: usize, i: usize) -> u64
    ensures { MadeIn w j i 0 result }
{
    if i / 64 == j {
        return without(w, i % 64);
    }
    w
}

// The place of the lowest set bit of w.
pub fn lowest(w: u64) -> usize
    requires { w ≢ 0 }
    ensures { Lowest w result }
{
    u64::trailing_zeros(w) as usize
}

// w without its lowest set bit. The place is not asked for: a walk need not wait for it.
pub fn without_lowest(w: u64) -> u64
    requires { w ≢ 0 }
    ensures here { (k : ℕ) → Lowest w k → word_bit result k ≡ 0 }
    ensures other { (k : ℕ) → Lowest w k → (j : ℕ) → j ≢ k → word_bit result j ≡ word_bit w j }
    ensures less { result < w }
{
    w & (w - 1)
}

// How many bits of w are set.
pub fn count(w: u64) -> usize
    ensures is { result ≡ ones w }
    ensures few { result ≤ 64 }
{
    u64::count_ones(w) as usize
}

// How many bits of w below bit k are set.
pub fn count_below(w: u64, k: usize) -> usize
    requires { k < 64 }
    ensures is { result ≡ ones (w % 2 ^ k) }
    ensures few { result ≤ 64 }
{
    count(w & ((1u64 << k) - 1))
}
