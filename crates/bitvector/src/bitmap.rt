// A map of bits over words that the caller lends: bit i is bit i mod 64 of word i div 64.
ghost use Rattle.std.specs.Prelude.{◌≡◌, ◌*◌, ◌^◌, ◌≤◌, ◌<◌, eqb, length};
ghost use Rattle.region.specs.Bits.{bit, rank};
ghost use Rattle.bitvector.specs.Maps.{Made, NextSet};

use super::word;

// Is bit i set?
pub fn test(s: &[u64], i: usize) -> bool
    requires { i < length s.now * 64 }
    ensures { result ≡ eqb (bit s.now i) 1 }
{
    word::test(s[i / 64], i % 64)
}

// Sets bit i, and says whether it was clear. Setting and clearing stay two functions: one that is passed the bit would branch at each word.
pub fn set(s: &mut [u64], i: usize) -> bool
    requires { i < length s.old * 64 }
    ensures made { Made s.old i 1 s.new }
    ensures was { result ≡ eqb (bit s.old i) 0 }
{
    let w = s[i / 64];
    s[i / 64] = word::with(w, i % 64);
    !word::test(w, i % 64)
}

// Clears bit i, and says whether it was set.
pub fn clear(s: &mut [u64], i: usize) -> bool
    requires { i < length s.old * 64 }
    ensures made { Made s.old i 0 s.new }
    ensures was { result ≡ eqb (bit s.old i) 1 }
{
    let w = s[i / 64];
    s[i / 64] = word::without(w, i % 64);
    word::test(w, i % 64)
}

// How many bits are set. A plain counting loop, which the compiler makes wide.
pub fn count(s: &[u64]) -> usize
    requires { length s.now * 64 < 2 ^ 64 }
    ensures { result ≡ rank s.now (length s.now * 64) }
{
    let mut sum = 0;
    for &w in s {
        sum += word::count(w);
    }
    sum
}

// How many bits below bit i are set.
pub fn rank(s: &[u64], i: usize) -> usize
    requires { i < length s.now * 64 }
    ensures { result ≡ rank s.now i }
{
    count(&s[..i / 64]) + word::count_below(s[i / 64], i % 64)
}

// The least set bit at or past `from`, word by word.
pub fn next_set(s: &[u64], from: usize) -> Option<usize>
    requires { length s.now * 64 < 2 ^ 64 }
    ensures { NextSet s.now from result }
{
    let k = from / 64;
    if k >= s.len() {
        return None;
    }
    let w = s[k] & (u64::MAX << (from % 64));
    if w != 0 {
        return Some(k * 64 + word::lowest(w));
    }
    for i in k + 1..s.len() {
        if s[i] != 0 {
            return Some(i * 64 + word::lowest(s[i]));
        }
    }
    None
}
