// A suffix as bytes, the most significant first (src/sliced_int.rs of the Rust).
#![tactic(auto)]

ghost use Rattle.std.specs.Prelude.{◌≡◌, ◌<◌, ◌≤◌, ◌*◌, ◌^◌, get_or, length, min};
ghost use Rattle.region.specs.Tries.{byte_of};
ghost use Rattle.sliced_int.specs.Sliced.{Sliced, number_in, value_of};
ghost use Rattle.sliced_int.specs.Ordered.{order_of};

use std::cmp::Ordering;

// Byte j of a suffix of b bytes.
pub fn byte(s: u64, b: usize, j: usize) -> usize
    requires { (j < b) × (b ≤ 8) }
    ensures { result ≡ byte_of b s j }
{
    let behind = b - 1 - j;
    ((s >> (8 * behind)) & 255) as usize
}

// Two arrays of one length, as the numbers that their bytes make: the first byte that differs decides. They may be longer than a suffix.
pub fn compare_bytes<const BYTES: usize>(mine: [u8; BYTES], theirs: [u8; BYTES]) -> Ordering
    ensures { result ≡ order_of (number_in mine.entry (length mine.entry)) (number_in theirs.entry (length theirs.entry)) }
{
    mine.cmp(&theirs)
}

// The first len of the bytes are the suffix, which has at most 40 bits: `b` is known when a call comes, so len is a number and no const parameter.
#[derive(Clone, Copy, Debug, PartialEq, Eq)]
pub struct SlicedInt {
    pub bytes: [u8; 5],
    pub len: usize,
}

impl SlicedInt {
    pub fn from_int(s: u64, b: usize) -> Self
        requires { b ≤ 5 }
        ensures { Sliced b s result }
    {
        let mut bytes = [0u8; 5];
        for j in 0..b {
            bytes[j] = byte(s, b, j) as u8;
        }
        Self { bytes, len: b }
    }

    pub fn to_int(self) -> u64
        requires { self.len ≤ 5 }
        ensures { result ≡ value_of self }
    {
        let mut s = 0;
        for &x in &self.bytes[..self.len] {
            s = s * 256 + u64::from(x);
        }
        s
    }

    pub fn get(self, j: usize) -> usize
        requires { (j < self.len) × (self.len ≤ 5) }
        ensures { result ≡ get_or self.bytes j 0 }
    {
        self.bytes[j] as usize
    }

    // As numbers, whatever the lengths are: one above 5 says that zero bytes stand behind the five, and those behind both decide nothing.
    pub fn compare(self, other: Self) -> Ordering
        ensures { result ≡ order_of (value_of self) (value_of other) }
    {
        if self.len <= 5 && other.len == self.len {
            return self.compare_same_len(other);
        }
        let mine = self.len.saturating_sub(5);
        let theirs = other.len.saturating_sub(5);
        let number = self.front(mine.saturating_sub(theirs));
        number.cmp(&other.front(theirs.saturating_sub(mine)))
    }

    // Of one length, from the most significant byte: the first that differs decides.
    pub fn compare_same_len(self, other: Self) -> Ordering
        requires { (self.len ≤ 5) × (other.len ≡ self.len) }
        ensures { result ≡ order_of (value_of self) (value_of other) }
    {
        self.bytes[..self.len].cmp(&other.bytes[..other.len])
    }

    // The number that the bytes make, with so many zero bytes behind it; five stand for more, since beside a number of five bytes they decide already.
    fn front(self, zeros: usize) -> u128
        ensures { result ≡ number_in self.bytes (min self.len 5) * 2 ^ (8 * min zeros 5) }
    {
        let len = self.len.min(5);
        let n = Self { len, ..self }.to_int();
        u128::from(n) << (8 * zeros.min(5))
    }
}

#[cfg(test)]
mod tests;
