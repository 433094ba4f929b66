// The map of a node: 256 bits by value, where byte x is bit x mod 64 of word x div 64.
ghost use Rattle.std.specs.Prelude.{◌≡◌, ◌++◌, ℕ, ◌+◌, ◌≤◌, eqb, length, take, drop};
ghost use Rattle.region.specs.Bits.{bit, rank};
ghost use Rattle.bitvector.specs.Maps.{Made, NextSet, Popped, WalkedInto, WordWalked};

use super::{bitmap, word};

#[derive(Clone, Copy, Debug, PartialEq, Eq)]
pub struct TinyBitvector {
    pub w: [u64; 4],
}

// The map after an insert, and whether the byte was absent before. It is no one struct with `Removed`: the two answers have opposite senses.
#[derive(Clone, Copy)]
pub struct Inserted {
    pub map: TinyBitvector,
    pub absent: bool,
}

// The map after a remove, and whether the byte was present before.
#[derive(Clone, Copy)]
pub struct Removed {
    pub map: TinyBitvector,
    pub present: bool,
}

// The least byte, and the map of the bytes after it.
#[derive(Clone, Copy)]
pub struct First {
    pub at: Option<usize>,
    pub rest: TinyBitvector,
}

// Is x among the words of a map? For a map in a local, as the two below: `contains_in(&m.w, x)` copies nothing.
pub fn contains_in(w: &[u64; 4], x: u8) -> bool
    ensures { result ≡ eqb (bit w.now x) 1 }
{
    bitmap::test(w, x as usize)
}

// Puts x into the words of a map in place, and says whether it was absent.
pub fn insert_in(w: &mut [u64; 4], x: u8) -> bool
    ensures { Made w.old x 1 w.new × (result ≡ eqb (bit w.old x) 0) }
{
    bitmap::set(w, x as usize)
}

// Takes x out of the words of a map in place, and says whether it was present.
pub fn remove_in(w: &mut [u64; 4], x: u8) -> bool
    ensures { Made w.old x 0 w.new × (result ≡ eqb (bit w.old x) 1) }
{
    bitmap::clear(w, x as usize)
}

// The walk over one word, whose bits are counted from base on: it goes on where the words before it came to.
fn walk_word(w: u64, base: usize, out: &mut [u8], at: usize) -> usize
    requires { (base + 64 ≤ 256) × (at + 64 ≤ length out.old) }
    ensures on { WordWalked w base at out.old result out.new }
    ensures few { result ≤ at + 64 }
{
    let mut left = w;
    let mut at = at;
    while left != 0 {
        out[at] = (base + word::lowest(left)) as u8;
        at += 1;
        left = word::without_lowest(left);
    }
    at
}

impl TinyBitvector {
    pub const WORDS: usize = 4;

    pub fn new() -> Self
        ensures { (x : ℕ) → bit result.w x ≡ 0 }
    {
        Self {
            w: [0; Self::WORDS],
        }
    }

    // The map that a node's first words hold.
    pub fn load(node: &[u64]) -> Self
        requires { 4 ≤ length node.now }
        ensures { result.w ≡ take 4 node.now }
    {
        Self {
            w: [node[0], node[1], node[2], node[3]],
        }
    }

    // The map back into a node's first words.
    pub fn store(self, node: &mut [u64])
        requires { 4 ≤ length node.old }
        ensures { node.new ≡ self.w ++ drop 4 node.old }
    {
        node[0] = self.w[0];
        node[1] = self.w[1];
        node[2] = self.w[2];
        node[3] = self.w[3];
    }

    pub fn is_empty(self) -> bool
        ensures { result ≡ eqb (rank self.w 256) 0 }
    {
        self.w[0] | self.w[1] | self.w[2] | self.w[3] == 0
    }

    pub fn count(self) -> usize
        ensures { result ≡ rank self.w 256 }
    {
        word::count(self.w[0])
            + word::count(self.w[1])
            + word::count(self.w[2])
            + word::count(self.w[3])
    }

    pub fn contains(self, x: u8) -> bool
        ensures { result ≡ eqb (bit self.w x) 1 }
    {
        let w = self.w;
        bitmap::test(&w, x as usize)
    }

    // Each word is made anew, with no index: so a map stays in registers.
    pub fn insert(self, x: u8) -> Inserted
        ensures { Made self.w x 1 result.map.w × (result.absent ≡ eqb (bit self.w x) 0) }
    {
        let absent = !self.contains(x);
        let i = x as usize;
        let a = word::with_in(self.w[0], 0, i);
        let b = word::with_in(self.w[1], 1, i);
        let c = word::with_in(self.w[2], 2, i);
        let d = word::with_in(self.w[3], 3, i);
        Inserted {
            map: Self { w: [a, b, c, d] },
            absent,
        }
    }

    // The answer comes from the bit itself: that a path to it exists says nothing.
    pub fn remove(self, x: u8) -> Removed
        ensures { Made self.w x 0 result.map.w × (result.present ≡ eqb (bit self.w x) 1) }
    {
        let present = self.contains(x);
        let i = x as usize;
        let a = word::without_in(self.w[0], 0, i);
        let b = word::without_in(self.w[1], 1, i);
        let c = word::without_in(self.w[2], 2, i);
        let d = word::without_in(self.w[3], 3, i);
        Removed {
            map: Self { w: [a, b, c, d] },
            present,
        }
    }

    // How many bytes below x are in the map.
    pub fn rank(self, x: u8) -> usize
        ensures { result ≡ rank self.w x }
    {
        let k = (x % 64) as usize;
        if x < 64 {
            return word::count_below(self.w[0], k);
        }
        let n1 = word::count(self.w[0]);
        if x < 128 {
            return n1 + word::count_below(self.w[1], k);
        }
        let n2 = n1 + word::count(self.w[1]);
        if x < 192 {
            return n2 + word::count_below(self.w[2], k);
        }
        n2 + word::count(self.w[2]) + word::count_below(self.w[3], k)
    }

    // Takes the least byte out, by trailing zeros. A walk is done by taking bytes out until there is nothing.
    pub fn pop_first(self) -> First
        ensures { Popped self.w result.at result.rest.w }
    {
        let a = self.w[0];
        let b = self.w[1];
        let c = self.w[2];
        let d = self.w[3];
        if a != 0 {
            let k = word::lowest(a);
            return First {
                at: Some(k),
                rest: Self {
                    w: [word::without(a, k), b, c, d],
                },
            };
        }
        if b != 0 {
            let k = word::lowest(b);
            return First {
                at: Some(64 + k),
                rest: Self {
                    w: [a, word::without(b, k), c, d],
                },
            };
        }
        if c != 0 {
            let k = word::lowest(c);
            return First {
                at: Some(128 + k),
                rest: Self {
                    w: [a, b, word::without(c, k), d],
                },
            };
        }
        if d != 0 {
            let k = word::lowest(d);
            return First {
                at: Some(192 + k),
                rest: Self {
                    w: [a, b, c, word::without(d, k)],
                },
            };
        }
        First {
            at: None,
            rest: self,
        }
    }

    // Writes the bytes of the map, ascending, by trailing zeros, and answers how many. What is left of a word is kept by itself: a clear word costs one look.
    pub fn walk(self, out: &mut [u8]) -> usize
        requires { 256 ≤ length out.old }
        ensures { WalkedInto self.w out.old result out.new }
    {
        let a = walk_word(self.w[0], 0, out, 0);
        let b = walk_word(self.w[1], 64, out, a);
        let c = walk_word(self.w[2], 128, out, b);
        walk_word(self.w[3], 192, out, c)
    }

    // The least byte of the map at or past `from`, by trailing zeros.
    pub fn next(self, from: usize) -> Option<usize>
        ensures { NextSet self.w from result }
    {
        let w = self.w;
        bitmap::next_set(&w, from)
    }
}
