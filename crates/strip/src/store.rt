// Changes of a strip: the first entries of a strip are a vector's suffixes, and what stands behind them is kept. A strip and how much of it is in use: nothing is allocated.
ghost use Rattle.std.specs.Prelude.{◌≡◌, suc, ◌+◌, ◌<◌, ◌≤◌, false, [], ◌∷◌, ◌++◌, length, take, drop, slice_index};
ghost use Rattle.lists.specs.Lists.{mem};
ghost use Rattle.strip.specs.Entries.{Appended, Gathered, Removed};

use super::search::contains;

// Puts s behind the first len entries.
pub fn append(strip: &mut [u64], len: usize, s: u64)
    requires { len < length strip.old }
    ensures { Appended strip.old len s strip.new }
{
    strip[len] = s;
}

// Takes entry i out of the first len, where no entry before it is the same: the last one moves into the hole.
pub fn remove_at(strip: &mut [u64], len: usize, i: usize)
    requires i_lt_len { (i < len) × (len ≤ length strip.old) }
    requires strip_value { mem (slice_index strip.old i) (take i strip.old) ≡ false }
    ensures { Removed strip.old len i strip.new }
{
    strip[i] = strip[len - 1];
}

// Writes `from` over the first entries.
pub fn copy_in(strip: &mut [u64], from: &[u64])
    requires { length from.now ≤ length strip.old }
    ensures { strip.new ≡ from.now ++ drop (length from.now) strip.old }
{
    strip[..from.len()].copy_from_slice(from);
}

// The first len entries and then s, in an array that the caller lends: what a trie is built of.
pub fn copy_out(strip: &[u64], len: usize, s: u64, out: &mut [u64])
    requires { (len ≤ length strip.now) × (len < length out.old) }
    ensures { take (suc len) out.new ≡ take len strip.now ++ (s ∷ []) }
{
    copy_in(out, &strip[..len]);
    append(out, len, s);
}

// Puts each of some suffixes behind the first len entries, unless it stands among them by then: how many there are.
pub fn gather(strip: &mut [u64], len: usize, suffixes: &[u64]) -> usize
    requires { len + length suffixes.now ≤ length strip.old }
    ensures { Gathered strip.old len suffixes.now result strip.new }
{
    let mut n = len;
    for &s in suffixes {
        if !contains(&strip[..n], s) {
            strip[n] = s;
            n += 1;
        }
    }
    n
}
