// A suffix as bytes. How many there are is known when a call comes, and the functions that do the work have it as a const parameter, since that is faster.
ghost use Rattle.std.specs.Prelude.{◌≤◌};

use super::REFUSED;
use sliced_int::SlicedInt;
use std::cmp::Ordering;

// The bytes of each suffix, the most significant first, one suffix behind the other, and how many suffixes found room.
fn put_each<const BYTES: usize>(suffixes: &[u64], out: &mut [u8]) -> u64
    requires { BYTES ≤ 5 }
{
    let mut at = 0;
    for (i, &s) in suffixes.iter().enumerate() {
        if out.len() - at < BYTES {
            return i as u64;
        }
        out[at..at + BYTES].copy_from_slice(&SlicedInt::from_int(s, BYTES).bytes[..BYTES]);
        at += BYTES;
    }
    suffixes.len() as u64
}

fn value<const BYTES: usize>(s: u64) -> u64
    requires { BYTES ≤ 5 }
{
    SlicedInt::from_int(s, BYTES).to_int()
}

fn order<const BYTES: usize>(s: u64, t: u64) -> u64
    requires { BYTES ≤ 5 }
{
    match SlicedInt::from_int(s, BYTES).compare_same_len(SlicedInt::from_int(t, BYTES)) {
        Ordering::Less => 0,
        Ordering::Equal => 1,
        Ordering::Greater => 2,
    }
}

// The b bytes of each suffix, one behind the other, and how many suffixes found room.
pub fn leaf_bytes(suffixes: &[u64], b: u64, out: &mut [u8]) -> u64 {
    match b {
        0 => put_each::<0>(suffixes, out),
        1 => put_each::<1>(suffixes, out),
        2 => put_each::<2>(suffixes, out),
        3 => put_each::<3>(suffixes, out),
        4 => put_each::<4>(suffixes, out),
        5 => put_each::<5>(suffixes, out),
        _ => REFUSED,
    }
}

// The number that the b bytes of a suffix are.
pub fn leaf_value(s: u64, b: u64) -> u64 {
    match b {
        0 => value::<0>(s),
        1 => value::<1>(s),
        2 => value::<2>(s),
        3 => value::<3>(s),
        4 => value::<4>(s),
        5 => value::<5>(s),
        _ => REFUSED,
    }
}

// 0 if the bytes of s come before those of t, 1 if they are the same, 2 if they come after.
pub fn leaf_compare(s: u64, t: u64, b: u64) -> u64 {
    match b {
        0 => order::<0>(s, t),
        1 => order::<1>(s, t),
        2 => order::<2>(s, t),
        3 => order::<3>(s, t),
        4 => order::<4>(s, t),
        5 => order::<5>(s, t),
        _ => REFUSED,
    }
}
