// The prefix bitmap, in a slice of any length. A place past the last bit is refused.
use super::REFUSED;
use bitvector::bitmap;

// How many bits below each place are set, summed.
pub fn leaf_bitmap_rank(words: &[u64], places: &[u64]) -> u64 {
    let mut n: u64 = 0;
    for &place in places {
        let i = place as usize;
        if i / 64 >= words.len() {
            return REFUSED;
        }
        n = n.wrapping_add(bitmap::rank(words, i) as u64);
    }
    n
}

// How many of the places are set.
pub fn leaf_bitmap_test(words: &[u64], places: &[u64]) -> u64 {
    let mut n: u64 = 0;
    for &place in places {
        let i = place as usize;
        if i / 64 >= words.len() {
            return REFUSED;
        }
        n = n.wrapping_add(u64::from(bitmap::test(words, i)));
    }
    n
}

// Sets the bit, and says whether it was clear.
pub fn leaf_bitmap_set(words: &mut [u64], place: u64) -> u64 {
    let i = place as usize;
    if i / 64 >= words.len() {
        return REFUSED;
    }
    u64::from(bitmap::set(words, i))
}

// Clears the bit, and says whether it was set.
pub fn leaf_bitmap_clear(words: &mut [u64], place: u64) -> u64 {
    let i = place as usize;
    if i / 64 >= words.len() {
        return REFUSED;
    }
    u64::from(bitmap::clear(words, i))
}
