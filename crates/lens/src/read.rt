// What the words of a region say: each getter is the definition's own function. Where an area starts is read from the header.
ghost use Rattle.std.specs.Prelude.{◌≡◌, ◌+◌, ◌*◌, ◌^◌, ◌<◌, ◌==◌, slice_index};
ghost use Rattle.model.specs.Words.{bytes_of};
ghost use Rattle.region.specs.Geometry.{record_words, strip_words};
ghost use Rattle.region.specs.Areas.{numbers, records};
ghost use Rattle.region.specs.Seen.{seen};
ghost use Rattle.region.specs.WellFormed.{Ready};

use arena::Shape;
use bitvector::bitmap;

// Prefix bits.
pub fn p(region: &[u64]) -> usize
    requires { Ready region.now }
    ensures { result ≡ (numbers region.now).P }
{
    region[1] as usize
}

// Suffix bits.
pub fn s(region: &[u64]) -> usize
    requires { Ready region.now }
    ensures { result ≡ (numbers region.now).S }
{
    region[2] as usize
}

// Container slots.
pub fn c(region: &[u64]) -> usize
    requires { Ready region.now }
    ensures { result ≡ (numbers region.now).C }
{
    region[3] as usize
}

// Node slots.
pub fn n(region: &[u64]) -> usize
    requires { Ready region.now }
    ensures { result ≡ (numbers region.now).N }
{
    region[4] as usize
}

// The shape of the node arena: a trie has a level for each byte of a suffix.
pub fn shape(region: &[u64]) -> Shape
    requires { Ready region.now }
    ensures slots { result.slots ≡ (numbers region.now).N }
    ensures levels { result.b ≡ bytes_of (numbers region.now).S }
{
    Shape {
        slots: n(region),
        b: s(region).div_ceil(8),
    }
}

// Containers in use.
pub fn k(region: &[u64]) -> usize
    requires { Ready region.now }
    ensures { result ≡ (numbers region.now).k }
{
    region[5] as usize
}

// Nodes in use.
pub fn used(region: &[u64]) -> usize
    requires { Ready region.now }
    ensures { result ≡ (numbers region.now).used }
{
    region[6] as usize
}

// Members.
pub fn count(region: &[u64]) -> u64
    requires { Ready region.now }
    ensures { result ≡ (numbers region.now).count }
{
    region[7]
}

// Whether prefix q is set.
pub fn bit(region: &[u64], q: usize) -> bool
    requires ready { Ready region.now }
    requires q_bound { q < 2 ^ (numbers region.now).P }
    ensures { result ≡ ((seen (numbers region.now) region.now).bit q == 1) }
{
    let start = region[8] as usize;
    let end = region[9] as usize;
    bitmap::test(&region[start..end], q)
}

// Place i of the rank table.
pub fn slot(region: &[u64], i: usize) -> usize
    requires ready { Ready region.now }
    requires i_bound { i < (numbers region.now).C }
    ensures { result ≡ (seen (numbers region.now) region.now).slot i }
{
    let start = region[9] as usize;
    region[start + i] as usize
}

// Place i of the container free stack.
pub fn free(region: &[u64], i: usize) -> usize
    requires ready { Ready region.now }
    requires i_bound { i < (numbers region.now).C }
    ensures { result ≡ (seen (numbers region.now) region.now).free i }
{
    let start = region[10] as usize;
    region[start + i] as usize
}

// Word i of the record of slot c.
fn record_word(region: &[u64], c: usize, i: usize) -> u64
    requires ready { Ready region.now }
    requires c_bound { c < (numbers region.now).C }
    requires i_lt_record_words { i < record_words }
    ensures { result ≡ slice_index (records (numbers region.now) region.now) (record_words * c + i) }
{
    let start = region[11] as usize;
    region[start + (4 * c + i)]
}

// Kind of slot c: 0 free, 1 vector, 2 trie. It is the word's number and no enum: before the check it may be any.
pub fn kind(region: &[u64], c: usize) -> u64
    requires ready { Ready region.now }
    requires c_bound { c < (numbers region.now).C }
    ensures { result ≡ (seen (numbers region.now) region.now).kind c }
{
    record_word(region, c, 0)
}

// Prefix of slot c.
pub fn prefix(region: &[u64], c: usize) -> usize
    requires ready { Ready region.now }
    requires c_bound { c < (numbers region.now).C }
    ensures { result ≡ (seen (numbers region.now) region.now).prefix c }
{
    record_word(region, c, 1) as usize
}

// Length of slot c.
pub fn size(region: &[u64], c: usize) -> usize
    requires ready { Ready region.now }
    requires c_bound { c < (numbers region.now).C }
    ensures { result ≡ (seen (numbers region.now) region.now).size c }
{
    record_word(region, c, 2) as usize
}

// Link of slot c: the root node of a trie, the place in the free stack of a free slot.
pub fn link(region: &[u64], c: usize) -> usize
    requires ready { Ready region.now }
    requires c_bound { c < (numbers region.now).C }
    ensures { result ≡ (seen (numbers region.now) region.now).link c }
{
    record_word(region, c, 3) as usize
}

// Entry i of slot c.
pub fn entry(region: &[u64], c: usize, i: usize) -> u64
    requires ready { Ready region.now }
    requires c_bound { c < (numbers region.now).C }
    requires i_lt_strip_words { i < strip_words }
    ensures { result ≡ (seen (numbers region.now) region.now).entry c i }
{
    let start = region[12] as usize;
    region[start + (1024 * c + i)]
}
