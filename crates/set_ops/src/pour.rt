// Pours a set into another: its words in walk order, container by container.
ghost use Rattle.std.specs.Prelude.{◌≡◌, ◌^◌, ◌<◌, ◌≤◌, ◌≢◌, length, take, is_ok};
ghost use Rattle.lists.specs.Lists.{keep};
ghost use Rattle.model.specs.Reading.{walk};
ghost use Rattle.region.specs.Areas.{numbers};
ghost use Rattle.region.specs.Seen.{seen};
ghost use Rattle.region.specs.Read.{suffixes, reading};
ghost use Rattle.region.specs.WellFormed.{Ready, WellFormed};
ghost use Rattle.trie_walk.specs.Pour.{not_below};
ghost use Rattle.set_ops.specs.Poured.{Alike, PouredAs, wanted as is_wanted, words_in};

use crate::take::{Wanted, take_over};
use arena::NoRoom;
use lens::read;

// Containers whose strips are looked at together.
const AHEAD: usize = 64;

// Suffixes of a trie that are read off at a time: 8 KB of stack.
const CHUNK: usize = 1024;

// What is poured: the words of a set that qualify by whether another set has them.
#[derive(Clone, Copy)]
struct Source<'a> {
    set: &'a [u64],
    other: &'a [u64],
    wanted: Wanted,
}

// A vector: its entries are lent on as one strip.
fn pour_vector(source: Source<'_>, c: usize, hint: usize, dest: &mut [u64]) -> Result<(), NoRoom>
    requires well_formed { WellFormed source.set.now }
    requires well_formed_2 { WellFormed source.other.now }
    requires well_formed_3 { WellFormed dest.old }
    requires alike { Alike source.set.now dest.old }
    requires alike_2 { Alike source.other.now dest.old }
    requires c_bound { c < (numbers source.set.now).C }
    requires c_value { (seen (numbers source.set.now) source.set.now).kind c ≡ 1 }
    ensures { PouredAs (keep (is_wanted (reading source.entry.other.now) source.entry.wanted) (words_in source.entry.set.now c)) dest.old (is_ok result) dest.new }
{
    let p = read::prefix(source.set, c);
    let len = read::size(source.set, c);
    let start = source.set[12] as usize + 1024 * c;
    let strip = &source.set[start..start + len];
    take_over(dest, source.other, p, hint, strip, source.wanted)
}

// Writes the next suffixes of a trie, those that are not below `from`: at most CHUNK. Answers how many.
fn next_chunk(src: &[u64], c: usize, from: u64, chunk: &mut [u64]) -> usize
    requires well_formed { WellFormed src.now }
    requires c_bound { c < (numbers src.now).C }
    requires c_value { (seen (numbers src.now) src.now).kind c ≡ 2 }
    requires chunk_len { length chunk.old ≡ 1024 }
    ensures number { result ≡ length (take 1024 (not_below from (suffixes (numbers src.now) (seen (numbers src.now) src.now) c))) }
    ensures written { take result chunk.new ≡ take 1024 (not_below from (suffixes (numbers src.now) (seen (numbers src.now) src.now) c)) }
{
    let shape = read::shape(src);
    let root = read::link(src, c);
    let start = src[13] as usize;
    let end = src[15] as usize;
    trie_walk::walk_from(&src[start..end], shape, root, from, chunk)
}

// A trie: its suffixes chunk by chunk. Each chunk goes on behind the last suffix of the one before.
fn pour_trie(source: Source<'_>, c: usize, hint: usize, dest: &mut [u64]) -> Result<(), NoRoom>
    requires well_formed { WellFormed source.set.now }
    requires well_formed_2 { WellFormed source.other.now }
    requires well_formed_3 { WellFormed dest.old }
    requires alike { Alike source.set.now dest.old }
    requires alike_2 { Alike source.other.now dest.old }
    requires c_bound { c < (numbers source.set.now).C }
    requires c_value { (seen (numbers source.set.now) source.set.now).kind c ≡ 2 }
    ensures { PouredAs (keep (is_wanted (reading source.entry.other.now) source.entry.wanted) (words_in source.entry.set.now c)) dest.old (is_ok result) dest.new }
{
    let p = read::prefix(source.set, c);
    let mut chunk: [u64; 1024] = [0; 1024];
    let mut from: u64 = 0;
    loop {
        let n = next_chunk(source.set, c, from, &mut chunk);
        take_over(dest, source.other, p, hint, &chunk[0..n], source.wanted)?;
        if n < CHUNK {
            return Ok(());
        }
        from = chunk[CHUNK - 1] + 1;
    }
}

// A container, by its kind.
fn pour_container(source: Source<'_>, c: usize, hint: usize, dest: &mut [u64]) -> Result<(), NoRoom>
    requires well_formed { WellFormed source.set.now }
    requires well_formed_2 { WellFormed source.other.now }
    requires well_formed_3 { WellFormed dest.old }
    requires alike { Alike source.set.now dest.old }
    requires alike_2 { Alike source.other.now dest.old }
    requires c_bound { c < (numbers source.set.now).C }
    requires c_nonzero { (seen (numbers source.set.now) source.set.now).kind c ≢ 0 }
    ensures { PouredAs (keep (is_wanted (reading source.entry.other.now) source.entry.wanted) (words_in source.entry.set.now c)) dest.old (is_ok result) dest.new }
{
    if read::kind(source.set, c) == 1 {
        return pour_vector(source, c, hint, dest);
    }
    pour_trie(source, c, hint, dest)
}

// What lies above the 40 bits of the first entry in slot c: nothing, in a container. To ask for it brings its strip near.
fn touched(set: &[u64], c: usize) -> u64
    requires ready { Ready set.now }
    requires c_bound { c < (numbers set.now).C }
{
    read::entry(set, c, 0) >> 40
}

// The same of the container at rank r, if there is one.
fn touched_at(set: &[u64], r: usize) -> u64
    requires { WellFormed set.now }
{
    if r < read::k(set) {
        return touched(set, read::slot(set, r));
    }
    0
}

// The same of slot r, if there is one: in a set that is being filled, slots are handed out in this order.
fn touched_in(set: &[u64], r: usize) -> u64
    requires { WellFormed set.now }
{
    if r < read::c(set) {
        return touched(set, r);
    }
    0
}

// Hints of where the prefixes of ranks from `from` on may stand in the other sets: at the same ranks. Strips lie far apart; they are looked at side by side, so that the waits for memory overlap.
fn look_ahead(src: &[u64], other: &[u64], dest: &[u64], from: usize, hints: &mut [u64; 64])
    requires well_formed { WellFormed src.now }
    requires well_formed_2 { WellFormed other.now }
    requires well_formed_3 { WellFormed dest.now }
    requires from_bound { from ≤ 2 ^ 62 }
{
    for i in 0..AHEAD {
        let r = from + i;
        let near = touched_at(src, r).wrapping_add(touched_at(other, r));
        hints[i] = (r as u64)
            .wrapping_add(near)
            .wrapping_add(touched_in(dest, r));
    }
}

// Inserts the words of src, in walk order, that qualify by whether the other set has them.
pub(crate) fn pour(
    src: &[u64],
    other: &[u64],
    dest: &mut [u64],
    wanted: Wanted,
) -> Result<(), NoRoom>
    requires well_formed { WellFormed src.now }
    requires well_formed_2 { WellFormed other.now }
    requires well_formed_3 { WellFormed dest.old }
    requires alike { Alike src.now dest.old }
    requires alike_2 { Alike other.now dest.old }
    ensures { PouredAs (keep (is_wanted (reading other.now) wanted) (walk (reading src.now))) dest.old (is_ok result) dest.new }
{
    let source = Source {
        set: src,
        other,
        wanted,
    };
    let k = read::k(src);
    let mut hints: [u64; 64] = [0; 64];
    for r in 0..k {
        if r % AHEAD == 0 {
            look_ahead(src, other, dest, r, &mut hints);
        }
        let c = read::slot(src, r);
        let hint = hints[r % AHEAD] as usize;
        pour_container(source, c, hint, dest)?;
    }
    Ok(())
}
