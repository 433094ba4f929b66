// Takes words over from one set into another, as far as there is room. All words of a call share one prefix: its slot is found once in each set. The other set is asked about up to 64 suffixes side by side.
ghost use Rattle.std.specs.Prelude.{◌≡◌, ℕ, ◌+◌, ◌^◌, ◌<◌, ◌≤◌, true, false, ◌≢◌, [], ◌∷◌, map, length, take, if◌then◌else◌, nat_eq, slice_index, is_ok, IfOk, IfSome};
ghost use Rattle.lists.specs.Lists.{keep, mem};
ghost use Rattle.model.specs.Words.{joined as joined_word};
ghost use Rattle.region.specs.Areas.{numbers};
ghost use Rattle.region.specs.Seen.{seen};
ghost use Rattle.region.specs.Read.{suffixes as suffixes_of, reading};
ghost use Rattle.region.specs.WellFormed.{Bears, WellFormed};
ghost use Rattle.set_ops.specs.Poured.{Alike, AllSmall, PouredAs, takes_own, takes_shared, wanted as is_wanted};

use arena::NoRoom;
use lens::{rank, read};
use strip::search::contains;
use strip::trievec::TrieVec;
use trie_look::contains_each;
use wordset_insert::{insert, insert_at};
use wordset_trie::put_each;
use wordset_vector::push_all;

// Suffixes that the other set is asked about at a time.
const BLOCK: usize = 64;

// The word of a prefix and a suffix.
fn joined(p: usize, s: u64, bits: usize) -> u64
    requires p_bound { p < 2 ^ 24 }
    requires bits_bound { bits ≤ 40 }
    requires s_bound { s < 2 ^ bits }
    ensures { result ≡ joined_word bits p s }
{
    ((p as u64) << bits) + s
}

// Which words are taken over, by whether the other set has them.
#[derive(Clone, Copy, Debug, PartialEq, Eq)]
pub(crate) enum Wanted {
    All,
    Shared,
    Own,
}

impl Wanted {
    // Whether a word that the other set has is taken over.
    fn shared(self) -> bool
        ensures { result ≡ takes_shared self }
    {
        match self {
            Wanted::All | Wanted::Shared => true,
            Wanted::Own => false,
        }
    }

    // Whether a word that it has not is.
    fn own(self) -> bool
        ensures { result ≡ takes_own self }
    {
        match self {
            Wanted::All | Wanted::Own => true,
            Wanted::Shared => false,
        }
    }
}

// Whether the other set is to be asked about words of the prefix p: not where it has none, nor where all qualify. What it is not asked about qualifies as a word of its own does.
fn asked(other: &[u64], p: usize, wanted: Wanted) -> bool
    requires well_formed { WellFormed other.now }
    requires p_bound { p < 2 ^ (numbers other.now).P }
    ensures without { result ≡ false → (s : ℕ) → s < 2 ^ (numbers other.now).S → is_wanted (reading other.now) wanted (joined_word (numbers other.now).S p s) ≡ takes_own wanted }
    ensures with { result ≡ true → (seen (numbers other.now) other.now).bit p ≡ 1 }
{
    match wanted {
        Wanted::All => false,
        Wanted::Shared | Wanted::Own => read::bit(other, p),
    }
}

// Whether a vector holds suffixes: 1 or 0 for each.
fn in_vector_each(entries: &[u64], suffixes: &[u64], flags: &mut [u8])
    requires { length suffixes.now ≤ length flags.old }
    ensures each { (i : ℕ) → i < length suffixes.now → slice_index flags.new i ≡ (if mem (slice_index suffixes.now i) entries.now then 1 else 0) }
{
    for (i, &s) in suffixes.iter().enumerate() {
        flags[i] = u8::from(contains(entries, s));
    }
}

// Whether the trie in slot d holds suffixes, asked side by side: nodes lie far apart, and so the waits for memory overlap.
fn in_trie_each(other: &[u64], d: usize, suffixes: &[u64], flags: &mut [u8])
    requires well_formed { WellFormed other.now }
    requires d_bound { d < (numbers other.now).C }
    requires d_value { (seen (numbers other.now) other.now).kind d ≡ 2 }
    requires all_small { AllSmall (numbers other.now).S suffixes.now }
    requires suffixes_len_bound { length suffixes.now ≤ 64 }
    requires suffixes_in_bounds { length suffixes.now ≤ length flags.old }
    ensures { (i : ℕ) → i < length suffixes.now → slice_index flags.new i ≡ (if mem (slice_index suffixes.now i) (suffixes_of (numbers other.now) (seen (numbers other.now) other.now) d) then 1 else 0) }
{
    let shape = read::shape(other);
    let roots: [u64; BLOCK] = [read::link(other, d) as u64; BLOCK];
    let start = other[13] as usize;
    let end = other[15] as usize;
    contains_each(
        &other[start..end],
        shape,
        &roots[0..suffixes.len()],
        suffixes,
        flags,
    );
}

// Whether slot d holds suffixes: 1 or 0 for each.
fn held_each(other: &[u64], d: usize, suffixes: &[u64], flags: &mut [u8])
    requires well_formed { WellFormed other.now }
    requires d_bound { d < (numbers other.now).C }
    requires d_nonzero { (seen (numbers other.now) other.now).kind d ≢ 0 }
    requires all_small { AllSmall (numbers other.now).S suffixes.now }
    requires suffixes_len_bound { length suffixes.now ≤ 64 }
    requires suffixes_in_bounds { length suffixes.now ≤ length flags.old }
    ensures { (i : ℕ) → i < length suffixes.now → slice_index flags.new i ≡ (if mem (slice_index suffixes.now i) (suffixes_of (numbers other.now) (seen (numbers other.now) other.now) d) then 1 else 0) }
{
    if read::kind(other, d) == 1 {
        let len = read::size(other, d);
        let start = other[12] as usize + 1024 * d;
        in_vector_each(&other[start..start + len], suffixes, flags);
        return;
    }
    in_trie_each(other, d, suffixes, flags);
}

// 1 if a suffix qualifies, else 0: `shared` says so of those that the other set holds, `own` of those that it does not hold.
fn picked(answer: u8, shared: bool, own: bool) -> usize
    ensures { result ≡ (if (if nat_eq answer 1 then shared else own) then 1 else 0) }
{
    if answer == 1 {
        return usize::from(shared);
    }
    usize::from(own)
}

// Writes the suffixes of a block that qualify, in order: how many they are.
fn keep_block(other: &[u64], d: usize, block: &[u64], wanted: Wanted, kept: &mut [u64]) -> usize
    requires well_formed { WellFormed other.now }
    requires d_bound { d < (numbers other.now).C }
    requires d_nonzero { (seen (numbers other.now) other.now).kind d ≢ 0 }
    requires all_small { AllSmall (numbers other.now).S block.now }
    requires block_len_bound { length block.now ≤ 64 }
    requires kept_len { length kept.old ≡ 64 }
    ensures number { result ≤ 64 }
    ensures written { take result kept.new ≡ keep (λ s. (if mem s (suffixes_of (numbers other.now) (seen (numbers other.now) other.now) d) then takes_shared wanted else takes_own wanted)) block.now }
{
    let mut flags: [u8; BLOCK] = [0; BLOCK];
    held_each(other, d, block, &mut flags);
    let shared = wanted.shared();
    let own = wanted.own();
    let mut n: usize = 0;
    for (i, &s) in block.iter().enumerate() {
        // Written whether it qualifies or not, so that no branch has to be guessed.
        kept[n] = s;
        n += picked(flags[i], shared, own);
    }
    n
}

// Inserts one word. The hint, any number, is a rank where its container may stand.
fn put(dest: &mut [u64], w: u64, hint: usize) -> Result<(), NoRoom>
    requires well_formed { WellFormed dest.old }
    requires w_bound { w < 2 ^ ((numbers dest.old).P + (numbers dest.old).S) }
    ensures { PouredAs (w ∷ []) dest.old (is_ok result) dest.new }
{
    insert(dest, w, hint)?;
    Ok(())
}

// Inserts one word under the prefix of slot c.
fn put_at(dest: &mut [u64], c: usize, s: u64) -> Result<(), NoRoom>
    requires well_formed { WellFormed dest.old }
    requires c_bound { c < (numbers dest.old).C }
    requires c_nonzero { (seen (numbers dest.old) dest.old).kind c ≢ 0 }
    requires s_bound { s < 2 ^ (numbers dest.old).S }
    ensures { PouredAs (joined_word (numbers dest.old).S ((seen (numbers dest.old) dest.old).prefix c) s ∷ []) dest.old (is_ok result) dest.new }
{
    insert_at(dest, c, s)?;
    Ok(())
}

// Inserts the words of slot c's prefix and some suffixes, in order, one by one: the slot stays the prefix's.
fn put_singly(dest: &mut [u64], c: usize, suffixes: &[u64]) -> Result<(), NoRoom>
    requires well_formed { WellFormed dest.old }
    requires c_bound { c < (numbers dest.old).C }
    requires c_nonzero { (seen (numbers dest.old) dest.old).kind c ≢ 0 }
    requires all_small { AllSmall (numbers dest.old).S suffixes.now }
    ensures poured { PouredAs (map (joined_word (numbers dest.old).S ((seen (numbers dest.old) dest.old).prefix c)) suffixes.now) dest.old (is_ok result) dest.new }
    ensures stays { is_ok result ≡ true → Bears (numbers dest.new) (seen (numbers dest.new) dest.new) ((seen (numbers dest.old) dest.old).prefix c) c }
{
    for &s in suffixes {
        put_at(dest, c, s)?;
    }
    Ok(())
}

// Inserts the words of slot c's prefix, a trie's, and some suffixes, in order: the slot stays the prefix's.
fn put_trie(dest: &mut [u64], c: usize, suffixes: &[u64]) -> Result<(), NoRoom>
    requires well_formed { WellFormed dest.old }
    requires c_bound { c < (numbers dest.old).C }
    requires c_value { (seen (numbers dest.old) dest.old).kind c ≡ 2 }
    requires all_small { AllSmall (numbers dest.old).S suffixes.now }
    ensures poured { PouredAs (map (joined_word (numbers dest.old).S ((seen (numbers dest.old) dest.old).prefix c)) suffixes.now) dest.old (is_ok result) dest.new }
    ensures stays { is_ok result ≡ true → Bears (numbers dest.new) (seen (numbers dest.new) dest.new) ((seen (numbers dest.old) dest.old).prefix c) c }
{
    let done = put_each(dest, c, suffixes);
    if done == suffixes.len() {
        return Ok(());
    }
    Err(NoRoom)
}

// Inserts the words of slot c's prefix and some suffixes, in order: the slot stays the prefix's. A trie takes them at once, and so does a vector with room for all.
fn put_all(dest: &mut [u64], c: usize, suffixes: &[u64]) -> Result<(), NoRoom>
    requires well_formed { WellFormed dest.old }
    requires c_bound { c < (numbers dest.old).C }
    requires c_nonzero { (seen (numbers dest.old) dest.old).kind c ≢ 0 }
    requires all_small { AllSmall (numbers dest.old).S suffixes.now }
    ensures poured { PouredAs (map (joined_word (numbers dest.old).S ((seen (numbers dest.old) dest.old).prefix c)) suffixes.now) dest.old (is_ok result) dest.new }
    ensures stays { is_ok result ≡ true → Bears (numbers dest.new) (seen (numbers dest.new) dest.new) ((seen (numbers dest.old) dest.old).prefix c) c }
{
    if read::kind(dest, c) == 2 {
        return put_trie(dest, c, suffixes);
    }
    if read::size(dest, c) + suffixes.len() <= TrieVec::THRESHOLD {
        push_all(dest, c, suffixes);
        return Ok(());
    }
    put_singly(dest, c, suffixes)
}

// Inserts the words of a prefix and some suffixes, in order: the slot of the prefix, once a word of it is there. The first of them all finds that slot, from the hint on, or opens one; the others are told it.
fn put_under(
    dest: &mut [u64],
    p: usize,
    hint: usize,
    slot: Option<usize>,
    suffixes: &[u64],
) -> Result<Option<usize>, NoRoom>
    requires well_formed { WellFormed dest.old }
    requires p_bound { p < 2 ^ (numbers dest.old).P }
    requires all_small { AllSmall (numbers dest.old).S suffixes.now }
    requires bears { IfSome slot (λ c. Bears (numbers dest.old) (seen (numbers dest.old) dest.old) p c) }
    ensures poured { PouredAs (map (joined_word (numbers dest.old).S p) suffixes.now) dest.old (is_ok result) dest.new }
    ensures stays { IfOk result (λ r. IfSome r (λ c. Bears (numbers dest.new) (seen (numbers dest.new) dest.new) p c)) }
{
    if let Some(c) = slot {
        put_all(dest, c, suffixes)?;
        return Ok(slot);
    }
    if suffixes.len() < 1 {
        return Ok(None);
    }
    let bits = read::s(dest);
    let w = joined(p, suffixes[0], bits);
    put(dest, w, hint)?;
    let c = rank::slot_of(dest, p, hint);
    put_all(dest, c, &suffixes[1..])?;
    Ok(Some(c))
}

// Inserts the words of a prefix that the other set has, and some suffixes, in order, that qualify: the other set is asked block by block.
fn take_asked(
    dest: &mut [u64],
    other: &[u64],
    p: usize,
    hint: usize,
    chunk: &[u64],
    wanted: Wanted,
) -> Result<(), NoRoom>
    requires well_formed { WellFormed dest.old }
    requires well_formed_2 { WellFormed other.now }
    requires alike { Alike other.now dest.old }
    requires p_bound { p < 2 ^ (numbers dest.old).P }
    requires all_small { AllSmall (numbers dest.old).S chunk.now }
    requires p_value { (seen (numbers other.now) other.now).bit p ≡ 1 }
    ensures { PouredAs (keep (is_wanted (reading other.now) wanted) (map (joined_word (numbers dest.old).S p) chunk.now)) dest.old (is_ok result) dest.new }
{
    let d = rank::slot_of(other, p, hint);
    let mut kept: [u64; BLOCK] = [0; BLOCK];
    let mut slot = None;
    for block in chunk.chunks(BLOCK) {
        let n = keep_block(other, d, block, wanted, &mut kept);
        slot = put_under(dest, p, hint, slot, &kept[0..n])?;
    }
    Ok(())
}

// Inserts the words of a prefix and some suffixes, in order, that qualify. The hint, any number, is a rank where the prefix may stand, in both sets.
pub(crate) fn take_over(
    dest: &mut [u64],
    other: &[u64],
    p: usize,
    hint: usize,
    chunk: &[u64],
    wanted: Wanted,
) -> Result<(), NoRoom>
    requires well_formed { WellFormed dest.old }
    requires well_formed_2 { WellFormed other.now }
    requires alike { Alike other.now dest.old }
    requires p_bound { p < 2 ^ (numbers dest.old).P }
    requires all_small { AllSmall (numbers dest.old).S chunk.now }
    ensures { PouredAs (keep (is_wanted (reading other.now) wanted) (map (joined_word (numbers dest.old).S p) chunk.now)) dest.old (is_ok result) dest.new }
{
    if asked(other, p, wanted) {
        return take_asked(dest, other, p, hint, chunk, wanted);
    }
    if !wanted.own() {
        return Ok(());
    }
    put_under(dest, p, hint, None, chunk)?;
    Ok(())
}
