// The words of a container that is a trie: its suffixes are written off its nodes, and each is joined to the prefix where it stands.
ghost use Rattle.std.specs.Prelude.{◌≡◌, map, ◌+◌, ◌*◌, ◌^◌, ◌<◌, ◌≤◌, length, take, drop};
ghost use Rattle.model.specs.Reading.{container_words};
ghost use Rattle.region.specs.Areas.{numbers};
ghost use Rattle.region.specs.Seen.{seen};
ghost use Rattle.region.specs.Read.{suffixes, container};
ghost use Rattle.region.specs.WellFormed.{WellFormed};
ghost use Rattle.promises.specs.Walk.{written_over};
ghost use Rattle.trie_walk.specs.Pour.{window};

use lens::read;

// Writes the suffixes of the trie in slot c from the one with number `skip` on, as far as the output reaches: node stack and nodes are lent as one part.
fn suffixes_from(region: &[u64], c: usize, skip: usize, out: &mut [u64]) -> usize
    requires well_formed { WellFormed region.now }
    requires c_bound { c < (numbers region.now).C }
    requires c_value { (seen (numbers region.now) region.now).kind c ≡ 2 }
    ensures number { result ≡ length (window skip (length out.old) (suffixes (numbers region.now) (seen (numbers region.now) region.now) c)) }
    ensures written { out.new ≡ written_over (window skip (length out.old) (suffixes (numbers region.now) (seen (numbers region.now) region.now) c)) out.old }
{
    let shape = read::shape(region);
    let root = read::link(region, c);
    let start = region[13] as usize;
    let end = region[15] as usize;
    trie_walk::walk(&region[start..end], shape, root, skip, out)
}

// Writes the words of the trie in slot c, whose prefix joined to suffix 0 is `base`, from the one with number `skip` on, as far as the output reaches.
pub fn words(region: &[u64], c: usize, base: u64, skip: usize, out: &mut [u64]) -> usize
    requires well_formed { WellFormed region.now }
    requires c_bound { c < (numbers region.now).C }
    requires c_value { (seen (numbers region.now) region.now).kind c ≡ 2 }
    requires base_value { base ≡ (seen (numbers region.now) region.now).prefix c * 2 ^ (numbers region.now).S }
    requires region_bound { base + 2 ^ (numbers region.now).S ≤ 2 ^ 64 }
    ensures number { result ≡ length (window skip (length out.old) (container_words (numbers region.now).S (container (numbers region.now) (seen (numbers region.now) region.now) c))) }
    ensures written { out.new ≡ written_over (window skip (length out.old) (container_words (numbers region.now).S (container (numbers region.now) (seen (numbers region.now) region.now) c))) out.old }
{
    let n = suffixes_from(region, c, skip, out);
    for word in out[..n].iter_mut() {
        *word += base;
    }
    n
}
