// Search of entries, a block of 8 at a time: a block has no early exit in the source, so the compiler lays it out without a loop.
ghost use Rattle.std.specs.Prelude.{◌≡◌, position};
ghost use Rattle.lists.specs.Lists.{mem};
ghost use Rattle.strip.specs.Entries.{Finds};

// Whether s stands in a block, every entry looked at.
pub fn in_block(block: &[u64], s: u64) -> bool
    ensures { result ≡ mem s block.now }
{
    let mut hit = false;
    for entry in block {
        hit |= s == *entry;
    }
    hit
}

pub fn contains(entries: &[u64], s: u64) -> bool
    ensures { result ≡ mem s entries.now }
{
    let (blocks, rest) = entries.as_chunks::<8>();
    blocks.iter().any(|block| in_block(block, s)) || in_block(rest, s)
}

// The first block in which s stands.
fn first_hit(blocks: &[[u64; 8]], s: u64) -> Option<usize>
    ensures { result ≡ position (mem s) blocks.now }
{
    blocks.iter().position(|block| in_block(block, s))
}

// The first place of s in a block: from the back, every entry looked at, by a number till the end, so that no turn branches.
fn place(block: &[u64], s: u64) -> Option<usize>
    ensures { Finds block.now s result }
{
    let mut at = block.len();
    for i in (0..block.len()).rev() {
        if s == block[i] {
            at = i;
        }
    }
    if at < block.len() { Some(at) } else { None }
}

// The first place of s.
pub fn find(entries: &[u64], s: u64) -> Option<usize>
    ensures { Finds entries.now s result }
{
    let (blocks, rest) = entries.as_chunks::<8>();
    match first_hit(blocks, s) {
        Some(k) => Some(8 * k + place(&blocks[k], s)?),
        None => Some(8 * blocks.len() + place(rest, s)?),
    }
}
