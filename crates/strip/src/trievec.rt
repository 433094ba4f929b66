// The record of a container.
ghost use Rattle.std.specs.Prelude.{◌≡◌};
ghost use Rattle.model.specs.Room.{threshold};

// Kind 0 is free, 1 a vector, 2 a trie; link is a trie's root, or a free slot's place in the stack.
// Numbers, and no enum: the four words of a record in a region.
#[derive(Clone, Copy)]
pub struct TrieVec {
    pub kind: u64,
    pub prefix: u64,
    pub len: u64,
    pub link: u64,
}

impl TrieVec {
    pub const THRESHOLD: usize = 1024;

    // The empty container: a vector with no suffix.
    pub fn new() -> Self
        ensures { (result.kind ≡ 1) × (result.prefix ≡ 0) × (result.len ≡ 0) × (result.link ≡ 0) }
    {
        Self {
            kind: 1,
            prefix: 0,
            len: 0,
            link: 0,
        }
    }

    // The most suffixes that a vector holds.
    pub fn most() -> usize
        ensures { result ≡ threshold }
    {
        Self::THRESHOLD
    }
}
