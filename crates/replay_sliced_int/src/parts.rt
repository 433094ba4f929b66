// The parts of a word, as document 01 says them: no crate of the port has them as functions yet.
ghost use Rattle.std.specs.Prelude.{◌≡◌, ◌%◌, ◌^◌, ◌<◌};
ghost use Rattle.model.specs.Words.{prefix_of, suffix_of, joined};

pub fn prefix(bits: u64, word: u64) -> u64
    requires { bits < 64 }
    ensures { result ≡ prefix_of bits word }
{
    word >> bits
}

pub fn suffix(bits: u64, word: u64) -> u64
    requires { bits < 64 }
    ensures { result ≡ suffix_of bits word }
{
    word & ((1 << bits) - 1)
}

// The word of a prefix and a suffix, where it fits.
pub fn word(bits: u64, prefix: u64, suffix: u64) -> u64
    requires { bits < 64 }
    ensures { result ≡ joined bits prefix suffix % 2 ^ 64 }
{
    (prefix << bits).wrapping_add(suffix)
}
