// The two changes of a map behind a reference, as in the Rust: each lends the words on to the covered function, so nothing is copied.
ghost use Rattle.std.specs.Prelude.{◌≡◌, eqb};
ghost use Rattle.region.specs.Bits.{bit};
ghost use Rattle.bitvector.specs.Maps.{Made};

use super::tiny::{TinyBitvector, insert_in, remove_in};

// Puts x into the map, and says whether it was absent.
pub fn insert(map: &mut TinyBitvector, x: u8) -> bool
    ensures { Made map.old.w x 1 map.new.w × (result ≡ eqb (bit map.old.w x) 0) }
{
    insert_in(&mut map.w, x)
}

// Takes x out of the map, and says whether it was present.
pub fn remove(map: &mut TinyBitvector, x: u8) -> bool
    ensures { Made map.old.w x 0 map.new.w × (result ≡ eqb (bit map.old.w x) 1) }
{
    remove_in(&mut map.w, x)
}
