// The header's form, numbers and offsets, and that the areas are there.
ghost use Rattle.std.specs.Prelude.{◌≡◌, true, false, ◌<◌, ◌≤◌, length, get_or};
ghost use Rattle.region.specs.Ranges.{form, good_numbers};
ghost use Rattle.region.specs.Geometry.{header_words};
ghost use Rattle.region.specs.Areas.{numbers};
ghost use Rattle.region.specs.WellFormed.{Header, Ready};
ghost use Rattle.make.specs.Laid.{GeometryOf};

use make::geometry::{FORM, Geometry, HEADER_WORDS, good_numbers};

// Whether the offsets follow from the numbers, where these and the form are right.
fn offsets_ok(region: &[u64], g: Geometry) -> bool
    requires header_words_in_bounds { header_words ≤ length region.now }
    requires form_is { get_or region.now 0 0 ≡ form }
    requires good_ranges { good_numbers (numbers region.now).P (numbers region.now).S (numbers region.now).C (numbers region.now).N ≡ true }
    requires geometry_of { GeometryOf (numbers region.now).P (numbers region.now).S (numbers region.now).C (numbers region.now).N g }
    ensures yes { result ≡ true → Header region.now (numbers region.now) }
    ensures no { result ≡ false → Header region.now (numbers region.now) → ⊥ }
{
    region[8..HEADER_WORDS]
        == [
            HEADER_WORDS as u64,
            g.ranks as u64,
            g.stack as u64,
            g.records as u64,
            g.entries as u64,
            g.node_stack as u64,
            g.nodes as u64,
            g.total as u64,
        ]
}

// Whether the header is right and the areas are there. The ranges come before the offsets, so that no sum wraps.
pub fn header_ok(region: &[u64]) -> bool
    ensures yes { result ≡ true → Ready region.now }
    ensures no { result ≡ false → Ready region.now → ⊥ }
{
    if region.len() < HEADER_WORDS || region[0] != FORM {
        return false;
    }
    let p = region[1];
    let s = region[2];
    let c = region[3];
    let n = region[4];
    if !good_numbers(p, s, c, n) {
        return false;
    }
    let g = Geometry::new(p, s, c, n);
    offsets_ok(region, g) && region.len() >= g.total
}
