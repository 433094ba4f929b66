// Walks a region: its words in order, prefixes ascending, from a place on, as far as the output reaches.
#![tactic(auto)]

ghost use Rattle.std.specs.Prelude.{◌≡◌, length};
ghost use Rattle.region.specs.Read.{reading};
ghost use Rattle.region.specs.WellFormed.{WellFormed};
ghost use Rattle.promises.specs.Answers.{walked};
ghost use Rattle.promises.specs.Walk.{walk_from, written_over, WalkPromise};

use lens::read;
use promises::WalkRefusal;

mod tries;
pub mod walker;

// Writes the words from the one with number `start` on, as far as the output reaches. Answers how many were written.
pub fn words_from(region: &[u64], start: usize, out: &mut [u64]) -> usize
    requires { WellFormed region.now }
    ensures number { result ≡ length (walk_from (reading region.now) start (length out.old)) }
    ensures written { out.new ≡ written_over (walk_from (reading region.now) start (length out.old)) out.old }
{
    let k = read::k(region);
    let bits = read::s(region);
    let mut skip = start;
    let mut at = 0;
    'prefixes: for r in 0..k {
        let c = read::slot(region, r);
        let len = read::size(region, c);
        // A container that lies before the start is passed over whole.
        if skip >= len {
            skip -= len;
            continue;
        }
        let base = (read::prefix(region, c) as u64) << bits;
        if read::kind(region, c) == 2 {
            if at >= out.len() {
                break;
            }
            at += tries::words(region, c, base, skip, &mut out[at..]);
            skip = 0;
            continue;
        }
        let first = region[12] as usize + 1024 * c;
        let strip = &region[first..first + len];
        for suffix in &strip[skip..] {
            if at >= out.len() {
                break 'prefixes;
            }
            out[at] = base + suffix;
            at += 1;
        }
        skip = 0;
    }
    at
}

// Walk from a place into an output of any length.
pub fn walk(region: &[u64], start: u64, out: &mut [u64]) -> Result<usize, WalkRefusal>
    ensures { WalkPromise region.now start out.old (walked result) out.new }
{
    let place = walker::open(region, start)?;
    Ok(words_from(region, place, out))
}
