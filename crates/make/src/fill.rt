// Fills a lent slice from its front.
ghost use Rattle.std.specs.Prelude.{◌≡◌, ◌+◌, ◌-◌, ◌*◌, ◌≤◌, ◌<◌, length};
ghost use Rattle.lists.specs.Lists.{blocks};
ghost use Rattle.region.specs.Fresh.{zeros};
ghost use Rattle.make.specs.Marked.{marked};

// Blocks written in one run: a run of nodes (66 KB) is still in the cache when its words are marked.
const RUN: usize = 32;

pub fn zero(s: &mut [u64])
    ensures { s.new ≡ zeros (length s.old) }
{
    s.fill(0);
}

// k blocks of w words, all 0 but word `at`, which holds top - 1, top - 2, ..: zeroed at once, since that is the fast way, then marked. By place: of `chunks_mut` only the length is known afterwards.
fn write_run(s: &mut [u64], w: usize, at: usize, k: usize, top: usize)
    requires { (length s.old ≡ w * k) × (at < w) × (k ≤ top) }
    ensures { s.new ≡ blocks (λ i. marked w at (top - k + i)) k }
{
    zero(s);
    for i in 0..k {
        s[w * i + at] = (top - 1 - i) as u64;
    }
}

// n blocks of w words, all 0 but word `at`, which holds n - 1 down to 0, run by run.
pub fn write_blocks(s: &mut [u64], w: usize, at: usize, n: usize)
    requires { (length s.old ≡ w * n) × (at < w) }
    ensures { s.new ≡ blocks (marked w at) n }
{
    let mut left = n;
    let mut from = 0;
    while 0 < left {
        let k = left.min(RUN);
        let to = from + w * k;
        write_run(&mut s[from..to], w, at, k, left);
        from = to;
        left -= k;
    }
}
