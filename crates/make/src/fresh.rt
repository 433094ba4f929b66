// Writes the image of a fresh region, area by area in address order.
ghost use Rattle.std.specs.Prelude.{◌++◌, ◌≡◌, ◌*◌, ◌≤◌, length, drop};
ghost use Rattle.region.specs.Geometry.{total};
ghost use Rattle.region.specs.Fresh.{fresh, fresh_header};
ghost use Rattle.make.specs.Laid.{Laid};
ghost use Rattle.make.specs.Parts.{container_areas, node_areas};

use crate::fill::{write_blocks, zero};
use crate::geometry::{FORM, Geometry, HEADER_WORDS, NODE_WORDS, RECORD_WORDS};

// The word of a free record and of a free node that holds its place in the stack.
const RECORD_LINK: usize = 3;

const NODE_PLACE: usize = 5;

fn fill_header(h: &mut [u64], g: Geometry)
    requires { (length h.old ≡ 16) × Laid g }
    ensures { h.new ≡ fresh_header g.p g.s g.c g.n }
{
    h.copy_from_slice(&[
        FORM,
        g.p,
        g.s,
        g.c,
        g.n,
        0,
        0,
        0,
        HEADER_WORDS as u64,
        g.ranks as u64,
        g.stack as u64,
        g.records as u64,
        g.entries as u64,
        g.node_stack as u64,
        g.nodes as u64,
        g.total as u64,
    ]);
}

// Rank table, free stack, records, suffix entries: 1 + 1 + 4 + 1,024 words for each container.
fn fill_containers(s: &mut [u64], c: usize)
    requires { length s.old ≡ 1030 * c }
    ensures { s.new ≡ container_areas c }
{
    let records = c + c;
    let entries = records + RECORD_WORDS * c;
    let end = s.len();
    zero(&mut s[0..c]);
    write_blocks(&mut s[c..records], 1, 0, c);
    write_blocks(&mut s[records..entries], RECORD_WORDS, RECORD_LINK, c);
    zero(&mut s[entries..end]);
}

// Free stack, nodes: 1 + 264 words for each node slot.
fn fill_nodes(s: &mut [u64], n: usize)
    requires { length s.old ≡ 265 * n }
    ensures { s.new ≡ node_areas n }
{
    let end = s.len();
    write_blocks(&mut s[0..n], 1, 0, n);
    write_blocks(&mut s[n..end], NODE_WORDS, NODE_PLACE, n);
}

// The fresh image up to the total; the words past it stay.
pub fn fresh_into(region: &mut [u64], g: Geometry)
    requires { Laid g × (g.total ≤ length region.old) }
    ensures { region.new ≡ fresh g.p g.s g.c g.n ++ drop (total g.p g.c g.n) region.old }
{
    let ranks = g.ranks;
    let node_stack = g.node_stack;
    let total = g.total;
    fill_header(&mut region[0..HEADER_WORDS], g);
    zero(&mut region[HEADER_WORDS..ranks]);
    fill_containers(&mut region[ranks..node_stack], g.c as usize);
    fill_nodes(&mut region[node_stack..total], g.n as usize);
}
