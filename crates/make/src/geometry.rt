// The numbers of a region and where its areas lie.
ghost use Rattle.std.specs.Prelude.{true, ◌≡◌, ◌≤◌};
ghost use Rattle.region.specs.Ranges.{good_numbers};
ghost use Rattle.region.specs.Geometry.{bitmap_words};
ghost use Rattle.make.specs.Laid.{GeometryOf};

pub const FORM: u64 = 1;

pub const HEADER_WORDS: usize = 16;

pub const RECORD_WORDS: usize = 4;

pub const STRIP_WORDS: usize = 1024;

pub const NODE_WORDS: usize = 264;

// The numbers, the first word of each area after the bitmap (which follows the header), and the length of the whole.
#[derive(Clone, Copy, Debug, PartialEq, Eq)]
pub struct Geometry {
    pub p: u64,
    pub s: u64,
    pub c: u64,
    pub n: u64,
    pub ranks: usize,
    pub stack: usize,
    pub records: usize,
    pub entries: usize,
    pub node_stack: usize,
    pub nodes: usize,
    pub total: usize,
}

impl Geometry {
    // The ranges are tested before (`good_numbers`), so no sum here can wrap.
    #[tactic(auto, using(crate::proofs::Ranges::ranges))]
    pub fn new(p: u64, s: u64, c: u64, n: u64) -> Geometry
        requires { good_numbers p s c n ≡ true }
        ensures { GeometryOf p s c n result }
    {
        let slots = c as usize;
        let node_slots = n as usize;
        let ranks = HEADER_WORDS + bitmap_words(p);
        let stack = ranks + slots;
        let records = stack + slots;
        let entries = records + RECORD_WORDS * slots;
        let node_stack = entries + STRIP_WORDS * slots;
        let nodes = node_stack + node_slots;
        Geometry {
            p,
            s,
            c,
            n,
            ranks,
            stack,
            records,
            entries,
            node_stack,
            nodes,
            total: nodes + NODE_WORDS * node_slots,
        }
    }
}

// 2^P/64 words, at least 1.
pub fn bitmap_words(p: u64) -> usize
    requires { p ≤ 24 }
    ensures { (result ≡ bitmap_words p) × (result ≤ 262144) }
{
    ((1usize << p) / 64).max(1)
}

// Whether every number is in its range.
pub fn good_numbers(p: u64, s: u64, c: u64, n: u64) -> bool
    ensures { result ≡ good_numbers p s c n }
{
    (1..=24).contains(&p) && (1..=40).contains(&s) && (1..=65536).contains(&c) && n <= 1048576
}
