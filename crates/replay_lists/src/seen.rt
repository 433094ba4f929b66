// The counts of the region, and its containers by rank.
ghost use Rattle.region.specs.WellFormed.{WellFormed};

use inspect::well_formed;
use lens::read;
use replay::stop::Stop;
use replay::tally::Tally;

// `5 n`, `6 n`, `7 n`: members, nodes in use, containers in use.
fn count(region: &[u64], op: u64) -> u64
    requires { WellFormed region.now }
{
    match op {
        5 => read::count(region),
        6 => read::used(region) as u64,
        _ => read::k(region) as u64,
    }
}

pub fn number(
    rt: &impl Print,
    tally: &mut Tally,
    region: &[u64],
    op: u64,
    recorded: u64,
) -> Result<(), Stop> {
    if !well_formed(region) {
        return tally.judge(rt, op, &[recorded], &[]);
    }
    tally.judge(rt, op, &[recorded], &[count(region, op)])
}

// Prefix, slot, kind and length at rank r, if there is such a rank.
fn at_rank(region: &[u64], r: u64) -> Option<[u64; 4]>
    requires { WellFormed region.now }
{
    if r >= read::k(region) as u64 || r >= read::c(region) as u64 {
        return None;
    }
    let c = read::slot(region, r as usize);
    if c >= read::c(region) {
        return None;
    }
    Some([
        read::prefix(region, c) as u64,
        c as u64,
        read::kind(region, c),
        read::size(region, c) as u64,
    ])
}

// `8 r p c k n`
pub fn rank(
    rt: &impl Print,
    tally: &mut Tally,
    region: &[u64],
    r: u64,
    recorded: &[u64],
) -> Result<(), Stop> {
    if !well_formed(region) {
        return tally.judge(rt, 8, recorded, &[]);
    }
    match at_rank(region, r) {
        Some(came) => tally.judge(rt, 8, recorded, &came),
        None => tally.judge(rt, 8, recorded, &[]),
    }
}
