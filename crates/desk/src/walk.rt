// The walk of a region.
use super::refusal::Refusal;
use super::show::{Count, Key};
use super::stop::Stop;
use std::alloc::Global;
use std::io;

// A walk is not taken further than this: a script's keys are at most 8,192.
const FAR: usize = 65536;

// The keys of a region, in the order of its walk. There is room for as many as its header says: of a region that is not well formed the walk is refused.
pub fn keys_of(alloc: Global, region: &[u64]) -> Result<Vec<u64>, Stop> {
    let said = region.get(7).map_or(0, |count| *count as usize);
    let mut keys = vec![in alloc; 0u64; said.min(FAR)]?;
    let many = wordset_walk::walk(region, 0, &mut keys).map_err(Refusal::from)?;
    keys.truncate(many);
    Ok(keys)
}

// The keys, a line each.
fn lines(rt: &impl Print, keys: &[u64]) -> io::Result<()> {
    for key in keys {
        println!(rt; "  {}", Key(*key))?;
    }
    Ok(())
}

// How many keys a walk has, its first 12 and its last 3.
pub fn show(rt: &impl Print, keys: &[u64]) -> io::Result<()> {
    println!(rt; "walk: {}", Count(keys.len(), "key"))?;
    if keys.len() <= 15 {
        return lines(rt, keys);
    }
    let (first, rest) = keys.split_at(12);
    let (between, last) = rest.split_at(rest.len() - 3);
    lines(rt, first)?;
    println!(rt; "  and {} more, up to", between.len())?;
    lines(rt, last)
}
