// The walk of a map, as one answer: how many bytes there are, and each in order.
use bitvector::tiny::TinyBitvector;
use std::alloc::{AllocError, Global};
use std::iter;

fn told(alloc: Global, bytes: &[u64]) -> Result<Vec<u64>, AllocError> {
    iter::once(bytes.len() as u64)
        .chain(bytes.iter().copied())
        .collect(alloc)
}

// By taking the least byte out until there is nothing: there are 256 bytes.
pub fn by_taking(alloc: Global, map: TinyBitvector) -> Result<Vec<u64>, AllocError> {
    let mut bytes = Vec::new(alloc);
    let mut rest = map;
    for _ in 0..256 {
        let first = rest.pop_first();
        let Some(x) = first.at else {
            break;
        };
        bytes.push(x as u64)?;
        rest = first.rest;
    }
    told(alloc, &bytes)
}

// By the least byte behind the last: there are 256 bytes.
pub fn by_next(alloc: Global, map: TinyBitvector) -> Result<Vec<u64>, AllocError> {
    let mut bytes = Vec::new(alloc);
    let mut from = 0usize;
    for _ in 0..256 {
        let Some(x) = map.next(from) else {
            break;
        };
        bytes.push(x as u64)?;
        from = x.saturating_add(1);
    }
    told(alloc, &bytes)
}
