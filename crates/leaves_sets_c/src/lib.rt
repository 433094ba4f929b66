// The set for a program of the tests, exported to C under the names of `leaves_sets`: no part of what users link. Nothing is asked of a caller.
// Commands on a region, in lists of at most 4,096 one after the other, as a caller of the exported entry would, but with one check for all:
// how many were done. A list that is not good, or finds no room, ends them.
#![tactic(auto)]

#[unsafe(no_mangle)]
pub extern "C" fn leaf_set_run(
    region: &mut [u64],
    codes: &[u8],
    words: &[u64],
    answers: &mut [u8],
) -> u64 {
    leaves_sets::leaf_set_run(region, codes, words, answers)
}

// Walks a region from its start so many times: how many words were written in all, modulo 2^64.
#[unsafe(no_mangle)]
pub extern "C" fn leaf_set_walk(region: &[u64], times: u64, out: &mut [u64]) -> u64 {
    leaves_sets::leaf_set_walk(region, times, out)
}
