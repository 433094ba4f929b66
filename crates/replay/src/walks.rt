// A walk against the line that holds it, in the two forms that lists.txt and trie.txt have in common.
use super::lines::MOST;
use super::runs;
use super::stop::Stop;
use super::tally::Tally;

// `3 n w1 .. wn`
pub fn in_words(
    rt: &impl Print,
    tally: &mut Tally,
    line: &[u64],
    came: &[u64],
) -> Result<(), Stop> {
    match line {
        [_, n, words @ ..] if *n == words.len() as u64 => tally.judge(rt, 3, words, came),
        _ => Err(Stop::BadNumbers),
    }
}

// `4 m run1 .. runm`
pub fn in_runs(rt: &impl Print, tally: &mut Tally, line: &[u64], came: &[u64]) -> Result<(), Stop> {
    match line {
        [_, m, runs @ ..] if runs.len() % 3 == 0 && *m == (runs.len() / 3) as u64 => {
            let mut words = [0u64; MOST];
            let many = runs::spread(runs, &mut words);
            if many == MOST {
                return Err(Stop::BadNumbers);
            }
            tally.judge(rt, 4, &words[..many], came)
        }
        _ => Err(Stop::BadNumbers),
    }
}
