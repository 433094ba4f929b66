// The lines of commands: each is a command list of its own, of one command or of a run.
use promises::ListRefusal;
use replay::runs;
use replay::runs::Run;
use replay::stop::Stop;
use replay::tally::Tally;
use std::alloc::Global;

// What came where the list was refused: no command answers this. A number, since it is held against recorded ones.
const REFUSED: u64 = 1000;

// What stands in the answers before a list runs: no command answers this.
const UNTOUCHED: u8 = 255;

// Why a list was refused.
fn why(refusal: ListRefusal) -> &'static str {
    match refusal {
        ListRefusal::Malformed => "the region is not well formed",
        ListRefusal::BadLengths => "lengths",
        ListRefusal::UnknownCode(_) => "an unknown code",
        ListRefusal::WordTooLarge(_) => "a word too large",
        ListRefusal::NoRoom(_) => "no room",
    }
}

// The first answer that is not as recorded, or what is recorded.
fn first_other(answers: &[u8], recorded: u64) -> u64 {
    answers
        .iter()
        .map(|answer| u64::from(*answer))
        .find(|answer| *answer != recorded)
        .unwrap_or(recorded)
}

// Runs the list, and says what all its commands answered, or the first answer that is not as recorded.
fn answered(
    rt: &impl Print,
    alloc: Global,
    tally: &Tally,
    region: &mut [u64],
    run: Run<'_>,
    recorded: u64,
) -> Result<u64, Stop> {
    let words = runs::words_of(alloc, run.start, run.step, run.many)?;
    let codes = vec![in alloc; run.action.code(); words.len()]?;
    let mut answers = vec![in alloc; UNTOUCHED; words.len()]?;
    if let Err(refusal) = wordset_list::list(region, &codes, &words, &mut answers) {
        let why = why(refusal);
        tally.say_first(rt, format_args!("the list was refused: {why}"))?;
        return Ok(REFUSED);
    }
    Ok(first_other(&answers, recorded))
}

pub fn line(
    rt: &impl Print,
    alloc: Global,
    tally: &mut Tally,
    region: &mut [u64],
    line: &[u64],
) -> Result<(), Stop> {
    let run = runs::commands_of(line, 1)?;
    let (&[op, ..], &[recorded]) = (line, run.recorded) else {
        return Err(Stop::BadNumbers);
    };
    let came = answered(rt, alloc, tally, region, run, recorded)?;
    tally.judge(rt, op, &[recorded], &[came])
}
