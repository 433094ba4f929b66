// The support desk's replay: a script of plain lines on standard input, carried out over the proved set, and what came of each line in words.
// desk/README.md says what a script may say. Its exit status does not tell how the script went: where something failed the last line is `failed`, and desk/replay makes that status 1.
#![tactic(auto)]

mod batch;
mod desk;
mod grid;
mod refusal;
mod script;
mod show;
mod stop;
mod verdict;
mod walk;

use desk::Desk;
use replay::input;
use std::io;
use stop::Stop;

// The most bytes that are read of a script: one as long as that is too long.
const LONGEST: usize = 32768;

// Line after line, up to the first that is wrong or refused. Yes, where there is no such.
fn all_lines(rt: &impl Print, desk: &mut Desk, script: &str) -> io::Result<bool> {
    for (number, line) in (1u64..).zip(script.split('\n')) {
        match desk.step(rt, number, line) {
            Ok(()) => {}
            Err(Stop::Io(error)) => return Err(error),
            Err(Stop::Memory(error)) => return Err(io::Error::from(error)),
            Err(stop) => {
                println!(rt; "{stop}\nThe lines after it were not run.")?;
                return Ok(false);
            }
        }
    }
    Ok(true)
}

fn main(rt: HostRuntime) -> io::Result<()> {
    let alloc = rt.alloc();
    let text = input::read(&rt, LONGEST)?;
    if text.len() == LONGEST {
        return println!(rt; "the script is longer than 32767 bytes: nothing was run\nfailed");
    }
    let script = String::from_utf8_lossy(alloc, &text)?;
    let mut desk = Desk::new(alloc);
    let to_the_end = all_lines(&rt, &mut desk, script.as_str())?;
    if !desk.verdict(&rt)? || !to_the_end {
        println!(rt; "failed")?;
    }
    Ok(())
}
