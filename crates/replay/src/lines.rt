// Lines of decimal numbers out of a text, in the form of answers/README.md.
ghost use Rattle.std.specs.Prelude.{◌≤◌, IfOk, vec_len};

use super::stop::Stop;
use std::alloc::Global;
use std::str;

// The most numbers of a line, and the most words of a row.
pub const MOST: usize = 4096;

// The number that some digits are, if it fits.
fn number(digits: &[u8]) -> Option<u64> {
    str::from_utf8(digits).ok()?.parse().ok()
}

// The numbers of a line: one space between two of them, and a newline behind the last.
pub fn numbers(alloc: Global, line: &[u8]) -> Result<Vec<u64>, Stop>
    ensures { IfOk result (λ v. vec_len v ≤ 4096) }
{
    let mut numbers = Vec::new(alloc);
    for word in line.split_inclusive(|b| *b == b' ') {
        let digits = word.iter().take_while(|b| b.is_ascii_digit()).count();
        let (digits, end) = word.split_at(digits);
        if digits.is_empty() {
            return Err(Stop::Strange);
        }
        numbers.push(number(digits).ok_or(Stop::TooLarge)?)?;
        match end {
            b"\n" => return Ok(numbers),
            b" " if numbers.len() < MOST => {}
            b" " => return Err(Stop::TooLong),
            [] => return Err(Stop::Cut),
            _ => return Err(Stop::Strange),
        }
    }
    Err(Stop::Cut)
}
