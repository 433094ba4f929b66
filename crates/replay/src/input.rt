// What a replay reads.
ghost use Rattle.std.specs.Prelude.{◌<◌, ◌≤◌, length, take, IfOk, vec_len, vec_items};
ghost use Rattle.std.specs.Io.KnownBytes.{Consumes, IsAtEnd};

use std::alloc::Global;
use std::io;
use std::io::Read;

// Reads until the buffer is full or the input is over, and says how many bytes stand at its start then.
pub fn fill<R: Read>(input: &mut R, buffer: &mut [u8]) -> io::Result<usize>
    ensures bound { IfOk result (λ n. n ≤ length buffer.new) }
    ensures bytes { IfOk result (λ n. Consumes (R.remaining input.old) (R.remaining input.new) (take n buffer.new)) }
    ensures end { IfOk result (λ n. n < length buffer.new → IsAtEnd (R.remaining input.new)) }
{
    let mut done: usize = 0;
    while done < buffer.len() {
        let n = input.read(&mut buffer[done..])?;
        if n == 0 {
            return Ok(done);
        }
        done += n;
    }
    Ok(done)
}

// The same, into a vector: the input to its end, or its first `most` bytes.
pub fn bytes_of<R: Read>(alloc: Global, input: &mut R, most: usize) -> io::Result<Vec<u8>>
    ensures bound { IfOk result (λ text. vec_len text ≤ most) }
    ensures bytes { IfOk result (λ text. Consumes (R.remaining input.old) (R.remaining input.new) (vec_items text)) }
    ensures end { IfOk result (λ text. vec_len text < most → IsAtEnd (R.remaining input.new)) }
{
    let mut text = vec![in alloc; 0u8; most]?;
    let n = fill(input, &mut text)?;
    text.truncate(n);
    Ok(text)
}

// The standard input, likewise.
pub fn read<R: Input + AllocGlobal>(rt: &R, most: usize) -> io::Result<Vec<u8>>
    ensures { IfOk result (λ text. vec_len text ≤ most) }
{
    bytes_of(rt.alloc(), &mut rt.reader(), most)
}
