// Why a replay ends before its last line.
use std::alloc::AllocError;
use std::io;
use thiserror::Error;

#[derive(Debug, Drop, Error)]
pub enum Stop {
    #[error("the file was cut: it ends in this line")]
    Cut,
    #[error("the file was cut: it ends with no line `99 n`")]
    NoLastLine,
    #[error("a number does not fit 64 bits")]
    TooLarge,
    #[error("more than 4,096 numbers")]
    TooLong,
    #[error("a byte that has no place in a line of numbers")]
    Strange,
    #[error("there is more behind the last line")]
    BehindLast,
    #[error("the line `99 n` has not two numbers")]
    LastNumbers,
    #[error("the last line says {said} lines, and {came} came before it")]
    LastCount { said: u64, came: u64 },
    #[error("unknown operation {0}")]
    Unknown(u64),
    #[error("too few numbers, or one outside its range")]
    BadNumbers,
    #[error(transparent)]
    Memory(#[from(alloc)] AllocError),
    #[error(transparent)]
    Io(#[from] io::Error),
}
