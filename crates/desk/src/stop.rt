// Why a line is not carried out, or not to its end.
use super::refusal::Refusal;
use super::script::Expected;
use std::alloc::AllocError;
use std::io;
use thiserror::Error;

#[derive(Debug, Drop, Error)]
pub enum Stop {
    #[error(transparent)]
    Expected(#[from] Expected),
    #[error(transparent)]
    Refused(#[from] Refusal),
    // a batch of which the first frames are done
    #[error("{refusal} at frame {frame}: {done} are done, the rest is not")]
    Partly {
        refusal: Refusal,
        frame: u64,
        done: usize,
    },
    // a batch that would take the script's own list past its end
    #[error("more than 8192 keys: {there} are there and {new} would be new; nothing of this line is done")]
    TooMany {
        there: usize,
        new: usize,
    },
    #[error(transparent)]
    Memory(#[from(alloc)] AllocError),
    #[error(transparent)]
    Io(#[from] io::Error),
}
