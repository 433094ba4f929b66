// Make for C and Rust: numbers and a slice in, a verdict of numbers out.
ghost use Rattle.promises.specs.Answers.{made};
ghost use Rattle.promises.specs.Make.{MakePromise};
ghost use Rattle.brothowl.specs.Verdicts.{verdict_of, Crosses};
ghost use Rattle.std.specs.Prelude.{◌≡◌};

use promises::MakeRefusal;

// A refusal's number and place; 0 and 0 where there is none.
#[repr(C)]
#[derive(Clone, Copy)]
pub struct Verdict {
    pub number: u64,
    pub place: u64,
}

impl Verdict {
    pub(crate) fn new(number: u64, place: usize) -> Verdict
        ensures number { result.number ≡ number }
        ensures place { result.place ≡ place }
    {
        Verdict {
            number,
            place: place as u64,
        }
    }
}

impl From<Result<(), MakeRefusal>> for Verdict {
    ghost from_gives = { λ answer v. v ≡ verdict_of (made answer) };

    fn from(answer: Result<(), MakeRefusal>) -> Verdict {
        match answer {
            Ok(()) => Verdict::new(0, 0),
            Err(MakeRefusal::OutOfRange) => Verdict::new(2, 0),
            Err(MakeRefusal::TooShort) => Verdict::new(3, 0),
        }
    }
}

pub fn brothowl_make(region: &mut [u64], p: u64, s: u64, c: u64, n: u64) -> Verdict
    ensures { Crosses verdict_of (λ told. MakePromise p s c n region.old told region.new) result }
{
    make::make(region, p, s, c, n).into()
}
