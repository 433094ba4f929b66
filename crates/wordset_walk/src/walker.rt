// A walker: it stands on one region and hands out its words singly.
ghost use Rattle.std.specs.Prelude.{◌≡◌, ◌+◌, length};
ghost use Rattle.region.specs.Read.{reading};
ghost use Rattle.region.specs.WellFormed.{WellFormed};
ghost use Rattle.promises.specs.Answers.{stepped, walked};
ghost use Rattle.promises.specs.Walk.{walk_from, OpenPromise, StepPromise};

use crate::words_from;
use lens::read;
use promises::WalkRefusal;

// The region, and the number of the word that is handed out next.
#[derive(Clone, Copy)]
pub struct Walker<'a> {
    pub region: &'a [u64],
    pub place: usize,
}

// Whether a walker may stand on the region at `start`: the place where it stands. An answer holds no reference, so the caller makes the walker of the region and the place.
pub fn open(region: &[u64], start: u64) -> Result<usize, WalkRefusal>
    ensures { OpenPromise region.now start (walked result) }
{
    inspect::check(region)?;
    if start > read::count(region) {
        return Err(WalkRefusal::StartTooFar);
    }
    Ok(start as usize)
}

// The word at a place, if there is one.
pub fn next(region: &[u64], place: usize) -> Option<u64>
    requires { WellFormed region.now }
    ensures { stepped result ≡ walk_from (reading region.now) place 1 }
{
    let mut word = [0u64; 1];
    if words_from(region, place, &mut word) == 0 {
        return None;
    }
    Some(word[0])
}

// The place behind that word.
pub fn after(region: &[u64], place: usize) -> usize
    requires { WellFormed region.now }
    ensures { result ≡ place + length (walk_from (reading region.now) place 1) }
{
    if place as u64 >= read::count(region) {
        return place;
    }
    place + 1
}

impl<'a> Walker<'a> {
    // One step: the walker is taken apart, and the functions on the region and the place are called.
    pub fn step(&mut self) -> Option<u64>
        requires { WellFormed self.old.region.now }
        ensures { (self.new.region ≡ self.old.region) × StepPromise (reading self.old.region.now) self.old.place (stepped result) self.new.place }
    {
        let region = self.region;
        let place = self.place;
        self.place = after(region, place);
        next(region, place)
    }
}
