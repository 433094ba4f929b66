// Demand 3 of two runs of the code itself. Nothing calls it: it is there for what it ensures.
ghost use Rattle.promises.specs.Answers.{listed};
ghost use Rattle.wordset_list.specs.Twice.{EndAlike};

use crate::list;
use promises::ListRefusal;

// What the two lists were told.
#[derive(Clone, Copy)]
struct Both {
    first: Result<(), ListRefusal>,
    second: Result<(), ListRefusal>,
}

// Runs two lists, each on a region of its own. Where the regions are equal and the lists are rearrangements of each other, they end alike.
fn run_both(
    region: &mut [u64],
    codes: &[u8],
    words: &[u64],
    answers: &mut [u8],
    copy: &mut [u64],
    others: &[u8],
    places: &[u64],
    replies: &mut [u8],
) -> Both
    ensures { EndAlike region.old codes.now words.now answers.old copy.old others.now places.now replies.old (listed result.first) region.new answers.new (listed result.second) copy.new replies.new }
{
    let first = list(region, codes, words, answers);
    let second = list(copy, others, places, replies);
    Both { first, second }
}
