// Whether all words of a list are members of a region that is known to be well formed, block by block.
ghost use Rattle.std.specs.Prelude.{◌≡◌, ◌≤◌, length};
ghost use Rattle.lists.specs.Lists.{all, first_bad};
ghost use Rattle.model.specs.Reading.{has};
ghost use Rattle.region.specs.Read.{reading};
ghost use Rattle.region.specs.WellFormed.{WellFormed};
ghost use Rattle.promises.specs.List.{word_of};
ghost use Rattle.wordset_list.specs.Performing.{is_yes};

use crate::commands::BLOCK;
use wordset_lookup::each::contains_each;

// Whether no answer is 0.
fn all_yes(answers: &[u8]) -> bool
    ensures { result ≡ all is_yes answers.now }
{
    answers.iter().all(|answer| *answer != 0)
}

// Whether all words of a block are members.
fn has_block(region: &[u64], words: &[u64], hints: &mut [u64; 64]) -> bool
    requires well_formed { WellFormed region.now }
    requires words_len_bound { length words.now ≤ 64 }
    requires words_len_bound_2 { length words.now ≤ first_bad (word_of (reading region.now)) words.now }
    ensures { result ≡ all (has (reading region.now)) words.now }
{
    let mut answers: [u8; BLOCK] = [0; BLOCK];
    contains_each(region, words, hints, &mut answers);
    all_yes(&answers[..words.len()])
}

pub fn has_all(region: &[u64], words: &[u64]) -> bool
    requires well_formed { WellFormed region.now }
    requires words_len_bound { length words.now ≤ first_bad (word_of (reading region.now)) words.now }
    ensures { result ≡ all (has (reading region.now)) words.now }
{
    let mut hints: [u64; BLOCK] = [0; BLOCK];
    for block in words.chunks(BLOCK) {
        if !has_block(region, block, &mut hints) {
            return false;
        }
    }
    true
}
