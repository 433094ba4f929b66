// Combines two sets into a third: union, intersection, difference and symmetric difference.
#![tactic(auto)]

ghost use Rattle.std.specs.Prelude.{◌≡◌, ◌&&◌, ◌==◌, ◌++◌, is_ok};
ghost use Rattle.lists.specs.Lists.{keep};
ghost use Rattle.model.specs.Combine.{chosen, combine as combining};
ghost use Rattle.model.specs.Reading.{walk};
ghost use Rattle.region.specs.Areas.{numbers};
ghost use Rattle.region.specs.Read.{reading};
ghost use Rattle.region.specs.WellFormed.{Ready, WellFormed};
ghost use Rattle.promises.specs.Answers.{combined};
ghost use Rattle.promises.specs.Combine.{CombinePromise, fresh_again};
ghost use Rattle.promises.specs.declared.CombineRefusal.{CombineRefusal};
ghost use Rattle.set_ops.specs.Poured.{Alike, Decodes, PouredAs, RanAs, meant, wanted as is_wanted};

use crate::afresh::{clear, start_afresh};
use crate::pour::pour;
use crate::take::Wanted;
use arena::NoRoom;
use inspect::well_formed;
use lens::read;
use promises::CombineRefusal;

mod afresh;
mod pour;
mod take;

// The four combinations.
#[derive(Clone, Copy, Debug, PartialEq, Eq)]
pub enum Operation {
    Or,
    And,
    Minus,
    Xor,
}

// A code that names no combination.
#[derive(Clone, Copy, Debug, PartialEq, Eq)]
pub struct UnknownOperation;

impl TryFrom<u64> for Operation {
    type Error = UnknownOperation;

    ghost try_from_gives = { Decodes };

    fn try_from(code: u64) -> Result<Self, UnknownOperation> {
        match code {
            0 => Ok(Operation::Or),
            1 => Ok(Operation::And),
            2 => Ok(Operation::Minus),
            3 => Ok(Operation::Xor),
            _ => Err(UnknownOperation),
        }
    }
}

impl From<UnknownOperation> for CombineRefusal {
    ghost from_gives = { λ _ r. r ≡ CombineRefusal.UnknownCode };

    fn from(_unknown: UnknownOperation) -> CombineRefusal {
        CombineRefusal::UnknownCode
    }
}

// Whether two sets agree in P and S.
fn agree(a: &[u64], b: &[u64]) -> bool
    requires ready { Ready a.now }
    requires ready_2 { Ready b.now }
    ensures { result ≡ ((numbers a.now).P == (numbers b.now).P && (numbers a.now).S == (numbers b.now).S) }
{
    if read::p(a) != read::p(b) {
        return false;
    }
    read::s(a) == read::s(b)
}

// The words of a that are wanted, then those of b.
fn both(a: &[u64], b: &[u64], dest: &mut [u64], wanted: Wanted) -> Result<(), NoRoom>
    requires well_formed { WellFormed a.now }
    requires well_formed_2 { WellFormed b.now }
    requires well_formed_3 { WellFormed dest.old }
    requires alike { Alike a.now dest.old }
    requires alike_2 { Alike b.now dest.old }
    ensures { PouredAs (keep (is_wanted (reading b.now) wanted) (walk (reading a.now)) ++ keep (is_wanted (reading a.now) wanted) (walk (reading b.now))) dest.old (is_ok result) dest.new }
{
    pour(a, b, dest, wanted)?;
    pour(b, a, dest, wanted)
}

// What each operation wants of a, and of b.
fn by_operation(operation: Operation, a: &[u64], b: &[u64], dest: &mut [u64]) -> Result<(), NoRoom>
    requires well_formed { WellFormed a.now }
    requires well_formed_2 { WellFormed b.now }
    requires well_formed_3 { WellFormed dest.old }
    requires alike { Alike a.now dest.old }
    requires alike_2 { Alike b.now dest.old }
    ensures { PouredAs (chosen (meant operation) (reading a.now) (reading b.now)) dest.old (is_ok result) dest.new }
{
    match operation {
        Operation::Or => both(a, b, dest, Wanted::All),
        Operation::And => pour(a, b, dest, Wanted::Shared),
        Operation::Minus => pour(a, b, dest, Wanted::Own),
        Operation::Xor => both(a, b, dest, Wanted::Own),
    }
}

// The destination afresh, and the words that qualify, if there is room for all of them.
fn fill(operation: Operation, a: &[u64], b: &[u64], dest: &mut [u64]) -> Result<(), NoRoom>
    requires well_formed { WellFormed a.now }
    requires well_formed_2 { WellFormed b.now }
    requires well_formed_3 { WellFormed dest.old }
    requires alike { Alike a.now dest.old }
    requires alike_2 { Alike b.now dest.old }
    ensures { RanAs (combining (meant operation) (reading a.now) (reading b.now) (reading dest.old).C (reading dest.old).N) dest.old (is_ok result) dest.new }
{
    start_afresh(dest);
    by_operation(operation, a, b, dest)
}

// No room: the fresh image is left.
fn give_up(dest: &mut [u64]) -> CombineRefusal
    requires { WellFormed dest.old }
    ensures answer { result ≡ CombineRefusal.NoRoom }
    ensures image { dest.new ≡ fresh_again (reading dest.old) dest.old }
{
    clear(dest);
    CombineRefusal::NoRoom
}

// Combine two sets into a third: codes 0 or, 1 and, 2 minus, 3 xor. The destination starts from the fresh image with its own C and N.
pub fn combine(code: u64, a: &[u64], b: &[u64], dest: &mut [u64]) -> Result<(), CombineRefusal>
    ensures { CombinePromise code a.now b.now dest.old (combined result) dest.new }
{
    // All three are asked first: the promise speaks of each of them whatever the others are.
    let good_a = well_formed(a);
    let good_b = well_formed(b);
    let good_dest = well_formed(dest);
    if !good_a {
        return Err(CombineRefusal::Malformed(0));
    }
    if !good_b {
        return Err(CombineRefusal::Malformed(1));
    }
    if !good_dest {
        return Err(CombineRefusal::Malformed(2));
    }
    let operation = Operation::try_from(code)?;
    if !agree(a, b) {
        return Err(CombineRefusal::SetsDiffer);
    }
    if !agree(a, dest) {
        return Err(CombineRefusal::SetsDiffer);
    }
    if let Err(NoRoom) = fill(operation, a, b, dest) {
        return Err(give_up(dest));
    }
    Ok(())
}
