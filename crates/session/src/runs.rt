// A list of calls on a sheet that is opened for it.
// Where its proof needs answers, a public call is one line over a private function of its promise: so a wrong one is
// refused here, not in a proof.
ghost use Rattle.std.specs.Prelude.{◌≡◌, length, take};
ghost use Rattle.session.specs.Runs.{fresh};
ghost use Rattle.session.specs.Promises.{BestPlayAfterAnyRun};

use crate::call::{Call, Fault, Reply};
use crate::perform::Lent;
use game::clash::ClashRule;
use lattice::Lattice;
use sheet::Sheet;

// Opens a sheet and performs the calls on it in their order, as many as there is room for answers.
pub fn run<L: Lattice, K: ClashRule>(
    lattice: L,
    clash: K,
    values: &mut [u32],
    marks: &mut [u8],
    calls: &[Call],
    answers: &mut [Option<Result<Reply, Fault>>],
    output: &mut [u8],
) -> Sheet<L, K>
    ensures law { BestPlayAfterAnyRun (L.Lattice.model lattice) (K.ClashRule.settled clash) (take (length answers.old) calls.now) (fresh (L.Lattice.model lattice) values.old marks.old output.old) answers.old answers.new result.state values.new marks.new output.new }
    ensures same { (result.lattice ≡ lattice) × (result.clash ≡ clash) }
{
    open_and_perform(lattice, clash, values, marks, calls, answers, output)
}

fn open_and_perform<L: Lattice, K: ClashRule>(
    lattice: L,
    clash: K,
    values: &mut [u32],
    marks: &mut [u8],
    calls: &[Call],
    answers: &mut [Option<Result<Reply, Fault>>],
    output: &mut [u8],
) -> Sheet<L, K>
    ensures law { BestPlayAfterAnyRun (L.Lattice.model lattice) (K.ClashRule.settled clash) (take (length answers.old) calls.now) (fresh (L.Lattice.model lattice) values.old marks.old output.old) answers.old answers.new result.state values.new marks.new output.new }
    ensures same { (result.lattice ≡ lattice) × (result.clash ≡ clash) }
{
    let mut sheet = Sheet::open(lattice, clash);
    let mut lent = Lent {
        values,
        marks,
        output,
        used: 0,
    };
    lent.perform_all(&mut sheet, calls, answers);
    sheet
}
