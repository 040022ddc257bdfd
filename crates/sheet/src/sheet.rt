// A sheet: terms and a spread on a lattice, under a clash rule.
// Where its proof needs answers, a public call is one line over a private function of its promise: so a wrong one is
// refused here, not in a proof.
ghost use Rattle.std.specs.Prelude.{◌≡◌, ℕ, ◌≤◌, List};
ghost use Rattle.game.specs.Limits.{Payable, Priced};
ghost use Rattle.sheet.specs.Edits.{opened};
ghost use Rattle.sheet.specs.Admits.{Admitted};
ghost use Rattle.sheet.specs.Shared.{Standing};
ghost use Rattle.sheet.specs.Promises.{Edited};

use crate::edit::Edit;
use crate::fault::SheetFault;
use crate::state::State;
use crate::valuation::Valuation;
use game::clash::ClashRule;
use lattice::Lattice;

mod adopt;
mod edits;
mod fit;
mod strike;
pub mod work;
mod worth;

// That a call leaves `lattice` and `clash` as they were is said at each (`same`): an invariant says nothing of before and after.
#[derive(Drop)]
pub struct Sheet<L: Lattice, K: ClashRule> {
    lattice: L,
    clash: K,
    state: State,
    ghost early: { state.first ≤ 65 },
    ghost narrow: { state.spread ≤ 200000 },
    ghost redeemable: { state.terms.redemption ≤ 10000000 },
    ghost payable: { Payable state.terms },
    ghost priced: { Priced state.terms },
}

impl<L: Lattice, K: ClashRule> Sheet<L, K> {
    // A redemption of 1,000,000, no coupons and no rights, a spread of 0, nothing worked: whatever the rows hold.
    pub fn open(lattice: L, clash: K) -> Sheet<L, K>
        ensures state { result.state ≡ opened (L.Lattice.model lattice).steps }
        ensures stands { (values marks : List ℕ) → Standing (L.Lattice.model lattice) (K.ClashRule.settled clash) result.state values marks }
        ensures admitted { Admitted (L.Lattice.model lattice).steps result.state.terms result.state.spread }
        ensures same { (result.lattice ≡ lattice) × (result.clash ≡ clash) }
    {
        Sheet::fresh(lattice, clash)
    }

    fn fresh(lattice: L, clash: K) -> Sheet<L, K>
        ensures state { result.state ≡ opened (L.Lattice.model lattice).steps }
        ensures stands { (values marks : List ℕ) → Standing (L.Lattice.model lattice) (K.ClashRule.settled clash) result.state values marks }
        ensures admitted { Admitted (L.Lattice.model lattice).steps result.state.terms result.state.spread }
        ensures same { (result.lattice ≡ lattice) × (result.clash ≡ clash) }
    {
        let state = State::opened(lattice.steps());
        Sheet {
            lattice,
            clash,
            state,
        }
    }

    // The terms in force, at the spread in force.
    pub(crate) fn valuation(&self) -> Valuation<'_, L, K>
        ensures lattice { result.lattice.now ≡ self.now.lattice }
        ensures clash { result.clash.now ≡ self.now.clash }
        ensures terms { result.terms.now ≡ self.now.state.terms }
        ensures spread { result.spread ≡ self.now.state.spread }
    {
        Valuation {
            lattice: &self.lattice,
            clash: &self.clash,
            terms: &self.state.terms,
            spread: self.state.spread,
        }
    }

    // The first worked step; one past the last where nothing is worked.
    pub fn first_worked(&self) -> usize
        ensures { result ≡ self.now.state.first }
    {
        self.state.first
    }

    // Makes an edit; answers the first worked step after it.
    pub fn edit(&mut self, edit: Edit) -> Result<usize, SheetFault>
        ensures edited { Edited (L.Lattice.model self.old.lattice) (K.ClashRule.settled self.old.clash) edit self.old.state result self.new.state }
        ensures same { (self.new.lattice ≡ self.old.lattice) × (self.new.clash ≡ self.old.clash) }
    {
        self.amend(edit)
    }

    fn amend(&mut self, edit: Edit) -> Result<usize, SheetFault>
        ensures edited { Edited (L.Lattice.model self.old.lattice) (K.ClashRule.settled self.old.clash) edit self.old.state result self.new.state }
        ensures same { (self.new.lattice ≡ self.old.lattice) × (self.new.clash ≡ self.old.clash) }
    {
        let last = self.lattice.steps();
        self.state.amend(last, edit)?;
        Ok(self.first_worked())
    }
}
