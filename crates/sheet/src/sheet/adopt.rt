// Terms and a spread put in force all at once.
// Where its proof needs answers, a public call is one line over a private function of its promise: so a wrong one is
// refused here, not in a proof.
ghost use Rattle.std.specs.Prelude.{◌≡◌};
ghost use Rattle.sheet.specs.Edits.{opened};
ghost use Rattle.sheet.specs.Promises.{Adopted};

use crate::draft::Draft;
use crate::fault::SheetFault;
use crate::sheet::Sheet;
use crate::state::State;
use game::clash::ClashRule;
use lattice::Lattice;

impl<L: Lattice, K: ClashRule> Sheet<L, K> {
    // The terms and the spread in force, and the first worked step.
    pub fn state(&self) -> &State
        ensures { result.now ≡ self.now.state }
    {
        &self.state
    }

    // A draft for as many steps: the state of a sheet just opened.
    pub fn draft(&self) -> Draft
        ensures steps { result.steps ≡ (L.Lattice.model self.now.lattice).steps }
        ensures state { result.state ≡ opened (L.Lattice.model self.now.lattice).steps }
    {
        self.blank()
    }

    fn blank(&self) -> Draft
        ensures steps { result.steps ≡ (L.Lattice.model self.now.lattice).steps }
        ensures state { result.state ≡ opened (L.Lattice.model self.now.lattice).steps }
    {
        let steps = self.lattice.steps();
        Draft {
            steps,
            state: State::opened(steps),
        }
    }

    // Puts the terms and the spread of a draft in force, of which nothing is worked then.
    pub fn adopt(&mut self, draft: Draft) -> Result<usize, SheetFault>
        ensures adopted { Adopted (L.Lattice.model self.old.lattice) (K.ClashRule.settled self.old.clash) draft.steps draft.state self.old.state result self.new.state }
        ensures same { (self.new.lattice ≡ self.old.lattice) × (self.new.clash ≡ self.old.clash) }
    {
        if draft.steps != self.lattice.steps() {
            return Err(SheetFault::Step(draft.steps));
        }
        self.state = draft.state;
        Ok(self.first_worked())
    }
}
