// The spread that brings the root figure to a wanted price.
// Where its proof needs answers, a public call is one line over a private function of its promise: so a wrong one is
// refused here, not in a proof.
ghost use Rattle.std.specs.Prelude.{◌≡◌};
ghost use Rattle.sheet.specs.Promises.{Fitted};

use crate::edit::check_amount;
use crate::fault::SheetFault;
use crate::sheet::Sheet;
use game::clash::ClashRule;
use lattice::Lattice;

impl<L: Lattice, K: ClashRule> Sheet<L, K> {
    // Puts in force, and answers, the greatest spread at which the root figure is at least `want`.
    pub fn fit(&mut self, want: u32) -> Result<u32, SheetFault>
        ensures fitted { Fitted (L.Lattice.model self.old.lattice) (K.ClashRule.settled self.old.clash) want self.old.state result self.new.state }
        ensures same { (self.new.lattice ≡ self.old.lattice) × (self.new.clash ≡ self.old.clash) }
    {
        self.seek(want)
    }

    fn seek(&mut self, want: u32) -> Result<u32, SheetFault>
        ensures fitted { Fitted (L.Lattice.model self.old.lattice) (K.ClashRule.settled self.old.clash) want self.old.state result self.new.state }
        ensures same { (self.new.lattice ≡ self.old.lattice) × (self.new.clash ≡ self.old.clash) }
    {
        check_amount(0, want)?;
        let valuation = self.valuation();
        if valuation.at_spread(0).root() < want {
            return Err(SheetFault::Wanted);
        }
        let spread = valuation.greatest_spread(want);
        // what an edit of the spread leaves: `apply` would ask for its test, which the search has made
        let last = self.lattice.steps();
        self.state.spread = spread;
        self.state.first = self.state.first.max(last);
        Ok(spread)
    }
}
