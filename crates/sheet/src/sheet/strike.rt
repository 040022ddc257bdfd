// Striking a price from the worked root.
ghost use Rattle.std.specs.Prelude.{◌≡◌, ℕ, List, None};
ghost use Rattle.rates.specs.Refusals.{told};
ghost use Rattle.game.specs.Game.{root};
ghost use Rattle.sheet.specs.Faults.{sheet_refusal, answer};
ghost use Rattle.sheet.specs.Prices.{strike_fault, struck};
ghost use Rattle.sheet.specs.Shared.{Standing};

use crate::fault::SheetFault;
use crate::price::Struck;
use crate::sheet::Sheet;
use crate::sheet::work::all_nodes;
use game::clash::ClashRule;
use lattice::Lattice;

impl<L: Lattice, K: ClashRule> Sheet<L, K> {
    // The stored root figure and the spread. With the rows handed on, it is the root figure of the terms in force.
    pub fn strike(&self, values: &[u32]) -> Result<Struck, SheetFault>
        ensures answers { told sheet_refusal result ≡ answer (strike_fault (L.Lattice.model self.now.lattice) self.now.state values.now) (struck (L.Lattice.model self.now.lattice) self.now.state values.now) }
        ensures root { (marks : List ℕ) → Standing (L.Lattice.model self.now.lattice) (K.ClashRule.settled self.now.clash) self.now.state values.now marks → strike_fault (L.Lattice.model self.now.lattice) self.now.state values.now ≡ None → (struck (L.Lattice.model self.now.lattice) self.now.state values.now).figure ≡ root (L.Lattice.model self.now.lattice) (K.ClashRule.settled self.now.clash) self.now.state.terms self.now.state.spread }
    {
        let wanted = all_nodes(&self.lattice);
        if values.len() < wanted {
            return Err(SheetFault::Rows(wanted));
        }
        if self.state.first > 0 {
            return Err(SheetFault::Unworked(0));
        }
        Ok(Struck::new(values[0], self.state.spread))
    }
}
