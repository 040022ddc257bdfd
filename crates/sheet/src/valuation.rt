// What every figure depends on.
ghost use Rattle.std.specs.Prelude.{◌≡◌};
ghost use Rattle.game.specs.Limits.{Payable, Priced};

use game::clash::ClashRule;
use game::terms::Terms;
use lattice::Lattice;

// Terms at a spread, on a lattice and under a clash rule.
#[derive(Drop)]
pub(crate) struct Valuation<'a, L: Lattice, K: ClashRule> {
    pub(crate) lattice: &'a L,
    pub(crate) clash: &'a K,
    pub(crate) terms: &'a Terms,
    pub(crate) spread: u32,
    ghost payable: { Payable terms.now },
    ghost priced: { Priced terms.now },
}

impl<'a, L: Lattice, K: ClashRule> Valuation<'a, L, K> {
    // The same at another spread.
    pub(crate) fn at_spread(&self, spread: u32) -> Valuation<'a, L, K>
        ensures spread { result.spread ≡ spread }
        ensures lattice { result.lattice.now ≡ self.now.lattice.now }
        ensures clash { result.clash.now ≡ self.now.clash.now }
        ensures terms { result.terms.now ≡ self.now.terms.now }
    {
        Valuation {
            lattice: self.lattice,
            clash: self.clash,
            terms: self.terms,
            spread,
        }
    }

    // The same of other terms.
    pub(crate) fn of_terms<'b>(&'b self, terms: &'b Terms) -> Valuation<'b, L, K>
        requires payable { Payable terms.now }
        requires priced { Priced terms.now }
        ensures terms { result.terms.now ≡ terms.now }
        ensures lattice { result.lattice.now ≡ self.now.lattice.now }
        ensures clash { result.clash.now ≡ self.now.clash.now }
        ensures spread { result.spread ≡ self.now.spread }
    {
        Valuation {
            lattice: self.lattice,
            clash: self.clash,
            terms,
            spread: self.spread,
        }
    }
}
