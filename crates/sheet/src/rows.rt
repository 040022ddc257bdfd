// Rows of one step, rolled back a step at a time. A row has room for the widest step, as no call allocates.
ghost use Rattle.std.specs.Prelude.{◌≡◌, ℕ, ◌+◌, ◌<◌, ◌≤◌, map, slice_index};
ghost use Rattle.rates.specs.Model.{capped};
ghost use Rattle.game.specs.Game.{rolled_on, stream};

use crate::valuation::Valuation;
use game::clash::ClashRule;
use game::terms::Right;
use lattice::Lattice;

// Adds a coupon to each entry; an entry above 650,000,000 counts as that.
pub(crate) fn add_coupon(row: &mut [u32], coupon: u32)
    requires { coupon ≤ 10000000 }
    ensures { row.new ≡ map (λ x. capped (x + coupon)) row.old }
{
    for x in row.iter_mut() {
        *x = ((*x).min(650_000_000) + coupon).min(650_000_000);
    }
}

impl<L: Lattice, K: ClashRule> Valuation<'_, L, K> {
    // From the values of step `t + 1` to their rolled figures at step `t`.
    pub(crate) fn roll_back(&self, t: usize, row: &mut [u32; 129])
        requires { t < 64 }
        ensures { (j : ℕ) → j < (L.Lattice.model self.now.lattice.now).count t → slice_index row.new j ≡ rolled_on (L.Lattice.model self.now.lattice.now) self.now.terms.now self.now.spread t j (λ i. slice_index row.old i) }
    {
        let w = self.lattice.nodes(t + 1);
        let n = self.lattice.nodes(t);
        let mut next = *row;
        add_coupon(&mut next[0..w], self.terms.coupons[t + 1]);
        self.lattice
            .roll_row(t, self.spread, &next[0..w], &mut row[0..n]);
    }

    // What a right of step `t` pays at each node of that step.
    pub(crate) fn right_amounts(&self, t: usize, right: Right, row: &mut [u32; 129])
        requires { t + right.notice ≤ 64 }
        ensures { (j : ℕ) → j < (L.Lattice.model self.now.lattice.now).count t → slice_index row.new j ≡ stream (L.Lattice.model self.now.lattice.now) self.now.terms.now self.now.spread right.price right.notice t j }
    {
        *row = [right.price; 129];
        let last = t + usize::from(right.notice);
        // by steps, which the lattice is asked for
        for u in (t..last).rev() {
            self.roll_back(u, row);
        }
    }
}
