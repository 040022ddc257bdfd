// Steps worked one below another, into rows that list the nodes by step.
ghost use Rattle.std.specs.Prelude.{◌≡◌, ℕ, ◌+◌, ◌-◌, ◌<◌, ◌≤◌, length, Ok, slice_index};
ghost use Rattle.game.specs.Game.{root};
ghost use Rattle.game.specs.Stored.{offset as offset_of, all_nodes, stored};
ghost use Rattle.game.specs.Working.{back_values, back_marks, over};
ghost use Rattle.sheet.specs.Fits.{Greatest};

use crate::fault::SheetFault;
use crate::laying::lay;
use crate::step::Step;
use crate::valuation::Valuation;
use game::clash::ClashRule;
use lattice::Lattice;

// Where the entries of step `t` begin.
pub(crate) fn offset<L: Lattice>(lattice: &L, t: usize) -> usize
    requires { t ≤ 65 }
    ensures { result ≡ offset_of (L.Lattice.model lattice.now) t }
{
    (0..t).map(|u| lattice.nodes(u)).sum()
}

// The entries of step `t`.
fn load<L: Lattice>(lattice: &L, t: usize, values: &[u32]) -> [u32; 129]
    requires early { t ≤ 65 }
    requires long { all_nodes (L.Lattice.model lattice.now) ≤ length values.now }
    ensures { (j : ℕ) → j < (L.Lattice.model lattice.now).count t → slice_index result j ≡ stored (L.Lattice.model lattice.now) values.now t j }
{
    let from = offset(lattice, t);
    let n = lattice.nodes(t);
    let mut row = [0; 129];
    row[0..n].copy_from_slice(&values[from..from + n]);
    row
}

// Some entry is above 650,000,000.
fn over_limit(row: &[u32]) -> bool
    ensures { result ≡ over row.now }
{
    row.iter().any(|x| *x > 650_000_000)
}

// A step, in the loops below and in `rows`, is no index: it is what the lattice is asked for.
impl<L: Lattice, K: ClashRule> Valuation<'_, L, K> {
    // Works the `n` steps below the first worked one. A step with a figure above 650,000,000 is refused.
    pub(crate) fn work_back(
        &self,
        first: usize,
        n: usize,
        values: &mut [u32],
        marks: &mut [u8],
    ) -> Result<(), SheetFault>
        requires few { n ≤ first }
        requires early { first ≤ 65 }
        requires redeemable { self.now.terms.now.redemption ≤ 10000000 }
        requires values { all_nodes (L.Lattice.model self.now.lattice.now) ≤ length values.old }
        requires marks { all_nodes (L.Lattice.model self.now.lattice.now) ≤ length marks.old }
        ensures done { result ≡ Ok tt }
        ensures values { values.new ≡ back_values (L.Lattice.model self.now.lattice.now) (K.ClashRule.settled self.now.clash.now) self.now.terms.now self.now.spread first n values.old }
        ensures marks { marks.new ≡ back_marks (L.Lattice.model self.now.lattice.now) (K.ClashRule.settled self.now.clash.now) self.now.terms.now self.now.spread first n values.old marks.old }
    {
        let mut step = Step {
            figures: load(self.lattice, first, values),
            marks: [0; 129],
        };
        let mut to = offset(self.lattice, first);
        let until = first - n;
        for t in (until..first).rev() {
            self.work_step(t, &mut step);
            let count = self.lattice.nodes(t);
            if over_limit(&step.figures[0..count]) {
                return Err(SheetFault::TooLarge(t));
            }
            let from = to - count;
            lay(values, from, &step.figures[0..count]);
            lay(marks, from, &step.marks[0..count]);
            to = from;
        }
        Ok(())
    }

    // The figure of node 0 of step 0.
    pub(crate) fn root(&self) -> u32
        ensures { result ≡ root (L.Lattice.model self.now.lattice.now) (K.ClashRule.settled self.now.clash.now) self.now.terms.now self.now.spread }
    {
        let first = self.lattice.steps() + 1;
        let mut step = Step {
            figures: [0; 129],
            marks: [0; 129],
        };
        for t in (0..first).rev() {
            self.work_step(t, &mut step);
        }
        step.figures[0]
    }

    // The greatest spread whose root figure is at least `want`, by halving: the spreads are no slice, which the
    // library's `partition_point` would halve.
    pub(crate) fn greatest_spread(&self, want: u32) -> u32
        requires { want ≤ root (L.Lattice.model self.now.lattice.now) (K.ClashRule.settled self.now.clash.now) self.now.terms.now 0 }
        ensures { Greatest (L.Lattice.model self.now.lattice.now) (K.ClashRule.settled self.now.clash.now) self.now.terms.now want result }
    {
        let mut low = 0;
        let mut high = 200_001;
        while high - low > 1 {
            let spread = (low + high) / 2;
            if self.at_spread(spread).root() >= want {
                low = spread;
            } else {
                high = spread;
            }
        }
        low
    }
}
