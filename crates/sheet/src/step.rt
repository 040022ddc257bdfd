// The figures and marks of the nodes of one step.
ghost use Rattle.std.specs.Prelude.{◌≡◌, ℕ, ◌<◌, ◌≤◌, option_copied, slice_index};
ghost use Rattle.game.specs.Rule.{figure_of, mark_of, mark_number};
ghost use Rattle.game.specs.Game.{amount, figure_from, mark_from};
ghost use Rattle.sheet.specs.Steps.{paid, stepped_figure, stepped_mark};

use crate::valuation::Valuation;
use game::clash::ClashRule;
use game::node;
use game::terms::Kind;
use lattice::Lattice;

// The figures and the marks of a step, which the host has in two rows too: a lattice rolls figures alone.
#[derive(Clone, Copy)]
pub(crate) struct Step {
    pub(crate) figures: [u32; 129],
    pub(crate) marks: [u8; 129],
}

// The amount at place `j`, where there is a right.
fn amount_at(amounts: Option<&[u32; 129]>, j: usize) -> Option<u32>
    requires { j < 129 }
    ensures { result ≡ paid (option_copied amounts.entry) j }
{
    amounts.map(|row| row[j])
}

impl<L: Lattice, K: ClashRule> Valuation<'_, L, K> {
    // What the right of a kind at step `t` pays at each node of that step, where there is one. The row is lent, so
    // that none is copied at each step.
    fn amounts<'r>(&self, kind: Kind, t: usize, row: &'r mut [u32; 129]) -> Option<&'r [u32; 129]>
        ensures { (j : ℕ) → j < (L.Lattice.model self.now.lattice.now).count t → paid (option_copied result) j ≡ amount (L.Lattice.model self.now.lattice.now) self.now.terms.now self.now.spread kind t j }
    {
        let right = self.terms.right(kind, t)?;
        self.right_amounts(t, right, row);
        Some(row)
    }

    // Decides each of the first `n` nodes: the step comes with the values of going on.
    fn decide(
        &self,
        puts: Option<&[u32; 129]>,
        calls: Option<&[u32; 129]>,
        n: usize,
        step: &mut Step,
    )
        requires { n ≤ 129 }
        ensures figures { (j : ℕ) → j < n → slice_index step.new.figures j ≡ figure_of (K.ClashRule.settled self.now.clash.now) (paid (option_copied puts.entry) j) (paid (option_copied calls.entry) j) (slice_index step.old.figures j) }
        ensures marks { (j : ℕ) → j < n → slice_index step.new.marks j ≡ mark_number (mark_of (paid (option_copied puts.entry) j) (paid (option_copied calls.entry) j) (slice_index step.old.figures j)) }
    {
        // one of the two by index: of a zip of both the proof would know nothing that is written
        let Step { figures, marks } = step;
        for (j, figure) in figures[0..n].iter_mut().enumerate() {
            let node = node::decide(self.clash, amount_at(puts, j), amount_at(calls, j), *figure);
            *figure = node.figure;
            marks[j] = node.mark.into();
        }
    }

    // Works a step below the last: it comes with the figures of the next step.
    fn work_inner(&self, t: usize, step: &mut Step)
        requires { t < (L.Lattice.model self.now.lattice.now).steps }
        ensures figures { (j : ℕ) → j < (L.Lattice.model self.now.lattice.now).count t → slice_index step.new.figures j ≡ figure_from (L.Lattice.model self.now.lattice.now) (K.ClashRule.settled self.now.clash.now) self.now.terms.now self.now.spread (λ i. slice_index step.old.figures i) 1 t j }
        ensures marks { (j : ℕ) → j < (L.Lattice.model self.now.lattice.now).count t → slice_index step.new.marks j ≡ mark_from (L.Lattice.model self.now.lattice.now) (K.ClashRule.settled self.now.clash.now) self.now.terms.now self.now.spread (λ i. slice_index step.old.figures i) 1 t j }
    {
        let mut lows = [0; 129];
        let mut highs = [0; 129];
        let puts = self.amounts(Kind::Put, t, &mut lows);
        let calls = self.amounts(Kind::Call, t, &mut highs);
        self.roll_back(t, &mut step.figures);
        self.decide(puts, calls, self.lattice.nodes(t), step);
    }

    // Works the last step: the redemption at each node, and nobody exercises.
    fn work_last(&self, t: usize, step: &mut Step)
        ensures figures { (j : ℕ) → j < (L.Lattice.model self.now.lattice.now).count t → slice_index step.new.figures j ≡ self.now.terms.now.redemption }
        ensures marks { (j : ℕ) → j < (L.Lattice.model self.now.lattice.now).count t → slice_index step.new.marks j ≡ 0 }
    {
        step.figures = [self.terms.redemption; 129];
        step.marks = [0; 129];
    }

    // Works step `t`: it comes with the figures of the next step, if there is one.
    pub(crate) fn work_step(&self, t: usize, step: &mut Step)
        ensures figures { (j : ℕ) → j < (L.Lattice.model self.now.lattice.now).count t → slice_index step.new.figures j ≡ stepped_figure (L.Lattice.model self.now.lattice.now) (K.ClashRule.settled self.now.clash.now) self.now.terms.now self.now.spread t (λ i. slice_index step.old.figures i) j }
        ensures marks { (j : ℕ) → j < (L.Lattice.model self.now.lattice.now).count t → slice_index step.new.marks j ≡ stepped_mark (L.Lattice.model self.now.lattice.now) (K.ClashRule.settled self.now.clash.now) self.now.terms.now self.now.spread t (λ i. slice_index step.old.figures i) j }
    {
        if t < self.lattice.steps() {
            self.work_inner(t, step);
        } else {
            self.work_last(t, step);
        }
    }
}
