// Rate lattices: the trait, and the lattices that we supply.
#![tactic(auto)]

ghost use Rattle.std.specs.Prelude.{◌≡◌, ℕ, map, length};
ghost use Rattle.std.specs.List.{range_with_len};
ghost use Rattle.rates.specs.Formulas.{fitting};
ghost use Rattle.rates.specs.Model.{Model, Lawful};

mod checks;
mod rolling;
pub mod tree;

pub trait Lattice {
    ghost model: { Self → Model };

    // What each implementation owes of its meaning.
    ghost lawful: { (x : Self) → Lawful (model x) };

    fn steps(&self) -> usize
        ensures { result ≡ (model self.now).steps };

    // The nodes of step `t`; 0 past the last step.
    fn nodes(&self, t: usize) -> usize
        ensures { result ≡ (model self.now).count t };

    // Whether step, node, spread and row fit: where they do not, the figure is 0.
    fn fits(&self, t: usize, j: usize, spread: u32, row: &[u32]) -> bool
        ensures { result ≡ fitting (model self.now).steps (model self.now).count t j spread row.now }
    {
        t < self.steps() && j < self.nodes(t) && spread <= 200_000 && row.len() == self.nodes(t + 1)
    }

    // The figure of node `j` of step `t` at a spread, from a row for the next step.
    fn roll(&self, t: usize, j: usize, spread: u32, row: &[u32]) -> u32
        ensures { result ≡ (model self.now).rolled t j spread row.now };

    // A row of step `t`: at each place of `out` the figure of the node of that number.
    fn roll_row(&self, t: usize, spread: u32, row: &[u32], out: &mut [u32])
        ensures { out.new ≡ map (λ j. (model self.now).rolled t j spread row.now) (range_with_len 0 (length out.old)) }
    {
        for (j, figure) in out.iter_mut().enumerate() {
            *figure = self.roll(t, j, spread, row);
        }
    }
}
