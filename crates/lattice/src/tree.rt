// The lattices that we supply, each over a table of rates by step and then by node.
ghost use Rattle.std.specs.Prelude.{◌≡◌, ◌≤◌, length, IfOk};
ghost use Rattle.rates.proofs.Laws.{supplied_lawful};
ghost use Rattle.rates.specs.Checks.{lattice_check, built};
ghost use Rattle.rates.specs.Formulas.{before as before_of, supplied};
ghost use Rattle.rates.specs.Kinds.{plain};
ghost use Rattle.rates.specs.Refusals.{told, seen, lattice_refusal};

use crate::Lattice;
use crate::checks::{before, check_all, check_table, width};
use crate::rolling::answer;
use rates::fault::LatticeFault;
use rates::kind::Kind;
use rates::weights::{Triple, Weights};

#[derive(Clone, Copy)]
pub struct Tree<'a> {
    kind: Kind<Weights>,
    last: usize,
    rates: &'a [u32],
    ghost some: { 1 ≤ last },
    ghost few: { last ≤ 64 },
    ghost whole: { length rates.now ≡ before_of kind last },
}

// The rates of a lattice that is made of a refused table.
static FLAT: [u32; 1] = [0];

impl<'a> Tree<'a> {
    // The lattice that a host asks for, or why not: the steps are tested, the table, then the weights.
    pub fn try_new(
        kind: Kind<Triple>,
        steps: usize,
        rates: &'a [u32],
    ) -> Result<Tree<'a>, LatticeFault>
        ensures told { seen (λ x. plain x.kind) (told lattice_refusal result) ≡ lattice_check kind steps rates.now }
        ensures stands { IfOk result (λ x. supplied (plain x.kind) x.last x.rates.now ≡ supplied kind steps rates.now) }
        ensures same { IfOk result (λ x. built (plain x.kind) steps rates.now ≡ supplied kind steps rates.now) }
    {
        let kind = check_all(kind, steps, rates)?;
        Ok(Tree {
            kind,
            last: steps,
            rates,
        })
    }

    // The same tests, and an answer that borrows nothing. Of what passes `new` makes the lattice as it stands.
    pub fn check(
        kind: Kind<Triple>,
        steps: usize,
        rates: &[u32],
    ) -> Result<Kind<Weights>, LatticeFault>
        ensures told { seen plain (told lattice_refusal result) ≡ lattice_check kind steps rates.now }
        ensures same { IfOk result (λ k. built (plain k) steps rates.now ≡ supplied kind steps rates.now) }
    {
        check_all(kind, steps, rates)
    }

    // The lattice on a table; on a refused one, of one step and a rate of 0.
    pub fn new(kind: Kind<Weights>, steps: usize, rates: &'a [u32]) -> Tree<'a>
        ensures { supplied (plain result.kind) result.last result.rates.now ≡ built (plain kind) steps rates.now }
    {
        match check_table(&kind, steps, rates) {
            Ok(()) => Tree {
                kind,
                last: steps,
                rates,
            },
            Err(_) => Tree {
                kind,
                last: 1,
                rates: &FLAT,
            },
        }
    }
}

impl Lattice for Tree<'_> {
    ghost model = { λ x. supplied (plain x.kind) x.last x.rates.now };

    ghost lawful = { λ x. supplied_lawful x.kind x.last x.rates.now x.some x.few };

    fn steps(&self) -> usize {
        self.last
    }

    fn nodes(&self, t: usize) -> usize {
        if t <= self.last {
            width(&self.kind, t)
        } else {
            0
        }
    }

    fn roll(&self, t: usize, j: usize, spread: u32, row: &[u32]) -> u32 {
        if !self.fits(t, j, spread, row) {
            return 0;
        }
        let rate = self.rates[before(&self.kind, t) + j];
        answer(&self.kind, rate, spread, j, row)
    }
}
