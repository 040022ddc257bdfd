// A lattice of two states: from a low start, each step stays in its state with three parts in four.
ghost use Rattle.std.specs.Prelude.{◌≡◌, ◌-◌, ◌<◌, ◌≤◌, true, false, length, MatchOption};
ghost use Rattle.rates.specs.Formulas.{entry_at};
ghost use Rattle.maker.specs.Laws.{two_states_lawful};
ghost use Rattle.maker.specs.States.{wide as wide_of, shared as shared_of, rate_of, makeable, two_states};

use lattice::Lattice;
use rates::row::entry;
use rates::table::check_steps;

#[derive(Clone, Copy)]
pub struct TwoStates {
    last: usize,
    low: u32,
    high: u32,
    ghost some: { 1 ≤ last },
    ghost few: { last ≤ 64 },
}

// The nodes of step `t`.
fn wide(t: usize) -> usize
    ensures { result ≡ wide_of t }
{
    if t == 0 { 1 } else { 2 }
}

// What a state is worth, from the entry where it stays and the entry where it turns.
fn shared(growth: u64, stays: u64, turns: u64) -> u32
    requires some { 1000000 ≤ growth }
    requires few { growth ≤ 10000000000 }
    requires stays { stays ≤ 650000000 }
    requires turns { turns ≤ 650000000 }
    ensures { result ≡ shared_of growth stays turns }
{
    ((3 * stays + turns) * 1_000_000 / (4 * growth)) as u32
}

impl TwoStates {
    // Of 1 to 64 steps, with a rate for each state.
    pub fn new(steps: usize, low: u32, high: u32) -> Option<TwoStates>
        ensures { MatchOption result (makeable steps ≡ false) (λ x. (makeable steps ≡ true) × (two_states x.low x.high x.last ≡ two_states low high steps)) }
    {
        check_steps(steps).ok()?;
        Some(TwoStates {
            last: steps,
            low,
            high,
        })
    }

    fn rate(&self, state: usize) -> u32
        ensures { result ≡ rate_of self.now.low self.now.high state }
    {
        match state {
            0 => self.low,
            _ => self.high,
        }
    }
}

impl Lattice for TwoStates {
    ghost model = { λ x. two_states x.low x.high x.last };

    ghost lawful = { λ x. two_states_lawful x.low x.high x.last x.some x.few };

    fn steps(&self) -> usize {
        self.last
    }

    fn nodes(&self, t: usize) -> usize {
        if t <= self.last { wide(t) } else { 0 }
    }

    fn roll(&self, t: usize, j: usize, spread: u32, row: &[u32]) -> u32 {
        if !self.fits(t, j, spread, row) {
            return 0;
        }
        let growth = 1_000_000 + u64::from(self.rate(j)) + u64::from(spread);
        shared(growth, entry(row, j), entry(row, 1 - j))
    }
}
