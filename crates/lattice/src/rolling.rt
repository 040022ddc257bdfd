// What the kinds of lattice answer for one node. The entries that it leads to are lent as a slice whose length the compiler
// knows, so that `entry` need not test their places when it runs.
ghost use Rattle.std.specs.Prelude.{◌≡◌, ℕ, ◌+◌, ◌*◌, ◌<◌, ◌≤◌, length};
ghost use Rattle.rates.specs.Formulas.{width, rounded, weighted, formula, entry_at};
ghost use Rattle.rates.specs.Kinds.{plain};

use rates::kind::Kind;
use rates::row::entry;
use rates::weights::Weights;

// The answer for node `j`, from the rate of the node and a row for the next step.
pub(crate) fn answer(kind: &Kind<Weights>, rate: u32, spread: u32, j: usize, row: &[u32]) -> u32
    requires { j + width kind.now 1 ≤ length row.now }
    ensures { result ≡ formula (plain kind.now) (1000000 + rate + spread) (entry_at row.now j) (entry_at row.now (j + 1)) (entry_at row.now (j + 2)) }
{
    let d = 1_000_000 + u64::from(rate) + u64::from(spread);
    match kind {
        Kind::Binomial => {
            let next = &row[j..j + 2];
            quotient((entry(next, 0) + entry(next, 1)) * 1_000_000, 2 * d)
        }
        Kind::Trinomial(w) => weighed(w, d, j, row),
        Kind::WorstCase(v, w) => weighed(v, d, j, row).min(weighed(w, d, j, row)),
    }
}

// The answer by one weight triple.
fn weighed(weights: &Weights, d: u64, j: usize, row: &[u32]) -> u32
    requires some { 1000000 ≤ d }
    requires wide { j + 3 ≤ length row.now }
    ensures { result ≡ weighted weights.now.parts d (entry_at row.now j) (entry_at row.now (j + 1)) (entry_at row.now (j + 2)) }
{
    let w = weights.parts();
    let next = &row[j..j + 3];
    let sum = part(w.low, next, 0) + part(w.level, next, 1) + part(w.high, next, 2);
    quotient(sum * 1_000, d)
}

// An entry by its weight.
fn part(weight: u32, row: &[u32], k: usize) -> u64
    requires few { weight ≤ 1000 }
    requires within { k < length row.now }
    ensures value { result ≡ weight * entry_at row.now k }
    ensures bound { result ≤ weight * 650000000 }
{
    u64::from(weight) * entry(row, k)
}

// A rounded quotient that is no greater than an entry may be.
fn quotient(x: u64, d: u64) -> u32
    requires some { 0 < d }
    requires small { x ≤ d * 650000000 }
    ensures { result ≡ rounded x d }
{
    divided(x, d) as u32
}

// The rounding of every answer: down.
fn divided(x: u64, d: u64) -> u64
    requires { 0 < d }
    ensures { result ≡ rounded x d }
{
    x / d
}
