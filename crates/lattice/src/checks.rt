// The table that a kind of lattice wants, and the checks of what a host hands in.
ghost use Rattle.std.specs.Prelude.{◌≡◌, ℕ, ◌≤◌};
ghost use Rattle.rates.specs.Checks.{table_check, kind_check, lattice_check};
ghost use Rattle.rates.specs.Formulas.{width as width_of, before as before_of};
ghost use Rattle.rates.specs.Kinds.{plain};
ghost use Rattle.rates.specs.Refusals.{told, seen, lattice_refusal};

use rates::fault::LatticeFault;
use rates::kind::Kind;
use rates::table::{check_rates, check_steps};
use rates::weights::{Triple, Weights};

// The nodes of step `t`.
pub(crate) fn width<W>(kind: &Kind<W>, t: usize) -> usize
    requires { t ≤ 64 }
    ensures { result ≡ width_of kind.now t }
{
    match kind {
        Kind::Binomial => t + 1,
        Kind::Trinomial(_) | Kind::WorstCase(_, _) => 2 * t + 1,
    }
}

// The rates of the steps before step `t`.
pub(crate) fn before<W>(kind: &Kind<W>, t: usize) -> usize
    requires { t ≤ 64 }
    ensures { result ≡ before_of kind.now t }
{
    match kind {
        Kind::Binomial => t * (t + 1) / 2,
        Kind::Trinomial(_) | Kind::WorstCase(_, _) => t * t,
    }
}

// The steps, the table, then the weights.
pub(crate) fn check_all(
    kind: Kind<Triple>,
    steps: usize,
    rates: &[u32],
) -> Result<Kind<Weights>, LatticeFault>
    ensures { seen plain (told lattice_refusal result) ≡ lattice_check kind steps rates.now }
{
    check_table(&kind, steps, rates)?;
    check_kind(kind)
}

pub(crate) fn check_table<W>(
    kind: &Kind<W>,
    steps: usize,
    rates: &[u32],
) -> Result<(), LatticeFault>
    ensures { told lattice_refusal result ≡ table_check kind.now steps rates.now }
{
    check_steps(steps)?;
    check_rates(before(kind, steps), rates)
}

fn check_kind(kind: Kind<Triple>) -> Result<Kind<Weights>, LatticeFault>
    ensures { seen plain (told lattice_refusal result) ≡ kind_check kind }
{
    match kind {
        Kind::Binomial => Ok(Kind::Binomial),
        Kind::Trinomial(w) => Ok(Kind::Trinomial(w.try_into()?)),
        Kind::WorstCase(v, w) => Ok(Kind::WorstCase(v.try_into()?, w.try_into()?)),
    }
}
