// The checks of a rate table, which is a list of rates by step and then by node.
ghost use Rattle.std.specs.Prelude.{◌≡◌, nat_lt};
ghost use Rattle.rates.specs.Checks.{first_over, steps_check, rates_check};
ghost use Rattle.rates.specs.Refusals.{told, lattice_refusal};

use crate::fault::LatticeFault;

pub fn check_steps(steps: usize) -> Result<(), LatticeFault>
    ensures { told lattice_refusal result ≡ steps_check steps }
{
    if steps < 1 || steps > 64 {
        return Err(LatticeFault::Steps);
    }
    Ok(())
}

// The length that is wanted, then each rate.
pub fn check_rates(want: usize, rates: &[u32]) -> Result<(), LatticeFault>
    ensures { told lattice_refusal result ≡ rates_check want rates.now }
{
    if rates.len() != want {
        return Err(LatticeFault::Length(want));
    }
    if let Some(index) = first_over(rates) {
        return Err(LatticeFault::Rate(index));
    }
    Ok(())
}

// The index of the first rate that is too great.
fn first_over(rates: &[u32]) -> Option<usize>
    ensures { result ≡ first_over rates.now 0 }
{
    rates.iter().position(|rate| over(*rate))
}

fn over(rate: u32) -> bool
    ensures { result ≡ nat_lt 1000000 rate }
{
    rate > 1_000_000
}
