// The weights of the three entries that a node leads to: parts of a thousand that add up to the whole.
ghost use Rattle.std.specs.Prelude.{◌≡◌, ◌+◌};
ghost use Rattle.rates.specs.Checks.{weights_check};
ghost use Rattle.rates.specs.Refusals.{told, seen, lattice_refusal};

use crate::fault::LatticeFault;

// Three weights as a host hands them in.
#[derive(Clone, Copy, Debug, PartialEq, Eq)]
pub struct Triple {
    pub low: u32,
    pub level: u32,
    pub high: u32,
}

// Three weights that are known to add up to 1,000.
#[derive(Clone, Copy)]
pub struct Weights {
    parts: Triple,
    ghost whole: { parts.low + parts.level + parts.high ≡ 1000 },
}

impl TryFrom<Triple> for Weights {
    type Error = LatticeFault;

    ghost try_from_gives = { λ parts r. seen (λ w. w.parts) (told lattice_refusal r) ≡ weights_check parts };

    fn try_from(parts: Triple) -> Result<Weights, LatticeFault> {
        if u64::from(parts.low) + u64::from(parts.level) + u64::from(parts.high) != 1_000 {
            return Err(LatticeFault::Weights);
        }
        Ok(Weights { parts })
    }
}

impl Weights {
    pub fn parts(&self) -> Triple
        ensures { result ≡ self.now.parts }
    {
        self.parts
    }
}
