// Why a call is refused: what a host is told of it, and the faults of a rate table and its weights.
ghost use Rattle.std.specs.Prelude.{◌≡◌, ℕ, Some};
ghost use Rattle.rates.specs.Refusals.{layer_text, place_text, lattice_number, lattice_place};
ghost use Rattle.rates.specs.declared.fault.Place.{Place as PlaceOf};

use std::fmt;

// Whose fault it is.
#[derive(Clone, Copy, PartialEq, Eq)]
pub enum Layer {
    Lattice,
    Sheet,
    Record,
}

impl fmt::Display for Layer {
    ghost output = { λ l. Some (layer_text l) };

    fn fmt<W: fmt::Write>(&self, f: &mut fmt::Formatter<W>) -> fmt::Result {
        f.write_str(match self {
            Layer::Lattice => "lattice",
            Layer::Sheet => "sheet",
            Layer::Record => "record",
        })
    }
}

#[derive(Clone, Copy, PartialEq, Eq)]
pub struct Place {
    pub at: usize,
    pub layer: Layer,
}

impl fmt::Display for Place {
    ghost output = { λ p. Some (place_text p) };

    fn fmt<W: fmt::Write>(&self, f: &mut fmt::Formatter<W>) -> fmt::Result {
        let Place { at, layer } = self;
        write!(f, "{at} {layer}")
    }
}

// A ground on which a layer refuses a call, as a host is told of it. The number goes with a place, so neither is a
// conversion of the fault.
pub trait Ground {
    ghost number_of: { Self → ℕ };

    ghost place_of: { Self → PlaceOf };

    fn number(&self) -> u32
        ensures { result ≡ number_of self.now };

    fn place(&self) -> Place
        ensures { result ≡ place_of self.now };
}

#[derive(Clone, Copy, PartialEq, Eq)]
pub enum LatticeFault {
    // not 1 to 64 steps
    Steps,
    // the length that the table should have
    Length(usize),
    // the index of the first rate that is too great
    Rate(usize),
    // the weights do not add up to 1,000
    Weights,
}

impl Ground for LatticeFault {
    ghost number_of = { lattice_number };

    ghost place_of = { lattice_place };

    fn number(&self) -> u32 {
        match self {
            LatticeFault::Steps => 3,
            LatticeFault::Length(_) => 4,
            LatticeFault::Rate(_) => 5,
            LatticeFault::Weights => 6,
        }
    }

    fn place(&self) -> Place {
        let at = match self {
            LatticeFault::Steps | LatticeFault::Weights => 0,
            LatticeFault::Length(want) => *want,
            LatticeFault::Rate(index) => *index,
        };
        Place {
            at,
            layer: Layer::Lattice,
        }
    }
}
