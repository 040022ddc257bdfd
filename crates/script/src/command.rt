// The calls that a script makes.
ghost use Rattle.std.specs.Prelude.{◌≡◌};
ghost use Rattle.script.specs.Commands.{meant, needs_sheet, opens_sheet};

use game::clash::AnyClash;
use rates::kind::Kind;
use rates::weights::Triple;
use sheet::Edit;

// A call of the open sheet, as a text can make it: one of a run lends bytes and names an output.
#[derive(Clone, Copy, Debug)]
pub enum SheetCall {
    Edit(Edit),
    Back { steps: usize },
    Read { step: usize, node: usize },
    Cost,
    Fit { price: u32 },
    Strike,
    Table,
}

#[derive(Debug, Drop)]
pub enum Command {
    Lattice {
        kind: Kind<Triple>,
        steps: usize,
        rates: Vec<u32>,
    },
    Clash(AnyClash),
    Open,
    Sheet(SheetCall),
}

impl Command {
    pub(crate) fn needs_sheet(&self) -> bool
        ensures { result ≡ needs_sheet (meant self.now) }
    {
        matches!(self, Command::Sheet(_))
    }

    pub(crate) fn opens_sheet(&self) -> bool
        ensures { result ≡ opens_sheet (meant self.now) }
    {
        matches!(self, Command::Open)
    }
}
