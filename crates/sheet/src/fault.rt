// Why a sheet turns a call down.
ghost use Rattle.std.specs.Prelude.{◌≡◌};
ghost use Rattle.sheet.specs.Faults.{sheet_number, sheet_place};

use rates::fault::{Ground, Layer, Place};

#[derive(Clone, Copy, PartialEq, Eq)]
pub enum SheetFault {
    // how many bytes the output should have
    Output(usize),
    // a step out of range
    Step(usize),
    // the step of a right whose notice runs past the last step
    Notice(usize),
    // the step of an amount above 10,000,000, or 0 where it has none
    Amount(usize),
    // a spread above 200,000
    Spread,
    // a step with no such right
    NoRight(usize),
    // how many entries the rows should have
    Rows(usize),
    // a step that is not worked
    Unworked(usize),
    // a node that does not exist
    NoNode(usize),
    // a step with a figure above 650,000,000
    TooLarge(usize),
    // a wanted price above the root figure at spread 0
    Wanted,
}

// A number is told with a place: see `Ground`.
impl Ground for SheetFault {
    ghost number_of = { sheet_number };

    ghost place_of = { sheet_place };

    fn number(&self) -> u32 {
        match self {
            SheetFault::Output(_) => 1,
            SheetFault::Step(_) => 7,
            SheetFault::Notice(_) => 8,
            SheetFault::Amount(_) => 9,
            SheetFault::Spread => 10,
            SheetFault::NoRight(_) => 11,
            SheetFault::Rows(_) => 12,
            SheetFault::Unworked(_) => 13,
            SheetFault::NoNode(_) => 14,
            SheetFault::TooLarge(_) => 15,
            SheetFault::Wanted => 16,
        }
    }

    fn place(&self) -> Place {
        let at = match self {
            SheetFault::Spread | SheetFault::Wanted => 0,
            SheetFault::Step(t)
            | SheetFault::Notice(t)
            | SheetFault::Amount(t)
            | SheetFault::NoRight(t)
            | SheetFault::Unworked(t)
            | SheetFault::TooLarge(t) => *t,
            SheetFault::Output(wanted) | SheetFault::Rows(wanted) => *wanted,
            SheetFault::NoNode(j) => *j,
        };
        Place {
            at,
            layer: Layer::Sheet,
        }
    }
}
