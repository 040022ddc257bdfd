// Why a record is turned down.
ghost use Rattle.std.specs.Prelude.{◌≡◌};
ghost use Rattle.record.specs.Faults.{record_number, record_place, sheet_place_of};

use rates::fault::{Ground, Layer, Place};
use sheet::SheetFault;

#[derive(Clone, Copy, PartialEq, Eq)]
pub enum RecordFault {
    // how many bytes the output should have
    Output(usize),
    // the length of a record that ends too early
    Short(usize),
    // the first byte of a part that breaks the form
    Form(usize),
    // the first byte past the last field
    Extra(usize),
    // the first byte of a part, and why the sheet turns it down
    Term(usize, SheetFault),
}

impl Ground for RecordFault {
    ghost number_of = { record_number };

    ghost place_of = { record_place };

    // A number is told with a place, so it is no conversion.
    fn number(&self) -> u32 {
        match self {
            RecordFault::Output(_) => 1,
            RecordFault::Short(_) => 17,
            RecordFault::Form(_) => 18,
            RecordFault::Extra(_) => 19,
            RecordFault::Term(_, fault) => fault.number(),
        }
    }

    fn place(&self) -> Place {
        let at = match self {
            RecordFault::Output(wanted) => *wanted,
            RecordFault::Short(length) => *length,
            RecordFault::Form(at) | RecordFault::Extra(at) | RecordFault::Term(at, _) => *at,
        };
        Place {
            at,
            layer: Layer::Record,
        }
    }
}

impl RecordFault {
    // The sheet's own place, where the fault is the sheet's.
    pub fn sheet_place(&self) -> Option<Place>
        ensures { result ≡ sheet_place_of self.now }
    {
        match self {
            RecordFault::Term(_, fault) => Some(fault.place()),
            _ => None,
        }
    }
}
