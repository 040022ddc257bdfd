// Faults of the sheet in a record.
ghost use Rattle.std.specs.Prelude.{◌≡◌};
ghost use Rattle.record.specs.Decode.{under};

use crate::fault::RecordFault;
use sheet::SheetFault;

// The sheet's fault, kept whole, under the place of the part.
pub(crate) fn at_place<T>(res: Result<T, SheetFault>, place: usize) -> Result<T, RecordFault>
    ensures { result ≡ under place res }
{
    res.map_err(|fault| RecordFault::Term(place, fault))
}
