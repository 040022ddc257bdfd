// Puts the terms and the spread of a record in force.
// Where its proof needs answers, a public call is one line over a private function of its promise: so a wrong one is
// refused here, not in a proof.
ghost use Rattle.std.specs.Prelude.{◌≡◌};
ghost use Rattle.record.specs.Promises.{Loaded};

use crate::fault::RecordFault;
use crate::filling::Filling;
use crate::placed::at_place;
use crate::reader::Reader;
use game::clash::ClashRule;
use lattice::Lattice;
use sheet::Sheet;

// Puts the terms and the spread of a record in force, of which nothing is worked then, and answers the first worked step.
pub fn load<L: Lattice, K: ClashRule>(
    sheet: &mut Sheet<L, K>,
    bytes: &[u8],
) -> Result<usize, RecordFault>
    ensures loaded { Loaded (L.Lattice.model sheet.old.lattice) (K.ClashRule.settled sheet.old.clash) bytes.now sheet.old.state result sheet.new.state }
    ensures same { (sheet.new.lattice ≡ sheet.old.lattice) × (sheet.new.clash ≡ sheet.old.clash) }
{
    load_sheet(sheet, bytes)
}

fn load_sheet<L: Lattice, K: ClashRule>(
    sheet: &mut Sheet<L, K>,
    bytes: &[u8],
) -> Result<usize, RecordFault>
    ensures loaded { Loaded (L.Lattice.model sheet.old.lattice) (K.ClashRule.settled sheet.old.clash) bytes.now sheet.old.state result sheet.new.state }
    ensures same { (sheet.new.lattice ≡ sheet.old.lattice) × (sheet.new.clash ≡ sheet.old.clash) }
{
    let mut filling = Filling {
        reader: Reader::new(bytes),
        draft: sheet.draft(),
    };
    filling.fill()?;
    at_place(sheet.adopt(filling.draft), 0)
}
