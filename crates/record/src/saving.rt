// Writes the record of terms and a spread.
// Where its proof needs answers, a public call is one line over a private function of its promise: so a wrong one is
// refused here, not in a proof.
ghost use Rattle.std.specs.Prelude.{◌≡◌, ℕ, ◌+◌, ◌≤◌, length};
ghost use Rattle.record.specs.Encode.{encode};
ghost use Rattle.record.specs.Puts.{Put, record_map, record_bytes};
ghost use Rattle.record.specs.Promises.{Saved};

use crate::entries::Entries;
use crate::fault::RecordFault;
use crate::field::Field;
use crate::word::Word;
use crate::writer::Writer;
use game::clash::ClashRule;
use game::terms::{Right, Terms};
use lattice::Lattice;
use sheet::Sheet;
use sheet::state::State;

// The fields of a record: a word only where it differs from what an absent field means.
#[derive(Drop)]
struct Record<'a> {
    redemption: Option<u32>,
    spread: Option<u32>,
    coupons: Entries<'a, 5, u32>,
    calls: Entries<'a, 6, Option<Right>>,
    puts: Entries<'a, 6, Option<Right>>,
}

impl<'a> Record<'a> {
    fn new(terms: &'a Terms, spread: u32) -> Record<'a>
        ensures bytes { record_bytes result ≡ encode terms.now spread }
        ensures tables { (length terms.now.coupons ≡ 65) × (length terms.now.calls ≡ 64) × (length terms.now.puts ≡ 64) }
    {
        Record {
            redemption: Word::Redemption.written(terms.redemption),
            spread: Word::Spread.written(spread),
            coupons: Entries::new(&terms.coupons),
            calls: Entries::new(&terms.calls),
            puts: Entries::new(&terms.puts),
        }
    }

    // How many bytes the record has.
    fn size(&self) -> usize
        ensures { result ≡ length (record_bytes self.now) }
    {
        1 + self.redemption.size()
            + self.spread.size()
            + self.coupons.size()
            + self.calls.size()
            + self.puts.size()
    }

    // The map of the fields that are there.
    fn map(&self) -> u8
        ensures { result ≡ record_map self.now }
    {
        u8::from(self.redemption.is_some())
            + 2 * (u8::from(self.spread.is_some())
                + 2 * (u8::from(self.coupons.size() > 0)
                    + 2 * (u8::from(self.calls.size() > 0) + 2 * u8::from(self.puts.size() > 0))))
    }

    fn put(&self, writer: &mut Writer)
        requires { writer.old.at + length (record_bytes self.now) ≤ length writer.old.out.now }
        ensures { Put (record_bytes self.now) writer.old writer.new }
    {
        writer.put(&[self.map()]);
        self.redemption.put(writer);
        self.spread.put(writer);
        self.coupons.put(writer);
        self.calls.put(writer);
        self.puts.put(writer);
    }
}

// Writes the record of a state at the front of an output that has room for it.
fn save_state(state: &State, out: &mut [u8]) -> Result<usize, RecordFault>
    ensures { (n : ℕ) → Saved n state.now out.old result out.new }
{
    let record = Record::new(&state.terms, state.spread);
    let needed = record.size();
    if out.len() < needed {
        return Err(RecordFault::Output(needed));
    }
    record.put(&mut Writer::new(out));
    Ok(needed)
}

// Writes the record of a sheet's terms and spread, and answers how many bytes it has.
pub fn save<L: Lattice, K: ClashRule>(
    sheet: &Sheet<L, K>,
    out: &mut [u8],
) -> Result<usize, RecordFault>
    ensures saved { Saved (L.Lattice.model sheet.now.lattice).steps sheet.now.state out.old result out.new }
{
    save_sheet(sheet, out)
}

// Two private ones under `save`: that of a state alone serves any number of steps.
fn save_sheet<L: Lattice, K: ClashRule>(
    sheet: &Sheet<L, K>,
    out: &mut [u8],
) -> Result<usize, RecordFault>
    ensures saved { Saved (L.Lattice.model sheet.now.lattice).steps sheet.now.state out.old result out.new }
{
    save_state(sheet.state(), out)
}
