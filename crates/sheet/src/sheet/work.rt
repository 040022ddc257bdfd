// Working back into lent rows, and reading what they hold.
// The rows come as two slices: they are the host's, and a strike takes one of them alone. A struct of both would be made
// for a call and taken apart in it.
// Where its proof needs answers, a public call is one line over a private function of its promise: so a wrong one is
// refused here, not in a proof.
ghost use Rattle.std.specs.Prelude.{◌≡◌, ℕ, ◌<◌, List, length, slice_index};
ghost use Rattle.rates.specs.Refusals.{told};
ghost use Rattle.game.specs.Stored.{all_nodes as nodes_of};
ghost use Rattle.game.specs.Plays.{BestPlay};
ghost use Rattle.game.specs.Stored.{stored};
ghost use Rattle.sheet.specs.Faults.{sheet_refusal, tested, answer};
ghost use Rattle.sheet.specs.Calls.{rows_fault, read_fault, entry};
ghost use Rattle.sheet.specs.Shared.{Standing, BestStored};
ghost use Rattle.sheet.specs.Promises.{WorkedBack};

use crate::answer::Entry;
use crate::back;
use crate::fault::SheetFault;
use crate::sheet::Sheet;
use game::clash::ClashRule;
use lattice::Lattice;

// How many entries the rows of a lattice have.
pub fn all_nodes<L: Lattice>(lattice: &L) -> usize
    ensures { result ≡ nodes_of (L.Lattice.model lattice.now) }
{
    back::offset(lattice, lattice.steps() + 1)
}

fn check_rows<L: Lattice>(lattice: &L, values: &[u32], marks: &[u8]) -> Result<(), SheetFault>
    ensures { result ≡ tested (rows_fault (L.Lattice.model lattice.now) values.now marks.now) }
{
    let wanted = all_nodes(lattice);
    if values.len() < wanted || marks.len() < wanted {
        return Err(SheetFault::Rows(wanted));
    }
    Ok(())
}

fn entry_at(values: &[u32], marks: &[u8], at: usize) -> Entry
    requires values { at < length values.now }
    requires marks { at < length marks.now }
    ensures figure { result.figure ≡ slice_index values.now at }
    ensures mark { result.mark ≡ slice_index marks.now at }
{
    Entry {
        figure: values[at],
        mark: marks[at],
    }
}

impl<L: Lattice, K: ClashRule> Sheet<L, K> {
    fn work(&mut self, n: usize, values: &mut [u32], marks: &mut [u8]) -> Result<usize, SheetFault>
        ensures worked { WorkedBack (L.Lattice.model self.old.lattice) (K.ClashRule.settled self.old.clash) n self.old.state values.old marks.old result self.new.state values.new marks.new }
        ensures same { (self.new.lattice ≡ self.old.lattice) × (self.new.clash ≡ self.old.clash) }
    {
        check_rows(&self.lattice, values, marks)?;
        let n = n.min(self.state.first);
        let first = self.state.first;
        let valuation = self.valuation();
        valuation.work_back(first, n, values, marks)?;
        self.state.first -= n;
        Ok(self.state.first)
    }

    // Works the next `n` steps below the first worked one, or all that are left.
    pub fn back(
        &mut self,
        n: usize,
        values: &mut [u32],
        marks: &mut [u8],
    ) -> Result<usize, SheetFault>
        ensures worked { WorkedBack (L.Lattice.model self.old.lattice) (K.ClashRule.settled self.old.clash) n self.old.state values.old marks.old result self.new.state values.new marks.new }
        ensures same { (self.new.lattice ≡ self.old.lattice) × (self.new.clash ≡ self.old.clash) }
    {
        self.work(n, values, marks)
    }

    // The stored figure and mark of a node. With the rows handed on, they are best play there.
    pub fn read(
        &self,
        t: usize,
        j: usize,
        values: &[u32],
        marks: &[u8],
    ) -> Result<Entry, SheetFault>
        ensures answers { told sheet_refusal result ≡ answer (read_fault (L.Lattice.model self.now.lattice) self.now.state values.now marks.now t j) (entry (L.Lattice.model self.now.lattice) values.now marks.now t j) }
        ensures best { Standing (L.Lattice.model self.now.lattice) (K.ClashRule.settled self.now.clash) self.now.state values.now marks.now → BestStored (L.Lattice.model self.now.lattice) (K.ClashRule.settled self.now.clash) self.now.state values.now marks.now }
    {
        self.stored(t, j, values, marks)
    }

    // The entries of a node, without what they are worth: that is shown once in `read`, and not on each way out.
    fn stored(&self, t: usize, j: usize, values: &[u32], marks: &[u8]) -> Result<Entry, SheetFault>
        ensures { told sheet_refusal result ≡ answer (read_fault (L.Lattice.model self.now.lattice) self.now.state values.now marks.now t j) (entry (L.Lattice.model self.now.lattice) values.now marks.now t j) }
    {
        if t > self.lattice.steps() {
            return Err(SheetFault::Step(t));
        }
        check_rows(&self.lattice, values, marks)?;
        if t < self.state.first {
            return Err(SheetFault::Unworked(t));
        }
        if j >= self.lattice.nodes(t) {
            return Err(SheetFault::NoNode(j));
        }
        let at = back::offset(&self.lattice, t) + j;
        Ok(entry_at(values, marks, at))
    }
}
