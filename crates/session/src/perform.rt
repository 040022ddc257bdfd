// Calls on a sheet with what its users lend it.
ghost use Rattle.std.specs.Prelude.{◌≡◌, ◌≤◌, length, take};
ghost use Rattle.sheet.specs.Admits.{Admitted};
ghost use Rattle.sheet.specs.Shared.{Standing};
ghost use Rattle.session.specs.declared.call.Fault.TheVariants as fault;
ghost use Rattle.session.specs.declared.call.Reply.TheVariants as reply;
ghost use Rattle.session.specs.Answers.{heard};
ghost use Rattle.session.specs.Runs.{answered, after as left_by};
ghost use Rattle.session.specs.Promises.{BestPlayAfterAnyRun};
ghost use Rattle.session.specs.declared.call.Call.TheVariants.{Save};

use crate::call::{Call, Fault, Reply};
use game::clash::ClashRule;
use lattice::Lattice;
use record::RecordFault;
use sheet::{Sheet, SheetFault};

// `?` asks for both: a run hears the faults of two layers.
impl From<SheetFault> for Fault {
    ghost from_gives = { λ f r. r ≡ fault.Sheet f };

    fn from(f: SheetFault) -> Fault {
        Fault::Sheet(f)
    }
}

impl From<RecordFault> for Fault {
    ghost from_gives = { λ f r. r ≡ fault.Record f };

    fn from(f: RecordFault) -> Fault {
        Fault::Record(f)
    }
}

// What the users of a sheet lend it: the rows, and an output of which so many bytes were given to saves. The sheet itself
// stays outside: a generic struct that holds it would tell its caller nothing of the rows. That the references stay the
// lent ones (`Kept`) is a relation of before and after, which no invariant says.
#[derive(Drop)]
pub(crate) struct Lent<'a> {
    pub(crate) values: &'a mut [u32],
    pub(crate) marks: &'a mut [u8],
    pub(crate) output: &'a mut [u8],
    pub(crate) used: usize,
    ghost within: { used ≤ length output.now },
}

impl Lent<'_> {
    ghost use Rattle.session.specs.Held.{held, Kept};

    // Saves into the next bytes of the output, as many as the save names or as are left.
    fn save<L: Lattice, K: ClashRule>(
        &mut self,
        sheet: &Sheet<L, K>,
        room: usize,
    ) -> Result<Reply, Fault>
        ensures answers { heard result ≡ answered (L.Lattice.model sheet.now.lattice) (K.ClashRule.settled sheet.now.clash) (Save room) (held sheet.now.state self.old) }
        ensures leaves { held sheet.now.state self.new ≡ left_by (L.Lattice.model sheet.now.lattice) (K.ClashRule.settled sheet.now.clash) (Save room) (held sheet.now.state self.old) }
        ensures same_values { self.new.values ≡ self.old.values }
        ensures same_marks { self.new.marks ≡ self.old.marks }
        ensures same_output { self.new.output.ghost_name ≡ self.old.output.ghost_name }
    {
        let output = &mut *self.output;
        let at = self.used;
        let end = at + room.min(output.len() - at);
        self.used = end;
        Ok(Reply::Saved(at, record::save(sheet, &mut output[at..end])?))
    }

    fn perform<L: Lattice, K: ClashRule>(
        &mut self,
        sheet: &mut Sheet<L, K>,
        call: &Call,
    ) -> Result<Reply, Fault>
        ensures answers { heard result ≡ answered (L.Lattice.model sheet.old.lattice) (K.ClashRule.settled sheet.old.clash) call.now (held sheet.old.state self.old) }
        ensures leaves { held sheet.new.state self.new ≡ left_by (L.Lattice.model sheet.old.lattice) (K.ClashRule.settled sheet.old.clash) call.now (held sheet.old.state self.old) }
        ensures keeps { Standing (L.Lattice.model sheet.old.lattice) (K.ClashRule.settled sheet.old.clash) sheet.old.state self.old.values.now self.old.marks.now → Standing (L.Lattice.model sheet.old.lattice) (K.ClashRule.settled sheet.old.clash) sheet.new.state self.new.values.now self.new.marks.now }
        ensures admits { Admitted (L.Lattice.model sheet.old.lattice).steps sheet.old.state.terms sheet.old.state.spread → Admitted (L.Lattice.model sheet.old.lattice).steps sheet.new.state.terms sheet.new.state.spread }
        ensures same { (sheet.new.lattice ≡ sheet.old.lattice) × (sheet.new.clash ≡ sheet.old.clash) }
        ensures kept { Kept self.old self.new }
    {
        let values = &mut *self.values;
        let marks = &mut *self.marks;
        match call {
            Call::Edit(edit) => Ok(Reply::First(sheet.edit(*edit)?)),
            Call::Load(bytes) => Ok(Reply::First(record::load(sheet, bytes)?)),
            Call::Save(room) => self.save(sheet, *room),
            Call::Back(n) => Ok(Reply::First(sheet.back(*n, values, marks)?)),
            Call::Read(t, j) => Ok(Reply::Read(sheet.read(*t, *j, values, marks)?)),
            Call::Cost => Ok(Reply::Costs(sheet.cost())),
            Call::Fit(want) => Ok(Reply::Fitted(sheet.fit(*want)?)),
            Call::Strike => Ok(Reply::Struck(sheet.strike(values)?)),
        }
    }

    // Performs the calls in their order, as many as there is room for answers.
    pub(crate) fn perform_all<L: Lattice, K: ClashRule>(
        &mut self,
        sheet: &mut Sheet<L, K>,
        calls: &[Call],
        answers: &mut [Option<Result<Reply, Fault>>],
    )
        requires stands { Standing (L.Lattice.model sheet.old.lattice) (K.ClashRule.settled sheet.old.clash) sheet.old.state self.old.values.now self.old.marks.now }
        requires admitted { Admitted (L.Lattice.model sheet.old.lattice).steps sheet.old.state.terms sheet.old.state.spread }
        ensures law { BestPlayAfterAnyRun (L.Lattice.model sheet.old.lattice) (K.ClashRule.settled sheet.old.clash) (take (length answers.old) calls.now) (held sheet.old.state self.old) answers.old answers.new sheet.new.state self.new.values.now self.new.marks.now self.new.output.now }
        ensures same { (sheet.new.lattice ≡ sheet.old.lattice) × (sheet.new.clash ≡ sheet.old.clash) }
        ensures kept { Kept self.old self.new }
    {
        let count = answers.len().min(calls.len());
        // no zip with answers.iter_mut(): the proof would know none of the answers that it wrote
        for (i, call) in calls[..count].iter().enumerate() {
            answers[i] = Some(self.perform(sheet, call));
        }
    }
}
