// A record that is read into a draft, field by field: the form of each part first, then the
// sheet's own test.
ghost use Rattle.std.specs.Prelude.{◌≡◌, List};
ghost use Rattle.sheet.specs.Edits.{opened};
ghost use Rattle.record.specs.Decode.{reads, yields, checked, word_form, word_at, entry_at, list_at, end_at, decode};
ghost use Rattle.record.specs.Fills.{word_absent, word_fault, word_lens};
ghost use Rattle.record.specs.Filled.{Filled};

use crate::fault::RecordFault;
use crate::fields::Fields;
use crate::listed::{Coupons, Listed};
use crate::placed::at_place;
use crate::reader::Reader;
use crate::word::Word;
use game::terms::Kind;
use sheet::Draft;

#[derive(Drop)]
pub(crate) struct Filling<'a> {
    pub(crate) reader: Reader<'a>,
    pub(crate) draft: Draft,
}

impl<'a> Filling<'a> {
    // Reads a record from its front, into a draft in which nothing stands yet.
    pub(crate) fn fill(&mut self) -> Result<(), RecordFault>
        requires front { self.old.reader.at ≡ 0 }
        requires blank { self.old.draft.state ≡ opened self.old.draft.steps }
        ensures steps { self.new.draft.steps ≡ self.old.draft.steps }
        ensures filled { yields result (self.new.draft.state.terms, self.new.draft.state.spread) ≡ decode self.old.draft.steps self.old.reader.src.now }
    {
        let mut fields = Fields::new(self.reader.byte_unless(|map| map >= 32)?);
        self.word(Word::Redemption, fields.take())?;
        self.word(Word::Spread, fields.take())?;
        self.list(Coupons, fields.take())?;
        self.list(Kind::Call, fields.take())?;
        self.list(Kind::Put, fields.take())?;
        self.end()
    }

    // A word, where the map has it. The map's bit comes along, as in the definition: the caller
    // would ask it five times.
    fn word(&mut self, word: Word, present: bool) -> Result<(), RecordFault>
        ensures filled { Filled (word_lens word) self.old self.new }
        ensures got { yields result ((word_lens word).of self.new.draft.state, self.new.reader.at) ≡ word_at (checked (word_fault word) (word_form (word_absent word))) ((word_lens word).of self.old.draft.state) present self.old.reader.src.now self.old.reader.at }
    {
        if !present {
            return Ok(());
        }
        let part = self.reader.part(4)?;
        let value = word.form(part)?;
        at_place(self.draft.edit(word.edit(value)), part.place)
    }

    // An entry of a list: answers the least step of the next one.
    fn entry<const N: usize, L: Listed<N>>(
        &mut self,
        list: L,
        floor: usize,
    ) -> Result<usize, RecordFault>
        ensures filled { Filled (L.table list) self.old self.new }
        ensures got { reads result ((L.table list).of self.new.draft.state, self.new.reader.at) ≡ entry_at N (λ floor. checked (L.fault self.old.draft.steps) (L.form floor)) L.cell self.old.reader.src.now floor ((L.table list).of self.old.draft.state) self.old.reader.at }
    {
        let part = self.reader.part(N)?;
        let (step, entry) = L::form(part, floor)?;
        at_place(self.draft.edit(list.edit(step, entry)), part.place)?;
        Ok(usize::from(step) + 1)
    }

    // A list, where the map has it (whose bit comes along, as above): how many entries, then each.
    fn list<const N: usize, L: Listed<N>>(
        &mut self,
        list: L,
        present: bool,
    ) -> Result<(), RecordFault>
        ensures filled { Filled (L.table list) self.old self.new }
        ensures got { yields result ((L.table list).of self.new.draft.state, self.new.reader.at) ≡ list_at N (λ floor. checked (L.fault self.old.draft.steps) (L.form floor)) L.cell ((L.table list).of self.old.draft.state) present self.old.reader.src.now self.old.reader.at }
    {
        if !present {
            return Ok(());
        }
        let count = self.reader.byte_unless(|count| count == 0)?;
        let mut floor = 0;
        for _ in 0..count {
            floor = self.entry(list, floor)?;
        }
        Ok(())
    }

    // That nothing follows what was read.
    fn end(&self) -> Result<(), RecordFault>
        ensures { result ≡ end_at self.now.reader.src.now self.now.reader.at }
    {
        if self.reader.at < self.reader.src.len() {
            return Err(RecordFault::Extra(self.reader.at));
        }
        Ok(())
    }
}
