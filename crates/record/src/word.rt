// The fields of a record that are a number of four bytes.
ghost use Rattle.std.specs.Prelude.{◌≡◌, ◌≤◌, length, not, ◌==◌};
ghost use Rattle.std.specs.Bool.{then_some};
ghost use Rattle.record.specs.Decode.{word_form};
ghost use Rattle.record.specs.Fills.{word_absent, word_edit};

use crate::fault::RecordFault;
use crate::reader::Part;
use sheet::Edit;

#[derive(Clone, Copy)]
pub(crate) enum Word {
    Redemption,
    Spread,
}

impl Word {
    // What its absence means, which is never written.
    fn absent(self) -> u32
        ensures { result ≡ word_absent self }
    {
        match self {
            Word::Redemption => 1_000_000,
            Word::Spread => 0,
        }
    }

    // What is written of a value.
    pub(crate) fn written(self, value: u32) -> Option<u32>
        ensures { result ≡ then_some (not (value == word_absent self)) value }
    {
        (value != self.absent()).then_some(value)
    }

    // What the bytes of the field say.
    pub(crate) fn form(self, part: Part) -> Result<u32, RecordFault>
        requires { 4 ≤ length part.bytes.now }
        ensures { result ≡ word_form (word_absent self) part.entry.place part.entry.bytes.now }
    {
        let [b3, b2, b1, b0, ..] = part.bytes else {
            unreachable()
        };
        let word = u32::from_be_bytes([*b3, *b2, *b1, *b0]);
        if word == self.absent() {
            return Err(RecordFault::Form(part.place));
        }
        Ok(word)
    }

    pub(crate) fn edit(self, word: u32) -> Edit
        ensures { result ≡ word_edit self word }
    {
        match self {
            Word::Redemption => Edit::Redeem(word),
            Word::Spread => Edit::Spread(word),
        }
    }
}
