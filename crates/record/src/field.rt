// A field of a record, as it is written: an absent one has no bytes.
ghost use Rattle.std.specs.Prelude.{◌≡◌, ◌+◌, ◌≤◌, List, ℕ, length};
ghost use Rattle.record.specs.Encode.{some_word};
ghost use Rattle.record.specs.Puts.{Put};

use crate::writer::Writer;

pub(crate) trait Field {
    ghost field_bytes: { Self → List ℕ };

    fn size(&self) -> usize
        ensures is { result ≡ length (field_bytes self.now) }
        ensures small { result ≤ 65026 };

    fn put(&self, writer: &mut Writer)
        requires { writer.old.at + length (field_bytes self.now) ≤ length writer.old.out.now }
        ensures { Put (field_bytes self.now) writer.old writer.new };
}

impl Field for Option<u32> {
    ghost field_bytes = { some_word };

    fn size(&self) -> usize {
        if self.is_some() { 4 } else { 0 }
    }

    fn put(&self, writer: &mut Writer) {
        if let Some(word) = self {
            writer.put(&word.to_be_bytes());
        }
    }
}
