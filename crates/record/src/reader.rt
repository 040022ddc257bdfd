// A record that is read from the front, a part at a time.
ghost use Rattle.std.specs.Prelude.{◌≡◌, ℕ, Bool, ◌+◌, ◌<◌, ◌≤◌, length, MatchResult};
ghost use Rattle.record.specs.declared.fault.RecordFault.TheVariants.{Short};
ghost use Rattle.record.specs.Cuts.{Cut};
ghost use Rattle.record.specs.Decode.{reads, part_at, byte_form};

use crate::fault::RecordFault;

// A part of a record: the bytes that it occupies, and the place of the first. A slice and not an array: an
// entry is taken apart by a pattern of its named bytes and the rest, as the decisions have it.
#[derive(Clone, Copy)]
pub(crate) struct Part<'a> {
    pub(crate) bytes: &'a [u8],
    pub(crate) place: usize,
}

#[derive(Drop)]
pub(crate) struct Reader<'a> {
    pub(crate) src: &'a [u8],
    pub(crate) at: usize,
    ghost within: { at ≤ length src.now },
}

impl<'a> Reader<'a> {
    pub(crate) fn new(src: &'a [u8]) -> Reader<'a>
        ensures { (result.src.now ≡ src.now) × (result.at ≡ 0) }
    {
        Reader { src, at: 0 }
    }

    // The next `n` bytes, or that the record ends before the last of them.
    pub(crate) fn part(&mut self, n: usize) -> Result<Part<'a>, RecordFault>
        ensures kept { self.new.src.now ≡ self.old.src.now }
        ensures got { MatchResult result
            (λ p. Cut n self.old.src.now self.old.at self.new.at p.bytes.now p.place)
            (λ e. (e ≡ Short (length self.old.src.now)) × (length self.old.src.now < self.old.at + n)) }
    {
        let at = self.at;
        let src = self.src;
        if src.len() - at < n {
            return Err(RecordFault::Short(src.len()));
        }
        self.at = at + n;
        Ok(Part {
            bytes: &src[at..at + n],
            place: at,
        })
    }

    // The next byte, unless it breaks the form.
    pub(crate) fn byte_unless<F: FnOnce(u8) -> bool>(&mut self, bad: F) -> Result<u8, RecordFault>
        requires { F.IsAlwaysCallable bad }
        ensures kept { self.new.src.now ≡ self.old.src.now }
        ensures got { (test : ℕ → Bool) → ((x : ℕ) (b : Bool) → x < 256 → F.post bad x b → b ≡ test x) → reads result self.new.at ≡ part_at 1 (byte_form test) self.old.src.now self.old.at }
    {
        let part = self.part(1)?;
        let [byte, ..] = part.bytes else {
            unreachable()
        };
        if bad(*byte) {
            return Err(RecordFault::Form(part.place));
        }
        Ok(*byte)
    }
}
