// Which fields of a record are still to be read.
ghost use Rattle.std.specs.Prelude.{◌≡◌, ◌/◌, ◌%◌, count_ones};
ghost use Rattle.record.specs.Decode.{odd};

// The bits of the fields still to be read, the next one lowest, and how many of them stand: the count of ones, since the
// rules say that so many fields follow.
#[derive(Drop)]
pub(crate) struct Fields {
    bits: u8,
    left: u32,
    ghost counted: { left ≡ count_ones bits },
}

impl Fields {
    // The low five bits of the map stand for fields.
    pub(crate) fn new(map: u8) -> Fields
        ensures { result.bits ≡ map % 32 }
    {
        let bits = map % 32;
        Fields {
            bits,
            left: bits.count_ones(),
        }
    }

    // Whether the next field is there.
    pub(crate) fn take(&mut self) -> bool
        ensures found { result ≡ odd self.old.bits }
        ensures rest { self.new.bits ≡ self.old.bits / 2 }
    {
        if self.left == 0 {
            return false;
        }
        let found = self.bits % 2 == 1;
        let bits = self.bits / 2;
        self.bits = bits;
        if found {
            self.left -= 1;
        }
        found
    }
}
