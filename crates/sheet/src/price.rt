// Struck and released prices: only a struck price can be released, and only a released one prints.
// Where its proof needs answers, a public call is one line over a private function of its promise: so a wrong one is
// refused here, not in a proof.
ghost use Rattle.std.specs.Prelude.{◌≡◌, length};
ghost use Rattle.rates.specs.Refusals.{told};
ghost use Rattle.sheet.specs.Faults.{sheet_refusal, answer, unless};
ghost use Rattle.sheet.specs.Prices.{line, print_fault, printed};

use crate::fault::SheetFault;
use crate::laying::lay;

// A root figure and the spread in force when it was struck. Releasing takes it, so that it is released once.
#[derive(Drop)]
pub struct Struck {
    figure: u32,
    spread: u32,
}

// A released price. Printing lends it, so that a refused print loses nothing.
#[derive(Drop)]
pub struct Released {
    figure: u32,
    spread: u32,
}

impl Struck {
    pub(crate) fn new(figure: u32, spread: u32) -> Struck
        ensures figure { result.figure ≡ figure }
        ensures spread { result.spread ≡ spread }
    {
        Struck { figure, spread }
    }

    pub fn release(self) -> Released
        ensures figure { result.figure ≡ self.figure }
        ensures spread { result.spread ≡ self.spread }
    {
        let Struck { figure, spread } = self;
        Released { figure, spread }
    }
}

impl Released {
    // Writes figure, blank, spread and newline, and answers how many bytes these are.
    pub fn print(&self, out: &mut [u8]) -> Result<usize, SheetFault>
        ensures answers { told sheet_refusal result ≡ answer (print_fault out.old) (length (line self.now.figure self.now.spread)) }
        ensures bytes { out.new ≡ unless (print_fault out.old) (printed self.now.figure self.now.spread out.old) out.old }
    {
        self.write(out)
    }

    fn write(&self, out: &mut [u8]) -> Result<usize, SheetFault>
        ensures answers { told sheet_refusal result ≡ answer (print_fault out.old) (length (line self.now.figure self.now.spread)) }
        ensures bytes { out.new ≡ unless (print_fault out.old) (printed self.now.figure self.now.spread out.old) out.old }
    {
        if out.len() < 64 {
            return Err(SheetFault::Output(64));
        }
        let mut digits = itoa::Buffer::new();
        let blank = lay(out, 0, digits.format(self.figure).as_bytes());
        out[blank] = b' ';
        let end = lay(out, blank + 1, digits.format(self.spread).as_bytes());
        out[end] = b'\n';
        Ok(end + 1)
    }
}
