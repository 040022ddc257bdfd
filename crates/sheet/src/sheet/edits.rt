// The edits of a sheet by the names that a host knows, each one line over `edit`, which takes any of them. Each answers
// the first worked step after it.
ghost use Rattle.std.specs.Prelude.{◌≡◌};
ghost use Rattle.game.specs.declared.terms.Kind.TheVariants.{Call as Calls, Put as Puts};
ghost use Rattle.sheet.specs.declared.edit.Edit.TheVariants.{Coupon, Enter, Cancel, Redeem, Spread as Respread};
ghost use Rattle.sheet.specs.Promises.{Edited};

use crate::edit::Edit;
use crate::fault::SheetFault;
use crate::sheet::Sheet;
use game::clash::ClashRule;
use game::terms::Kind;
use lattice::Lattice;

impl<L: Lattice, K: ClashRule> Sheet<L, K> {
    // Sets the coupon of step `t`; a coupon of 0 is none.
    pub fn coupon(&mut self, t: usize, amount: u32) -> Result<usize, SheetFault>
        ensures edited { Edited (L.Lattice.model self.old.lattice) (K.ClashRule.settled self.old.clash) (Coupon t amount) self.old.state result self.new.state }
        ensures same { (self.new.lattice ≡ self.old.lattice) × (self.new.clash ≡ self.old.clash) }
    {
        self.edit(Edit::Coupon(t, amount))
    }

    // Enters the issuer's right to call at step `t`, in place of any there.
    pub fn call(&mut self, t: usize, price: u32, notice: usize) -> Result<usize, SheetFault>
        ensures edited { Edited (L.Lattice.model self.old.lattice) (K.ClashRule.settled self.old.clash) (Enter Calls t price notice) self.old.state result self.new.state }
        ensures same { (self.new.lattice ≡ self.old.lattice) × (self.new.clash ≡ self.old.clash) }
    {
        self.edit(Edit::Enter(Kind::Call, t, price, notice))
    }

    // Enters the holder's right to put at step `t`, in place of any there.
    pub fn put(&mut self, t: usize, price: u32, notice: usize) -> Result<usize, SheetFault>
        ensures edited { Edited (L.Lattice.model self.old.lattice) (K.ClashRule.settled self.old.clash) (Enter Puts t price notice) self.old.state result self.new.state }
        ensures same { (self.new.lattice ≡ self.old.lattice) × (self.new.clash ≡ self.old.clash) }
    {
        self.edit(Edit::Enter(Kind::Put, t, price, notice))
    }

    // Removes the right of that kind at step `t`.
    pub fn cancel(&mut self, kind: Kind, t: usize) -> Result<usize, SheetFault>
        ensures edited { Edited (L.Lattice.model self.old.lattice) (K.ClashRule.settled self.old.clash) (Cancel kind t) self.old.state result self.new.state }
        ensures same { (self.new.lattice ≡ self.old.lattice) × (self.new.clash ≡ self.old.clash) }
    {
        self.edit(Edit::Cancel(kind, t))
    }

    // Sets the redemption.
    pub fn redeem(&mut self, amount: u32) -> Result<usize, SheetFault>
        ensures edited { Edited (L.Lattice.model self.old.lattice) (K.ClashRule.settled self.old.clash) (Redeem amount) self.old.state result self.new.state }
        ensures same { (self.new.lattice ≡ self.old.lattice) × (self.new.clash ≡ self.old.clash) }
    {
        self.edit(Edit::Redeem(amount))
    }

    // Sets the spread.
    pub fn spread(&mut self, spread: u32) -> Result<usize, SheetFault>
        ensures edited { Edited (L.Lattice.model self.old.lattice) (K.ClashRule.settled self.old.clash) (Respread spread) self.old.state result self.new.state }
        ensures same { (self.new.lattice ≡ self.old.lattice) × (self.new.clash ≡ self.old.clash) }
    {
        self.edit(Edit::Spread(spread))
    }
}
