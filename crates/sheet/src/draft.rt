// Terms and a spread in the making, which a sheet can put in force all at once.
ghost use Rattle.std.specs.Prelude.{◌≡◌, ◌+◌, ◌≤◌, true};
ghost use Rattle.sheet.specs.Faults.{tested, unless};
ghost use Rattle.sheet.specs.Edits.{amount_fault, spread_fault, edit_fault, edited};
ghost use Rattle.sheet.specs.Admits.{clear, CouponsClear, RightsClear};

use crate::edit::Edit;
use crate::fault::SheetFault;
use crate::state::State;

// The state of a sheet of so many steps, of which nothing is worked.
#[derive(Drop)]
pub struct Draft {
    pub(crate) steps: usize,
    pub(crate) state: State,
    ghost few: { steps ≤ 64 },
    ghost unworked: { state.first ≡ steps + 1 },
    ghost redeemable: { clear (amount_fault 0 state.terms.redemption) ≡ true },
    ghost narrow: { clear (spread_fault state.spread) ≡ true },
    ghost payable: { CouponsClear steps state.terms },
    ghost priced: { RightsClear steps state.terms },
}

impl Draft {
    // Makes an edit, by the same tests as a sheet.
    pub fn edit(&mut self, edit: Edit) -> Result<(), SheetFault>
        ensures answers { result ≡ tested (edit_fault self.old.steps self.old.state edit) }
        ensures leaves { self.new.state ≡ unless (edit_fault self.old.steps self.old.state edit) (edited self.old.steps self.old.state edit) self.old.state }
        ensures same { self.new.steps ≡ self.old.steps }
    {
        self.state.amend(self.steps, edit)
    }
}
