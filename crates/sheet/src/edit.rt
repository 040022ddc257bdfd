// Edits of a sheet: their tests, and what they set.
ghost use Rattle.std.specs.Prelude.{◌≡◌, ℕ, ◌≤◌, None};
ghost use Rattle.sheet.specs.Faults.{tested, unless};
ghost use Rattle.sheet.specs.Edits.{amount_fault, coupon_fault, notice_fault, right_fault, cancel_fault, spread_fault, edit_fault, set_right, edited};

use crate::fault::SheetFault;
use crate::state::State;
use game::terms::{Kind, Right, Terms};

#[derive(Clone, Copy, Debug)]
pub enum Edit {
    // the coupon of a step
    Coupon(usize, u32),
    // a right of a step: its kind, step, price and notice
    Enter(Kind, usize, u32, usize),
    // no right of that kind at a step
    Cancel(Kind, usize),
    Redeem(u32),
    Spread(u32),
}

pub(crate) fn check_amount(place: usize, amount: u32) -> Result<(), SheetFault>
    ensures { result ≡ tested (amount_fault place amount) }
{
    if amount > 10_000_000 {
        return Err(SheetFault::Amount(place));
    }
    Ok(())
}

fn check_coupon(last: usize, t: usize, amount: u32) -> Result<(), SheetFault>
    ensures { result ≡ tested (coupon_fault last t amount) }
{
    if t < 1 || t > last {
        return Err(SheetFault::Step(t));
    }
    check_amount(t, amount)
}

// Where a right stands, and its notice: whatever its price.
fn check_notice(last: usize, t: usize, notice: usize) -> Result<(), SheetFault>
    ensures { result ≡ tested (notice_fault last t notice) }
{
    if t >= last {
        return Err(SheetFault::Step(t));
    }
    if notice > last - t {
        return Err(SheetFault::Notice(t));
    }
    Ok(())
}

fn check_right(last: usize, t: usize, price: u32, notice: usize) -> Result<(), SheetFault>
    ensures { result ≡ tested (right_fault last t price notice) }
{
    check_notice(last, t, notice)?;
    check_amount(t, price)
}

fn check_cancel(last: usize, terms: &Terms, kind: Kind, t: usize) -> Result<(), SheetFault>
    ensures { result ≡ tested (cancel_fault last terms.now kind t) }
{
    if t >= last {
        return Err(SheetFault::Step(t));
    }
    terms.right(kind, t).ok_or(SheetFault::NoRight(t))?;
    Ok(())
}

fn check_spread(spread: u32) -> Result<(), SheetFault>
    ensures { result ≡ tested (spread_fault spread) }
{
    if spread > 200_000 {
        return Err(SheetFault::Spread);
    }
    Ok(())
}

impl Edit {
    // Whether the edit may be made on a lattice of `last` steps.
    fn check(self, last: usize, state: &State) -> Result<(), SheetFault>
        ensures { result ≡ tested (edit_fault last state.now self) }
    {
        match self {
            Edit::Coupon(t, amount) => check_coupon(last, t, amount),
            Edit::Enter(_, t, price, notice) => check_right(last, t, price, notice),
            Edit::Cancel(kind, t) => check_cancel(last, &state.terms, kind, t),
            Edit::Redeem(amount) => check_amount(0, amount),
            Edit::Spread(spread) => check_spread(spread),
        }
    }
}

fn set_right(terms: &mut Terms, kind: Kind, t: usize, right: Option<Right>)
    requires { t ≤ 63 }
    ensures { terms.new ≡ set_right kind terms.old t right }
{
    match kind {
        Kind::Call => terms.calls[t] = right,
        Kind::Put => terms.puts[t] = right,
    }
}

// `last` is at most 64 by the lattice's law: a type that says so would be made for each of these calls, and `opened`, alone.
impl State {
    // Makes an edit, on a lattice of `last` steps, unless its tests refuse it.
    pub(crate) fn amend(&mut self, last: usize, edit: Edit) -> Result<(), SheetFault>
        requires { last ≤ 64 }
        ensures answers { result ≡ tested (edit_fault last self.old edit) }
        ensures leaves { self.new ≡ unless (edit_fault last self.old edit) (edited last self.old edit) self.old }
    {
        edit.check(last, self)?;
        self.apply(last, edit);
        Ok(())
    }

    // Makes an edit that was checked.
    fn apply(&mut self, last: usize, edit: Edit)
        requires few { last ≤ 64 }
        requires checked { edit_fault last self.old edit ≡ None }
        ensures { self.new ≡ edited last self.old edit }
    {
        match edit {
            Edit::Coupon(t, amount) => {
                self.terms.coupons[t] = amount;
                self.first = self.first.max(t);
            }
            Edit::Enter(kind, t, price, notice) => {
                let right = Right {
                    price,
                    notice: notice as u8,
                };
                set_right(&mut self.terms, kind, t, Some(right));
                self.first = self.first.max(t + 1);
            }
            Edit::Cancel(kind, t) => {
                set_right(&mut self.terms, kind, t, None);
                self.first = self.first.max(t + 1);
            }
            Edit::Redeem(amount) => {
                self.terms.redemption = amount;
                self.first = last + 1;
            }
            Edit::Spread(spread) => {
                self.spread = spread;
                self.first = self.first.max(last);
            }
        }
    }
}
