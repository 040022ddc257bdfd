// The lists of a record: the form of an entry, and the edit that enters it.
ghost use Rattle.std.specs.Prelude.{◌≡◌, ℕ, ◌+◌, ◌≤◌, List, length, Option, None, Some, Result, slice_set, refl};
ghost use Rattle.game.specs.declared.terms.Right.{Right};
ghost use Rattle.sheet.specs.declared.state.State.{State};
ghost use Rattle.sheet.specs.declared.edit.Edit.{Edit};
ghost use Rattle.sheet.specs.declared.edit.Edit.TheVariants.{Coupon, Enter};
ghost use Rattle.sheet.specs.declared.fault.SheetFault.{SheetFault};
ghost use Rattle.sheet.specs.Edits.{edit_fault, edited, coupon_fault, right_fault};
ghost use Rattle.record.specs.declared.fault.RecordFault.{RecordFault};
ghost use Rattle.record.specs.Decode.{coupon_form, right_form};
ghost use Rattle.record.specs.Fills.{Lens, coupons_lens, rights_lens};
ghost use Rattle.record.specs.Enters.{coupon_enters, right_enters};

use crate::fault::RecordFault;
use crate::reader::Part;
use game::terms::{Kind, Right};
use sheet::Edit;

// A list, whose entries have N bytes, the first of which is the step.
pub(crate) trait Listed<const N: usize>: Copy {
    type Entry: Copy;

    type Cell: Copy;

    ghost form: { ℕ → ℕ → List ℕ → Result (ℕ × Self.Entry) RecordFault };

    ghost fault: { ℕ → ℕ × Self.Entry → Option SheetFault };

    ghost edit: { Self → ℕ × Self.Entry → Edit };

    ghost table: { Self → Lens (List Self.Cell) };

    ghost cell: { Self.Entry → Self.Cell };

    // What the bytes of an entry say: its step, no less than the floor, and what stands there.
    fn form(part: Part, floor: usize) -> Result<(u8, Self::Entry), RecordFault>
        requires { N ≤ length part.bytes.now }
        ensures { result ≡ form floor part.entry.place part.entry.bytes.now };

    fn edit(self, step: u8, entry: Self::Entry) -> Edit
        ensures { result ≡ edit self (step, entry) };

    ghost tests: { (l : Self) (n : ℕ) (s : State) (e : ℕ × Self.Entry) → edit_fault n s (edit l e) ≡ fault n e };

    ghost enters: { (l : Self) (n : ℕ) (s : State) (e : ℕ × Self.Entry) → s.first ≡ n + 1 → fault n e ≡ None → edited n s (edit l e) ≡ (table l).with s (slice_set ((table l).of s) e.0 (cell e.1)) };
}

#[derive(Clone, Copy)]
pub(crate) struct Coupons;

impl Listed<5> for Coupons {
    type Entry = u32;

    type Cell = u32;

    ghost form = { coupon_form };

    ghost fault = { λ n e. coupon_fault n e.0 e.1 };

    ghost edit = { λ _ e. Coupon e.0 e.1 };

    ghost table = { λ _. coupons_lens };

    ghost cell = { λ a. a };

    fn form(part: Part, floor: usize) -> Result<(u8, u32), RecordFault> {
        let [step, a3, a2, a1, a0, ..] = part.bytes else {
            unreachable()
        };
        let amount = u32::from_be_bytes([*a3, *a2, *a1, *a0]);
        let at = usize::from(*step);
        if at < floor || amount == 0 {
            return Err(RecordFault::Form(part.place));
        }
        Ok((*step, amount))
    }

    fn edit(self, step: u8, amount: u32) -> Edit {
        Edit::Coupon(usize::from(step), amount)
    }

    ghost tests = { λ l n s e. refl };

    ghost enters = { λ l n s e. coupon_enters n s e.0 e.1 };
}

// The rights of a kind.
impl Listed<6> for Kind {
    type Entry = Right;

    type Cell = Option<Right>;

    ghost form = { right_form };

    ghost fault = { λ n e. right_fault n e.0 e.1.price e.1.notice };

    ghost edit = { λ kind e. Enter kind e.0 e.1.price e.1.notice };

    ghost table = { rights_lens };

    ghost cell = { Some };

    fn form(part: Part, floor: usize) -> Result<(u8, Right), RecordFault> {
        let [step, notice, p3, p2, p1, p0, ..] = part.bytes else {
            unreachable()
        };
        if usize::from(*step) < floor {
            return Err(RecordFault::Form(part.place));
        }
        let right = Right {
            price: u32::from_be_bytes([*p3, *p2, *p1, *p0]),
            notice: *notice,
        };
        Ok((*step, right))
    }

    fn edit(self, step: u8, right: Right) -> Edit {
        Edit::Enter(
            self,
            usize::from(step),
            right.price,
            usize::from(right.notice),
        )
    }

    ghost tests = { λ l n s e. refl };

    ghost enters = { λ l n s e. right_enters n s l e.0 e.1 };
}
