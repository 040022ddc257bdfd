// What stands in a cell of a table of terms, and the bytes of its entry in a record.
ghost use Rattle.std.specs.Prelude.{◌≡◌, ℕ, ◌<◌, List, length, Option, refl};
ghost use Rattle.std.proofs.Common.{rules};
ghost use Rattle.record.specs.Encode.{nonzero, coupon_bytes, right_bytes};

use game::terms::Right;

// A cell, whose entry has N bytes. It says what is written of a table, and `Listed` what is read into one: two traits,
// since a list of calls and one of puts differ in the second only.
pub(crate) trait Cell<const N: usize> {
    type Entry: Copy;

    ghost held: { Self → Option Self.Entry };

    ghost entry_bytes: { ℕ × Self.Entry → List ℕ };

    fn entry(&self) -> Option<Self::Entry>
        ensures { result ≡ held self.now };

    fn entry_bytes(step: u8, entry: Self::Entry) -> [u8; N]
        ensures { result ≡ entry_bytes (step, entry) };

    ghost long: { (e : ℕ × Self.Entry) → length (entry_bytes e) ≡ N };

    ghost short: { N < 256 };
}

// A coupon: its step and its amount.
impl Cell<5> for u32 {
    type Entry = u32;

    ghost held = { nonzero };

    ghost entry_bytes = { coupon_bytes };

    fn entry(&self) -> Option<u32> {
        (*self != 0).then_some(*self)
    }

    fn entry_bytes(step: u8, amount: u32) -> [u8; 5] {
        let [a3, a2, a1, a0] = amount.to_be_bytes();
        [step, a3, a2, a1, a0]
    }

    ghost long = { λ e. refl };

    ghost short = { Prim.search rules };
}

// A right: its step, its notice and its price.
impl Cell<6> for Option<Right> {
    type Entry = Right;

    ghost held = { λ r. r };

    ghost entry_bytes = { right_bytes };

    fn entry(&self) -> Option<Right> {
        *self
    }

    fn entry_bytes(step: u8, right: Right) -> [u8; 6] {
        let [p3, p2, p1, p0] = right.price.to_be_bytes();
        [step, right.notice, p3, p2, p1, p0]
    }

    ghost long = { λ e. refl };

    ghost short = { Prim.search rules };
}
