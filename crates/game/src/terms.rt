// The terms of a bond, in ticks and steps.
ghost use Rattle.std.specs.Prelude.{◌≡◌, Some, None, slice_index_or};
ghost use Rattle.game.specs.Game.{right as right_of};
ghost use Rattle.game.specs.Texts.{side_text};

use std::fmt;

// Which side a right belongs to: the issuer calls, the holder puts.
#[derive(Clone, Copy, Debug, PartialEq, Eq)]
pub enum Kind {
    Call,
    Put,
}

impl fmt::Display for Kind {
    ghost output = { λ k. Some (side_text k) };

    fn fmt<W: fmt::Write>(&self, f: &mut fmt::Formatter<W>) -> fmt::Result {
        f.write_str(match self {
            Kind::Call => "call",
            Kind::Put => "put",
        })
    }
}

// A right to end the bond at a price that is paid `notice` steps later.
#[derive(Clone, Copy, PartialEq, Eq)]
pub struct Right {
    pub price: u32,
    pub notice: u8,
}

// The redemption, the coupon of each step, and each step's rights, in tables of fixed size, as no call allocates. Where a
// step has no right, there is none: no price stands in for it.
#[derive(Clone, Copy)]
pub struct Terms {
    pub redemption: u32,
    pub coupons: [u32; 65],
    pub calls: [Option<Right>; 64],
    pub puts: [Option<Right>; 64],
}

// The right at place `t`; none past the table.
fn at(rights: &[Option<Right>; 64], t: usize) -> Option<Right>
    ensures { result ≡ slice_index_or rights.now t None }
{
    rights.get(t).copied().flatten()
}

impl Terms {
    // The right of a kind at step `t`, where there is one.
    pub fn right(&self, kind: Kind, t: usize) -> Option<Right>
        ensures { result ≡ right_of self.now kind t }
    {
        match kind {
            Kind::Call => at(&self.calls, t),
            Kind::Put => at(&self.puts, t),
        }
    }
}
