// The worked bonds: what each is made of, and the calls that show what it is worth.
ghost use Rattle.bonds.specs.Bonds.{WorkedBonds};

use crate::ask::Ask;
use game::clash::AnyClash;

// A bond on a binomial lattice of two steps: its rates, its clash rule, and the calls of its sheet in turn.
pub struct Bond {
    pub title: &'static str,
    pub rates: [u32; 3],
    pub clash: AnyClash,
    pub asks: &'static [Ask],
}

// The rates of the two lattices.
const Z: [u32; 3] = [0, 0, 0];

pub const H: [u32; 3] = [50_000, 40_000, 60_000];

// A call and a put that both sides exercise.
const CLASHING: [Ask; 6] = [
    Ask::Call(1, 980_000, 0),
    Ask::Put(1, 990_000, 0),
    Ask::Back(3),
    Ask::Read(1, 0),
    Ask::Read(1, 1),
    Ask::Root,
];

static BONDS: [Bond; 10] = [
    Bond {
        title: "Z, callable at step 1",
        rates: Z,
        clash: AnyClash::PutPrevails,
        asks: &[
            Ask::Call(1, 980_000, 0),
            Ask::Back(3),
            Ask::Read(1, 0),
            Ask::Read(1, 1),
            Ask::Root,
            Ask::Cost,
        ],
    },
    Bond {
        title: "H, with coupons",
        rates: H,
        clash: AnyClash::PutPrevails,
        asks: &[
            Ask::Coupon(1, 50_000),
            Ask::Coupon(2, 50_000),
            Ask::Back(3),
            Ask::Read(1, 0),
            Ask::Read(1, 1),
            Ask::Root,
        ],
    },
    Bond {
        title: "H, with coupons, callable at step 1",
        rates: H,
        clash: AnyClash::PutPrevails,
        asks: &[
            Ask::Coupon(1, 50_000),
            Ask::Coupon(2, 50_000),
            Ask::Call(1, 1_000_000, 0),
            Ask::Root,
        ],
    },
    Bond {
        title: "H, with coupons, callable and putable at step 1; then a greater coupon",
        rates: H,
        clash: AnyClash::PutPrevails,
        asks: &[
            Ask::Coupon(1, 50_000),
            Ask::Coupon(2, 50_000),
            Ask::Call(1, 1_000_000, 0),
            Ask::Put(1, 995_000, 0),
            Ask::Root,
            Ask::Cost,
            Ask::Back(3),
            Ask::Read(0, 0),
            Ask::Coupon(1, 60_000),
            Ask::Back(1),
            Ask::Read(0, 0),
        ],
    },
    Bond {
        title: "H, with coupons, callable and putable at step 1, fitted and struck",
        rates: H,
        clash: AnyClash::PutPrevails,
        asks: &[
            Ask::Coupon(1, 50_000),
            Ask::Coupon(2, 50_000),
            Ask::Call(1, 1_000_000, 0),
            Ask::Put(1, 995_000, 0),
            Ask::Back(3),
            Ask::Fit(997_619),
            Ask::Fit(997_620),
            Ask::Fit(997_618),
            Ask::Strike,
            Ask::Back(2),
            Ask::Strike,
            Ask::Fit(0),
            Ask::Fit(10_000_001),
        ],
    },
    Bond {
        title: "H, with coupons, callable at step 0, paid a step later",
        rates: H,
        clash: AnyClash::PutPrevails,
        asks: &[
            Ask::Coupon(1, 50_000),
            Ask::Coupon(2, 50_000),
            Ask::Call(0, 1_000_000, 1),
            Ask::Back(3),
            Ask::Read(0, 0),
        ],
    },
    Bond {
        title: "H, with coupons, callable at step 0, paid two steps later",
        rates: H,
        clash: AnyClash::PutPrevails,
        asks: &[
            Ask::Coupon(1, 50_000),
            Ask::Coupon(2, 50_000),
            Ask::Call(0, 1_000_000, 2),
            Ask::Back(3),
            Ask::Read(0, 0),
        ],
    },
    Bond {
        title: "Z, callable and putable at step 1, put prevails",
        rates: Z,
        clash: AnyClash::PutPrevails,
        asks: &CLASHING,
    },
    Bond {
        title: "Z, callable and putable at step 1, call prevails",
        rates: Z,
        clash: AnyClash::CallPrevails,
        asks: &CLASHING,
    },
    Bond {
        title: "Z, callable and putable at step 1, halfway",
        rates: Z,
        clash: AnyClash::Halfway,
        asks: &CLASHING,
    },
];

// Each bond with its calls. What the calls answer is what the definitions say of these bonds.
pub fn worked_bonds() -> &'static [Bond]
    ensures { WorkedBonds }
{
    &BONDS
}
