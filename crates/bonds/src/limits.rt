// The last step and amount that is taken, and the first that is refused.
use crate::ask::Ask;
use crate::desk::Desk;
use crate::worked::H;
use game::clash::AnyClash;
use game::terms::Kind;
use std::io;

static STEPS: [Ask; 12] = [
    Ask::Coupon(0, 50_000),
    Ask::Coupon(1, 50_000),
    Ask::Coupon(2, 50_000),
    Ask::Coupon(3, 50_000),
    Ask::Call(0, 1_000_000, 2),
    Ask::Call(0, 1_000_000, 3),
    Ask::Call(1, 1_000_000, 1),
    Ask::Call(1, 1_000_000, 2),
    Ask::Call(2, 1_000_000, 0),
    Ask::Put(1, 995_000, 1),
    Ask::Put(1, 995_000, 2),
    Ask::Put(2, 995_000, 0),
];

static AMOUNTS: [Ask; 10] = [
    Ask::Coupon(1, 10_000_000),
    Ask::Coupon(1, 10_000_001),
    Ask::Call(1, 10_000_000, 0),
    Ask::Call(1, 10_000_001, 0),
    Ask::Put(1, 10_000_000, 0),
    Ask::Put(1, 10_000_001, 0),
    Ask::Redeem(10_000_000),
    Ask::Redeem(10_000_001),
    Ask::Spread(200_000),
    Ask::Spread(200_001),
];

static RIGHTS: [Ask; 6] = [
    Ask::Cancel(Kind::Put, 0),
    Ask::Cancel(Kind::Put, 1),
    Ask::Cancel(Kind::Put, 1),
    Ask::Cancel(Kind::Put, 2),
    Ask::Cancel(Kind::Call, 1),
    Ask::Cancel(Kind::Call, 1),
];

pub fn print(rt: &HostRuntime) -> io::Result<()> {
    let mut desk = Desk::open(&H, AnyClash::PutPrevails);
    rt.println("Steps and notices, where the last step is 2")?;
    desk.perform_all(rt, &STEPS)?;
    rt.println("Amounts and spreads")?;
    desk.perform_all(rt, &AMOUNTS)?;
    rt.println("Rights that stand and rights that do not")?;
    desk.perform_all(rt, &RIGHTS)
}
