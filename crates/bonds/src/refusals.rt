// Calls that are refused, most of them on two grounds or more: the lowest number is answered, and all stays as it was.
use crate::ask::Ask;
use crate::desk::{Desk, Lent, WHOLE};
use crate::worked::H;
use game::clash::AnyClash;
use game::terms::Kind;
use std::io;

// The numbers of the grounds that a case is about, and its call. A step past the last is never worked and has no nodes,
// so that 13 and 14 go with its 7.
#[derive(Clone, Copy)]
struct Case(&'static str, Ask);

static EDITS: [Case; 13] = [
    Case("7 9", Ask::Coupon(0, 10_000_001)),
    Case("7 9", Ask::Coupon(3, 10_000_001)),
    Case("7 8", Ask::Call(2, 1_000_000, 1)),
    Case("7 9", Ask::Call(2, 10_000_001, 0)),
    Case("8 9", Ask::Call(1, 10_000_001, 2)),
    Case("7 8 9", Ask::Call(2, 10_000_001, 1)),
    Case("7 8", Ask::Put(3, 995_000, 1)),
    Case("7 9", Ask::Put(3, 10_000_001, 0)),
    Case("8 9", Ask::Put(0, 10_000_001, 3)),
    Case("7 8 9", Ask::Put(3, 10_000_001, 1)),
    Case("7 11", Ask::Cancel(Kind::Call, 2)),
    Case("7 11", Ask::Cancel(Kind::Put, 3)),
    Case("11", Ask::Cancel(Kind::Put, 0)),
];

static READS: [Case; 4] = [
    Case("7 14", Ask::Read(3, 9)),
    Case("13", Ask::Read(0, 0)),
    Case("14", Ask::Read(1, 2)),
    Case("13 14", Ask::Read(0, 1)),
];

static SHORT: [Case; 6] = [
    Case("12", Ask::Back(1)),
    Case("12", Ask::Read(1, 0)),
    Case("7 12", Ask::Read(3, 0)),
    Case("12 13", Ask::Read(0, 0)),
    Case("12 14", Ask::Read(1, 2)),
    Case("12 13 14", Ask::Read(0, 1)),
];

// Striking takes the value row alone.
static STRIKES: [Case; 1] = [Case("12 13", Ask::Strike)];

static UNWORKED: [Case; 3] = [
    Case("13", Ask::Strike),
    Case("7 13", Ask::Read(3, 0)),
    Case("13 14", Ask::Read(2, 3)),
];

// The grounds, the call, its answer, the first worked step, and whether all stayed as it was.
fn line(rt: &HostRuntime, desk: &mut Desk, case: Case, lent: Lent) -> io::Result<()> {
    let Case(grounds, ask) = case;
    print!(rt; "  {grounds:<10}")?;
    let before = desk.seen();
    desk.perform(rt, ask, lent)?;
    let after = desk.seen();
    let w = after.first;
    let word = if before == after {
        "untouched"
    } else {
        "touched"
    };
    println!(rt; ", w {w}, {word}")
}

fn lines(rt: &HostRuntime, desk: &mut Desk, cases: &[Case], lent: Lent) -> io::Result<()> {
    for case in cases {
        line(rt, desk, *case, lent)?;
    }
    Ok(())
}

// A bond with coupons, a call and a put; nothing of it is worked.
static BOND: [Ask; 4] = [
    Ask::Coupon(1, 50_000),
    Ask::Coupon(2, 50_000),
    Ask::Call(1, 1_000_000, 0),
    Ask::Put(1, 995_000, 0),
];

static SHORTER: [Lent; 3] = [
    Lent {
        values: 5,
        marks: 6,
    },
    Lent {
        values: 6,
        marks: 5,
    },
    Lent {
        values: 5,
        marks: 5,
    },
];

fn short_rows(rt: &HostRuntime, desk: &mut Desk) -> io::Result<()> {
    for lent in &SHORTER {
        let values = lent.values;
        let marks = lent.marks;
        println!(rt; "Rows that should have 6 entries: {values} values and {marks} marks")?;
        lines(rt, desk, &SHORT, *lent)?;
        if values < 6 {
            lines(rt, desk, &STRIKES, *lent)?;
        }
    }
    Ok(())
}

pub fn print(rt: &HostRuntime) -> io::Result<()> {
    let mut desk = Desk::open(&H, AnyClash::PutPrevails);
    rt.println("Grounds that meet, on a bond of which no step is worked")?;
    desk.perform_all(rt, &BOND)?;
    lines(rt, &mut desk, &UNWORKED, WHOLE)?;
    rt.println("On the same bond, with steps 1 and 2 worked")?;
    desk.perform_all(rt, &[Ask::Back(2)])?;
    lines(rt, &mut desk, &EDITS, WHOLE)?;
    lines(rt, &mut desk, &READS, WHOLE)?;
    short_rows(rt, &mut desk)
}
