// The calls of a sheet as values, so that a table can list them: each names a public call of the sheet, which is run so.
use game::terms::Kind;
use std::fmt;

#[derive(Clone, Copy)]
pub enum Ask {
    // a step and its coupon
    Coupon(usize, u32),
    // a step, the price of the right and its notice
    Call(usize, u32, usize),
    Put(usize, u32, usize),
    Cancel(Kind, usize),
    Redeem(u32),
    Spread(u32),
    Back(usize),
    // a step and a node
    Read(usize, usize),
    Root,
    Cost,
    // a wanted price
    Fit(u32),
    Strike,
}

impl fmt::Display for Ask {
    fn fmt<W: fmt::Write>(&self, f: &mut fmt::Formatter<W>) -> fmt::Result {
        match self {
            Ask::Coupon(t, amount) => write!(f, "coupon {t} {amount}"),
            Ask::Call(t, price, notice) => write!(f, "call {t} {price} {notice}"),
            Ask::Put(t, price, notice) => write!(f, "put {t} {price} {notice}"),
            Ask::Cancel(kind, t) => write!(f, "cancel {kind} {t}"),
            Ask::Redeem(amount) => write!(f, "redeem {amount}"),
            Ask::Spread(spread) => write!(f, "spread {spread}"),
            Ask::Back(steps) => write!(f, "back {steps}"),
            Ask::Read(t, j) => write!(f, "read {t} {j}"),
            Ask::Root => write!(f, "root"),
            Ask::Cost => write!(f, "cost"),
            Ask::Fit(price) => write!(f, "fit {price}"),
            Ask::Strike => write!(f, "strike"),
        }
    }
}
