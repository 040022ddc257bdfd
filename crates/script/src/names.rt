// The words that a call is named by.
ghost use Rattle.std.specs.Prelude.{◌≡◌};
ghost use Rattle.script.specs.Names.{named, spelled};

use crate::forms::{Form, LatticeKind, SheetForm};
use game::clash::AnyClash;
use game::terms::Kind;

// What a first word begins: a whole name, or one that goes on by a second word.
#[derive(Clone, Copy)]
pub enum Opening {
    Whole(Form),
    Lattice,
    Clash,
    Cancel,
}

// What the word names.
pub fn lookup<T: Copy>(names: &[(&str, T)], word: &[u8]) -> Option<T>
    ensures { result ≡ named (spelled names.now) word.now }
{
    names
        .iter()
        .find(|entry| word == entry.0.as_bytes())
        .map(|entry| entry.1)
}

// The first words of calls.
pub const FIRST: [(&str, Opening); 15] = [
    ("lattice", Opening::Lattice),
    ("clash", Opening::Clash),
    ("cancel", Opening::Cancel),
    ("open", Opening::Whole(Form::Open)),
    ("coupon", Opening::Whole(Form::Sheet(SheetForm::Coupon))),
    (
        "call",
        Opening::Whole(Form::Sheet(SheetForm::Enter(Kind::Call))),
    ),
    (
        "put",
        Opening::Whole(Form::Sheet(SheetForm::Enter(Kind::Put))),
    ),
    ("redeem", Opening::Whole(Form::Sheet(SheetForm::Redeem))),
    ("spread", Opening::Whole(Form::Sheet(SheetForm::Spread))),
    ("back", Opening::Whole(Form::Sheet(SheetForm::Back))),
    ("read", Opening::Whole(Form::Sheet(SheetForm::Read))),
    ("cost", Opening::Whole(Form::Sheet(SheetForm::Cost))),
    ("fit", Opening::Whole(Form::Sheet(SheetForm::Fit))),
    ("strike", Opening::Whole(Form::Sheet(SheetForm::Strike))),
    ("table", Opening::Whole(Form::Sheet(SheetForm::Table))),
];

// The second words behind `lattice`, `clash` and `cancel`: tables, which one search reads.
pub const LATTICES: [(&str, LatticeKind); 3] = [
    ("binomial", LatticeKind::Binomial),
    ("trinomial", LatticeKind::Trinomial),
    ("worst", LatticeKind::Worst),
];

pub const CLASHES: [(&str, AnyClash); 3] = [
    ("put", AnyClash::PutPrevails),
    ("call", AnyClash::CallPrevails),
    ("halfway", AnyClash::Halfway),
];

pub const RIGHTS: [(&str, Kind); 2] = [("call", Kind::Call), ("put", Kind::Put)];
