// What was expected, in words.
ghost use Rattle.std.specs.Prelude.{Some};
ghost use Rattle.script.specs.Texts.{form_text, sheet_form_text};

use crate::fault::{Expected, ScriptFault};
use crate::forms::{Form, LatticeKind, SheetForm};
use std::fmt;

// How a call of the form is written.
impl fmt::Display for Form {
    ghost output = { λ f. Some (form_text f) };

    fn fmt<W: fmt::Write>(&self, f: &mut fmt::Formatter<W>) -> fmt::Result {
        match self {
            Form::Lattice(LatticeKind::Binomial) => f.write_str("lattice binomial STEPS RATE.."),
            Form::Lattice(LatticeKind::Trinomial) => {
                f.write_str("lattice trinomial STEPS P Q U RATE..")
            }
            Form::Lattice(LatticeKind::Worst) => {
                f.write_str("lattice worst STEPS P Q U P Q U RATE..")
            }
            Form::Clash(rule) => write!(f, "clash {rule}"),
            Form::Open => f.write_str("open"),
            Form::Sheet(form) => write!(f, "{form}"),
        }
    }
}

impl fmt::Display for SheetForm {
    ghost output = { λ f. Some (sheet_form_text f) };

    fn fmt<W: fmt::Write>(&self, f: &mut fmt::Formatter<W>) -> fmt::Result {
        match self {
            SheetForm::Coupon => f.write_str("coupon STEP AMOUNT"),
            SheetForm::Enter(side) => write!(f, "{side} STEP PRICE NOTICE"),
            SheetForm::Cancel(side) => write!(f, "cancel {side} STEP"),
            SheetForm::Redeem => f.write_str("redeem AMOUNT"),
            SheetForm::Spread => f.write_str("spread SPREAD"),
            SheetForm::Back => f.write_str("back STEPS"),
            SheetForm::Read => f.write_str("read STEP NODE"),
            SheetForm::Cost => f.write_str("cost"),
            SheetForm::Fit => f.write_str("fit PRICE"),
            SheetForm::Strike => f.write_str("strike"),
            SheetForm::Table => f.write_str("table"),
        }
    }
}

impl fmt::Display for Expected {
    fn fmt<W: fmt::Write>(&self, f: &mut fmt::Formatter<W>) -> fmt::Result {
        match self {
            Expected::Call => f.write_str(
                "expected lattice, clash, open, coupon, call, put, cancel, redeem, spread, back, read, cost, fit, strike or table as the first word",
            ),
            Expected::LatticeKind => f.write_str(
                "expected binomial, trinomial or worst, as in: lattice binomial STEPS RATE..",
            ),
            Expected::ClashRule => f.write_str("expected put, call or halfway, as in: clash put"),
            Expected::Right => f.write_str("expected call or put, as in: cancel call STEP"),
            Expected::Words(form) => write!(f, "expected as many words as in: {form}"),
            Expected::Number(form) => write!(
                f,
                "expected a number of at most 4294967295, as in: {form}"
            ),
            Expected::OpenSheet => f.write_str("expected a line above that opens a sheet: open"),
        }
    }
}

impl fmt::Display for ScriptFault {
    fn fmt<W: fmt::Write>(&self, f: &mut fmt::Formatter<W>) -> fmt::Result {
        let line = self.line;
        let expected = self.expected;
        write!(f, "line {line}: {expected}")
    }
}
