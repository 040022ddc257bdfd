// The forms that a line may have: which call it is, and how many words that takes.
// A further call is a case here and of what it says in `command`, a name in `names`, and an arm in `calls` and `messages`.
ghost use Rattle.std.specs.Prelude.{◌≡◌};
ghost use Rattle.script.specs.Forms.{name_length, sheet_count, count_of, takes};

use game::clash::AnyClash;
use game::terms::Kind;

// The kinds by name alone: `Kind<()>` would say that there are weights.
#[derive(Clone, Copy, Debug, PartialEq)]
pub enum LatticeKind {
    Binomial,
    Trinomial,
    Worst,
}

// A call of the open sheet.
#[derive(Clone, Copy, Debug, PartialEq)]
pub enum SheetForm {
    Coupon,
    Enter(Kind),
    Cancel(Kind),
    Redeem,
    Spread,
    Back,
    Read,
    Cost,
    Fit,
    Strike,
    Table,
}

#[derive(Clone, Copy, Debug, PartialEq)]
pub enum Form {
    Lattice(LatticeKind),
    Clash(AnyClash),
    Open,
    Sheet(SheetForm),
}

impl Form {
    // How many words the name is.
    pub(crate) fn name_length(self) -> usize
        ensures { result ≡ name_length self }
    {
        match self {
            Form::Lattice(_) | Form::Clash(_) | Form::Sheet(SheetForm::Cancel(_)) => 2,
            _ => 1,
        }
    }

    // How many numbers follow the name, not counting a lattice's rates.
    pub(crate) fn count(self) -> usize
        ensures { result ≡ count_of self }
    {
        match self {
            Form::Lattice(LatticeKind::Binomial) => 1,
            Form::Lattice(LatticeKind::Trinomial) => 4,
            Form::Lattice(LatticeKind::Worst) => 7,
            Form::Clash(_) | Form::Open => 0,
            Form::Sheet(form) => form.count(),
        }
    }

    // Whether so many numbers may follow the name.
    pub(crate) fn takes(self, numbers: usize) -> bool
        ensures { result ≡ takes self numbers }
    {
        match self {
            Form::Lattice(_) => self.count() <= numbers,
            _ => numbers == self.count(),
        }
    }
}

impl SheetForm {
    pub(crate) fn count(self) -> usize
        ensures { result ≡ sheet_count self }
    {
        match self {
            SheetForm::Enter(_) => 3,
            SheetForm::Coupon | SheetForm::Read => 2,
            SheetForm::Cancel(_)
            | SheetForm::Redeem
            | SheetForm::Spread
            | SheetForm::Back
            | SheetForm::Fit => 1,
            SheetForm::Cost | SheetForm::Strike | SheetForm::Table => 0,
        }
    }
}
