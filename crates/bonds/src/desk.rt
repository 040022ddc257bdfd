// A sheet on a binomial lattice of two steps, with its rows.
ghost use Rattle.std.specs.Prelude.{◌≡◌, ℕ, replicate};
ghost use Rattle.game.specs.Game.{root as root_of};
ghost use Rattle.game.specs.Rules.{rule_of};
ghost use Rattle.sheet.specs.Calls.{costs as costs_of};
ghost use Rattle.sheet.specs.Edits.{opened};
ghost use Rattle.bonds.specs.Desks.{meaning, rated};

use crate::ask::Ask;
use crate::say;
use game::clash::AnyClash;
use lattice::tree::Tree;
use rates::kind::Kind;
use sheet::{Costs, Sheet};
use std::io;

// How many entries of its rows a call is lent.
#[derive(Clone, Copy)]
pub struct Lent {
    pub values: usize,
    pub marks: usize,
}

pub const WHOLE: Lent = Lent {
    values: 6,
    marks: 6,
};

// What can be seen of a sheet and its rows.
#[derive(Clone, Copy, PartialEq)]
pub struct Seen {
    pub first: usize,
    root: u32,
    costs: Costs,
    values: [u32; 6],
    marks: [u8; 6],
}

// A sheet with its rows: the programs have one each, over rows of their own kind.
#[derive(Drop)]
pub struct Desk<'a> {
    sheet: Sheet<Tree<'a>, AnyClash>,
    values: [u32; 6],
    marks: [u8; 6],
}

impl<'a> Desk<'a> {
    pub fn open(rates: &'a [u32], clash: AnyClash) -> Desk<'a>
        ensures state { result.sheet.state ≡ opened (rated rates.now).steps }
        ensures lattice { meaning result.sheet.lattice ≡ rated rates.now }
        ensures rule { result.sheet.clash ≡ clash }
        ensures rows { (result.values ≡ replicate 6 0) × (result.marks ≡ replicate 6 0) }
    {
        Desk {
            sheet: Sheet::open(Tree::new(Kind::Binomial, 2, rates), clash),
            values: [0; 6],
            marks: [0; 6],
        }
    }

    pub fn seen(&self) -> Seen
        ensures first { result.first ≡ self.now.sheet.state.first }
        ensures root { result.root ≡ root_of (meaning self.now.sheet.lattice) (rule_of self.now.sheet.clash) self.now.sheet.state.terms self.now.sheet.state.spread }
        ensures costs { result.costs ≡ costs_of (meaning self.now.sheet.lattice) (rule_of self.now.sheet.clash) self.now.sheet.state }
        ensures rows { (result.values ≡ self.now.values) × (result.marks ≡ self.now.marks) }
    {
        Seen {
            first: self.sheet.first_worked(),
            root: self.sheet.root_figure(),
            costs: self.sheet.cost(),
            values: self.values,
            marks: self.marks,
        }
    }

    // Makes a call and prints what it answers.
    fn answer(&mut self, rt: &HostRuntime, ask: Ask, lent: Lent) -> io::Result<()> {
        let sheet = &mut self.sheet;
        let values = &mut self.values[0..lent.values.min(6)];
        let marks = &mut self.marks[0..lent.marks.min(6)];
        match ask {
            Ask::Coupon(t, amount) => say::answer(rt, "w ", sheet.coupon(t, amount)),
            Ask::Call(t, price, notice) => say::answer(rt, "w ", sheet.call(t, price, notice)),
            Ask::Put(t, price, notice) => say::answer(rt, "w ", sheet.put(t, price, notice)),
            Ask::Cancel(kind, t) => say::answer(rt, "w ", sheet.cancel(kind, t)),
            Ask::Redeem(amount) => say::answer(rt, "w ", sheet.redeem(amount)),
            Ask::Spread(spread) => say::answer(rt, "w ", sheet.spread(spread)),
            Ask::Back(steps) => say::answer(rt, "w ", sheet.back(steps, values, marks)),
            Ask::Read(t, j) => say::answer(rt, "", sheet.read(t, j, values, marks)),
            Ask::Root => print!(rt; "figure {}", sheet.root_figure()),
            Ask::Cost => print!(rt; "{}", sheet.cost()),
            Ask::Fit(price) => say::answer(rt, "spread ", sheet.fit(price)),
            Ask::Strike => say::struck(rt, sheet.strike(values)),
        }
    }

    // The call, then its answer, on a line that is left open.
    pub fn perform(&mut self, rt: &HostRuntime, ask: Ask, lent: Lent) -> io::Result<()> {
        let text = format!(in rt.alloc(); "{ask}")?;
        print!(rt; "{text:<22}")?;
        self.answer(rt, ask, lent)
    }

    // A line for each call.
    pub fn perform_all(&mut self, rt: &HostRuntime, asks: &[Ask]) -> io::Result<()> {
        for ask in asks {
            rt.print("  ")?;
            self.perform(rt, *ask, WHOLE)?;
            rt.println("")?;
        }
        Ok(())
    }
}
