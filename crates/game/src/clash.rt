// What is paid where both sides exercise at one node.
ghost use Rattle.std.specs.Prelude.{◌≡◌, ℕ, Some};
ghost use Rattle.game.specs.Clash.{Fair, put_prevails, put_fair, call_prevails, call_fair, halfway, halfway_fair};
ghost use Rattle.game.specs.Rules.{rule_of, rule_fair};
ghost use Rattle.game.specs.Texts.{clash_text};

use std::fmt;

pub trait ClashRule {
    // the amount, from the put amount and the call amount
    ghost settled: { Self → ℕ → ℕ → ℕ };

    // what each rule owes of its meaning
    ghost fair: { (x : Self) → Fair (settled x) };

    fn settle(&self, put: u32, call: u32) -> u32
        ensures { result ≡ settled self.now put call };
}

// The put amount.
#[derive(Clone, Copy)]
pub struct PutPrevails;

impl ClashRule for PutPrevails {
    ghost settled = { λ _. put_prevails };

    ghost fair = { λ _. put_fair };

    fn settle(&self, put: u32, _call: u32) -> u32 {
        put
    }
}

// The call amount.
#[derive(Clone, Copy)]
pub struct CallPrevails;

impl ClashRule for CallPrevails {
    ghost settled = { λ _. call_prevails };

    ghost fair = { λ _. call_fair };

    fn settle(&self, _put: u32, call: u32) -> u32 {
        call
    }
}

// Halfway between the two, rounded down.
#[derive(Clone, Copy)]
pub struct Halfway;

impl ClashRule for Halfway {
    ghost settled = { λ _. halfway };

    ghost fair = { λ _. halfway_fair };

    fn settle(&self, put: u32, call: u32) -> u32 {
        ((u64::from(put) + u64::from(call)) / 2) as u32
    }
}

// One of the three, for hosts that choose at run time.
#[derive(Clone, Copy, Debug, PartialEq, Eq)]
pub enum AnyClash {
    PutPrevails,
    CallPrevails,
    Halfway,
}

impl ClashRule for AnyClash {
    ghost settled = { rule_of };

    ghost fair = { rule_fair };

    fn settle(&self, put: u32, call: u32) -> u32 {
        match self {
            AnyClash::PutPrevails => PutPrevails.settle(put, call),
            AnyClash::CallPrevails => CallPrevails.settle(put, call),
            AnyClash::Halfway => Halfway.settle(put, call),
        }
    }
}

impl fmt::Display for AnyClash {
    ghost output = { λ r. Some (clash_text r) };

    fn fmt<W: fmt::Write>(&self, f: &mut fmt::Formatter<W>) -> fmt::Result {
        f.write_str(match self {
            AnyClash::PutPrevails => "put",
            AnyClash::CallPrevails => "call",
            AnyClash::Halfway => "halfway",
        })
    }
}
