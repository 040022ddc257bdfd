// Why a script is refused.
ghost use Rattle.std.specs.Prelude.{◌≡◌};
ghost use Rattle.script.specs.declared.fault.Unread.TheVariants as unread;
ghost use Rattle.script.specs.Faults.{at_line};

use crate::forms::Form;
use std::alloc::{AllocError, AllocFailed};

// What was expected where a line is no call.
#[derive(Clone, Copy, Debug, PartialEq)]
pub enum Expected {
    // a call's first word
    Call,
    // the second word of a `lattice`, a `clash` or a `cancel`
    LatticeKind,
    ClashRule,
    Right,
    // as many words as the form has
    Words(Form),
    Number(Form),
    // an `open` on an earlier line
    OpenSheet,
}

#[derive(Clone, Copy, Debug, PartialEq)]
pub struct ScriptFault {
    // from 1
    pub line: usize,
    pub expected: Expected,
}

// Why a line or a script is not read.
#[derive(Clone, Copy, Debug)]
pub enum Unread<F> {
    Fault(F),
    Memory,
}

pub(crate) type LineError = Unread<Expected>;

pub type ReadError = Unread<ScriptFault>;

impl From<Expected> for LineError {
    ghost from_gives = { λ e r. r ≡ unread.Fault e };

    fn from(e: Expected) -> LineError {
        LineError::Fault(e)
    }
}

// The library says want of memory in two types.
impl<F> From<AllocError> for Unread<F> {
    ghost from_gives = { λ _ r. r ≡ unread.Memory };

    fn from(_e: AllocError) -> Unread<F> {
        Unread::Memory
    }
}

impl<F, T: Drop> From<AllocFailed<T>> for Unread<F> {
    ghost from_gives = { λ _ r. r ≡ unread.Memory };

    fn from(_e: AllocFailed<T>) -> Unread<F> {
        Unread::Memory
    }
}

impl LineError {
    // The same, at its place in the script.
    pub(crate) fn at(self, line: usize) -> ReadError
        ensures { result ≡ at_line line self }
    {
        match self {
            LineError::Fault(expected) => ReadError::Fault(ScriptFault { line, expected }),
            LineError::Memory => ReadError::Memory,
        }
    }
}
