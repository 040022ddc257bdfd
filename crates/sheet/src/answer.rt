// What the calls of a sheet answer.
ghost use Rattle.std.specs.Prelude.{Some};
ghost use Rattle.sheet.specs.Texts.{entry_text, costs_text};

use std::fmt;

// The stored figure of a node, and the byte of its mark: the row is the host's, and may hold a byte that no mark has.
#[derive(Clone, Copy, PartialEq, Eq)]
pub struct Entry {
    pub figure: u32,
    pub mark: u8,
}

impl fmt::Display for Entry {
    ghost output = { λ e. Some (entry_text e) };

    fn fmt<W: fmt::Write>(&self, f: &mut fmt::Formatter<W>) -> fmt::Result {
        let Entry { figure, mark } = self;
        write!(f, "figure {figure} mark {mark}")
    }
}

// What the calls cost the holder, and what the puts are worth to him.
#[derive(Clone, Copy, PartialEq, Eq)]
pub struct Costs {
    pub call: u32,
    pub put: u32,
}

impl fmt::Display for Costs {
    ghost output = { λ c. Some (costs_text c) };

    fn fmt<W: fmt::Write>(&self, f: &mut fmt::Formatter<W>) -> fmt::Result {
        let Costs { call, put } = self;
        write!(f, "call {call} put {put}")
    }
}
