// Who exercises at a node.
ghost use Rattle.std.specs.Prelude.{◌≡◌, Some};
ghost use Rattle.game.specs.Rule.{mark_number, MarkRead};
ghost use Rattle.game.specs.Texts.{mark_text};

use std::fmt;

#[derive(Clone, Copy, PartialEq, Eq)]
pub enum Mark {
    Neither,
    Call,
    Put,
    Both,
}

// The byte that a mark row holds for it.
impl From<Mark> for u8 {
    ghost from_gives = { λ m r. r ≡ mark_number m };

    fn from(mark: Mark) -> u8 {
        match mark {
            Mark::Neither => 0,
            Mark::Call => 1,
            Mark::Put => 2,
            Mark::Both => 3,
        }
    }
}

// A byte that no mark has.
#[derive(Clone, Copy, PartialEq, Eq)]
pub struct NoMark(pub u8);

impl TryFrom<u8> for Mark {
    type Error = NoMark;

    ghost try_from_gives = { MarkRead };

    fn try_from(byte: u8) -> Result<Mark, NoMark> {
        match byte {
            0 => Ok(Mark::Neither),
            1 => Ok(Mark::Call),
            2 => Ok(Mark::Put),
            3 => Ok(Mark::Both),
            _ => Err(NoMark(byte)),
        }
    }
}

// As a table shows it.
impl fmt::Display for Mark {
    ghost output = { λ m. Some (mark_text m) };

    fn fmt<W: fmt::Write>(&self, f: &mut fmt::Formatter<W>) -> fmt::Result {
        f.write_str(match self {
            Mark::Neither => "-",
            Mark::Call => "call",
            Mark::Put => "put",
            Mark::Both => "both",
        })
    }
}
