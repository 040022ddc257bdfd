// The words of a line.
ghost use Rattle.std.specs.Prelude.{◌≡◌, IfOk};
ghost use Rattle.script.specs.Cuts.{texts, words_of};

use crate::cuts::{Mark, before_mark};
use std::alloc::{AllocError, Global};

// The words before the line's comment, in order.
pub fn words_of<'a>(heap: Global, line: &'a [u8]) -> Result<Vec<&'a [u8]>, AllocError>
    ensures { IfOk result (λ v. texts v.items ≡ words_of line.now) }
{
    let text = before_mark(line, Mark::Comment);
    // blanks in front are passed over at once: `split` would make a piece of each
    let Some(first) = text.iter().position(|byte| !Mark::Blank.is(*byte)) else {
        return Ok(Vec::new(heap));
    };
    text[first..]
        .split(|byte| Mark::Blank.is(*byte))
        .filter(|word| !word.is_empty())
        .collect(heap)
}
