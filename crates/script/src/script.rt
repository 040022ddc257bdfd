// A script read line by line.
ghost use Rattle.std.specs.Option.{option_map};
ghost use Rattle.script.specs.Commands.{meant};
ghost use Rattle.script.specs.Cuts.{lines_of};
ghost use Rattle.script.specs.Faults.{Gives};
ghost use Rattle.script.specs.Script.{line_of, script_from, script_of, Reads};

use crate::calls::command_from;
use crate::command::Command;
use crate::cuts::Mark;
use crate::fault::{Expected, LineError, ReadError};
use crate::words::words_of;
use std::alloc::Global;

// The line's command, if it has words.
fn read_line(heap: Global, line: &[u8], open: bool) -> Result<Option<Command>, LineError>
    ensures { Gives (option_map meant) (line_of «open» line.now) result }
{
    let words = words_of(heap, line)?;
    if words.is_empty() {
        return Ok(None);
    }
    let command = command_from(heap, &words)?;
    if command.needs_sheet() && !open {
        return Err(Expected::OpenSheet.into());
    }
    Ok(Some(command))
}

// The commands of a text, before whose first line a sheet is open or not.
fn read_lines(heap: Global, text: &[u8], mut open: bool) -> Result<Vec<Command>, ReadError>
    ensures { Reads (script_from «open» 1 (lines_of text.now)) result }
{
    let mut commands = Vec::new(heap);
    for (above, line) in text.split(|byte| Mark::LineEnd.is(*byte)).enumerate() {
        let found = read_line(heap, line, open).map_err(|e| e.at(above + 1))?;
        if let Some(command) = found {
            open |= command.opens_sheet();
            commands.push(command)?;
        }
    }
    Ok(commands)
}

// The commands of a script, or the fault of its first line that is no call: one line over a private function, so that a wrong
// one is refused here, not in a proof.
pub fn read_script(heap: Global, text: &[u8]) -> Result<Vec<Command>, ReadError>
    ensures { Reads (script_of text.now) result }
{
    read_lines(heap, text, false)
}
