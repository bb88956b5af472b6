// Printing an answer at the end of what is printed.
ghost use Rattle.player.specs.Room.{Prints};
ghost use Rattle.sheet.specs.Answers.{said};

use sheet::{Answer, answer_lines};
use std::alloc::AllocError;

pub(crate) fn say(answer: Answer, out: &mut Vec<u8>) -> Result<(), AllocError>
    ensures { Prints out.old out.new (said answer) result }
{
    out.extend_from_slice(answer_lines(answer).as_bytes())
}
