// Reading the first three lines of a longer text, as a take sheet begins with them.
ghost use Rattle.preset_text.specs.Headed.{HeaderOf};

use crate::line::three_lines;
use crate::reading::setup_of;
use crate::setup::Setup;
use refusal::Refusal;

// The questions of `read` on the first three lines, and the text behind them. The bytes of an accepted header are those
// that are written for it.
pub fn read_header(text: &[u8]) -> Result<(Setup, &[u8]), Refusal>
    ensures { HeaderOf text.now result }
{
    let lines = three_lines(text)?;
    let setup = setup_of(lines)?;
    Ok((setup, lines.rest))
}
