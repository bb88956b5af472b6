// Reading a preset text: three lines, the kind, the two numbers, and then the preset's own questions.
ghost use Rattle.std.specs.Prelude.{◌≡◌, IfOk};
ghost use Rattle.preset.specs.Questions.{view};
ghost use Rattle.preset_text.specs.Reading.{answered, read_text, kept};
ghost use Rattle.preset_text.specs.Words.{written};

use crate::kind::Kind;
use crate::line::{ThreeLines, three_lines};
use crate::setup::Setup;
use preset::Preset;
use refusal::Refusal;
use text::read_number;

// What a text of just three lines stands for. A text that is accepted is the one that is written for what it reads as.
#[tactic(auto, using(crate::proofs::Accepted::writes_back))]
pub fn read(text: &[u8]) -> Result<Setup, Refusal>
    ensures value { kept result ≡ read_text text.now }
    ensures writes_back { IfOk result (λ s. text.now ≡ written s.kind (view s.preset)) }
{
    let lines = three_lines(text)?;
    if !lines.rest.is_empty() {
        return Err(Refusal::NotThreeLines);
    }
    setup_of(lines)
}

// What the values of three lines stand for.
#[tactic(auto, using(text::proofs::Decimals::spelled_small), unfolding(crate::specs::Reading::answered))]
pub(crate) fn setup_of(lines: ThreeLines<'_>) -> Result<Setup, Refusal>
    ensures { kept result ≡ answered (lines.entry.kind.now, lines.entry.window.now, lines.entry.loss.now) }
{
    let kind = Kind::try_from(lines.kind)?;
    let window = read_number(7, lines.window).ok_or(Refusal::MalformedNumber)?;
    let loss = read_number(7, lines.loss).ok_or(Refusal::MalformedNumber)?;
    // seven digits fit 32 bits, so that nothing is lost and no `try_from` can fail
    let preset = Preset::new(window as u32, loss as u32)?;
    Ok(Setup { kind, preset })
}
