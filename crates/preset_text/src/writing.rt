// Writing a preset text.
ghost use Rattle.std.specs.Prelude.{◌≡◌};
ghost use Rattle.preset.specs.Questions.{view};
ghost use Rattle.preset_text.specs.Placed.{Wrote};
ghost use Rattle.preset_text.specs.Words.{written};

use crate::setup::Setup;
use refusal::Refusal;
use text::Short;

// Writes the text to the front of `out` and answers its length, which is at most 36, or refuses and leaves `out` as it
// is. The bytes that are written read as the same setup.
pub fn write(setup: &Setup, out: &mut [u8]) -> Result<usize, Refusal>
    ensures { Wrote setup.now.kind (view setup.now.preset) out.old out.new result }
{
    spell(setup).write_to(out)
}

#[tactic(auto, using(crate::proofs::Written::in_pieces))]
fn spell(setup: &Setup) -> Short
    ensures { result ≡ written setup.now.kind (view setup.now.preset) }
{
    let mut text = Short::new();
    text.push(b"kind=");
    text.push(setup.kind.word());
    text.push(b"\nwindow=");
    text.push_number(u64::from(setup.preset.window()));
    text.push(b"\nloss=");
    text.push_number(u64::from(setup.preset.loss()));
    text.push(b"\n");
    text
}
