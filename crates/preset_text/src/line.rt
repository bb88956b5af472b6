// The lines of a preset text. Each is handed on with its key and its value, both borrowed from the text. That preset lines do so,
// and that header lines are taken by `let .. else`, is a rule of this project (docs/DECISIONS.md, Forms).
ghost use Rattle.std.specs.Prelude.{◌≡◌, None, MatchOption};
ghost use Rattle.preset_text.specs.Lines.{Keyed, Says, Next, three};
ghost use Rattle.preset_text.specs.Reading.{behind, three_lines};

use refusal::Refusal;
use text::next_line;

#[derive(Clone, Copy)]
pub(crate) enum PresetLine<'a> {
    Kind { key: &'a [u8], value: &'a [u8] },
    Window { key: &'a [u8], value: &'a [u8] },
    Loss { key: &'a [u8], value: &'a [u8] },
    Other(&'a [u8]),
}

// The values of three lines in their order, and the text behind them.
#[derive(Clone, Copy)]
pub(crate) struct ThreeLines<'a> {
    pub kind: &'a [u8],
    pub window: &'a [u8],
    pub loss: &'a [u8],
    pub rest: &'a [u8],
}

impl<'a> From<&'a [u8]> for PresetLine<'a> {
    ghost from_gives = { λ line r. Says line.now r };

    fn from(line: &'a [u8]) -> PresetLine<'a> {
        if let Some((key, value)) = cut_key(line, b"kind=") {
            PresetLine::Kind { key, value }
        } else if let Some((key, value)) = cut_key(line, b"window=") {
            PresetLine::Window { key, value }
        } else if let Some((key, value)) = cut_key(line, b"loss=") {
            PresetLine::Loss { key, value }
        } else {
            PresetLine::Other(line)
        }
    }
}

// Cuts a line behind its key, where it begins with that key.
fn cut_key<'a>(line: &'a [u8], key: &[u8]) -> Option<(&'a [u8], &'a [u8])>
    ensures { MatchOption result (behind key.now line.now ≡ None) (λ p. Keyed key.now line.now p.0 p.1) }
{
    line.starts_with(key).then(|| line.split_at(key.len()))
}

// The first line of a text, and the text behind it.
fn next_preset_line(text: &[u8]) -> Option<(PresetLine<'_>, &[u8])>
    ensures { Next text.now result }
{
    let (line, rest) = next_line(text)?;
    Some((PresetLine::from(line), rest))
}

// The first three lines of a text, where they are those of a preset.
#[tactic(auto, unfolding(crate::specs::Reading::three_lines))]
pub(crate) fn three_lines(text: &[u8]) -> Result<ThreeLines<'_>, Refusal>
    ensures { three result ≡ three_lines text.now }
{
    let Some((PresetLine::Kind { value: kind, .. }, text)) = next_preset_line(text) else {
        return Err(Refusal::NotThreeLines);
    };
    let Some((PresetLine::Window { value: window, .. }, text)) = next_preset_line(text) else {
        return Err(Refusal::NotThreeLines);
    };
    let Some((PresetLine::Loss { value: loss, .. }, rest)) = next_preset_line(text) else {
        return Err(Refusal::NotThreeLines);
    };
    Ok(ThreeLines {
        kind,
        window,
        loss,
        rest,
    })
}
