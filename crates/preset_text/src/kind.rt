// The kinds of meter, and the words by which a preset text names them.
ghost use Rattle.std.specs.Prelude.{◌≡◌};
ghost use Rattle.preset_text.specs.Words.{word, Names};

use refusal::Refusal;

#[derive(Clone, Copy, PartialEq, Eq, Debug)]
pub enum Kind {
    Energy,
    Peak,
    Notes,
}

impl Kind {
    // Bytes and no `Display`: `write!` promises its bytes only where the writer says that it did not fail.
    pub(crate) fn word(self) -> &'static [u8]
        ensures { result.now ≡ word self }
    {
        match self {
            Kind::Energy => b"energy",
            Kind::Peak => b"peak",
            Kind::Notes => b"notes",
        }
    }
}

// The kind that a word names.
impl TryFrom<&[u8]> for Kind {
    type Error = Refusal;

    ghost try_from_gives = { Names };

    fn try_from(word: &[u8]) -> Result<Kind, Refusal> {
        match word {
            b"energy" => Ok(Kind::Energy),
            b"peak" => Ok(Kind::Peak),
            b"notes" => Ok(Kind::Notes),
            _ => Err(Refusal::UnknownKind),
        }
    }
}
