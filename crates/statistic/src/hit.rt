// Hits: what a note on a pad or a key is, and which are taken.
ghost use Rattle.std.specs.Prelude.{◌≡◌};
ghost use Rattle.statistic.specs.Hits.{is_hit};

// Any numbers make a hit, for a meter turns down those out of range by a refusal of its own.
#[derive(Clone, Copy, PartialEq, Eq, Debug)]
pub struct Hit {
    pub note: u16,
    pub velocity: u16,
}

// Are the note and the velocity at most 127?
pub(crate) fn is_hit(item: Hit) -> bool
    ensures { result ≡ is_hit item }
{
    item.note <= 127 && item.velocity <= 127
}
