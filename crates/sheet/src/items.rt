// The items of a sheet as text: samples and hits.
ghost use Rattle.std.specs.Prelude.{◌≡◌, ℕ, ◌^◌, ◌<◌, ◌≤◌, List, IfSome, Some, Option};
ghost use Rattle.std.specs.Fmt.{signed_decimal};
ghost use Rattle.text.specs.Decimal.{spelled};
ghost use Rattle.sheet.specs.Items.{sample_of, SevenDigits, hit_from, hit_of, hit_text, ThreeDigits};
ghost use Rattle.sheet.specs.Spelt.{sample_own, sample_only, hit_own, hit_only};

use statistic::hit::Hit;
use text::{read_number, split_once};

// An item that event lines can feed: `meant` tells the item of a text, and `spelt` the text of an item. An item is read
// from its own text, if that is short enough, and from no other. (Laws that `TryFrom` has no place for.)
pub trait ItemText: Copy {
    ghost meant: { List ℕ → Option Self };

    ghost spelt: { Self → List ℕ };

    ghost brief: { Self → Type 0 };

    fn read_item(text: &[u8]) -> Option<Self>
        ensures { result ≡ meant text.now };

    ghost own: { (x : Self) → brief x → meant (spelt x) ≡ Some x };

    ghost only: { (t : List ℕ) (x : Self) → meant t ≡ Some x → t ≡ spelt x };
}

impl ItemText for i32 {
    ghost meant = { sample_of };

    ghost spelt = { signed_decimal };

    ghost brief = { SevenDigits };

    ghost own = { sample_own };

    ghost only = { sample_only };

    fn read_item(text: &[u8]) -> Option<i32> {
        if let [b'-', digits @ ..] = text {
            match number(7, digits)? {
                0 => None,
                n => Some(-(n as i32)),
            }
        } else {
            Some(number(7, text)? as i32)
        }
    }
}

impl ItemText for Hit {
    ghost meant = { hit_of };

    ghost spelt = { hit_text };

    ghost brief = { ThreeDigits };

    ghost own = { hit_own };

    ghost only = { hit_only };

    #[tactic(auto, using(crate::specs::Spelt::no_long_hit, crate::specs::Spelt::hit_at_split, crate::specs::Spelt::behind_comma))]
    fn read_item(text: &[u8]) -> Option<Hit> {
        // three digits, a comma and three digits: in a longer text no comma is looked for
        if text.len() > 7 {
            return None;
        }
        let (note, velocity) = split_once(text, b',')?;
        hit(note, velocity)
    }
}

// The hit of a note and a velocity, each of 1 to 3 digits.
fn hit(note: &[u8], velocity: &[u8]) -> Option<Hit>
    ensures { result ≡ hit_from (spelled 3 note.now) (spelled 3 velocity.now) }
{
    Some(Hit {
        note: number(3, note)? as u16,
        velocity: number(3, velocity)? as u16,
    })
}

// A number of so few digits that 32 bits hold it: it is cast, here and above, since a `try_from` could not fail. (A preset's two
// numbers are cast where they are read: a line in each place, and a function for both could not ask that the digits be few.)
fn number(most: usize, digits: &[u8]) -> Option<u32>
    requires { most ≤ 9 }
    ensures value { result ≡ spelled most digits.now }
    ensures bound { IfSome result (λ n. n < 10 ^ most) }
{
    Some(read_number(most, digits)? as u32)
}
