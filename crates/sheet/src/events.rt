// Reading event lines.
ghost use Rattle.std.specs.Prelude.{◌≡◌};
ghost use Rattle.sheet.specs.Events.{event_of};

use crate::event::Event;
use crate::items::ItemText;
use text::read_number;

// The event of a line, which is given without its line end. An Option and no `TryFrom`: what it means that a line is no event is
// for the caller to say.
pub fn read_event<I: ItemText>(line: &[u8]) -> Option<Event<I>>
    ensures { result ≡ event_of I.ItemText.meant line.now }
{
    let [letter, b'=', rest @ ..] = line else {
        return None;
    };
    match *letter as char {
        'f' => Some(Event::Feed(I::read_item(rest)?)),
        'r' if rest.is_empty() => Some(Event::Read),
        'm' => Some(Event::Mark(read_number(16, rest)?)),
        'z' if rest.is_empty() => Some(Event::Restart),
        _ => None,
    }
}
