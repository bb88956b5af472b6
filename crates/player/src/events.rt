// Playing the events of a sheet on a running meter.
ghost use Rattle.std.specs.Prelude.{◌≡◌, length};
ghost use Rattle.preset.specs.Questions.{view as numbers};
ghost use Rattle.meter.specs.Take.{view};
ghost use Rattle.player.specs.Room.{Prints};
ghost use Rattle.player.specs.Sheet.{answer_to, leaves, take_prints};

use crate::saying::say;
use histogram::Slot;
use meter::{Running, Stopped};
use preset::Preset;
use refusal::Refusal;
use sheet::{Answer, Event, ItemText, read_event};
use statistic::Statistic;
use std::alloc::AllocError;
use text::next_line;

// Plays the event lines on a meter over these slots, with this preset loaded. Each line is an event, and the first that is
// none ends the sheet; so do bytes that no line end follows.
pub(crate) fn play_events<T: Statistic>(
    slots: &mut [Slot<T::State>],
    preset: Preset,
    mut events: &[u8],
    out: &mut Vec<u8>,
) -> Result<(), AllocError>
where
    T::Item: ItemText,
    ensures { Prints out.old out.new (take_prints T.Statistic.model T.Item.ItemText.meant (length slots.old) (numbers preset) events.now) result }
{
    let mut stopped = Stopped::<T>::make(slots);
    stopped.load(preset);
    let mut meter = stopped.start();
    while let Some((line, rest)) = next_line(events) {
        let Some(event) = read_event::<T::Item>(line) else {
            return say(Answer::Refused(Refusal::MalformedEvent), out);
        };
        let Played {
            meter: next,
            answer,
        } = play_event(meter, event);
        if let Some(answer) = answer {
            say(answer, out)?;
        }
        meter = next;
        events = rest;
    }
    if events.is_empty() {
        Ok(())
    } else {
        say(Answer::Refused(Refusal::MalformedEvent), out)
    }
}

// A meter behind an event, and what the event is answered. (A tuple with a meter in it gets no proof from the check.)
struct Played<'a, T: Statistic> {
    meter: Running<'a, T>,
    answer: Option<Answer>,
}

// Plays one event, and answers it.
fn play_event<'a, T: Statistic>(mut meter: Running<'a, T>, event: Event<T::Item>) -> Played<'a, T>
    ensures after { view result.meter ≡ leaves T.Statistic.model (view meter.entry) event }
    ensures answer { result.answer ≡ answer_to T.Statistic.model (view meter.entry) event }
{
    let answer = match event {
        // a feed is answered only if it is refused
        Event::Feed(item) => meter.feed(item).err().map(Answer::Refused),
        Event::Read => {
            let (low, high) = meter.read();
            Some(Answer::Reading(low, high))
        }
        Event::Mark(mark) => Some(Answer::Judged(meter.judge(mark))),
        Event::Restart => {
            meter = meter.stop().start();
            None
        }
    };
    Played { meter, answer }
}
