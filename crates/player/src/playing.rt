// Playing a whole sheet: its length, its preset, and then its events on a meter of its kind.
ghost use Rattle.std.specs.Prelude.{◌≡◌, ℕ, List, take};
ghost use Rattle.preset.specs.Questions.{view};
ghost use Rattle.preset_text.specs.Reading.{read_front};
ghost use Rattle.player.specs.Room.{Prints};
ghost use Rattle.player.specs.Sheet.{kind_prints, front_prints, printed};

use crate::events::play_events;
use crate::saying::say;
use histogram::Slot;
use preset_text::{Kind, Setup, read_header};
use refusal::Refusal;
use sheet::Answer;
use statistic::Statistic;
use statistic::energy::Energy;
use statistic::notes::Notes;
use statistic::peak::Peak;
use std::alloc::AllocError;

// A longer sheet is refused.
pub const MOST_BYTES: usize = 65_536;

// How many slots each meter has.
const SLOTS: usize = 1024;

// Prints what a sheet prints, for any bytes, at the end of `out`. It fails only where the room that `out` came with is too
// small and there is no memory for more.
pub fn play(sheet: &[u8], out: &mut Vec<u8>) -> Result<(), AllocError>
    ensures { Prints out.old out.new (printed sheet.now) result }
{
    if sheet.len() <= MOST_BYTES {
        play_sheet(sheet, out)
    } else {
        say(Answer::Refused(Refusal::SheetTooLong), out)
    }
}

// How many bytes of a sheet are enough to know what it prints: a caller need not read on behind them.
pub fn bytes_enough() -> u64
    ensures { (sheet : List ℕ) → printed (take result sheet) ≡ printed sheet }
{
    MOST_BYTES as u64 + 1
}

// A preset that is refused ends the sheet.
fn play_sheet(sheet: &[u8], out: &mut Vec<u8>) -> Result<(), AllocError>
    ensures { Prints out.old out.new (front_prints (read_front sheet.now)) result }
{
    match read_header(sheet) {
        Ok((setup, events)) => play_kind(setup, events, out),
        Err(refusal) => say(Answer::Refused(refusal), out),
    }
}

// Plays the events on a meter of the kind that was asked for.
fn play_kind(setup: Setup, events: &[u8], out: &mut Vec<u8>) -> Result<(), AllocError>
    ensures { Prints out.old out.new (kind_prints setup.kind (view setup.preset) events.now) result }
{
    let preset = setup.preset;
    match setup.kind {
        Kind::Energy => play_events::<Energy>(&mut slots::<Energy>(), preset, events, out),
        Kind::Peak => play_events::<Peak>(&mut slots::<Peak>(), preset, events, out),
        Kind::Notes => play_events::<Notes>(&mut slots::<Notes>(), preset, events, out),
    }
}

// Slots for a meter: one that is not kept may hold anything. (They are lent where the kind is known, in an arm for each kind, since
// nothing says of any kind at all how large its state is.)
fn slots<T: Statistic>() -> [Slot<T::State>; SLOTS] {
    let free = Slot {
        start: 0,
        state: T::empty(),
    };
    [free; SLOTS]
}
