// A run: a fresh converter, and calls one after another.
ghost use Rattle.std.specs.Prelude.{List};
ghost use Rattle.converter.specs.Told.{view};
ghost use Rattle.runs.specs.History.{Ran, Turn};
ghost use Rattle.runs.specs.Made.{MadeBy};
ghost use Rattle.runs.specs.Promises.{Lives, PasswordsHide, RecordsShow, SettingsFollow, start_of};
ghost use Rattle.runs.specs.Windows.{Windows, WindowsInLines};

use crate::performing::perform;
use crate::{Call, Slot};
use converter::Converter;
use records::{Event, PowerGap};
use store::Store;

// Makes the calls one after another, as many as there are slots for.
// Stays: calls and slots are two lists: the same calls are made in several runs, each with slots of its own.
// Stays: a zip with slots that are written tells a proof nothing of what was written, so the calls are taken by hand.
fn run<S: Store>(
    converter: &mut Converter<S>,
    calls: &[Call<'_>],
    slots: &mut [Slot],
    events: &mut [Event],
    gaps: &mut [PowerGap],
)
    ensures ran { (history : List Turn) × MadeBy calls.now slots.old slots.new history × Ran (view S.cells converter.old events.old gaps.old) history (view S.cells converter.new events.new gaps.new) }
{
    let mut later = calls.iter();
    for slot in slots.iter_mut() {
        let Some(call) = later.next() else {
            break;
        };
        *slot = perform(converter, call, *slot, events, gaps);
    }
}

// Starts a converter over a store and makes the calls, as many as there are slots for; what came of each is
// then in its slot.
// Stays: volumes and memories of both logs go one by one to calls that take them so; a struct would be taken apart at once.
pub fn live<S: Store>(
    store: S,
    volume: usize,
    gap_volume: usize,
    calls: &[Call<'_>],
    slots: &mut [Slot],
    events: &mut [Event],
    gaps: &mut [PowerGap],
) -> Converter<S>
    ensures ran { (history : List Turn) × MadeBy calls.now slots.old slots.new history × Lives (start_of (S.cells store) volume gap_volume events.old gaps.old) history (view S.cells result events.new gaps.new) }
    ensures settings { SettingsFollow (start_of (S.cells store) volume gap_volume events.old gaps.old) (view S.cells result events.new gaps.new) }
    ensures passwords { PasswordsHide (start_of (S.cells store) volume gap_volume events.old gaps.old) (view S.cells result events.new gaps.new) }
    ensures records { RecordsShow (start_of (S.cells store) volume gap_volume events.old gaps.old) (view S.cells result events.new gaps.new) }
    ensures windows { Windows }
    ensures windows_in_lines { WindowsInLines }
{
    let mut converter = Converter::start(store, volume, gap_volume);
    run(&mut converter, calls, slots, events, gaps);
    converter
}
