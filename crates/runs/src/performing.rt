// One call of a run, by the memory that is lent to it.
ghost use Rattle.std.specs.Prelude.{◌≡◌, ◌≤◌, List, [], length};
ghost use Rattle.converter.specs.Calls.{Steps, hear, of_done, of_hearing, outcome};
ghost use Rattle.converter.specs.Told.{hearing, note_call, view};
ghost use Rattle.refusal.specs.Told.{answer};
ghost use Rattle.runs.specs.Made.{call_of, outcome_of, rest_of, result_of};

use crate::{Call, Lent, Slot};
use converter::noting::Note;
use converter::{Converter, Heard, Unheard};
use records::{Event, PowerGap};
use refusal::Refusal;
use store::Store;

// What a call came to that tells nothing where it is granted.
fn done(res: Result<(), Refusal>) -> Result<Option<Heard>, Unheard>
    ensures { result_of result ≡ of_done (answer res) }
{
    res?;
    Ok(None)
}

// Hears a line with the memory that is lent.
// Stays: the memories of both logs go side by side; of a struct, each contract would have to say that it keeps both loans.
fn hear_lent<S: Store>(
    converter: &mut Converter<S>,
    line: &[u8],
    reply: &mut [u8],
    lent: Lent,
    events: &[Event],
    gaps: &[PowerGap],
) -> Result<Heard, Unheard>
    ensures { Steps (view S.cells converter.old events.now gaps.now) (hear line.now reply.old lent.events lent.gaps) (outcome (view S.cells converter.new events.now gaps.now) (of_hearing (hearing result)) reply.new) (view S.cells converter.new events.now gaps.now) }
{
    let lent = lent.within(events.len(), gaps.len());
    converter.hear(line, reply, &events[..lent.events], &gaps[..lent.gaps])
}

// Notes a record with the memory that is lent.
fn note_lent<S: Store>(
    converter: &mut Converter<S>,
    note: Note,
    lent: Lent,
    events: &mut [Event],
    gaps: &mut [PowerGap],
) -> Result<(), Refusal>
    ensures { Steps (view S.cells converter.old events.old gaps.old) (note_call note lent.events lent.gaps) (outcome (view S.cells converter.new events.new gaps.new) (of_done (answer result)) []) (view S.cells converter.new events.new gaps.new) }
{
    let lent = lent.within(events.len(), gaps.len());
    converter.note(note, &mut events[..lent.events], &mut gaps[..lent.gaps])
}

// Makes one call, and tells what came of it in the slot that is given for it.
pub(crate) fn perform<S: Store>(
    converter: &mut Converter<S>,
    call: &Call<'_>,
    slot: Slot,
    events: &mut [Event],
    gaps: &mut [PowerGap],
) -> Slot
    ensures steps { Steps (view S.cells converter.old events.old gaps.old) (call_of call.now slot) (outcome_of call.now result events.new gaps.new) (view S.cells converter.new events.new gaps.new) }
    ensures rest { rest_of call.now result ≡ rest_of call.now slot }
{
    let mut reply = slot.reply;
    let result = match *call {
        Call::Hear { line, room, lent } => {
            let reply = &mut reply[..room.min(295)];
            hear_lent(converter, line, reply, lent, events, gaps).map(Some)
        }
        Call::Advance { ticks } => done(converter.advance(ticks)),
        Call::Measure { readings } => done(converter.measure(readings)),
        Call::Note { note, lent } => done(note_lent(converter, note, lent, events, gaps)),
    };
    Slot { result, reply }
}
