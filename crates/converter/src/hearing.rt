// Hearing a line: finding, deciding, acting, replying.
ghost use Rattle.std.specs.Prelude.{◌≡◌, ◌≤◌, not, ◌||◌, List, [], length, nat_lt};
ghost use Rattle.converter.specs.Calls.{Steps, hear, of_hearing, outcome};
ghost use Rattle.converter.specs.Hearing.{replied, reply_length};
ghost use Rattle.converter.specs.Told.{hearing, view};
ghost use Rattle.device.specs.Life.{seen};
ghost use Rattle.device.specs.Logs.{seen_with};
ghost use Rattle.device.specs.Rows.{data_of, obeyed};
ghost use Rattle.records.specs.declared.Event.{Event as Noted};
ghost use Rattle.records.specs.declared.PowerGap.{PowerGap as Gap};
ghost use Rattle.refusal.specs.Told.{number, used};
ghost use Rattle.refusal.specs.declared.Company.TheVariants.{Used};
ghost use Rattle.request.specs.Asked.{meant};

use crate::deciding::judge;
use crate::finding::find;
use crate::{Converter, Heard, Unheard};
use access::{Destination, destination_of};
use device::Inner;
use device::logs::{Memories, enough};
use records::{Event, PowerGap};
use refusal::Refusal;
use reply_frame::write_reply;
use request::checked::Checked;
use store::Store;

// The memory that every reply finds room in.
pub const REPLY_BYTES: usize = 295;

// Writes the reply of an address and data, where one is due, and tells how long it is.
fn put_reply(destination: Destination, address: u16, payload: &[u8], reply: &mut [u8]) -> usize
    requires most { length payload.now ≤ 251 }
    requires room { 295 ≤ length reply.old }
    ensures long { result ≡ reply_length destination payload.now }
    ensures written { reply.new ≡ replied destination address payload.now reply.old }
{
    match destination {
        Destination::Own => write_reply(reply, address, payload).unwrap_or(0),
        Destination::Broadcast | Destination::Foreign => 0,
    }
}

// Does what a granted request says, and replies to it.
fn act<S: Store>(
    inner: &mut Inner<S>,
    checked: &Checked,
    destination: Destination,
    address: u16,
    reply: &mut [u8],
    memories: &Memories,
) -> usize
    requires events { (seen_with S.cells inner.old memories.now).events.volume ≤ length memories.now.events.now }
    requires gaps { (seen_with S.cells inner.old memories.now).gaps.volume ≤ length memories.now.gaps.now }
    requires room { 295 ≤ length reply.old }
    ensures obeyed { (es : List Noted) (gs : List Gap) → seen S.cells inner.new es gs ≡ obeyed (seen S.cells inner.old es gs) (meant checked.now.row.request) }
    ensures long { result ≡ reply_length destination (data_of (seen_with S.cells inner.old memories.now) (meant checked.now.row.request)) }
    ensures written { reply.new ≡ replied destination address (data_of (seen_with S.cells inner.old memories.now) (meant checked.now.row.request)) reply.old }
{
    // Stays: the data stand at the start of memory of full length, with their number beside, since the device has no heap.
    let mut payload = [0u8; 251];
    let length = inner.put_data(&checked.row, memories, &mut payload);
    inner.obey(&checked.row);
    put_reply(destination, address, &payload[0..length], reply)
}

impl<S: Store> Converter<S> {
    // Whether the memories that are lent suffice for hearing.
    fn has_room(&self, reply: usize, events: usize, gaps: usize) -> bool
        ensures { not result ≡ (nat_lt reply 295 || (nat_lt events (view S.cells self.now [] []).events.volume || nat_lt gaps (view S.cells self.now [] []).gaps.volume)) }
    {
        reply >= REPLY_BYTES && enough(&self.inner.positions, events, gaps)
    }

    // Hears a line: finds its first valid request, decides on it, does what it says, and replies.
    // Stays: a host keeps the memories of both logs apart; a struct of two loans would be made at each call and taken apart.
    pub fn hear(
        &mut self,
        line: &[u8],
        reply: &mut [u8],
        events: &[Event],
        gaps: &[PowerGap],
    ) -> Result<Heard, Unheard>
        ensures { Steps (view S.cells self.old events.now gaps.now) (hear line.now reply.old (length events.now) (length gaps.now)) (outcome (view S.cells self.new events.now gaps.now) (of_hearing (hearing result)) reply.new) (view S.cells self.new events.now gaps.now) }
    {
        if !self.has_room(reply.len(), events.len(), gaps.len()) {
            return Err(unheard(Refusal::LittleMemory, line.len(), 0));
        }
        let found = find(line).ok_or(unheard(Refusal::NoRequest, line.len(), 0))?;
        let behind = found.place + 18;
        let address = found.frame.address;
        let destination = destination_of(&self.inner.store, address);
        let checked = judge(&mut self.inner, destination, &found.frame).map_err(|refusal| unheard(
            refusal,
            line.len(),
            behind,
        ))?;
        let memories = Memories { events, gaps };
        let reply = act(
            &mut self.inner,
            &checked,
            destination,
            address,
            reply,
            &memories,
        );
        Ok(Heard {
            used: behind,
            reply,
        })
    }
}

// A refusal of a line of `length` bytes, `behind` the frame where one was found.
fn unheard(refusal: Refusal, length: usize, behind: usize) -> Unheard
    ensures { result ≡ record { refusal = refusal; company = Used (used (number refusal) length behind) } }
{
    Unheard {
        refusal,
        company: refusal.with_used(length, behind),
    }
}
