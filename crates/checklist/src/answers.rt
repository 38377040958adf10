// What came of a call, as the station reads it.
ghost use Rattle.std.specs.Prelude.{◌≡◌, replicate, Decides};

use crate::ADDRESS;
use converter::{Heard, Unheard};
use records::{Event, Kind};
use refusal::{Company, Refusal};
use reply_frame::read_reply;
use runs::Slot;
use std::fmt;
use wording::{Hex, Refused};

// The data that a reply brings: ten bytes, an event, or the state of a log.
#[derive(Clone, Copy, PartialEq, Eq)]
pub enum Brought {
    Data([u8; 10]),
    Record(Event),
    State { count: u16, max: u16 },
}

// How many bytes of the line are used up, and what the converter said.
// Stays: it has cases that are no Result of a converter: a reply read back, and an answer of no known form.
#[derive(Clone, Copy, PartialEq, Eq)]
pub enum Answer {
    Done,
    Granted {
        used: usize,
        brought: Brought,
    },
    // Stays: whether the reply memory is untouched is told of every refusal, and no other value hangs on it.
    Refused {
        used: usize,
        refusal: Refusal,
        untouched: bool,
    },
    Strange,
}

// A request that is one frame, granted and answered with no data.
pub const GRANTED: Answer = Answer::Granted {
    used: 18,
    brought: Brought::Data([0; 10]),
};

// The data of a request that is one frame.
pub fn data(data: [u8; 10]) -> Answer {
    Answer::Granted {
        used: 18,
        brought: Brought::Data(data),
    }
}

// A refusal of a request that is one frame: nothing is written.
pub fn refused(refusal: Refusal) -> Answer {
    Answer::Refused {
        used: 18,
        refusal,
        untouched: true,
    }
}

// What a reply brought, by the length of its data.
fn brought_by(data: &[u8]) -> Option<Brought> {
    match data.len() {
        10 => Some(Brought::Data(*data.first_chunk().unwrap())),
        13 => Some(Brought::Record(Event::of(data)?)),
        15 => Some(Brought::State {
            count: u16::from_le_bytes(*data.first_chunk().unwrap()),
            max: u16::from_le_bytes(*data[2..].first_chunk().unwrap()),
        }),
        _ => None,
    }
}

// A granted line: its reply is read back, and has to be the converter's.
fn granted(heard: Heard, memory: &[u8; 295]) -> Option<Answer> {
    let mut data = [0u8; 251];
    let reply = read_reply(&memory[..heard.reply.min(295)], &mut data).ok()?;
    if reply.address != ADDRESS {
        return None;
    }
    Some(Answer::Granted {
        used: heard.used,
        brought: brought_by(data.get(..reply.length)?)?,
    })
}

// Whether reply memory is as it was before the call.
fn is_untouched(memory: &[u8; 295]) -> bool
    ensures { Decides result (memory.now ≡ replicate 295 0xEE) }
{
    *memory == Slot::blank().reply
}

// A refusal, and whether the reply memory is as it was.
fn not_granted(unheard: Unheard, memory: &[u8; 295]) -> Option<Answer> {
    let Company::Used(used) = unheard.company else {
        return None;
    };
    Some(Answer::Refused {
        used,
        refusal: unheard.refusal,
        untouched: is_untouched(memory),
    })
}

// What came of the call that a slot was given for.
pub fn answer_in(slot: &Slot) -> Answer {
    let answer = match slot.result {
        Ok(None) => Some(Answer::Done),
        Ok(Some(heard)) => granted(heard, &slot.reply),
        Err(unheard) => not_granted(unheard, &slot.reply),
    };
    answer.unwrap_or(Answer::Strange)
}

// Stays: an array that an arm of a match binds is cut to a slice by a call of its own: there the cut is proved.
fn hex(data: &[u8; 10]) -> Hex<'_> {
    Hex { bytes: data }
}

impl fmt::Display for Brought {
    fn fmt<W: fmt::Write>(&self, f: &mut fmt::Formatter<W>) -> fmt::Result {
        match *self {
            Brought::Data(data) => {
                let data = hex(&data);
                write!(f, "data{data}")
            }
            Brought::Record(event) => {
                let Event {
                    reason,
                    seconds,
                    value,
                    ..
                } = event;
                write!(f, "event {reason:#04x} at {seconds} s, value {value}")
            }
            Brought::State { count, max } => write!(f, "RecordCount {count}, RecordMax {max:#06x}"),
        }
    }
}

impl fmt::Display for Answer {
    fn fmt<W: fmt::Write>(&self, f: &mut fmt::Formatter<W>) -> fmt::Result {
        match *self {
            Answer::Done => write!(f, "granted"),
            Answer::Granted { used, brought } => write!(f, "granted, used {used}, {brought}"),
            Answer::Refused {
                used,
                refusal,
                untouched,
            } => {
                let refused = Refused(refusal);
                let memory = if untouched { "untouched" } else { "CHANGED" };
                write!(f, "{refused}, used {used}, reply memory {memory}")
            }
            Answer::Strange => write!(f, "an answer of no known form"),
        }
    }
}
