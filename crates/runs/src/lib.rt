// Whole runs of a converter: calls one after another, from a fresh converter on.
#![tactic(auto)]

ghost use Rattle.std.specs.Prelude.{◌≡◌, min, replicate, Err};
ghost use Rattle.refusal.specs.declared.Company.TheVariants.{Alone};
ghost use Rattle.refusal.specs.declared.Refusal.TheVariants.{LittleMemory};

use converter::noting::Note;
use converter::{Heard, Unheard};
use refusal::{Company, Refusal};

pub mod performing;
pub mod running;

// How many records of each log's memory are lent to a call.
#[derive(Clone, Copy)]
pub struct Lent {
    pub events: usize,
    pub gaps: usize,
}

impl Lent {
    // The same of memories of so many records: no more of each than there are.
    pub(crate) fn within(self, events: usize, gaps: usize) -> Lent
        ensures events { result.events ≡ min self.events events }
        ensures gaps { result.gaps ≡ min self.gaps gaps }
    {
        Lent {
            events: self.events.min(events),
            gaps: self.gaps.min(gaps),
        }
    }
}

// A call of a converter. The reply memory that hearing is given has `room` bytes, at most 295.
#[derive(Clone, Copy)]
pub enum Call<'a> {
    Hear {
        line: &'a [u8],
        room: usize,
        lent: Lent,
    },
    Advance {
        ticks: u32,
    },
    Measure {
        readings: &'a [u8],
    },
    Note {
        note: Note,
        lent: Lent,
    },
}

// Memory for what comes of a call: its result, and the reply memory that it is given. Of the calls that are
// granted, hearing tells of the line and the reply, and the others tell nothing.
// Stays: the reply memory is whole, beside a result that tells how long the reply is: the rest of it is compared too.
#[derive(Clone, Copy, PartialEq, Eq, Debug)]
pub struct Slot {
    pub result: Result<Option<Heard>, Unheard>,
    pub reply: [u8; 295],
}

impl Slot {
    // A slot that no call was made for: its result is refusal 1, each byte of its reply memory 0xEE.
    pub fn blank() -> Slot
        ensures { result ≡ record { result = Err (record { refusal = LittleMemory; company = Alone }); reply = replicate 295 0xEE } }
    {
        Slot {
            result: Err(Unheard {
                refusal: Refusal::LittleMemory,
                company: Company::Alone,
            }),
            reply: [0xee; 295],
        }
    }
}
