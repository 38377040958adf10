// The items of the checklist, and the steps that they are made of.
use crate::answers::Answer;
use converter::hearing::REPLY_BYTES;
use converter::noting::Note;
use records::Report;
use runs::{Call, Lent};
use std::fmt;

// How many records each log takes, and how many of its memory are lent to a call.
pub const VOLUME: usize = 3;

const LENT: Lent = Lent {
    events: VOLUME,
    gaps: VOLUME,
};

#[derive(Clone, Copy, PartialEq, Eq)]
pub enum Item {
    Noise = 1,
    Unprepared = 2,
    Password = 3,
    Rounds = 4,
    Stores = 5,
}

// All items, in their order.
// Stays: an enum has no list of its variants.
pub const ITEMS: [Item; 5] = [
    Item::Noise,
    Item::Unprepared,
    Item::Password,
    Item::Rounds,
    Item::Stores,
];

// Its number, what it does, and what it would find.
impl fmt::Display for Item {
    fn fmt<W: fmt::Write>(&self, f: &mut fmt::Formatter<W>) -> fmt::Result {
        let number = *self as u8;
        let (title, danger) = match self {
            Item::Noise => (
                "noise, then a frame",
                "a listener that stops at a false head",
            ),
            Item::Unprepared => (
                "a setpoint write without preparation, then a read-back",
                "a write that slips in",
            ),
            Item::Password => (
                "a wrong password before the right one",
                "an answer that gives part of it away",
            ),
            Item::Rounds => (
                "more events than the log takes, then record 0",
                "a position that began again at the wrong end",
            ),
            Item::Stores => (
                "the same orders over the other store",
                "settings that only one kind keeps",
            ),
        };
        write!(f, "{number}  {title} ({danger})")
    }
}

// What a step does.
#[derive(Drop)]
pub enum Deed {
    Hear(Vec<u8>),
    Advance(u32),
    Note(Report),
}

// One call for an item, with the answer that is wanted. A quiet step is told only if another answer came.
#[derive(Drop)]
pub struct Step {
    pub item: Item,
    pub told: &'static str,
    // Stays: whether a step is told hangs on no other value of it.
    pub quiet: bool,
    pub deed: Deed,
    pub want: Answer,
}

impl Step {
    // The call that the step makes.
    pub fn call(&self) -> Call<'_> {
        match &self.deed {
            Deed::Hear(line) => Call::Hear {
                line: line.as_slice(),
                room: REPLY_BYTES,
                lent: LENT,
            },
            Deed::Advance(ticks) => Call::Advance { ticks: *ticks },
            Deed::Note(report) => Call::Note {
                note: Note::Event(*report),
                lent: LENT,
            },
        }
    }
}
