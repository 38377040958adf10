// The steps of all items, in the order in which they are made.
use crate::answers::{Answer, Brought, GRANTED, data, refused};
use crate::items::{Deed, Item, Step};
use crate::lines::{damaged, noisy};
use crate::{ADDRESS, PASSWORD};
use records::Report;
use refusal::Refusal;
use station::{frame_for, write_setpoint};
use std::alloc::{AllocError, Global};

// The commands that are asked, and the code of the log of events.
// Stays: on the line any byte is a command or a log's code; the table of what they mean is the request's.
const PERMIT: u8 = 0x06;

const READ_CLOCK: u8 = 0x18;

const SEASON: u8 = 0x19;

const READ_SEASON: u8 = 0x1a;

const READ_SETPOINT: u8 = 0x1c;

const READ_STATE: u8 = 0x1e;

const READ_RECORDS: u8 = 0x1f;

const EVENTS: u8 = 0x04;

// Setpoint 5: its number, and its eight bytes.
const SETPOINT: [u8; 9] = [5, 2, 1, 0x10, 0x27, 0, 1, 0x32, 0];

// How many setpoints and season marks are written for the last item.
pub const SETPOINTS: u8 = 16;

pub const SEASONS: u8 = 54;

// The steps so far, and what the next ones are for.
#[derive(Drop)]
struct Plan {
    heap: Global,
    item: Item,
    // Stays: whether the next steps are told hangs on no other value.
    quiet: bool,
    steps: Vec<Step>,
}

impl Plan {
    // Stays: `told` and `want` go side by side into the step that they make; a struct of them would be taken apart at once.
    fn add(&mut self, told: &'static str, deed: Deed, want: Answer) -> Result<(), AllocError> {
        self.steps.push(Step {
            item: self.item,
            told,
            quiet: self.quiet,
            deed,
            want,
        })?;
        Ok(())
    }

    fn hear(
        &mut self,
        told: &'static str,
        frame: &[u8; 18],
        want: Answer,
    ) -> Result<(), AllocError> {
        let line = frame.to_vec(self.heap)?;
        self.add(told, Deed::Hear(line), want)
    }

    fn ask(
        &mut self,
        told: &'static str,
        command: u8,
        parameters: [u8; 9],
        want: Answer,
    ) -> Result<(), AllocError> {
        self.hear(told, &frame_for(ADDRESS, command, &parameters), want)
    }

    fn noise(&mut self) -> Result<(), AllocError> {
        self.item = Item::Noise;
        let lost = damaged(&frame_for(ADDRESS, SEASON, &marks(7)));
        let clock = frame_for(ADDRESS, READ_CLOCK, &[0; 9]);
        let line = noisy(self.heap, &lost, &clock)?;
        let want = Answer::Granted {
            used: 50,
            brought: Brought::Data([0, 1, 1, 0, 0, 0, 0, 6, 0, 0]),
        };
        self.add(
            "noise, damaged frame, then read clock",
            Deed::Hear(line),
            want,
        )
    }

    fn unprepared(&mut self) -> Result<(), AllocError> {
        self.item = Item::Unprepared;
        let [prepare, permit, write] = write_setpoint(ADDRESS, &PASSWORD, &SETPOINT);
        let number = [5, 0, 0, 0, 0, 0, 0, 0, 0];
        let before = data([73, 74, 75, 76, 77, 78, 79, 80, 0, 0]);
        let after = data([2, 1, 0x10, 0x27, 0, 1, 0x32, 0, 0, 0]);
        let no = refused(Refusal::NotPrepared);
        self.hear("write setpoint 5, unprepared", &write, no)?;
        self.ask("read setpoint 5", READ_SETPOINT, number, before)?;
        self.hear("a window: prepare", &prepare, GRANTED)?;
        self.hear("a window: permit", &permit, GRANTED)?;
        self.hear("a window: write setpoint 5", &write, GRANTED)?;
        self.ask("read setpoint 5", READ_SETPOINT, number, after)
    }

    fn permit(
        &mut self,
        told: &'static str,
        password: [u8; 4],
        want: Answer,
    ) -> Result<(), AllocError> {
        let [a, b, c, d] = password;
        self.ask(told, PERMIT, [a, b, c, d, 0, 0, 0, 0, 0], want)
    }

    fn passwords(&mut self) -> Result<(), AllocError> {
        self.item = Item::Password;
        let no = refused(Refusal::WrongPassword);
        self.permit("permit, one byte wrong", [0x31, 0x32, 0x33, 0x35], no)?;
        self.permit("permit, two bytes wrong", [0x31, 0x32, 0x43, 0x35], no)?;
        self.permit("permit, three bytes wrong", [0x31, 0x22, 0x43, 0x35], no)?;
        self.permit("permit, four bytes wrong", [0x30, 0x22, 0x43, 0x35], no)?;
        self.permit("permit, all bytes right", PASSWORD, GRANTED)
    }

    fn event(&mut self, told: &'static str, reason: u8) -> Result<(), AllocError> {
        self.add(told, Deed::Note(report(reason)), Answer::Done)
    }

    fn record(&mut self, told: &'static str, index: u8, want: Answer) -> Result<(), AllocError> {
        self.ask(
            told,
            READ_RECORDS,
            [EVENTS, index, 0, 1, 0, 0, 0, 0, 0],
            want,
        )
    }

    fn events(&mut self) -> Result<(), AllocError> {
        self.item = Item::Rounds;
        self.add("ten seconds pass", Deed::Advance(10 * 256), Answer::Done)?;
        self.event("note the first event", 1)?;
        self.event("note the second event", 2)?;
        self.event("note the third event", 3)?;
        self.event("note the fourth event", 4)?;
        self.event("note the fifth event", 5)
    }

    fn records(&mut self) -> Result<(), AllocError> {
        let state = Answer::Granted {
            used: 18,
            brought: Brought::State {
                count: 2,
                max: 0x8003,
            },
        };
        let log = [EVENTS, 0, 0, 0, 0, 0, 0, 0, 0];
        self.record("read record 0", 0, noted(3))?;
        self.record("read record 2", 2, noted(5))?;
        self.record("read record 3", 3, refused(Refusal::LogIndex))?;
        self.ask("read state of the log", READ_STATE, log, state)
    }

    // A window for each setpoint.
    fn setpoints(&mut self) -> Result<(), AllocError> {
        self.item = Item::Stores;
        self.quiet = true;
        // Stays: the number is what is written.
        for number in 0..SETPOINTS {
            let setpoint = [number, number, 1, 255 - number, 0, 0, 0, 0, number];
            let [prepare, permit, write] = write_setpoint(ADDRESS, &PASSWORD, &setpoint);
            self.hear("one of many: prepare", &prepare, GRANTED)?;
            self.hear("one of many: permit", &permit, GRANTED)?;
            self.hear("one of many: write setpoint", &write, GRANTED)?;
        }
        Ok(())
    }

    fn seasons(&mut self) -> Result<(), AllocError> {
        // Stays: the turn makes the marks that are written.
        for turn in 0..SEASONS {
            let frame = frame_for(ADDRESS, SEASON, &marks(turn));
            self.hear("one of many: write season marks", &frame, GRANTED)?;
        }
        Ok(())
    }

    fn last_reads(&mut self) -> Result<(), AllocError> {
        self.quiet = false;
        let season = data([6, 4, 6, 6, 4, 6, 0, 0, 0, 0]);
        let number = [15, 0, 0, 0, 0, 0, 0, 0, 0];
        let setpoint = data([15, 1, 240, 0, 0, 0, 0, 15, 0, 0]);
        self.ask("read season marks", READ_SEASON, [0; 9], season)?;
        self.ask("read setpoint 15", READ_SETPOINT, number, setpoint)
    }
}

// Season marks that differ from turn to turn.
fn marks(turn: u8) -> [u8; 9] {
    let month = turn % 12 + 1;
    let week = turn % 5 + 1;
    let hour = turn % 24 + 1;
    [month, week, hour, month, week, hour, 0, 0, 0]
}

fn report(reason: u8) -> Report {
    Report {
        reason,
        tu: 1,
        tc: 2,
        value: 100 * u16::from(reason),
        period: 50,
    }
}

// The record of the event with that reason.
fn noted(reason: u8) -> Answer {
    Answer::Granted {
        used: 18,
        brought: Brought::Record(report(reason).at(10, 0)),
    }
}

// All steps, from the first item to the last.
pub fn all_steps(heap: Global) -> Result<Vec<Step>, AllocError> {
    let mut plan = Plan {
        heap,
        item: Item::Noise,
        quiet: false,
        steps: Vec::new(heap),
    };
    plan.noise()?;
    plan.unprepared()?;
    plan.passwords()?;
    plan.events()?;
    plan.records()?;
    plan.setpoints()?;
    plan.seasons()?;
    plan.last_reads()?;
    Ok(plan.steps)
}
