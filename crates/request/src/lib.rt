// Requests by what they ask: a case for each command, with the parts of the line that its row names.
#![tactic(auto)]

ghost use Rattle.std.specs.Prelude.{◌≡◌, ◌+◌, ◌*◌, IfSome};
ghost use Rattle.request.specs.Asked.{command_of, meant};
ghost use Rattle.request.specs.Reading.{Asks, asked_in};
ghost use Rattle.request.specs.Rows.{Sized};
ghost use Rattle.std.specs.Option.{option_map};

use refusal::Refusal;
use request_frame::Request as Frame;

pub mod checked;
pub mod rows;
pub mod writes;

// What a request asks. Parts of several bytes are parts of the line.
// Stays: kinds, codes and logs are bytes as they came: they are looked at after preparation and permission, and may be refused.
#[derive(Clone, Copy)]
pub enum Request<'a> {
    // 0x01: prepares for a write, where the key is right.
    Prepare {
        key: u8,
    },
    // 0x02: gives the converter another address.
    ChangeAddress {
        own: &'a [u8],
        new: &'a [u8],
    },
    // 0x03: asks who is there.
    ReadAddress,
    // 0x04: replaces the password of a kind.
    ChangePassword {
        kind: u8,
        old: &'a [u8],
        new: &'a [u8],
    },
    // 0x06: permits writes of a kind.
    Permit {
        password: &'a [u8],
        kind: u8,
    },
    // 0x07: asks for the readings whose mask bits are set.
    Readings {
        mask: &'a [u8],
    },
    // 0x12: writes a setpoint.
    WriteSetpoint {
        number: u8,
        setpoint: &'a [u8],
    },
    // 0x15: sets the speed of the line.
    SetSpeed {
        code: u8,
    },
    // 0x17: sets the clock.
    SetClock {
        date: &'a [u8],
        season: u8,
    },
    // 0x18: asks for the date.
    ReadClock {
        form: u8,
    },
    // 0x19: writes the season marks.
    WriteMarks {
        marks: &'a [u8],
    },
    // 0x1A: asks for the season marks.
    ReadMarks,
    // 0x1B: sets the clock to the nearest minute.
    Synchronise,
    // 0x1C: asks for a setpoint or an output mask.
    ReadSetting {
        number: u8,
        which: u8,
    },
    // 0x1D: clears a log.
    ClearLog {
        log: u8,
        password: &'a [u8],
    },
    // 0x1E: asks for the state of a log.
    LogState {
        log: u8,
    },
    // 0x1F: asks for records of a log.
    LogRecords {
        log: u8,
        index: u16,
        count: u16,
    },
    // 0x2B: writes parts of the device configuration.
    WriteConfiguration {
        bits: u8,
        events: &'a [u8],
        inputs: u8,
        debounce: u8,
    },
    // 0x2C: asks for the device configuration.
    ReadConfiguration,
    // 0x2E: writes an output mask.
    WriteOutputMask {
        number: u8,
        mask: &'a [u8],
    },
}

impl<'a> Request<'a> {
    // What a command with its nine parameters asks, if there is such a command.
    pub fn of(command: u8, p: &'a [u8]) -> Option<Request<'a>>
        ensures asks { option_map meant result ≡ asked_in command p.now }
        ensures sized { IfSome result (λ q. Sized (meant q)) }
    {
        if p.len() != 9 {
            return None;
        }
        match command {
            0x01 => Some(Request::Prepare { key: p[0] }),
            0x02 => Some(Request::ChangeAddress {
                own: &p[0..2],
                new: &p[2..4],
            }),
            0x03 => Some(Request::ReadAddress),
            0x04 => Some(Request::ChangePassword {
                kind: p[0],
                old: &p[1..5],
                new: &p[5..9],
            }),
            0x06 => Some(Request::Permit {
                password: &p[0..4],
                kind: p[4],
            }),
            0x07 => Some(Request::Readings { mask: &p[0..3] }),
            0x12 => Some(Request::WriteSetpoint {
                number: p[0],
                setpoint: &p[1..9],
            }),
            0x15 => Some(Request::SetSpeed { code: p[0] }),
            0x17 => Some(Request::SetClock {
                date: &p[0..6],
                season: p[8],
            }),
            0x18 => Some(Request::ReadClock { form: p[0] }),
            0x19 => Some(Request::WriteMarks { marks: &p[0..6] }),
            0x1a => Some(Request::ReadMarks),
            0x1b => Some(Request::Synchronise),
            0x1c => Some(Request::ReadSetting {
                number: p[0],
                which: p[1],
            }),
            0x1d => Some(Request::ClearLog {
                log: p[0],
                password: &p[1..5],
            }),
            0x1e => Some(Request::LogState { log: p[0] }),
            0x1f => Some(Request::LogRecords {
                log: p[0],
                index: u16::from_le_bytes([p[1], p[2]]),
                count: u16::from_le_bytes([p[3], p[4]]),
            }),
            0x2b => Some(Request::WriteConfiguration {
                bits: p[0],
                events: &p[1..3],
                inputs: p[6],
                debounce: p[7],
            }),
            0x2c => Some(Request::ReadConfiguration),
            0x2e => Some(Request::WriteOutputMask {
                number: p[0],
                mask: &p[1..9],
            }),
            _ => None,
        }
    }

    // The code of its command.
    pub fn code(&self) -> u8
        ensures { result ≡ command_of (meant self.now) }
    {
        // Stays: cases with parts have no number that `as` could take.
        match self {
            Request::Prepare { .. } => 0x01,
            Request::ChangeAddress { .. } => 0x02,
            Request::ReadAddress => 0x03,
            Request::ChangePassword { .. } => 0x04,
            Request::Permit { .. } => 0x06,
            Request::Readings { .. } => 0x07,
            Request::WriteSetpoint { .. } => 0x12,
            Request::SetSpeed { .. } => 0x15,
            Request::SetClock { .. } => 0x17,
            Request::ReadClock { .. } => 0x18,
            Request::WriteMarks { .. } => 0x19,
            Request::ReadMarks => 0x1a,
            Request::Synchronise => 0x1b,
            Request::ReadSetting { .. } => 0x1c,
            Request::ClearLog { .. } => 0x1d,
            Request::LogState { .. } => 0x1e,
            Request::LogRecords { .. } => 0x1f,
            Request::WriteConfiguration { .. } => 0x2b,
            Request::ReadConfiguration => 0x2c,
            Request::WriteOutputMask { .. } => 0x2e,
        }
    }
}

// What a frame of the line asks. A command that is in no row is refused.
impl<'a> TryFrom<&Frame<'a>> for Request<'a> {
    type Error = Refusal;

    ghost try_from_gives = { λ frame answer. Asks frame.now.command frame.now.parameters.now answer };

    fn try_from(frame: &Frame<'a>) -> Result<Request<'a>, Refusal> {
        Request::of(frame.command, frame.parameters).ok_or(Refusal::UnknownCommand)
    }
}
