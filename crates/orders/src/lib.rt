// Orders to a cabinet: what one line of text asks for.
#![tactic(auto)]

ghost use Rattle.std.specs.Prelude.{◌≡◌};
ghost use Rattle.orders.specs.Bytes.{fault_of};
ghost use Rattle.orders.specs.Words.{Named, kind_word, shown_word};

use hex_text::Fault as HexFault;
use records::{PowerGap, Report};
use std::str::FromStr;
use thiserror::Error;

mod cursor;
mod numbers;
pub mod reading;

// The two kinds of store.
#[derive(Clone, Copy)]
pub enum StoreKind {
    Flat,
    Appending,
}

impl FromStr for StoreKind {
    type Err = Fault;

    ghost from_str_gives = { λ word kind. Named kind_word word kind };

    fn from_str(word: &str) -> Result<StoreKind, Fault> {
        match word {
            "flat" => Ok(StoreKind::Flat),
            "appending" => Ok(StoreKind::Appending),
            _ => Err(Fault::Word("`flat` or `appending`")),
        }
    }
}

// What can be shown.
#[derive(Clone, Copy)]
pub enum Shown {
    Cells,
    Clock,
    Access,
    Logs,
    Reply,
}

impl FromStr for Shown {
    type Err = Fault;

    ghost from_str_gives = { λ word shown. Named shown_word word shown };

    fn from_str(word: &str) -> Result<Shown, Fault> {
        match word {
            "cells" => Ok(Shown::Cells),
            "clock" => Ok(Shown::Clock),
            "access" => Ok(Shown::Access),
            "logs" => Ok(Shown::Logs),
            "reply" => Ok(Shown::Reply),
            _ => Err(Fault::Word("`cells`, `clock`, `access`, `logs` or `reply`")),
        }
    }
}

// What is said before the start, and the start itself.
#[derive(Clone, Copy)]
pub enum Setting {
    // The kind of store to start over.
    Store(StoreKind),
    // A byte of the store to start over.
    Cell { number: u8, byte: u8 },
    // Starts the converter with volumes for its logs.
    Start { events: usize, gaps: usize },
}

// Which memories are lent from here on.
#[derive(Clone, Copy)]
pub enum Lending {
    // The length of the reply memory.
    Reply { bytes: usize },
    // How many records of each log memory are lent.
    Memory { events: usize, gaps: usize },
}

// What is asked of a converter that is started.
#[derive(Drop)]
pub enum Call {
    Hear {
        line: Vec<u8>,
    },
    // A request is written and then heard.
    Send {
        address: u16,
        // Stays: any byte can be sent as a command.
        command: u8,
        parameters: [u8; 9],
    },
    Advance {
        ticks: u32,
    },
    Measure {
        readings: Vec<u8>,
    },
    NoteEvent(Report),
    NoteGap(PowerGap),
    Show(Shown),
}

// An order, by the time when it may be given.
#[derive(Drop)]
pub enum Order {
    // Before the start alone.
    Setting(Setting),
    // At any time.
    Lending(Lending),
    // After the start alone.
    Call(Call),
}

// Why a line of text is no order: what was expected.
#[derive(Clone, Copy, PartialEq, Eq, Debug, Error)]
pub enum Fault {
    // A word, one of these.
    #[error("expected {0}")]
    Word(&'static str),
    // A number from 0 to the greatest.
    #[error("expected {what}, a number from 0 to {greatest}")]
    Number { what: &'static str, greatest: u32 },
    // Pairs of digits.
    #[error("expected bytes, pairs of hexadecimal digits")]
    Bytes,
    // At most nine parameters.
    #[error("expected at most nine parameters")]
    Parameters,
    // The end of the line.
    #[error("expected the end of the line")]
    End,
    // No memory for the bytes.
    #[error("no memory for the bytes")]
    Memory,
}

impl From<HexFault> for Fault {
    ghost from_gives = { λ hex fault. fault ≡ fault_of hex };

    fn from(hex: HexFault) -> Fault {
        match hex {
            HexFault::NoDigit { .. } | HexFault::HalfPair { .. } => Fault::Bytes,
            HexFault::Memory => Fault::Memory,
        }
    }
}
