// Why a call grants nothing: one list for the converter, the station and the line.
#![tactic(auto)]

ghost use Rattle.std.specs.Prelude.{◌≡◌};
ghost use Rattle.refusal.specs.Told.{number, company, used};

use thiserror::Error;

// What stood in the way.
#[derive(Clone, Copy, PartialEq, Eq, Debug, Error)]
pub enum Refusal {
    // Reply memory, log memory or readings not of the length that is asked.
    #[error("memory not of the length asked")]
    LittleMemory,
    // No valid request in the line.
    #[error("no valid request in the line")]
    NoRequest,
    // A request for another address.
    #[error("another address")]
    ForeignAddress,
    // A broadcast of a command that is not for broadcast.
    #[error("not for broadcast")]
    NotForBroadcast,
    // A command that is in no row, or not one of the window's.
    #[error("unknown command")]
    UnknownCommand,
    // The request needs preparation.
    #[error("not prepared")]
    NotPrepared,
    // The request needs permission of another kind than stands.
    #[error("not permitted")]
    NotPermitted,
    // A parameter out of its range.
    #[error("parameter out of its range")]
    Parameter,
    // A log index not below the number of records held.
    #[error("no such record")]
    LogIndex,
    // The password tried is not the stored one.
    #[error("wrong password")]
    WrongPassword,
    // The clock would pass the end of 2099.
    #[error("past the end of 2099")]
    PastLastYear,
    // An event's reason out of its ranges.
    #[error("event reason out of its ranges")]
    EventReason,
    // A record for a log of volume 0.
    #[error("a log of volume 0")]
    NoVolume,
    // Bytes that have not the shape of a reply.
    #[error("not the shape of a reply")]
    NoReply,
    // The first block whose check word is wrong, counted from 0.
    #[error("wrong check word")]
    CheckWord(usize),
    // More data than a reply takes, or too little memory for the frame or the data read.
    #[error("no room")]
    NoRoom,
}

// What comes back beside a refusal's number.
#[derive(Clone, Copy, PartialEq, Eq, Debug)]
pub enum Company {
    Alone,
    // How many bytes of the line are used up.
    Used(usize),
    // The number of a block, from 0.
    Block(usize),
}

impl Refusal {
    // The number by which it is told.
    // Stays: a case with a part has no number that `as` could take.
    pub fn number(self) -> u8
        ensures { result ≡ number self }
    {
        match self {
            Refusal::LittleMemory => 1,
            Refusal::NoRequest => 2,
            Refusal::ForeignAddress => 3,
            Refusal::NotForBroadcast => 4,
            Refusal::UnknownCommand => 5,
            Refusal::NotPrepared => 6,
            Refusal::NotPermitted => 7,
            Refusal::Parameter => 8,
            Refusal::LogIndex => 9,
            Refusal::WrongPassword => 10,
            Refusal::PastLastYear => 11,
            Refusal::EventReason => 12,
            Refusal::NoVolume => 13,
            Refusal::NoReply => 14,
            Refusal::CheckWord(_) => 15,
            Refusal::NoRoom => 16,
        }
    }

    // What comes with the number, from every call that looks through no line.
    pub fn comes_with(self) -> Company
        ensures { result ≡ company self }
    {
        match self {
            Refusal::CheckWord(block) => Company::Block(block),
            _ => Company::Alone,
        }
    }

    // What comes with the number from a call that looked through a line of `length` bytes; `behind` is
    // the place behind the frame that was refused, where one was found.
    // Stays: with no frame found the place behind it is never told, and an `Option` would ask callers for one more.
    pub fn with_used(self, length: usize, behind: usize) -> Company
        ensures { result ≡ Company.Used (used (number self) length behind) }
    {
        match self {
            Refusal::LittleMemory => Company::Used(0),
            Refusal::NoRequest => Company::Used(length.saturating_sub(17)),
            _ => Company::Used(behind),
        }
    }
}
