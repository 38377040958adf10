// What each request needs and checks, and which password it tries.
ghost use Rattle.std.specs.Prelude.{◌≡◌, ◌+◌, ◌*◌, true, length, if◌then◌else◌, ◌==◌, IfSome, is_some, slice_index};
ghost use Rattle.request.specs.Asked.{meant};
ghost use Rattle.request.specs.Rows.{Numbered, NumberedRead, Sized, are_marks, checked, is_broadcast, is_configuration, is_log, is_mark, is_setpoint, is_setting, is_speed, needs, same_address, takes_type, tries};
ghost use Rattle.request.specs.Tried.{tried_in};

use crate::Request;
use crate::checked::{Checked, Row};
use calendar::DateTime;

// What has to stand before a request.
#[derive(Clone, Copy, PartialEq, Eq, Debug)]
pub enum Needs {
    Nothing,
    Preparation,
    PreparationAndPermission,
}

// The two stored passwords: for setpoints and settings, and for counters and logs.
#[derive(Clone, Copy, PartialEq, Eq, Debug)]
pub enum PasswordKind {
    Setpoint,
    Counter,
}

impl PasswordKind {
    // The kind with that number in a row, where `setpoint` is the number of the first.
    pub fn numbered(kind: u8, setpoint: u8) -> PasswordKind
        ensures { result ≡ (if kind == setpoint then PasswordKind.Setpoint else PasswordKind.Counter) }
    {
        if kind == setpoint {
            PasswordKind::Setpoint
        } else {
            PasswordKind::Counter
        }
    }
}

// A password that a request tries.
#[derive(Clone, Copy)]
pub struct Tried<'a> {
    pub kind: PasswordKind,
    pub bytes: &'a [u8],
}

fn is_own(told: &[u8], address: &[u8; 2]) -> bool
    requires { length told.now ≡ 2 }
    ensures { result ≡ same_address told.now address.now }
{
    told == address.as_slice()
}

fn is_broadcast(address: &[u8]) -> bool
    requires { length address.now ≡ 2 }
    ensures { result ≡ is_broadcast address.now }
{
    address == [0xff, 0].as_slice()
}

// The mask of readings as a number.
pub fn mask_number(mask: &[u8]) -> u32
    requires { length mask.now ≡ 3 }
    ensures { result ≡ slice_index mask.now 0 + 256 * slice_index mask.now 1 + 65536 * slice_index mask.now 2 }
{
    u32::from_le_bytes([mask[0], mask[1], mask[2], 0])
}

// Whether a command takes a setpoint of that type.
fn takes_type(command: u8, kind: u8) -> bool
    ensures { result ≡ takes_type command kind }
{
    // Stays: the decision over a command and a type, with ranges and a guard, is a form that the project keeps.
    match (command, kind) {
        (0x12, 0..=16) => true,
        (0x12, other) if other == 128 => true,
        _ => false,
    }
}

fn is_setpoint(number: u8, setpoint: &[u8]) -> bool
    requires { length setpoint.now ≡ 8 }
    ensures { result ≡ is_setpoint number setpoint.now }
{
    number <= 15 && takes_type(0x12, setpoint[0]) && setpoint[1] <= 1
}

fn is_speed(code: u8) -> bool
    ensures { result ≡ is_speed code }
{
    matches!(code, 1..=5 | 0x11..=0x13)
}

fn is_mark(month: u8, week: u8, hour: u8) -> bool
    ensures { result ≡ is_mark month week hour }
{
    (1..=12).contains(&month) && (1..=5).contains(&week) && (1..=24).contains(&hour)
}

fn are_marks(marks: &[u8]) -> bool
    requires { length marks.now ≡ 6 }
    ensures { result ≡ are_marks marks.now }
{
    // Stays: two marks of three bytes each are named at a glance; a chain over pieces would name them again.
    is_mark(marks[0], marks[1], marks[2]) && is_mark(marks[3], marks[4], marks[5])
}

fn is_setting(number: u8, which: u8) -> bool
    ensures { result ≡ is_setting number which }
{
    matches!((which, number), (0, 0..=15) | (1, 0..=3))
}

fn is_log(log: u8) -> bool
    ensures { result ≡ is_log log }
{
    matches!(log, 0x04 | 0x0e)
}

fn is_configuration(bits: u8) -> bool
    ensures { result ≡ is_configuration bits }
{
    matches!(bits, 0 | 0x01 | 0x10 | 0x11)
}

impl<'a> Request<'a> {
    // What has to stand before it.
    pub fn needs(&self) -> Needs
        ensures { result ≡ needs (meant self.now) }
    {
        match self {
            Request::WriteSetpoint { .. } | Request::WriteOutputMask { .. } =>
                Needs::PreparationAndPermission,
            Request::ChangeAddress { .. }
            | Request::ChangePassword { .. }
            | Request::SetSpeed { .. }
            | Request::ClearLog { .. }
            | Request::WriteConfiguration { .. } => Needs::Preparation,
            _ => Needs::Nothing,
        }
    }

    // The password that it tries, if its row names one.
    pub fn password(&self) -> Option<Tried<'a>>
        ensures { tried_in result ≡ tries (meant self.now) }
    {
        match *self {
            Request::ChangePassword { kind, old, .. } => Some(Tried {
                kind: PasswordKind::numbered(kind, 1),
                bytes: old,
            }),
            Request::Permit { password, kind } => Some(Tried {
                kind: PasswordKind::numbered(kind, 0),
                bytes: password,
            }),
            Request::ClearLog { password, .. } => Some(Tried {
                kind: PasswordKind::Counter,
                bytes: password,
            }),
            _ => None,
        }
    }
}

impl<'a> Row<'a> {
    // The request with its parameters in their ranges, at a converter with that address, if they are.
    // Inlined always, with its test: else the request is copied into each answer.
    #[inline(always)]
    pub fn checked(&self, address: &[u8; 2]) -> Option<Checked<'a>>
        ensures test { is_some result ≡ checked address.now (meant self.now.request) }
        ensures same { IfSome result (λ c. c.row ≡ self.now) }
    {
        // Stays: a closure given to `then` would not know that the test held.
        if self.is_checked(address) {
            Some(Checked { row: *self })
        } else {
            None
        }
    }

    // Whether its parameters are in their ranges, at a converter with that address.
    #[inline(always)]
    fn is_checked(&self, address: &[u8; 2]) -> bool
        ensures { result ≡ checked address.now (meant self.now.request) }
    {
        match self.request {
            Request::Prepare { key } => key == 0xa5,
            Request::ChangeAddress { own, new } => is_own(own, address) && !is_broadcast(new),
            Request::ChangePassword { kind, .. } => (1..=2).contains(&kind),
            Request::Permit { kind, .. } => kind <= 1,
            Request::Readings { mask } => mask_number(mask) < 0x08_0000,
            Request::WriteSetpoint { number, setpoint } => is_setpoint(number, setpoint),
            Request::SetSpeed { code } => is_speed(code),
            Request::SetClock { date, .. } => DateTime::in_bytes(date).is_lawful(),
            Request::ReadClock { form } => form == 0,
            Request::WriteMarks { marks } => are_marks(marks),
            Request::ReadSetting { number, which } => is_setting(number, which),
            Request::ClearLog { log, .. } => is_log(log),
            Request::LogState { log } => is_log(log),
            Request::LogRecords { log, .. } => is_log(log),
            Request::WriteConfiguration { bits, .. } => is_configuration(bits),
            Request::WriteOutputMask { number, .. } => number <= 3,
            Request::ReadAddress => true,
            Request::ReadMarks => true,
            Request::Synchronise => true,
            Request::ReadConfiguration => true,
        }
    }
}
