// What a request asks, in words, from the row of its command.
use request::Request;
use request::rows::{Needs, PasswordKind};
use request_frame::Request as Frame;
use std::{fmt, io};

// What a request asks to do, with the number of the setpoint, mask, log, kind or code that it names.
#[derive(Clone, Copy)]
struct Asked<'a>(Request<'a>);

impl fmt::Display for Asked<'_> {
    fn fmt<W: fmt::Write>(&self, f: &mut fmt::Formatter<W>) -> fmt::Result {
        match self.0 {
            Request::Prepare { .. } => write!(f, "prepare for a write"),
            Request::ChangeAddress { .. } => write!(f, "change the address"),
            Request::ReadAddress => write!(f, "tell who is there"),
            Request::ChangePassword { kind, .. } => write!(f, "change the password of kind {kind}"),
            Request::Permit { kind, .. } => write!(f, "permit writes of kind {kind}"),
            Request::Readings { .. } => write!(f, "give readings by mask"),
            Request::WriteSetpoint { number, .. } => write!(f, "write setpoint {number}"),
            Request::SetSpeed { code } => write!(f, "set the speed to code {code}"),
            Request::SetClock { .. } => write!(f, "set the clock"),
            Request::ReadClock { .. } => write!(f, "give the date"),
            Request::WriteMarks { .. } => write!(f, "write the season marks"),
            Request::ReadMarks => write!(f, "give the season marks"),
            Request::Synchronise => write!(f, "set the clock to the nearest minute"),
            Request::ReadSetting { which: 0, number } => write!(f, "give setpoint {number}"),
            Request::ReadSetting { number, .. } => write!(f, "give output mask {number}"),
            Request::ClearLog { log, .. } => write!(f, "clear log {log}"),
            Request::LogState { log } => write!(f, "give the state of log {log}"),
            Request::LogRecords { log, .. } => write!(f, "give records of log {log}"),
            Request::WriteConfiguration { .. } => write!(f, "write the device configuration"),
            Request::ReadConfiguration => write!(f, "give the device configuration"),
            Request::WriteOutputMask { number, .. } => write!(f, "write output mask {number}"),
        }
    }
}

// Stays: the enum is another crate's and these texts are this program's, so a Display would be this match in a type.
fn needs_in_words(needs: Needs) -> &'static str {
    match needs {
        Needs::Nothing => "",
        Needs::Preparation => "; needs preparation",
        Needs::PreparationAndPermission => "; needs preparation, and permission of kind 0",
    }
}

// Stays: the kinds are another crate's and the texts this program's; the absent password has its text too.
fn password_in_words(tried: Option<PasswordKind>) -> &'static str {
    match tried {
        None => "",
        Some(PasswordKind::Setpoint) => "; tries the setpoint password",
        Some(PasswordKind::Counter) => "; tries the counter password",
    }
}

// Prints what a frame asks, and what its row needs.
pub fn tell(rt: &HostRuntime, frame: &Frame) -> io::Result<()> {
    let Ok(request) = Request::try_from(frame) else {
        return println!(rt; "                       no row has this command");
    };
    let needs = needs_in_words(request.needs());
    let password = password_in_words(request.password().map(|tried| tried.kind));
    let asked = Asked(request);
    println!(rt; "                       asks to {asked}{needs}{password}")
}
