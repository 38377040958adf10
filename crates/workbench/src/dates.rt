// Dates for seconds.
use calendar::DateTime;
use std::io;
use thiserror::Error;

// Why not every line of the input has its date.
#[derive(Debug, Drop, Error)]
pub enum DatesError {
    // The first line that is no number, counted from 1.
    #[error("line {line}: expected a number of seconds, 0 to 4294967295")]
    NoNumber { line: usize },
    #[error(transparent)]
    Io(#[from] io::Error),
}

fn tell(rt: &HostRuntime, seconds: u32) -> io::Result<()> {
    match DateTime::after(seconds) {
        Some(date) => println!(rt; "{seconds:>10}  {date}"),
        None => println!(rt; "{seconds:>10}  past 2099"),
    }
}

// Prints the date for each line of standard input, up to the first line that is no number.
pub fn tell_all(rt: &HostRuntime) -> Result<(), DatesError> {
    println!(rt; "   seconds  date")?;
    for (line, text) in (1..).zip(rt.lines(rt.alloc())) {
        let text = text?;
        let seconds = text
            .trim()
            .parse()
            .map_err(|_| DatesError::NoNumber { line })?;
        tell(rt, seconds)?;
    }
    Ok(())
}
