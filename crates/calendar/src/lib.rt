// The converter's clock and its dates, from 2000-01-01 00:00:00 to the end of 2099.
#![tactic(auto)]

ghost use Rattle.std.specs.Prelude.{◌≡◌, ◌≤◌};

mod dates;
mod days;
mod setting;
mod steps;

// Which half of the year the clock is set for.
#[derive(Clone, Copy, PartialEq, Eq, Debug)]
pub enum Season {
    Winter,
    Summer,
}

// A date with its time of day; the year is counted from 2000.
#[derive(Clone, Copy, PartialEq, Eq, Debug)]
pub struct DateTime {
    pub year: u8,
    pub month: u8,
    pub day: u8,
    pub hour: u8,
    pub minute: u8,
    pub second: u8,
}

// Seconds since the start of 2000, 1/256 seconds and the season. It never stands past the last second of 2099.
#[derive(Clone, Copy, PartialEq, Eq, Debug)]
pub struct Clock {
    seconds: u32,
    ticks: u8,
    season: Season,
    ghost lawful: { seconds ≤ 3155759999 },
}

impl Clock {
    // The seconds since the start of 2000.
    pub fn seconds(&self) -> u32
        ensures { result ≡ self.now.seconds }
    {
        self.seconds
    }

    // The 1/256 seconds.
    pub fn ticks(&self) -> u8
        ensures { result ≡ self.now.ticks }
    {
        self.ticks
    }

    // The season.
    pub fn season(&self) -> Season
        ensures { result ≡ self.now.season }
    {
        self.season
    }
}
