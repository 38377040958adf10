// Dates read, tested, and turned into seconds and back; seasons read and told.
ghost use Rattle.std.specs.Prelude.{◌≡◌, ◌≤◌, true, length, if◌then◌else◌, Some, None, nat_le};
ghost use Rattle.calendar.specs.Dates.{date_of, is_day, is_lawful, is_time, moment};
ghost use Rattle.calendar.specs.Times.{date_in, season_bit, season_of};

use super::days::{days_before_month, days_before_year, month_and_day, month_days, year_and_day};
use super::{DateTime, Season};
use std::fmt;

// The season of a byte, by its bit 0.
impl From<u8> for Season {
    ghost from_gives = { λ byte season. season ≡ season_of byte };

    fn from(byte: u8) -> Season {
        if byte % 2 == 0 {
            Season::Winter
        } else {
            Season::Summer
        }
    }
}

// The season's bit.
impl From<Season> for u8 {
    ghost from_gives = { λ season bit. bit ≡ season_bit season };

    fn from(season: Season) -> u8 {
        match season {
            Season::Winter => 0,
            Season::Summer => 1,
        }
    }
}

impl DateTime {
    // The date in the first six bytes: year, month, day, hour, minute, second.
    // Stays: a request lends its date as a slice, and a conversion from [u8; 6] would ask more of who calls.
    pub fn in_bytes(bytes: &[u8]) -> DateTime
        requires { 6 ≤ length bytes.now }
        ensures { result ≡ date_in bytes.now }
    {
        DateTime {
            year: bytes[0],
            month: bytes[1],
            day: bytes[2],
            hour: bytes[3],
            minute: bytes[4],
            second: bytes[5],
        }
    }

    // Whether there is such a day.
    fn is_day(self) -> bool
        ensures { result ≡ is_day self }
    {
        let days = month_days(self.year, self.month);
        self.year <= 99 && (1..=12).contains(&self.month) && (1..=days).contains(&self.day)
    }

    // Whether there is such a time of day.
    fn is_time(self) -> bool
        ensures { result ≡ is_time self }
    {
        self.hour < 24 && self.minute < 60 && self.second < 60
    }

    // Whether there is such a date.
    #[tactic(auto, unfolding(crate::specs::Dates::is_lawful))]
    pub fn is_lawful(self) -> bool
        ensures { result ≡ is_lawful self }
    {
        self.is_day() && self.is_time()
    }

    // The seconds from the start of 2000 to a lawful date.
    pub(crate) fn moment(self) -> u32
        requires { is_lawful self ≡ true }
        ensures { result ≡ moment self }
    {
        let before_month = u32::from(days_before_month(self.year, self.month));
        let days = days_before_year(self.year) + before_month + (u32::from(self.day) - 1);
        let minutes = 60 * u32::from(self.hour) + u32::from(self.minute);
        86_400 * days + 60 * minutes + u32::from(self.second)
    }

    // The date at so many seconds from the start of 2000, unless they are past the end of 2099.
    pub fn after(seconds: u32) -> Option<DateTime>
        ensures { result ≡ (if nat_le seconds 3155759999 then Some (date_of seconds) else None) }
    {
        if seconds > 3_155_759_999 {
            return None;
        }
        Some(DateTime::at(seconds))
    }

    // The date at so many seconds from the start of 2000.
    #[tactic(auto, unfolding(crate::specs::Dates::date_of))]
    pub(crate) fn at(seconds: u32) -> DateTime
        requires { seconds ≤ 3155759999 }
        ensures { result ≡ date_of seconds }
    {
        let (year, day_of_year) = year_and_day(seconds / 86_400);
        let (month, day) = month_and_day(year, day_of_year);
        DateTime {
            year,
            month,
            day,
            hour: (seconds / 3600 % 24) as u8,
            minute: (seconds / 60 % 60) as u8,
            second: (seconds % 60) as u8,
        }
    }
}

impl fmt::Display for DateTime {
    fn fmt<W: fmt::Write>(&self, f: &mut fmt::Formatter<W>) -> fmt::Result {
        let year = 2000 + u16::from(self.year);
        let DateTime {
            month,
            day,
            hour,
            minute,
            second,
            ..
        } = *self;
        write!(
            f,
            "{year}-{month:02}-{day:02} {hour:02}:{minute:02}:{second:02}"
        )
    }
}
