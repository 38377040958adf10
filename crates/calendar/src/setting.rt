// The clock set to a date, and read as one.
ghost use Rattle.std.specs.Prelude.{◌≡◌, if◌then◌else◌};
ghost use Rattle.calendar.specs.Dates.{EveryDate, EverySecond, is_lawful};
ghost use Rattle.calendar.specs.Times.{nine_bytes, set_to, shown};
ghost use Rattle.refusal.specs.Told.{answer, granted, refused};
ghost use Rattle.refusal.specs.declared.Company.TheVariants.{Alone};

use super::{Clock, DateTime, Season};
use refusal::Refusal;

impl Clock {
    // Sets the clock to a date and to the season in bit 0 of a byte, unless there is no such date.
    // Stays: any byte is taken as a season by its bit 0; a `Season` in its place would ask more of who calls.
    pub fn set(&mut self, date: DateTime, season: u8) -> Result<(), Refusal>
        ensures told { answer result ≡ (if is_lawful date then granted tt else refused 8 Alone) }
        ensures shows { shown self.new ≡ (if is_lawful date then set_to date season else shown self.old) }
        ensures every_date { EveryDate }
    {
        if !date.is_lawful() {
            return Err(Refusal::Parameter);
        }
        self.seconds = date.moment();
        self.ticks = 0;
        self.season = Season::from(season);
        Ok(())
    }

    // The date in nine bytes: year, month, day, hour, minute, second, 1/256 seconds, weekday, season.
    // Stays: the nine bytes go as they are into replies and cleared logs, which take an array.
    pub fn date(&self) -> [u8; 9]
        ensures bytes { result ≡ nine_bytes (shown self.now) }
        ensures every_second { EverySecond }
    {
        let date = DateTime::at(self.seconds);
        let weekday = (self.seconds / 86_400 + 5) % 7 + 1;
        [
            date.year,
            date.month,
            date.day,
            date.hour,
            date.minute,
            date.second,
            self.ticks,
            weekday as u8,
            u8::from(self.season),
        ]
    }
}
