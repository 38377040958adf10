// The clock as it runs: started, advanced, synchronised.
ghost use Rattle.std.specs.Prelude.{◌≡◌, if◌then◌else◌};
ghost use Rattle.calendar.specs.Times.{later, passes, shown, start, synchronised};
ghost use Rattle.refusal.specs.Told.{answer, granted, refused};
ghost use Rattle.refusal.specs.declared.Company.TheVariants.{Alone};

use super::{Clock, Season};
use refusal::Refusal;

// The 1/256 seconds from the start of 2000 to the start of 2100.
const ALL_TICKS: u64 = 256 * 3_155_760_000;

impl Clock {
    // A clock at the start of 2000, in winter.
    pub fn start() -> Clock
        ensures { shown result ≡ start }
    {
        Clock {
            seconds: 0,
            ticks: 0,
            season: Season::Winter,
        }
    }

    // Adds 1/256 seconds, unless they would pass the end of 2099.
    pub fn advance(&mut self, ticks: u32) -> Result<(), Refusal>
        ensures told { answer result ≡ (if passes (shown self.old) ticks then refused 11 Alone else granted tt) }
        ensures shows { shown self.new ≡ (if passes (shown self.old) ticks then shown self.old else later (shown self.old) ticks) }
    {
        let count = 256 * u64::from(self.seconds) + u64::from(self.ticks) + u64::from(ticks);
        if count >= ALL_TICKS {
            return Err(Refusal::PastLastYear);
        }
        // Stays: a second has 256 ticks, so this divides a time; told as bytes of the count it would read as layout.
        self.seconds = (count / 256) as u32;
        self.ticks = (count % 256) as u8;
        Ok(())
    }

    // Goes to the nearest whole minute, but in minutes 0 and 59 stays as it is.
    pub fn synchronise(&mut self)
        ensures { shown self.new ≡ synchronised (shown self.old) }
    {
        let minute = self.seconds / 60 % 60;
        if minute == 0 || minute == 59 {
            return;
        }
        let second = self.seconds % 60;
        let added = if second < 30 { 0 } else { 60 };
        self.seconds = self.seconds - second + added;
        self.ticks = 0;
    }
}
