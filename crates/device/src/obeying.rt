// What granted requests do: to the store, the clock and the logs.
ghost use Rattle.std.specs.Prelude.{◌≡◌, List};
ghost use Rattle.calendar.specs.Times.{nine_bytes};
ghost use Rattle.device.specs.Life.{seen};
ghost use Rattle.device.specs.Rows.{obeyed};
ghost use Rattle.records.specs.declared.Event.{Event as Noted};
ghost use Rattle.records.specs.declared.PowerGap.{PowerGap as Gap};
ghost use Rattle.request.specs.Asked.{meant};
ghost use Rattle.request.specs.Rows.{Numbered};

use crate::Inner;
use crate::logs::{Log, clear};
use calendar::DateTime;
use request::Request;
use request::checked::Row;
use store::Store;

impl<S: Store> Inner<S> {
    // Does what a granted request says; what then stands is decided before.
    // Stays: a checked request would ask for more, that what is read is within its cells.
    pub fn obey(&mut self, row: &Row)
        requires { Numbered (meant row.now.request) }
        ensures { (events : List Noted) (gaps : List Gap) → seen S.cells self.new events gaps ≡ obeyed (seen S.cells self.old events gaps) (meant row.now.request) }
    {
        row.write_to(&mut self.store);
        match row.request {
            Request::SetClock { date, season } => {
                let _ = self.clock.set(DateTime::in_bytes(date), season);
            }
            Request::Synchronise => self.clock.synchronise(),
            Request::ClearLog { log, .. } => {
                clear(&mut self.positions, Log::from(log), self.clock.date());
            }
            _ => {}
        }
    }
}
