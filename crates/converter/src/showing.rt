// What stands in a converter, shown to the host.
ghost use Rattle.std.specs.Prelude.{◌≡◌, List};
ghost use Rattle.calendar.specs.Times.{shown};
ghost use Rattle.converter.specs.Told.{view};
ghost use Rattle.device.specs.Life.{ring_of};
ghost use Rattle.records.specs.declared.Event.{Event as Noted};
ghost use Rattle.records.specs.declared.PowerGap.{PowerGap as Gap};

use crate::Converter;
use access::Access;
use calendar::Clock;
use device::logs::both;
use ring_log::Position;
use store::Store;

// All that stands but for the cells, the readings and the records.
#[derive(Clone, Copy)]
pub struct Standing {
    pub access: Access,
    pub clock: Clock,
    pub events: Position,
    pub gaps: Position,
}

impl<S: Store> Converter<S> {
    // The byte of a cell.
    pub fn cell(&self, cell: u8) -> u8
        ensures { (events : List Noted) (gaps : List Gap) → result ≡ (view S.cells self.now events gaps).cells cell }
    {
        self.inner.store.read(cell)
    }

    // What stands, the clock, and where the logs stand.
    pub fn stands(&self) -> Standing
        ensures access { (events : List Noted) (gaps : List Gap) → result.access ≡ (view S.cells self.now events gaps).access }
        ensures time { (events : List Noted) (gaps : List Gap) → shown result.clock ≡ (view S.cells self.now events gaps).time }
        ensures events { (events : List Noted) (gaps : List Gap) → ring_of result.events events ≡ (view S.cells self.now events gaps).events }
        ensures gaps { (events : List Noted) (gaps : List Gap) → ring_of result.gaps gaps ≡ (view S.cells self.now events gaps).gaps }
    {
        let (events, gaps) = both(&self.inner.positions);
        Standing {
            access: self.inner.access,
            clock: self.inner.clock,
            events,
            gaps,
        }
    }
}
