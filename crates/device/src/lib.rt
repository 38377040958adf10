// What a converter holds, what a granted request does to it, and which data it is answered with.
#![tactic(auto)]

ghost use Rattle.std.specs.Prelude.{◌≡◌, List};
ghost use Rattle.device.specs.Life.{fresh, seen};
ghost use Rattle.records.specs.declared.Event.{Event as Noted};
ghost use Rattle.records.specs.declared.PowerGap.{PowerGap as Gap};

use access::Access;
use calendar::Clock;
use ring_log::Position;
use store::Store;

pub mod answering;
pub mod logs;
pub mod obeying;

// All that a converter holds from one call to the next, but for the records of its logs.
#[derive(Drop)]
pub struct Inner<S> {
    pub store: S,
    pub access: Access,
    pub clock: Clock,
    pub readings: [u8; 175],
    // Stays: a table of two positions, one of which is lent to be changed, is a form that the project keeps.
    pub positions: [Position; 2],
}

impl<S: Store> Inner<S> {
    // A converter over a store that nothing happened to yet, with the volumes of both logs.
    // Stays: the volumes come one by one, as a host tells them; a struct of two would be taken apart at once.
    pub fn start(store: S, volume: usize, gap_volume: usize) -> Inner<S>
        ensures { (events : List Noted) (gaps : List Gap) → seen S.cells result events gaps ≡ fresh (S.cells store) volume gap_volume events gaps }
    {
        Inner {
            store,
            access: Access::closed(),
            clock: Clock::start(),
            readings: [0; 175],
            positions: [Position::fresh(volume), Position::fresh(gap_volume)],
        }
    }
}
