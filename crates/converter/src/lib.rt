// The converter: started over a store, it hears lines, goes on in time, is given readings, and notes
// records.
#![tactic(auto)]

ghost use Rattle.std.specs.Prelude.{◌≡◌, List};
ghost use Rattle.converter.specs.Told.{view};
ghost use Rattle.device.specs.Life.{fresh};
ghost use Rattle.records.specs.declared.Event.{Event as Noted};
ghost use Rattle.records.specs.declared.PowerGap.{PowerGap as Gap};

use device::Inner;
use refusal::{Company, Refusal};
use store::Store;

mod deciding;
mod finding;
pub mod hearing;
pub mod noting;
pub mod showing;

// A converter over a store. The records of its logs are in memory that is lent to each call.
#[derive(Drop)]
pub struct Converter<S> {
    inner: Inner<S>,
}

// A line was heard: how many of its bytes are used up, and how long the reply is, 0 where there is none.
// Stays: the length of a reply is a plain number: a caller cuts its memory by it, and there is nothing to cut at 0.
#[derive(Clone, Copy, PartialEq, Eq, Debug)]
pub struct Heard {
    pub used: usize,
    pub reply: usize,
}

// A line was refused: why, and how many of its bytes are used up.
#[derive(Clone, Copy, PartialEq, Eq, Debug)]
pub struct Unheard {
    pub refusal: Refusal,
    pub company: Company,
}

// The refusal of a call that looks through no line.
impl From<Refusal> for Unheard {
    ghost use Rattle.refusal.specs.Told.{company};

    ghost from_gives = { λ refusal unheard. unheard ≡ record { refusal = refusal; company = company refusal } };

    fn from(refusal: Refusal) -> Unheard {
        Unheard {
            refusal,
            company: refusal.comes_with(),
        }
    }
}

impl<S: Store> Converter<S> {
    // A converter that nothing happened to yet; a volume above 32,767 counts as 32,767.
    // Stays: a host tells two volumes; a struct of them would be made for this call and taken apart in it.
    pub fn start(store: S, volume: usize, gap_volume: usize) -> Converter<S>
        ensures { (events : List Noted) (gaps : List Gap) → view S.cells result events gaps ≡ fresh (S.cells store) volume gap_volume events gaps }
    {
        Converter {
            inner: Inner::start(store, volume, gap_volume),
        }
    }
}
