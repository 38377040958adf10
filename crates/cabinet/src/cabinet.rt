// A cabinet: what it is started with, and then its converter, with the memories beside it.
use crate::bench::Bench;
use crate::calls::Desk;
use crate::chosen::Chosen;
use crate::telling::Answer;
use converter::Converter;
use orders::{Order, Setting, StoreKind};
use std::alloc::{AllocError, Global};
use thiserror::Error;

// What the converter will be started over.
#[derive(Clone, Copy)]
struct Setup {
    kind: StoreKind,
    cells: [u8; 256],
}

#[derive(Drop)]
enum Stage {
    Before(Setup),
    Started(Converter<Chosen>),
}

#[derive(Drop)]
pub struct Cabinet {
    stage: Stage,
    bench: Bench,
}

// Why an order can't be obeyed now.
#[derive(Clone, Copy, Debug, Error)]
pub enum Untimely {
    #[error("expected `start` before this order")]
    Early,
    #[error("expected this order only before `start`")]
    Late,
}

impl Setup {
    // Takes what is said before the start, and at the start itself gives the converter.
    fn obey(
        &mut self,
        bench: &mut Bench,
        setting: Setting,
    ) -> Result<Option<Converter<Chosen>>, AllocError> {
        match setting {
            Setting::Store(kind) => self.kind = kind,
            Setting::Cell { number, byte } => self.cells[usize::from(number)] = byte,
            Setting::Start { events, gaps } => {
                bench.hold(events, gaps)?;
                let store = Chosen::filled(self.kind, self.cells);
                return Ok(Some(Converter::start(store, events, gaps)));
            }
        }
        Ok(None)
    }
}

impl Cabinet {
    // A cabinet that is not started: a flat store with zeros.
    pub fn new(heap: Global) -> Result<Cabinet, AllocError> {
        let setup = Setup {
            kind: StoreKind::Flat,
            cells: [0; 256],
        };
        Ok(Cabinet {
            stage: Stage::Before(setup),
            bench: Bench::new(heap)?,
        })
    }

    // Whether this is the moment for an order.
    pub fn takes(&self, order: &Order) -> Result<(), Untimely> {
        match (&self.stage, order) {
            (Stage::Before(_), Order::Call(_)) => Err(Untimely::Early),
            (Stage::Started(_), Order::Setting(_)) => Err(Untimely::Late),
            _ => Ok(()),
        }
    }

    // Does what an order says at its moment, and nothing at another.
    pub fn obey(&mut self, rt: &HostRuntime, order: &Order) -> anyhow::Result<()> {
        match (&mut self.stage, order) {
            (_, Order::Lending(lending)) => self.bench.obey(rt.alloc(), *lending)?,
            (Stage::Before(setup), Order::Setting(setting)) => {
                if let Some(converter) = setup.obey(&mut self.bench, *setting)? {
                    self.stage = Stage::Started(converter);
                    println!(rt; "{}", Answer::Started)?;
                }
            }
            (Stage::Started(converter), Order::Call(call)) => {
                let bench = &mut self.bench;
                Desk {
                    rt,
                    converter,
                    bench,
                }
                .act(call)?;
            }
            _ => {}
        }
        Ok(())
    }
}
