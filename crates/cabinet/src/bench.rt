// The memories that are lent to each call.
ghost use Rattle.std.specs.Prelude.{◌≤◌, vec_len};

use converter::hearing::REPLY_BYTES;
use orders::Lending;
use records::{Event, PowerGap};
use std::alloc::{AllocError, Global};

// What a fresh reply memory has in each byte.
const FILLING: u8 = 0xee;

// The memory of a log; the whole of it is lent where no number is said.
// Stays: the number lent is beside the memory, since the records past it are kept and can be lent again.
#[derive(Drop)]
pub struct Records<K> {
    pub all: Vec<K>,
    lent: Option<usize>,
}

impl<K: Copy + Default> Records<K> {
    fn none(heap: Global) -> Records<K> {
        Records {
            all: Vec::new(heap),
            lent: None,
        }
    }

    // Makes the memory as long as that at least.
    fn reach(&mut self, count: usize) -> Result<(), AllocError> {
        if self.all.len() < count {
            self.all.resize(count, K::default())?;
        }
        Ok(())
    }

    // From here on that many records are lent.
    fn lend(&mut self, count: usize) -> Result<(), AllocError> {
        self.reach(count)?;
        self.lent = Some(count);
        Ok(())
    }

    // How many records are lent.
    fn lent_count(&self) -> usize
        ensures { result ≤ vec_len self.now.all }
    {
        let all = self.all.len();
        self.lent.map_or(all, |count| count.min(all))
    }

    pub fn lent(&self) -> &[K] {
        &self.all[..self.lent_count()]
    }

    pub fn lent_mut(&mut self) -> &mut [K] {
        let count = self.lent_count();
        &mut self.all[..count]
    }
}

#[derive(Drop)]
pub struct Bench {
    pub reply: Vec<u8>,
    pub events: Records<Event>,
    pub gaps: Records<PowerGap>,
}

impl Bench {
    // A full reply memory, and no log memory yet.
    pub fn new(heap: Global) -> Result<Bench, AllocError> {
        Ok(Bench {
            reply: vec![in heap; FILLING; REPLY_BYTES]?,
            events: Records::none(heap),
            gaps: Records::none(heap),
        })
    }

    // The log memories have room for these volumes.
    pub fn hold(&mut self, events: usize, gaps: usize) -> Result<(), AllocError> {
        self.events.reach(events)?;
        self.gaps.reach(gaps)
    }

    // Lends a fresh reply memory, or other numbers of records, from here on.
    pub fn obey(&mut self, heap: Global, lending: Lending) -> Result<(), AllocError> {
        match lending {
            Lending::Reply { bytes } => self.reply = vec![in heap; FILLING; bytes]?,
            Lending::Memory { events, gaps } => {
                self.events.lend(events)?;
                self.gaps.lend(gaps)?;
            }
        }
        Ok(())
    }
}
