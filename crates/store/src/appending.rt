// A store that writes by appending: a base, and a strip of the latest writes.
ghost use Rattle.std.specs.Prelude.{◌≡◌, ℕ, []};
ghost use Rattle.store.specs.Cells.{holding};
ghost use Rattle.store.specs.Strip.{newest, over};

use crate::{Filled, Store};
use arrayvec::ArrayVec;

// One write.
#[derive(Clone, Copy, Default)]
pub struct Entry {
    cell: u8,
    byte: u8,
}

// The newest entry of a cell counts before the base. The strip takes 64 writes.
#[derive(Drop)]
pub struct Appending {
    base: [u8; 256],
    strip: ArrayVec<Entry, 64>,
}

// The byte of the newest entry that is of the cell.
fn newest(strip: &[Entry], cell: u8) -> Option<u8>
    ensures { result ≡ newest strip.now cell }
{
    strip
        .iter()
        .rev()
        .copied()
        .find(|entry| entry.cell == cell)
        .map(|entry| entry.byte)
}

impl Appending {
    // Takes the entries into the base, the oldest first, and empties the strip.
    fn fold(&mut self)
        ensures taken { (k : ℕ) → holding self.new.base k ≡ over self.old.base self.old.strip.items k }
        ensures emptied { self.new.strip.items ≡ [] }
    {
        let Appending { base, strip } = self;
        for entry in &*strip {
            base[entry.cell as usize] = entry.byte;
        }
        strip.clear();
    }
}

impl Store for Appending {
    ghost cells = { λ s. over s.base s.strip.items };

    fn read(&self, cell: u8) -> u8 {
        newest(&self.strip, cell).unwrap_or_else(|| self.base[cell as usize])
    }

    #[tactic(auto, using(crate::proofs::Writes::over_written))]
    fn write(&mut self, cell: u8, byte: u8) {
        if self.strip.is_full() {
            self.fold();
        }
        self.strip.push(Entry { cell, byte });
    }
}

impl Filled for Appending {
    fn filled(bytes: [u8; 256]) -> Appending {
        Appending {
            base: bytes,
            strip: ArrayVec::new(),
        }
    }
}
