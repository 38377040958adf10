// A store that is one array.
ghost use Rattle.store.specs.Cells.{holding};

use crate::{Filled, Store};

#[derive(Drop)]
pub struct Flat {
    bytes: [u8; 256],
}

impl Store for Flat {
    ghost cells = { λ s. holding s.bytes };

    fn read(&self, cell: u8) -> u8 {
        self.bytes[cell as usize]
    }

    fn write(&mut self, cell: u8, byte: u8) {
        self.bytes[cell as usize] = byte;
    }
}

impl Filled for Flat {
    fn filled(bytes: [u8; 256]) -> Flat {
        Flat { bytes }
    }
}
