// The converter's settings memory: 256 cells of one byte each.
#![tactic(auto)]

ghost use Rattle.std.specs.Prelude.{◌≡◌, ℕ};
ghost use Rattle.store.specs.Cells.{holding, upd};

pub mod appending;
pub mod flat;
pub mod neighbours;

// A memory of 256 cells. Neither reading nor writing is ever refused.
pub trait Store {
    // The byte that each cell holds.
    ghost cells: { Self → ℕ → ℕ };

    // Tells the byte of a cell.
    fn read(&self, cell: u8) -> u8
        ensures { result ≡ cells self.now cell };

    // Sets the byte of a cell, and leaves the 255 others.
    fn write(&mut self, cell: u8, byte: u8)
        ensures { (k : ℕ) → cells self.new k ≡ upd (cells self.old) cell byte k };
}

// A store that is made from the bytes of its cells, cell 0 first.
// Stays: its clause speaks of the cells of a `Store`, which a `From` knows nothing of.
pub trait Filled: Store + Sized {
    fn filled(bytes: [u8; 256]) -> Self
        ensures { (k : ℕ) → Self.cells result k ≡ holding bytes k };
}
