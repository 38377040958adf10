// The store of either kind, as an order chose it.
// Stays: each call finds its store by a match; a boxed `dyn` would be handed out, which no function may do.
ghost use Rattle.std.specs.Prelude.{◌≡◌, ℕ};
ghost use Rattle.cabinet.specs.Kinds.{kind_of};
ghost use Rattle.cabinet.specs.declared.chosen.Chosen.TheVariants.{Appending as Strip, Flat as Array};
ghost use Rattle.store.specs.Cells.{holding};

use orders::StoreKind;
use store::appending::Appending;
use store::flat::Flat;
use store::{Filled, Store};

#[derive(Drop)]
pub enum Chosen {
    Flat(Flat),
    Appending(Appending),
}

impl Chosen {
    // A store of that kind, made from the bytes of its cells.
    pub fn filled(kind: StoreKind, bytes: [u8; 256]) -> Chosen
        ensures kind { kind_of result ≡ kind }
        ensures cells { (k : ℕ) → ⟦<Chosen as Store>⟧.cells result k ≡ holding bytes k }
    {
        match kind {
            StoreKind::Flat => Chosen::Flat(Flat::filled(bytes)),
            StoreKind::Appending => Chosen::Appending(Appending::filled(bytes)),
        }
    }
}

impl Store for Chosen {
    ghost cells = { elim [ Array s ↦ ⟦<Flat as Store>⟧.cells s | Strip s ↦ ⟦<Appending as Store>⟧.cells s ] };

    fn read(&self, cell: u8) -> u8 {
        match self {
            Chosen::Flat(store) => store.read(cell),
            Chosen::Appending(store) => store.read(cell),
        }
    }

    fn write(&mut self, cell: u8, byte: u8) {
        match self {
            Chosen::Flat(store) => store.write(cell, byte),
            Chosen::Appending(store) => store.write(cell, byte),
        }
    }
}
