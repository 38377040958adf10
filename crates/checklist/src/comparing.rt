// What came, compared: with what is wanted, and over one store with over another.
ghost use Rattle.std.specs.Prelude.{◌≡◌, ◌↔◌, true, [], length, Decides, IsTrue};
ghost use Rattle.checklist.specs.Cells.{SameCells};
ghost use Rattle.converter.specs.Told.{view};

use crate::answers::answer_in;
use crate::items::{Item, Step};
use converter::Converter;
use runs::Slot;
use store::Store;

// Whether the same came of both lists of calls, slot by slot.
pub fn alike(a: &[Slot], b: &[Slot]) -> bool
    ensures { result ≡ true → length a.now ≡ length b.now }
{
    a == b
}

// Whether every step of an item got the answer that it wants.
pub fn as_wanted(item: Item, steps: &[Step], slots: &[Slot]) -> bool
    ensures { result ≡ true → length steps.now ≡ length slots.now }
{
    let mut pairs = steps.iter().zip(slots);
    steps.len() == slots.len()
        && pairs.all(|(step, slot)| step.item != item || answer_in(slot) == step.want)
}

// Whether two converters hold the same byte in a cell.
fn same_cell<S: Store, T: Store>(a: &Converter<S>, b: &Converter<T>, cell: u8) -> bool
    ensures { IsTrue result ↔ ((view S.cells a.now [] []).cells cell ≡ (view T.cells b.now [] []).cells cell) }
{
    a.cell(cell) == b.cell(cell)
}

// Whether two converters hold the same byte in every cell.
pub fn same_cells<S: Store, T: Store>(a: &Converter<S>, b: &Converter<T>) -> bool
    ensures { Decides result (SameCells 256 (view S.cells a.now [] []).cells (view T.cells b.now [] []).cells) }
{
    (0..=255).all(|cell| same_cell(a, b, cell))
}
