// Neighbouring cells of any store: read, written, compared.
// Stays: a first cell and bytes within the store are asked by sum; a struct of both would be made at each call just to be taken apart.
ghost use Rattle.std.specs.Prelude.{◌≡◌, ℕ, ◌+◌, ◌<◌, ◌≤◌, length, Decides, slice_index};
ghost use Rattle.store.specs.Cells.{Hold, laid, span};

use crate::Store;

// Fills `out` with the cells from `first` on.
pub fn read_cells<S: Store>(store: &S, first: u8, out: &mut [u8])
    requires { first + length out.old ≤ 256 }
    ensures filled { out.new ≡ span (S.cells store.now) first (length out.old) }
    ensures fit { (i : ℕ) → slice_index out.new i < 256 }
{
    // Stays: of bytes written through `iter_mut` zipped with the cells a proof knows nothing afterwards.
    for (i, byte) in out.iter_mut().enumerate() {
        *byte = store.read(first + i as u8);
    }
}

// Writes `bytes` to the cells from `first` on.
pub fn write_cells<S: Store>(store: &mut S, first: u8, bytes: &[u8])
    requires { first + length bytes.now ≤ 256 }
    ensures written { (k : ℕ) → S.cells store.new k ≡ laid first bytes.now (S.cells store.old) k }
    ensures held { Hold (S.cells store.new) first bytes.now }
{
    for (cell, byte) in (usize::from(first)..).zip(bytes) {
        store.write(cell as u8, *byte);
    }
}

// Whether the cells from `first` on hold `bytes`. Every byte is looked at, so that the time does not
// tell how many of them are right.
pub fn same_cells<S: Store>(store: &S, first: u8, bytes: &[u8]) -> bool
    requires { first + length bytes.now ≤ 256 }
    ensures { Decides result (Hold (S.cells store.now) first bytes.now) }
{
    // Stays: every byte is looked at, whatever came before; a loop shows that at once, and a fold hides it.
    let mut difference = 0;
    for (cell, byte) in (first..=255).zip(bytes) {
        difference |= store.read(cell) ^ *byte;
    }
    difference == 0
}
