// The cells that a granted request sets.
ghost use Rattle.std.specs.Prelude.{◌≡◌, ℕ, ◌+◌, ◌*◌, ◌≤◌, length};
ghost use Rattle.request.specs.Asked.{meant};
ghost use Rattle.request.specs.Rows.{Numbered};
ghost use Rattle.request.specs.Writes.{debounce_given, gives, masks_given, password_cell, put};
ghost use Rattle.std.specs.Option.{unwrap_or};

use crate::Request;
use crate::checked::Row;
use crate::rows::PasswordKind;
use store::Store;
use store::neighbours::write_cells;

impl PasswordKind {
    // The first of the four cells that hold it.
    pub fn first_cell(self) -> u8
        ensures { result ≡ password_cell self }
    {
        match self {
            PasswordKind::Setpoint => 3,
            PasswordKind::Counter => 7,
        }
    }
}

// The first of the eight cells that hold a setpoint.
pub fn setpoint_cell(number: u8) -> u8
    requires { number ≤ 15 }
    ensures { result ≡ 33 + 8 * number }
{
    33 + 8 * number
}

// The first of the eight cells that hold an output mask.
// Stays: setpoints and output masks are two functions, since each asks for a range of its own.
pub fn output_mask_cell(number: u8) -> u8
    requires { number ≤ 3 }
    ensures { result ≡ 161 + 8 * number }
{
    161 + 8 * number
}

// Gives bytes to neighbouring cells.
fn put_cells<S: Store>(store: &mut S, first: u8, bytes: &[u8])
    requires { first + length bytes.now ≤ 256 }
    ensures { (k : ℕ) → S.cells store.new k ≡ unwrap_or (put first bytes.now k) (S.cells store.old k) }
{
    write_cells(store, first, bytes);
}

// The event mask and the mask of inputs where bit 0x01 brings them.
fn put_masks<S: Store>(store: &mut S, bits: u8, events: &[u8], inputs: u8)
    requires { length events.now ≡ 2 }
    ensures { (k : ℕ) → S.cells store.new k ≡ unwrap_or (masks_given bits events.now inputs k) (S.cells store.old k) }
{
    if bits & 0x01 != 0 {
        put_cells(store, 17, &[events[0], events[1], inputs]);
    }
}

// The debounce time where bit 0x10 brings it.
#[tactic(auto, using(crate::proofs::Bits::debounce_bit))]
fn put_debounce<S: Store>(store: &mut S, bits: u8, debounce: u8)
    ensures { (k : ℕ) → S.cells store.new k ≡ unwrap_or (debounce_given bits debounce k) (S.cells store.old k) }
{
    if bits & 0x10 != 0 {
        put_cells(store, 20, &[if debounce == 0 { 6 } else { debounce }]);
    }
}

impl Row<'_> {
    // Sets the cells that the request gives bytes to, and leaves the others.
    // Stays: a checked request would ask for more, that what is read is within its cells.
    pub fn write_to<S: Store>(&self, store: &mut S)
        requires { Numbered (meant self.now.request) }
        ensures { (k : ℕ) → S.cells store.new k ≡ unwrap_or (gives (meant self.now.request) k) (S.cells store.old k) }
    {
        match self.request {
            Request::ChangeAddress { new, .. } => put_cells(store, 0, new),
            Request::ChangePassword { kind, new, .. } => put_cells(
                store,
                PasswordKind::numbered(kind, 1).first_cell(),
                new,
            ),
            Request::WriteSetpoint { number, setpoint } => put_cells(
                store,
                setpoint_cell(number),
                setpoint,
            ),
            Request::SetSpeed { code } => put_cells(store, 2, &[code]),
            Request::WriteMarks { marks } => put_cells(store, 11, marks),
            Request::WriteOutputMask { number, mask } => put_cells(
                store,
                output_mask_cell(number),
                mask,
            ),
            Request::WriteConfiguration {
                bits,
                events,
                inputs,
                debounce,
            } => {
                put_masks(store, bits, events, inputs);
                put_debounce(store, bits, debounce);
            }
            _ => {}
        }
    }
}
