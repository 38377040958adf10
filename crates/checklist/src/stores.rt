// The same calls over any store.
ghost use Rattle.std.specs.Prelude.{◌≡◌, length, IfOk, vec_len};

use crate::items::{Step, VOLUME};
use crate::{ADDRESS, COUNTER_PASSWORD, PASSWORD};
use converter::Converter;
use records::{Event, PowerGap};
use runs::running::live;
use runs::{Call, Slot};
use std::alloc::{AllocError, Global};
use std::array;
use store::Filled;

// What came of each call, and the converter at the end.
#[derive(Drop)]
pub struct Outcome<S> {
    pub slots: Vec<Slot>,
    pub converter: Converter<S>,
}

// Each cell holds its own number, but for the address and both passwords.
fn cells() -> [u8; 256] {
    let mut cells = array::from_fn(|k| k as u8);
    cells[..2].copy_from_slice(&ADDRESS.to_le_bytes());
    cells[3..7].copy_from_slice(&PASSWORD);
    cells[7..11].copy_from_slice(&COUNTER_PASSWORD);
    cells
}

// The calls of the steps, in turn.
pub fn calls_of(heap: Global, steps: &[Step]) -> Result<Vec<Call<'_>>, AllocError> {
    steps.iter().map(|step| step.call()).collect(heap)
}

// Makes the calls on a fresh converter over a store.
pub fn run_over<S: Filled + Drop>(
    heap: Global,
    calls: &[Call<'_>],
) -> Result<Outcome<S>, AllocError>
    ensures { IfOk result (λ o. vec_len o.slots ≡ length calls.now) }
{
    let mut slots = vec![in heap; Slot::blank(); calls.len()]?;
    let converter = live(
        S::filled(cells()),
        VOLUME,
        VOLUME,
        calls,
        slots.as_mut_slice(),
        &mut [Event::default(); VOLUME],
        &mut [PowerGap::default(); VOLUME],
    );
    Ok(Outcome { slots, converter })
}
