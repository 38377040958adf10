// A noisy line: noise with heads in it, a damaged frame, a broken-off beginning, then a frame.
ghost use Rattle.std.specs.Prelude.{◌≡◌, [], ◌∷◌, ◌++◌, IfOk};

use std::alloc::{AllocError, Global};

const NOISE: [u8; 9] = [0x00, 0xff, 0x05, 0x64, 0x00, 0x05, 0x64, 0x05, 0x05];

const BROKEN: [u8; 5] = [0x05, 0x64, 0x00, 0x00, 0x01];

// The frame with one bit of its parameters turned.
pub fn damaged(frame: &[u8; 18]) -> [u8; 18] {
    let mut damaged = *frame;
    damaged[9] ^= 0x20;
    damaged
}

// The frames `lost` and `frame`, both behind noise.
pub fn noisy(heap: Global, lost: &[u8; 18], frame: &[u8; 18]) -> Result<Vec<u8>, AllocError>
    ensures { IfOk result (λ v. v.items ≡ (((0x00 ∷ 0xFF ∷ 0x05 ∷ 0x64 ∷ 0x00 ∷ 0x05 ∷ 0x64 ∷ 0x05 ∷ 0x05 ∷ []) ++ lost.now) ++ (0x05 ∷ 0x64 ∷ 0x00 ∷ 0x00 ∷ 0x01 ∷ [])) ++ frame.now) }
{
    let mut line = Vec::new(heap);
    line.extend_from_slice(&NOISE)?;
    line.extend_from_slice(lost)?;
    line.extend_from_slice(&BROKEN)?;
    line.extend_from_slice(frame)?;
    Ok(line)
}
