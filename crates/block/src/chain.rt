// Blocks one behind another: written, checked, and read back.
ghost use Rattle.std.specs.Prelude.{◌≡◌, ℕ, ◌≤◌, List, ◌++◌, length, drop, MatchOption};
ghost use Rattle.block.specs.Chain.{AllRight, FirstWrong, Holds, chained};

use crate::{is_block, put_block};

// Writes the blocks of `bytes` at the start of `out`, and tells how long they are.
pub fn put_blocks(out: &mut [u8], bytes: &[u8]) -> usize
    requires { length (chained bytes.now) ≤ length out.old }
    ensures long { result ≡ length (chained bytes.now) }
    ensures written { out.new ≡ chained bytes.now ++ drop (length (chained bytes.now)) out.old }
{
    // Stays: the part of `out` from the block's place on is lent; of `out.chunks_mut(16)` a proof learns lengths, and no byte.
    for (k, part) in bytes.chunks(14).enumerate() {
        put_block(&mut out[16 * k..], part);
    }
    bytes.len() + 2 * bytes.len().div_ceil(14)
}

// The number of the first block whose check word is wrong, if one is.
pub fn first_wrong(blocks: &[u8]) -> Option<usize>
    ensures { MatchOption result (AllRight blocks.now) (λ k. FirstWrong blocks.now k) }
{
    blocks.chunks(16).position(|block| !is_block(block))
}

// Puts the bytes that `blocks` are made of at the start of `out`, and tells how many they are.
pub fn take_bytes(out: &mut [u8], blocks: &[u8]) -> usize
    requires { Holds blocks.now (length out.old) }
    ensures { (bytes : List ℕ) → blocks.now ≡ chained bytes → (result ≡ length bytes) × (out.new ≡ bytes ++ drop (length bytes) out.old) }
{
    // Stays: the bytes go into `out` by their place; of `out.chunks_mut(14)` a proof learns lengths, and no byte.
    for (k, block) in blocks.chunks(16).enumerate() {
        let n = block.len() - 2;
        out[14 * k..14 * k + n].copy_from_slice(&block[..n]);
    }
    blocks.len() - 2 * blocks.len().div_ceil(16)
}
