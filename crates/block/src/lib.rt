// Blocks: bytes with their check word behind them, and the block that opens every frame.
#![tactic(auto)]

ghost use Rattle.std.specs.Prelude.{◌≡◌, ◌+◌, ◌/◌, ◌%◌, ◌≤◌, ◌∷◌, ◌++◌, length, drop, Decides};
ghost use Rattle.block.specs.Block.{Block, opening, sealed};

pub mod chain;

use check_word::check_word;

// The bytes at the head of every frame.
pub const HEAD: [u8; 2] = [0x05, 0x64];

// Writes the block of `bytes` at the start of `out`, and tells how long it is.
pub fn put_block(out: &mut [u8], bytes: &[u8]) -> usize
    requires { length bytes.now + 2 ≤ length out.old }
    ensures long { result ≡ length bytes.now + 2 }
    ensures written { out.new ≡ sealed bytes.now ++ drop (length bytes.now + 2) out.old }
{
    let n = bytes.len();
    out[..n].copy_from_slice(bytes);
    out[n..n + 2].copy_from_slice(&check_word(bytes).to_be_bytes());
    n + 2
}

// Whether `bytes` are a block: whether the last two are the check word of those before them.
pub fn is_block(bytes: &[u8]) -> bool
    ensures { Decides result (Block bytes.now) }
{
    let Some((covered, told)) = bytes.split_last_chunk() else {
        return false;
    };
    u16::from_be_bytes(*told) == check_word(covered)
}

// The bytes that the check word of an opening covers.
fn covered(data_len: u8, address: u16, ten: &[u8; 10]) -> [u8; 14]
    ensures { result ≡ data_len ∷ 0 ∷ address % 256 ∷ address / 256 ∷ ten.now }
{
    let mut covered = [0u8; 14];
    covered[0] = data_len;
    covered[2..4].copy_from_slice(&address.to_le_bytes());
    covered[4..].copy_from_slice(ten);
    covered
}

// Writes the 18 bytes that open a frame at the start of `out`.
pub fn put_opening(out: &mut [u8], data_len: u8, address: u16, ten: &[u8; 10])
    requires { 18 ≤ length out.old }
    ensures { out.new ≡ opening data_len address ten.now ++ drop 18 out.old }
{
    let covered = covered(data_len, address, ten);
    out[..2].copy_from_slice(&HEAD);
    put_block(&mut out[2..], &covered);
}
