// Replies on the line: written into given memory, and read back whole.
#![tactic(auto)]

ghost use Rattle.std.specs.Prelude.{◌≡◌, ℕ, ◌≤◌, true, List, ◌++◌, length, take, drop, if◌then◌else◌};
ghost use Rattle.refusal.specs.Told.{answer, granted, refused};
ghost use Rattle.refusal.specs.declared.Company.TheVariants.{Alone};
ghost use Rattle.reply_frame.specs.Reading.{GivesBack, Reads};
ghost use Rattle.reply_frame.specs.Replies.{ReadsAs, data_len, filled, fits, on_line, reply, shaped};

use block::chain::{first_wrong, put_blocks, take_bytes};
use block::{HEAD, put_opening};
use refusal::Refusal;

// The most data bytes that a reply carries.
pub const MOST_DATA: usize = 251;

// What a reply read tells besides its data: who sent it, and how many data bytes there are.
// Stays: the data lie in the caller's own memory, since the line has no heap, so their number comes beside it.
#[derive(Clone, Copy, PartialEq, Eq, Debug)]
pub struct Reply {
    pub address: u16,
    pub length: usize,
}

// How long a reply with this DataLen is.
fn on_line(data_len: usize) -> usize
    requires { data_len ≤ 255 }
    ensures { result ≡ on_line data_len }
{
    2 + data_len + 2 * data_len.div_ceil(14)
}

// At most ten bytes, filled with zeros to ten.
fn fill(first: &[u8]) -> [u8; 10]
    requires { length first.now ≤ 10 }
    ensures { result ≡ filled first.now }
{
    let mut ten = [0u8; 10];
    ten[..first.len()].copy_from_slice(first);
    ten
}

// Writes a reply at the start of `out`, and tells how long it is.
pub fn write_reply(out: &mut [u8], address: u16, payload: &[u8]) -> Result<usize, Refusal>
    ensures told { answer result ≡ (if fits (length payload.now) (length out.old) then granted (on_line (data_len (length payload.now))) else refused 16 Alone) }
    ensures written { out.new ≡ (if fits (length payload.now) (length out.old) then reply address payload.now ++ drop (on_line (data_len (length payload.now))) out.old else out.old) }
    ensures reads_back { fits (length payload.now) (length out.old) ≡ true → ReadsAs (take (on_line (data_len (length payload.now))) out.new) address (filled payload.now) }
{
    if payload.len() > MOST_DATA {
        return Err(Refusal::NoRoom);
    }
    let data_len = payload.len().max(10) + 4;
    let length = on_line(data_len);
    if out.len() < length {
        return Err(Refusal::NoRoom);
    }
    let (first, rest) = payload.split_at(payload.len().min(10));
    put_opening(out, data_len as u8, address, &fill(first));
    put_blocks(&mut out[18..], rest);
    Ok(length)
}

// Whether `bytes` have the shape of a reply.
fn is_shaped(bytes: &[u8]) -> bool
    ensures { result ≡ shaped bytes.now }
{
    bytes.len() >= 18
        && bytes.starts_with(&HEAD)
        && bytes[2] >= 14
        && bytes[3] == 0
        && bytes.len() == on_line(bytes[2] as usize)
}

// Reads one whole reply: its data go to the start of `payload`.
pub fn read_reply(bytes: &[u8], payload: &mut [u8]) -> Result<Reply, Refusal>
    ensures reads { Reads bytes.now payload.old payload.new result }
    ensures gives_back { GivesBack bytes.now payload.old payload.new result }
{
    if !is_shaped(bytes) {
        return Err(Refusal::NoReply);
    }
    if let Some(block) = first_wrong(&bytes[2..]) {
        return Err(Refusal::CheckWord(block));
    }
    let length = bytes[2] as usize - 4;
    if payload.len() < length {
        return Err(Refusal::NoRoom);
    }
    payload[..10].copy_from_slice(&bytes[6..16]);
    take_bytes(&mut payload[10..], &bytes[18..]);
    let address = u16::from_le_bytes([bytes[4], bytes[5]]);
    Ok(Reply { address, length })
}
