// Requests on the line: written into given memory, searched for in a line, cut out of it.
#![tactic(auto)]

ghost use Rattle.std.specs.Prelude.{◌≡◌, ◌+◌, ◌≤◌, ◌∷◌, ◌++◌, length, take, drop, IfSome, if◌then◌else◌, Decides, MatchOption, nat_lt};
ghost use Rattle.refusal.specs.Told.{answer, granted, refused};
ghost use Rattle.refusal.specs.declared.Company.TheVariants.{Alone};
ghost use Rattle.request_frame.specs.Requests.{FirstBegun, Least, ReadsAs, Requests, Valid, begun, headed, request, window};

use block::{HEAD, is_block, put_opening};
use refusal::Refusal;

// The length of a request on the line.
pub const REQUEST_BYTES: usize = 18;

// The first bytes of every request: head, DataLen 0, ControlByte 0.
const BEGINNING: [u8; 4] = [0x05, 0x64, 0, 0];

// The parts of a request; the nine parameters are a part of the line.
#[derive(Clone, Copy)]
pub struct Request<'a> {
    pub address: u16,
    // Stays: any byte can be a command on the line; which of them are known is told by the reader of rows.
    pub command: u8,
    pub parameters: &'a [u8],
}

// The ten bytes behind the address.
fn ten(command: u8, parameters: &[u8; 9]) -> [u8; 10]
    ensures { result ≡ command ∷ parameters.now }
{
    let mut ten = [command; 10];
    ten[1..].copy_from_slice(parameters);
    ten
}

// Writes a request at the start of `out`.
// Stays: the nine parameters are an array here, and in a `Request` a part of the line; one struct for both would ask callers for the length.
pub fn write_request(
    out: &mut [u8],
    address: u16,
    command: u8,
    parameters: &[u8; 9],
) -> Result<(), Refusal>
    ensures told { answer result ≡ (if nat_lt (length out.old) 18 then refused 16 Alone else granted tt) }
    ensures written { out.new ≡ (if nat_lt (length out.old) 18 then out.old else request address command parameters.now ++ drop 18 out.old) }
    ensures reads_back { 18 ≤ length out.old → ReadsAs (take 18 out.new) address command parameters.now }
{
    if out.len() < REQUEST_BYTES {
        return Err(Refusal::NoRoom);
    }
    put_opening(out, 0, address, &ten(command, parameters));
    Ok(())
}

// Whether `frame` is a valid request: head, DataLen 0, ControlByte 0, and a block behind the head.
fn is_request(frame: &[u8]) -> bool
    ensures { Decides result (Valid frame.now) }
{
    frame.len() == REQUEST_BYTES && frame.starts_with(&BEGINNING) && is_block(&frame[2..])
}

// The least place in `line` at which a valid request begins, with its command.
// Stays: a pair of plain numbers lends no part of the line, which `read_request` cuts out at that place.
pub fn search(line: &[u8]) -> Option<(usize, u8)>
    ensures least { Least line.now result }
    ensures within { IfSome result (λ found. found.0 + 18 ≤ length line.now) }
{
    let at = (0..line.len().saturating_sub(17)).find(|at| is_request(&line[*at..*at + 18]))?;
    Some((at, line[at + 6]))
}

// The parts of the request that begins at `at`, if a valid one does.
pub fn read_request(line: &[u8], at: usize) -> Option<Request<'_>>
    ensures { MatchOption result (Valid (window line.now at) → ⊥) (λ q. Requests (window line.now at) q.address q.command q.parameters.now) }
{
    let frame = line.get(at..)?.get(..REQUEST_BYTES)?;
    if !is_request(frame) {
        return None;
    }
    Some(Request {
        address: u16::from_le_bytes([frame[4], frame[5]]),
        command: frame[6],
        parameters: &frame[7..16],
    })
}

// Whether `rest`, the end of a line, is a beginning that more bytes may finish.
fn is_begun(rest: &[u8]) -> bool
    ensures { result ≡ begun rest.now }
{
    rest == &HEAD[..1] || rest.len() < REQUEST_BYTES && rest.starts_with(&HEAD)
}

// The least place from which the line's end is a beginning that more bytes may finish.
pub fn unfinished(line: &[u8]) -> Option<usize>
    ensures { FirstBegun line.now result }
{
    (line.len().saturating_sub(17)..line.len()).find(|at| is_begun(&line[*at..]))
}
