// Writes that a window refuses: it is kept, and closed instead.
ghost use Rattle.std.specs.Prelude.{◌≡◌, IfErr, MatchResult};
ghost use Rattle.refusal.specs.Told.{granted, number, refused};
ghost use Rattle.refusal.specs.declared.Company.TheVariants.{Alone};
ghost use Rattle.request_frame.specs.Requests.{request};
ghost use Rattle.window.specs.Frames.{closing, filled, open_writes, verdict};

use crate::windows::closed;
use refusal::Refusal;
use std::fmt;
use window::{Kept, Window};
use wording::Hex;

// A write that was refused, and the frame that closed the window instead.
#[derive(Drop)]
pub struct GivenUp {
    pub refusal: Refusal,
    pub last: [u8; 18],
}

// Shown with the frame on a line of its own.
impl fmt::Display for GivenUp {
    fn fmt<W: fmt::Write>(&self, f: &mut fmt::Formatter<W>) -> fmt::Result {
        let number = self.refusal.number();
        let last = Hex { bytes: &self.last };
        write!(f, "refused {number}, then closed\n {last}")
    }
}

// Tries a command on an open window, with the memory given for its frame.
// Stays: the parts of one frame, as `write` takes them; a struct of them would be made only to be taken apart.
pub fn try_write(
    memory: &mut [u8],
    address: u16,
    command: u8,
    parameters: &[u8; 9],
) -> Result<(), GivenUp>
    ensures told { MatchResult result (λ _. verdict (open_writes command) memory.old (tt {0}) ≡ granted tt) (λ up. verdict (open_writes command) memory.old (tt {0}) ≡ refused (number up.refusal) Alone) }
    ensures written { memory.new ≡ filled (open_writes command) memory.old (request address command parameters.now) }
    ensures ended { IfErr result (λ up. up.last ≡ closing address) }
{
    let mut first = [0u8; 18];
    let window = Window::open(&mut first, address).unwrap();
    window.write(memory, command, parameters).map_err(|Kept { window, refusal }| GivenUp {
        refusal,
        last: closed(window),
    })
}
