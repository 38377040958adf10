// The station's write window: opened, perhaps permitted, and ended by a write or by closing.
#![tactic(auto)]

ghost use Rattle.std.specs.Prelude.{◌≡◌, true, false, ◌++◌, replicate};
ghost use Rattle.refusal.specs.Told.{answer};
ghost use Rattle.request_frame.specs.Requests.{request};
ghost use Rattle.window.specs.Served.{Served};
ghost use Rattle.window.specs.Frames.{Keeps, closing, filled, open_writes, permitted_writes, permitting, preparing, told, verdict};

use refusal::Refusal;
use request_frame::write_request;

// The states of a window.
// Stays: a permitted write on an open window must be a need that nothing proves: a const parameter, which is no enum.
pub const OPEN: bool = false;

pub const PERMITTED: bool = true;

// The commands that open, permit and close, and the key that opens.
// Stays: `write` takes any byte for its command and may refuse it; an enum of commands would ask more of callers.
const PREPARE: u8 = 0x01;

const PERMIT: u8 = 0x06;

const READ_ADDRESS: u8 = 0x03;

const KEY: u8 = 0xa5;

// A window on the converter with one address. It is no `Drop`: it is written or closed, never let go.
pub struct Window<const STATE: bool> {
    address: u16,
}

// A refusal, and the window that it keeps.
// Stays: `Keeps`, a clause of each call, ties this window to the one given; no invariant of `Kept` alone can say it.
pub struct Kept<const STATE: bool> {
    pub window: Window<STATE>,
    pub refusal: Refusal,
}

// Whether an open window writes `command`.
// Stays: two lists that the contracts name by the window's state; one function of both would take a flag.
fn open_writes(command: u8) -> bool
    ensures { result ≡ open_writes command }
{
    matches!(command, 0x02 | 0x04 | 0x15 | 0x1d | 0x2b)
}

// Whether a permitted window writes `command`.
fn permitted_writes(command: u8) -> bool
    ensures { result ≡ permitted_writes command }
{
    matches!(command, 0x12 | 0x2e)
}

impl Window<OPEN> {
    // Opens a window on the converter with `address`.
    #[tactic(auto, using(crate::proofs::Turns::served))]
    pub fn open(out: &mut [u8], address: u16) -> Result<Window<OPEN>, Refusal>
        ensures told { answer result ≡ verdict true out.old (record { address = address }) }
        ensures written { out.new ≡ filled true out.old (preparing address) }
        ensures served { Served }
    {
        write_request(out, address, PREPARE, &[KEY, 0, 0, 0, 0, 0, 0, 0, 0])?;
        Ok(Window { address })
    }
}

impl<const STATE: bool> Window<STATE> {
    // The address to which all frames of the window go.
    pub fn address(&self) -> u16
        ensures { result ≡ self.now.address }
    {
        self.address
    }

    // Permits writes of kind 0 by its password.
    pub fn permit(
        self,
        out: &mut [u8],
        password: &[u8; 4],
    ) -> Result<Window<PERMITTED>, Kept<STATE>>
        requires { STATE ≡ false }
        ensures told { told result ≡ verdict true out.old (record { address = self.entry.address }) }
        ensures written { out.new ≡ filled true out.old (permitting self.entry.address password.now) }
        ensures keeps { Keeps result self.entry }
    {
        let address = self.address;
        let [a, b, c, d] = *password;
        self.spend(out, PERMIT, &[a, b, c, d, 0, 0, 0, 0, 0])?;
        Ok(Window { address })
    }

    // Ends an open window by the write that it is for.
    // Stays: one call for both states would refuse a permitted write on an open window with 5, and not by the check.
    pub fn write(self, out: &mut [u8], command: u8, parameters: &[u8; 9]) -> Result<(), Kept<STATE>>
        requires { STATE ≡ false }
        ensures told { told result ≡ verdict (open_writes command) out.old tt }
        ensures written { out.new ≡ filled (open_writes command) out.old (request self.entry.address command parameters.now) }
        ensures keeps { Keeps result self.entry }
    {
        if !open_writes(command) {
            return Err(self.kept(Refusal::UnknownCommand));
        }
        self.spend(out, command, parameters)
    }

    // Ends a permitted window by the write that it is for.
    pub fn write_permitted(
        self,
        out: &mut [u8],
        command: u8,
        parameters: &[u8; 9],
    ) -> Result<(), Kept<STATE>>
        requires { STATE ≡ true }
        ensures told { told result ≡ verdict (permitted_writes command) out.old tt }
        ensures written { out.new ≡ filled (permitted_writes command) out.old (request self.entry.address command parameters.now) }
        ensures keeps { Keeps result self.entry }
    {
        if !permitted_writes(command) {
            return Err(self.kept(Refusal::UnknownCommand));
        }
        self.spend(out, command, parameters)
    }

    // Ends a window that writes nothing.
    pub fn close(self, out: &mut [u8]) -> Result<(), Kept<STATE>>
        ensures told { told result ≡ verdict true out.old tt }
        ensures written { out.new ≡ filled true out.old (closing self.entry.address) }
        ensures keeps { Keeps result self.entry }
    {
        self.spend(out, READ_ADDRESS, &[0; 9])
    }

    // The window, kept by a refusal.
    fn kept(self, refusal: Refusal) -> Kept<STATE>
        ensures { result ≡ (record { window = self.entry; refusal = refusal }) }
    {
        Kept {
            window: self,
            refusal,
        }
    }

    // Spends the window on a frame with `command`.
    // Stays: command and parameters come from the caller; a struct of both would be made only to be taken apart.
    fn spend(self, out: &mut [u8], command: u8, parameters: &[u8; 9]) -> Result<(), Kept<STATE>>
        ensures told { told result ≡ verdict true out.old tt }
        ensures written { out.new ≡ filled true out.old (request self.entry.address command parameters.now) }
        ensures keeps { Keeps result self.entry }
    {
        // Stays: the check covers no `map_err` here, whose closure makes a window of the state that is a parameter.
        if let Err(refusal) = write_request(out, self.address, command, parameters) {
            return Err(self.kept(refusal));
        }
        let Window { address: _ } = self;
        Ok(())
    }
}
