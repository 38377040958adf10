// The frames that a station sends. 18 bytes are room enough for every frame, so nothing is refused.
#![tactic(auto)]

ghost use Rattle.std.specs.Prelude.{◌≡◌, [], ◌∷◌};
ghost use Rattle.request_frame.specs.Requests.{request};
ghost use Rattle.window.specs.Frames.{permitting, preparing};

use request_frame::write_request;
use window::Window;

// Stays: commands are bytes, as the window takes them.
const WRITE_SETPOINT: u8 = 0x12;

// The frame of a single request.
// Stays: the parts of one frame, as `write_request` takes them; a struct of them would be made only to be taken apart.
pub fn frame_for(address: u16, command: u8, parameters: &[u8; 9]) -> [u8; 18]
    ensures { result ≡ request address command parameters.now }
{
    let mut frame = [0u8; 18];
    write_request(&mut frame, address, command, parameters).unwrap();
    frame
}

// The frames of a window that writes a setpoint: prepare, permit, write.
pub fn write_setpoint(address: u16, password: &[u8; 4], setpoint: &[u8; 9]) -> [[u8; 18]; 3]
    ensures { result ≡ preparing address ∷ permitting address password.now ∷ request address 18 setpoint.now ∷ [] }
{
    let mut first = [0u8; 18];
    let mut second = [0u8; 18];
    let mut third = [0u8; 18];
    let window = Window::open(&mut first, address).unwrap();
    let window = window.permit(&mut second, password).unwrap();
    window
        .write_permitted(&mut third, WRITE_SETPOINT, setpoint)
        .unwrap();
    [first, second, third]
}
