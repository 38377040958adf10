// One window each, from opening to its end. 18 bytes are room enough for every frame, so nothing is refused.
ghost use Rattle.std.specs.Prelude.{◌≡◌, [], ◌∷◌, replicate};
ghost use Rattle.request_frame.specs.Requests.{request};
ghost use Rattle.window.specs.Frames.{closing, preparing};

use window::Window;

// Stays: commands are bytes, as the window takes them.
const SET_SPEED: u8 = 0x15;

// The frame that closes a window.
pub fn closed<const STATE: bool>(window: Window<STATE>) -> [u8; 18]
    ensures { result ≡ closing window.entry.address }
{
    let mut frame = [0u8; 18];
    window.close(&mut frame).unwrap();
    frame
}

// Sets the speed of the line.
pub fn set_speed(address: u16, code: u8) -> [[u8; 18]; 2]
    ensures { result ≡ preparing address ∷ request address 21 (code ∷ replicate 8 0) ∷ [] }
{
    let mut first = [0u8; 18];
    let mut second = [0u8; 18];
    let window = Window::open(&mut first, address).unwrap();
    window
        .write(&mut second, SET_SPEED, &[code, 0, 0, 0, 0, 0, 0, 0, 0])
        .unwrap();
    [first, second]
}

// Thinks better of it.
pub fn open_and_close(address: u16) -> [[u8; 18]; 2]
    ensures { result ≡ preparing address ∷ closing address ∷ [] }
{
    let mut first = [0u8; 18];
    let window = Window::open(&mut first, address).unwrap();
    [first, closed(window)]
}
