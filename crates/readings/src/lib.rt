// The readings of a converter: which of them a mask chooses.
#![tactic(auto)]

ghost use Rattle.std.specs.Prelude.{◌≡◌, ◌≤◌, ◌++◌, length, drop};
ghost use Rattle.readings.specs.Readings.{masked};

// The length of all readings together.
pub const READINGS_BYTES: usize = 175;

// The lengths of the structures, in the order of the mask bits.
const LENGTHS: [usize; 19] = [8, 8, 8, 8, 8, 8, 24, 10, 44, 2, 5, 2, 2, 6, 4, 10, 10, 4, 4];

// Copies the structures whose mask bits are set to the start of `out`, one behind another, bit 0 first, and
// tells how long they are.
pub fn copy_readings(mask: u32, readings: &[u8; 175], out: &mut [u8]) -> usize
    requires { 175 ≤ length out.old }
    ensures long { result ≡ length (masked mask readings.now) }
    ensures written { out.new ≡ masked mask readings.now ++ drop (length (masked mask readings.now)) out.old }
    ensures most { result ≤ 175 }
{
    let mut bits = mask;
    let mut from = 0;
    let mut at = 0;
    // Stays: the table of lengths is summed for the offsets, a form that the project keeps; bits go along with it.
    for n in &LENGTHS {
        if bits % 2 == 1 {
            out[at..at + *n].copy_from_slice(&readings[from..from + *n]);
            at += *n;
        }
        from += *n;
        bits /= 2;
    }
    at
}
