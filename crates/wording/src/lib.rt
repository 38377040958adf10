// What programs print for people: refusals in words, bytes as pairs of digits.
#![tactic(auto)]

ghost use Rattle.std.specs.Prelude.{Some};
ghost use Rattle.wording.specs.Pairs.{pairs};

use refusal::Refusal;
use std::fmt;

// A refusal as programs tell it: its number, and in words what stood in the way.
#[derive(Clone, Copy)]
pub struct Refused(pub Refusal);

impl fmt::Display for Refused {
    fn fmt<W: fmt::Write>(&self, f: &mut fmt::Formatter<W>) -> fmt::Result {
        let Refused(refusal) = *self;
        let number = refusal.number();
        write!(f, "refused {number} ({refusal})")
    }
}

// Bytes that are shown as pairs of hexadecimal digits, a blank before each pair.
#[derive(Clone, Copy)]
pub struct Hex<'a> {
    pub bytes: &'a [u8],
}

impl fmt::Display for Hex<'_> {
    ghost output = { λ hex. Some (pairs hex.bytes.now) };

    fn fmt<W: fmt::Write>(&self, f: &mut fmt::Formatter<W>) -> fmt::Result {
        for byte in self.bytes {
            let byte = *byte;
            write!(f, " {byte:02x}")?;
        }
        Ok(())
    }
}
