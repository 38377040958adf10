// Bytes written as hexadecimal text: pairs of digits, blanks between pairs, `#` before a comment.
#![tactic(auto)]

ghost use Rattle.std.specs.Prelude.{◌≡◌};
ghost use Rattle.hex_text.specs.declared.Fault.TheVariants.{Memory};
ghost use Rattle.hex_text.specs.Text.{Reads, Small, mark_of};

use std::alloc::AllocFailed;
use thiserror::Error;

// What a character of the text is.
#[derive(Clone, Copy, PartialEq, Eq, Debug)]
pub enum Mark {
    Blank,
    Comment,
    Digit(u8),
    Other,
}

// What is wrong with a line of text.
#[derive(Clone, Copy, PartialEq, Eq, Debug, Error)]
pub enum Fault {
    // No hexadecimal digit, blank or `#`; columns count from 1.
    #[error("column {column}: expected a hexadecimal digit, a blank or `#`")]
    NoDigit { column: usize },
    // One digit without its second.
    #[error("column {column}: expected the second digit of a pair")]
    HalfPair { column: usize },
    // No memory for the bytes.
    #[error("no memory for the bytes")]
    Memory,
}

// Stays: the clause of `read_line` names the fault that `?` makes, and a derived `From` says nothing of it.
impl<T: Drop> From<AllocFailed<T>> for Fault {
    ghost from_gives = { λ _ r. r ≡ Memory };

    fn from(_e: AllocFailed<T>) -> Fault {
        Fault::Memory
    }
}

// What the character `c` is.
// Stays: `Mark::from(c)` says less than this name.
pub fn classify(c: u8) -> Mark
    ensures value { result ≡ mark_of c }
    ensures bound { Small result }
{
    match c {
        b' ' | b'\t' | b'\r' => Mark::Blank,
        b'#' => Mark::Comment,
        _ => char::from(c)
            .to_digit(16)
            .map_or(Mark::Other, |digit| Mark::Digit(digit as u8)),
    }
}

// Appends the bytes that one line of text says to `out`. For bad text it tells what is wrong.
pub fn read_line(text: &[u8], out: &mut Vec<u8>) -> Result<(), Fault>
    ensures { Reads text.now out.old.items out.new.items result }
{
    let mut high = None;
    // Stays: the number of a character is its column, which a fault tells.
    for (i, c) in text.iter().enumerate() {
        match high.take() {
            None => match classify(*c) {
                Mark::Blank => {}
                Mark::Comment => return Ok(()),
                Mark::Digit(first) => high = Some(first),
                Mark::Other => return Err(Fault::NoDigit { column: i + 1 }),
            },
            Some(first) => {
                let Mark::Digit(second) = classify(*c) else {
                    return Err(Fault::HalfPair { column: i + 1 });
                };
                out.push(16 * first + second)?;
            }
        }
    }
    // Stays: here the empty `Option` is the good case, the other way round than `ok_or` takes it.
    match high {
        None => Ok(()),
        Some(_) => Err(Fault::HalfPair {
            column: text.len() + 1,
        }),
    }
}
