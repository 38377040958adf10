// Numbers as text: decimal, or hexadecimal behind 0x.
ghost use Rattle.std.specs.Prelude.{◌≡◌, ◌≤◌, ◌+◌, ◌*◌, Some};
ghost use Rattle.hex_text.specs.Text.{mark_of};
ghost use Rattle.orders.specs.Numbers.{Within, digit_of, number_of, onward, worth};

// The digit that a character is to a base up to 16, if it is one.
fn digit(c: u8, base: u32) -> Option<u32>
    ensures { result ≡ digit_of base (mark_of c) }
{
    char::from(c).to_digit(16).filter(|digit| *digit < base)
}

// A value with one digit more behind it, unless that is no digit or what they make is above the greatest.
fn with_digit(value: u32, c: u8, base: u32, greatest: u32) -> Option<u32>
    ensures { Within greatest (onward (digit_of base (mark_of c)) (λ d. Some (value * base + d))) result }
{
    value
        .checked_mul(base)?
        .checked_add(digit(c, base)?)
        .filter(|value| *value <= greatest)
}

// The value of digits to a base, unless one of them is no digit or the value is above the greatest.
fn value_of(digits: &[u8], base: u32, greatest: u32) -> Option<u32>
    requires { 1 ≤ base }
    ensures { Within greatest (worth base 0 digits.now) result }
{
    digits
        .iter()
        .try_fold(0, |value, c| with_digit(value, *c, base, greatest))
}

// The number that a word is, unless it is none or above the greatest.
pub(crate) fn number(word: &str, greatest: u32) -> Option<u32>
    ensures { Within greatest (number_of word.now) result }
{
    let (digits, base) = word
        .strip_prefix("0x")
        .map_or((word, 10), |digits| (digits, 16));
    if digits.is_empty() {
        return None;
    }
    value_of(digits.as_bytes(), base, greatest)
}
