// The words of a line, one after another.
ghost use Rattle.std.specs.Prelude.{◌≡◌, ◌≤◌, ℕ, IfOk, IsOk, Ok};

use crate::Fault;
use crate::numbers::number;

fn is_blank(c: char) -> bool {
    matches!(c, ' ' | '\t' | '\r')
}

// What of a line is still to be read.
#[derive(Clone, Copy)]
pub struct Cursor<'a> {
    rest: &'a str,
}

impl<'a> Cursor<'a> {
    // At the first word of the text before a comment.
    pub(crate) fn at(text: &'a str) -> Cursor<'a> {
        let said = text.split_once('#').map_or(text, |(said, _)| said);
        Cursor {
            rest: said.trim_start_matches(is_blank),
        }
    }

    // The next word, empty at the end.
    pub(crate) fn word(&mut self) -> &'a str {
        let (word, rest) = self.rest.split_once(is_blank).unwrap_or((self.rest, ""));
        self.rest = rest.trim_start_matches(is_blank);
        word
    }

    // All that is left.
    pub(crate) fn rest(&self) -> &'a str
        ensures { result.now ≡ self.now.rest.now }
    {
        self.rest
    }

    // The next word as a number up to the greatest, of a type that holds them all.
    pub(crate) fn number<T: TryFrom<u32>>(
        &mut self,
        what: &'static str,
        greatest: u32,
    ) -> Result<T, Fault>
        requires fits { (n : ℕ) (r : _) → n ≤ greatest → T.try_from_gives n r → IsOk r }
        ensures { IfOk result (λ v. (n : ℕ) × (n ≤ greatest) × T.try_from_gives n (Ok v)) }
    {
        let fault = Fault::Number { what, greatest };
        let value = number(self.word(), greatest).ok_or(fault)?;
        Ok(T::try_from(value).unwrap())
    }

    pub(crate) fn end(&self) -> Result<(), Fault> {
        if self.rest.is_empty() {
            Ok(())
        } else {
            Err(Fault::End)
        }
    }
}
