// The first valid request of a line.
ghost use Rattle.std.specs.Prelude.{◌+◌, ◌≤◌, length, IfSome};
ghost use Rattle.converter.specs.Hearing.{Finds};
ghost use Rattle.converter.specs.Told.{placed_found};
ghost use Rattle.std.specs.Option.{option_map};

use request_frame::{Request as Frame, read_request, search};

// A request and the place where it begins.
#[derive(Clone, Copy)]
pub struct Placed<'a> {
    pub place: usize,
    pub frame: Frame<'a>,
}

// Finds the first valid request.
pub(crate) fn find(line: &[u8]) -> Option<Placed<'_>>
    ensures finds { Finds line.now (option_map placed_found result) }
    ensures within { IfSome result (λ p. p.place + 18 ≤ length line.now) }
{
    let (place, _) = search(line)?;
    let frame = read_request(line, place)?;
    Some(Placed { place, frame })
}
