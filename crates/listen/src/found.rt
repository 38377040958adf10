// What was found in a line, printed.
ghost use Rattle.std.specs.Prelude.{◌-◌, ◌*◌, ◌≤◌, length};
ghost use Rattle.std.specs.Iterator.{at_most};

use crate::asked;
use request_frame::{REQUEST_BYTES, Request, read_request, search, unfinished};
use std::io;
use wording::Hex;

// Prints a part of the line that is no request, if it has any bytes.
fn tell_part(rt: &HostRuntime, what: &str, place: usize, bytes: &[u8]) -> io::Result<()> {
    let count = bytes.len();
    if count == 0 {
        return Ok(());
    }
    let shown = Hex { bytes };
    println!(rt; "{place:>6}  {what:<10}  {count:>5} {shown}")
}

// A request in a line, and what stands between the request before and this one.
#[derive(Clone, Copy)]
struct Found<'a> {
    from: usize,
    noise: &'a [u8],
    place: usize,
    request: Request<'a>,
    word: &'a [u8],
}

impl Found<'_> {
    fn tell(&self, rt: &HostRuntime) -> io::Result<()> {
        tell_part(rt, "noise", self.from, self.noise)?;
        let place = self.place;
        let Request {
            address,
            command,
            parameters,
        } = self.request;
        let parameters = Hex { bytes: parameters };
        let word = Hex { bytes: self.word };
        print!(rt;
            "{place:>6}  request        18  address {address:#06x}, command {command:#04x}"
        )?;
        println!(rt; ", parameters{parameters}, check word{word}")?;
        asked::tell(rt, &self.request)
    }
}

// Goes through a line from request to request.
#[derive(Drop)]
struct Requests<'a> {
    line: &'a [u8],
    // The place behind the requests that were given.
    from: usize,
    // Stays: the count is kept here because each request is printed as it comes, and none is kept to be counted.
    given: usize,
    ghost within: { from ≤ length line.now },
    ghost apart: { given * 18 ≤ from },
}

impl<'a> Iterator for Requests<'a> {
    type Item = Found<'a>;

    ghost remaining = { λ s. at_most (length s.line.now - s.from) };

    fn next(&mut self) -> Option<Found<'a>> {
        let Requests { line, from, .. } = *self;
        let (skipped, _) = search(&line[from..])?;
        let place = from + skipped;
        let request = read_request(line, place)?;
        self.from = place + REQUEST_BYTES;
        self.given += 1;
        Some(Found {
            from,
            noise: &line[from..place],
            place,
            request,
            word: &line[place + 16..place + 18],
        })
    }
}

impl Requests<'_> {
    // Prints what is left behind the last request, and how many bytes are what.
    fn tell_end(self, rt: &HostRuntime) -> io::Result<()> {
        let Requests { line, from, given } = self;
        let rest = &line[from..];
        let begun = unfinished(rest).unwrap_or(rest.len());
        let (noise, last) = rest.split_at(begun);
        tell_part(rt, "noise", from, noise)?;
        tell_part(rt, "unfinished", from + begun, last)?;
        let all = line.len();
        let left = last.len();
        let noise = all - given * REQUEST_BYTES - left;
        println!(rt; "bytes {all}, requests {given}, noise {noise}, unfinished {left}")
    }
}

// Goes through `line` from request to request, and prints all that it meets.
pub fn tell_all(rt: &HostRuntime, line: &[u8]) -> io::Result<()> {
    println!(rt; " place  what        bytes")?;
    let mut requests = Requests {
        line,
        from: 0,
        given: 0,
    };
    for found in requests.by_ref() {
        found.tell(rt)?;
    }
    requests.tell_end(rt)
}
