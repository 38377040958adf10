// Reading one line of text.
ghost use Rattle.std.specs.Prelude.{◌≡◌, IfOk, None, Ok};
ghost use Rattle.hex_text.specs.Text.{says};
ghost use Rattle.orders.specs.Bytes.{Filled};

use crate::cursor::Cursor;
use crate::{Call, Fault, Lending, Order, Setting};
use records::{PowerGap, Report};
use std::alloc::Global;

// The greatest number in a byte, and in two.
const BYTE: u32 = 255;

const DOUBLE_BYTE: u32 = 65_535;

// The most records or bytes of memory that can be ordered.
const MOST_MEMORY: u32 = 1_000_000;

// The bytes that the rest of the line says.
// Stays: three readers alone need the heap, so it goes beside the words and not within them.
fn bytes(words: &Cursor, heap: Global) -> Result<Vec<u8>, Fault>
    ensures { IfOk result (λ v. says None 1 words.now.rest.now ≡ Ok v.items) }
{
    let mut bytes = Vec::new(heap);
    hex_text::read_line(words.rest().as_bytes(), &mut bytes)?;
    Ok(bytes)
}

// Up to nine bytes, with zeros behind.
fn parameters(words: &Cursor, heap: Global) -> Result<[u8; 9], Fault>
    ensures { IfOk result (λ p. Filled (says None 1 words.now.rest.now) p) }
{
    let given = bytes(words, heap)?;
    let given = given.as_slice();
    if given.len() > 9 {
        return Err(Fault::Parameters);
    }
    let mut parameters = [0u8; 9];
    parameters[..given.len()].copy_from_slice(given);
    Ok(parameters)
}

fn store(words: &mut Cursor) -> Result<Setting, Fault> {
    Ok(Setting::Store(words.word().parse()?))
}

fn cell(words: &mut Cursor) -> Result<Setting, Fault> {
    Ok(Setting::Cell {
        number: words.number("a cell", BYTE)?,
        byte: words.number("a byte", BYTE)?,
    })
}

fn start(words: &mut Cursor) -> Result<Setting, Fault> {
    Ok(Setting::Start {
        events: words.number("a volume for events", MOST_MEMORY)?,
        gaps: words.number("a volume for power gaps", MOST_MEMORY)?,
    })
}

fn reply(words: &mut Cursor) -> Result<Lending, Fault> {
    Ok(Lending::Reply {
        bytes: words.number("a count of bytes", MOST_MEMORY)?,
    })
}

fn memory(words: &mut Cursor) -> Result<Lending, Fault> {
    Ok(Lending::Memory {
        events: words.number("a count of events", MOST_MEMORY)?,
        gaps: words.number("a count of power gaps", MOST_MEMORY)?,
    })
}

fn send(words: &mut Cursor, heap: Global) -> Result<Call, Fault> {
    Ok(Call::Send {
        address: words.number("an address", DOUBLE_BYTE)?,
        command: words.number("a command", BYTE)?,
        parameters: parameters(words, heap)?,
    })
}

fn advance(words: &mut Cursor) -> Result<Call, Fault> {
    Ok(Call::Advance {
        ticks: words.number("1/256 seconds", u32::MAX)?,
    })
}

fn event(words: &mut Cursor) -> Result<Call, Fault> {
    Ok(Call::NoteEvent(Report {
        reason: words.number("a reason", BYTE)?,
        tu: words.number("TU", BYTE)?,
        tc: words.number("TC", BYTE)?,
        value: words.number("a value", DOUBLE_BYTE)?,
        period: words.number("a period", DOUBLE_BYTE)?,
    }))
}

fn gap(words: &mut Cursor) -> Result<Call, Fault> {
    Ok(Call::NoteGap(PowerGap {
        off: words.number("seconds of power off", u32::MAX)?,
        on: words.number("seconds of power on", u32::MAX)?,
    }))
}

// Stays: the match is of two words, each beside what reads it; no table is plainer.
fn note(words: &mut Cursor) -> Result<Call, Fault> {
    match words.word() {
        "event" => event(words),
        "gap" => gap(words),
        _ => Err(Fault::Word("`event` or `gap`")),
    }
}

fn show(words: &mut Cursor) -> Result<Call, Fault> {
    Ok(Call::Show(words.word().parse()?))
}

// An order that says all in words and numbers.
// Stays: the match shows each word beside what reads it, and a table would hold function pointers of one type.
fn plain(name: &str, words: &mut Cursor) -> Result<Order, Fault> {
    let order = match name {
        "store" => Order::Setting(store(words)?),
        "cell" => Order::Setting(cell(words)?),
        "start" => Order::Setting(start(words)?),
        "reply" => Order::Lending(reply(words)?),
        "memory" => Order::Lending(memory(words)?),
        "advance" => Order::Call(advance(words)?),
        "note" => Order::Call(note(words)?),
        "show" => Order::Call(show(words)?),
        _ => {
            return Err(Fault::Word(
                "store, cell, start, reply, memory, hear, send, advance, measure, note or show",
            ));
        }
    };
    words.end()?;
    Ok(order)
}

// What a line of text orders, nothing where it is blank or a comment.
// Stays: the match shows the words that need the heap beside what reads each; a table would hold function pointers.
pub fn read(text: &str, heap: Global) -> Result<Option<Order>, Fault> {
    let mut words = Cursor::at(text);
    let order = match words.word() {
        "" => return Ok(None),
        "hear" => Order::Call(Call::Hear {
            line: bytes(&words, heap)?,
        }),
        "send" => Order::Call(send(&mut words, heap)?),
        "measure" => Order::Call(Call::Measure {
            readings: bytes(&words, heap)?,
        }),
        name => plain(name, &mut words)?,
    };
    Ok(Some(order))
}
