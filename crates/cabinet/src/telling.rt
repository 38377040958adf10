// What came of an order, in words.
use converter::{Heard, Unheard};
use refusal::{Company, Refusal};
use std::{fmt, io};
use wording::{Hex, Refused};

// Stays: a Result would hold two of these four; that it started, and a line refused, are no answers of a call.
#[derive(Clone, Copy)]
pub enum Answer {
    Started,
    Granted,
    Refused(Refusal),
    // A line was refused.
    Unheard(Unheard),
}

// How much of the line is used up.
// Stays: an Option would be taken apart here at once, with 0 for none.
fn used_of(company: Company) -> usize {
    match company {
        Company::Used(used) => used,
        Company::Alone | Company::Block(_) => 0,
    }
}

impl fmt::Display for Answer {
    fn fmt<W: fmt::Write>(&self, f: &mut fmt::Formatter<W>) -> fmt::Result {
        match *self {
            Answer::Started => write!(f, "started"),
            Answer::Granted => write!(f, "granted"),
            Answer::Refused(refusal) => write!(f, "{}", Refused(refusal)),
            Answer::Unheard(Unheard { refusal, company }) => {
                write!(f, "{}, used {}", Refused(refusal), used_of(company))
            }
        }
    }
}

// A line was heard: how much of it is used up, and the reply at the start of the memory, if there is one.
pub fn tell_heard(rt: &HostRuntime, heard: Heard, memory: &[u8]) -> io::Result<()> {
    let used = heard.used;
    let length = heard.reply.min(memory.len());
    if length == 0 {
        return println!(rt; "granted, used {used}, reply 0");
    }
    let hex = Hex {
        bytes: &memory[..length],
    };
    println!(rt; "granted, used {used}, reply {length}:{hex}")
}
