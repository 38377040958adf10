// The calls of a converter, each with its answer printed.
use crate::bench::Bench;
use crate::chosen::Chosen;
use crate::telling::{Answer, tell_heard};
use converter::Converter;
use converter::noting::Note;
use orders::Call;
use refusal::Refusal;
use station::frame_for;
use std::io;
use wording::Hex;

// A converter that is started, the memories that are lent to it, and where its answers are printed.
#[derive(Drop)]
pub struct Desk<'a> {
    pub rt: &'a HostRuntime,
    pub converter: &'a mut Converter<Chosen>,
    pub bench: &'a mut Bench,
}

fn tell(rt: &HostRuntime, done: Result<(), Refusal>) -> io::Result<()> {
    let answer = done.map_or_else(Answer::Refused, |()| Answer::Granted);
    println!(rt; "{answer}")
}

impl Desk<'_> {
    fn hear(self, line: &[u8]) -> io::Result<()> {
        let Desk {
            rt,
            converter,
            bench,
        } = self;
        let result = converter.hear(
            line,
            bench.reply.as_mut_slice(),
            bench.events.lent(),
            bench.gaps.lent(),
        );
        match result {
            Ok(heard) => tell_heard(rt, heard, bench.reply.as_slice()),
            Err(unheard) => println!(rt; "{}", Answer::Unheard(unheard)),
        }
    }

    // Writes a request, tells it, and has it heard alone in a line.
    fn send(self, frame: [u8; 18]) -> io::Result<()> {
        let hex = Hex { bytes: &frame };
        println!(self.rt; "frame{hex}")?;
        self.hear(&frame)
    }

    fn note(self, note: Note) -> io::Result<()> {
        let Desk {
            rt,
            converter,
            bench,
        } = self;
        let done = converter.note(note, bench.events.lent_mut(), bench.gaps.lent_mut());
        tell(rt, done)
    }

    // Does what is asked of the converter.
    pub fn act(self, call: &Call) -> anyhow::Result<()> {
        match call {
            Call::Hear { line } => self.hear(line)?,
            Call::Send {
                address,
                command,
                parameters,
            } => self.send(frame_for(*address, *command, parameters))?,
            Call::Advance { ticks } => tell(self.rt, self.converter.advance(*ticks))?,
            Call::Measure { readings } => tell(self.rt, self.converter.measure(readings))?,
            Call::NoteEvent(report) => self.note(Note::Event(*report))?,
            Call::NoteGap(gap) => self.note(Note::Gap(*gap))?,
            Call::Show(shown) => self.show(*shown)?,
        }
        Ok(())
    }
}
