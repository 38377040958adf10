// A log of power gaps that goes round.
use records::PowerGap;
use refusal::Refusal;
use ring_log::Position;
use ring_log::reading::record_at;
use ring_log::ring::note_gap;
use std::io;

// A log, and the memory for its records.
#[derive(Drop)]
struct GapLog {
    position: Position,
    memory: [PowerGap; 3],
}

impl GapLog {
    fn of_volume(volume: usize) -> GapLog {
        GapLog {
            position: Position::fresh(volume),
            memory: [PowerGap::default(); 3],
        }
    }

    fn note(&mut self, off: u32, on: u32) -> Result<(), Refusal> {
        note_gap(&mut self.position, &mut self.memory, off, on)
    }

    // Prints the records that it holds, oldest first.
    fn tell_held(&self, rt: &HostRuntime) -> io::Result<()> {
        // Stays: a log gives a record by its index, and the line shows that index.
        for index in 0..self.position.held() {
            if let Ok(PowerGap { off, on }) = record_at(&self.position, &self.memory, index) {
                println!(rt; "    {index}: off at {off}, on at {on}")?;
            }
        }
        Ok(())
    }

    fn tell_state(&self, rt: &HostRuntime) -> io::Result<()> {
        let held = self.position.held();
        let volume = self.position.volume();
        let count = self.position.record_count();
        let most = self.position.record_max();
        println!(rt; "  holds {held} of {volume}, RecordCount {count}, RecordMax {most:#06x}")
    }
}

fn tell_answer(rt: &HostRuntime, answer: Result<(), Refusal>) -> io::Result<()> {
    // Stays: the line shows the refusal's number alone, and what prints refusals adds words to it.
    match answer {
        Ok(()) => println!(rt; "gap: granted"),
        Err(refusal) => println!(rt; "gap: refused {}", refusal.number()),
    }
}

// Five gaps, one an hour, and what the log holds after each.
fn tell_hours(rt: &HostRuntime, log: &mut GapLog) -> io::Result<()> {
    // Stays: the hour is what is noted, and not a place in a list.
    for hour in 1..6 {
        let off = hour * 3600;
        tell_answer(rt, log.note(off, off + 60))?;
        log.tell_state(rt)?;
        log.tell_held(rt)?;
    }
    Ok(())
}

// Five gaps into a log of volume 3, and one into a log of volume 0.
pub fn tell_all(rt: &HostRuntime) -> io::Result<()> {
    println!(rt; "a log of volume 3")?;
    let mut log = GapLog::of_volume(3);
    tell_hours(rt, &mut log)?;
    log.position.clear([0, 1, 1, 6, 0, 0, 0, 6, 0]);
    println!(rt; "cleared")?;
    log.tell_state(rt)?;
    println!(rt; "a log of volume 0")?;
    tell_answer(rt, GapLog::of_volume(0).note(1, 2))
}
