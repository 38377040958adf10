// What stands in a converter, printed.
use crate::calls::Desk;
use access::Access;
use calendar::{Clock, DateTime};
use orders::Shown;
use records::Kind;
use request::rows::PasswordKind;
use ring_log::Position;
use ring_log::reading::record_at;
use std::io;
use wording::Hex;

// Stays: a type round the enum of another crate would hold this match and be made once.
fn permitted_in_words(permitted: Option<PasswordKind>) -> &'static str {
    match permitted {
        None => "no",
        Some(PasswordKind::Setpoint) => "0",
        Some(PasswordKind::Counter) => "1",
    }
}

impl Desk<'_> {
    // Sixteen cells from the first on.
    fn row_of(&self, first: u8) -> [u8; 16] {
        let mut row = [0u8; 16];
        for (cell, byte) in (first..=u8::MAX).zip(row.iter_mut()) {
            *byte = self.converter.cell(cell);
        }
        row
    }

    fn show_cells(&self) -> io::Result<()> {
        for first in (0..=u8::MAX).step_by(16) {
            let bytes = self.row_of(first);
            let hex = Hex { bytes: &bytes };
            println!(self.rt; "{first:02x}:{hex}")?;
        }
        Ok(())
    }

    fn show_clock(&self, clock: Clock) -> io::Result<()> {
        let bytes = clock.date();
        let date = DateTime::in_bytes(&bytes);
        let [.., ticks, weekday, season] = bytes;
        println!(self.rt; "clock {date} {ticks}/256 weekday {weekday} season {season}")
    }

    fn show_access(&self, access: Access) -> io::Result<()> {
        // Stays: a bool prints as true or false, and a type that prints these two words would be made here alone.
        let prepared = if access.prepared { "yes" } else { "no" };
        let permitted = permitted_in_words(access.permitted);
        println!(self.rt; "prepared {prepared}, permitted {permitted}")
    }

    // The records that a log holds, oldest first.
    fn show_log<K: Kind>(
        &self,
        number: u8,
        position: &Position,
        memory: &[K],
    ) -> anyhow::Result<()> {
        let held = position.held();
        let volume = position.volume();
        println!(self.rt; "log {number:#04x} holds {held} of {volume}")?;
        let mut bytes = vec![in self.rt.alloc(); 0u8; K::width()]?;
        // Stays: the index is what the log is asked for and what is printed. Each index is of a held record, so the loop
        // ends early only over a memory shorter than the volume: none such comes here, but no type says so.
        for index in 0..held {
            let Ok(record) = record_at(position, memory, index) else {
                break;
            };
            record.put(bytes.as_mut_slice());
            let hex = Hex { bytes: &bytes };
            println!(self.rt; "{index}:{hex}")?;
        }
        Ok(())
    }

    pub fn show(&self, shown: Shown) -> anyhow::Result<()> {
        let standing = self.converter.stands();
        match shown {
            Shown::Cells => self.show_cells()?,
            Shown::Clock => self.show_clock(standing.clock)?,
            Shown::Access => self.show_access(standing.access)?,
            // Stays: the numbers are printed only, each once beside the log that it names; they choose nothing.
            Shown::Logs => {
                self.show_log(0x04, &standing.events, &self.bench.events.all)?;
                self.show_log(0x0e, &standing.gaps, &self.bench.gaps.all)?;
            }
            Shown::Reply => {
                let hex = Hex {
                    bytes: &self.bench.reply,
                };
                println!(self.rt; "reply memory{hex}")?;
            }
        }
        Ok(())
    }
}
