// Records and logs on examples whose values were computed elsewhere.
#![tactic(auto)]

ghost use Rattle.std.specs.Prelude.{◌≡◌, ◌<◌, length};

#[cfg(test)]
mod tests {
    use calendar::Clock;
    use records::{Event, Kind, PowerGap, Report};
    use refusal::Refusal;
    use ring_log::Position;
    use ring_log::reading::{copy_out, record_at};
    use ring_log::ring::{note_event, note_gap};
    use std::fmt::Debug;
    use std::process::Abort;
    use std::test::Fail;

    // The record has these bytes, nothing is written behind them, and they read back as the record.
    fn record_is<K: Kind + PartialEq + Debug + Copy>(
        rt: &impl Abort,
        record: K,
        bytes: &[u8],
        out: &mut [u8],
    )
        requires size { length bytes.now ≡ K.size }
        requires room { K.size < length out.old }
    {
        record.put(out);
        assert_eq!(rt; &out[..bytes.len()], bytes);
        assert_eq!(rt; out[bytes.len()], 0xAA);
        assert_eq!(rt; K::of(bytes), Some(record));
    }

    #[test]
    fn bytes_of_records(rt: HostRuntime) {
        record_is(
            &rt,
            PowerGap { off: 1, on: 2 },
            &[1, 0, 0, 0, 2, 0, 0, 0, 0xFC],
            &mut [0xAA; 10],
        );
        record_is(
            &rt,
            PowerGap { off: 0, on: 0 },
            &[0, 0, 0, 0, 0, 0, 0, 0, 0xFF],
            &mut [0xAA; 10],
        );
        record_is(
            &rt,
            PowerGap {
                off: 0x0102_0304,
                on: 0xA0B0_C0D0,
            },
            &[4, 3, 2, 1, 0xD0, 0xC0, 0xB0, 0xA0, 0x15],
            &mut [0xAA; 10],
        );
        record_is(
            &rt,
            Event {
                reason: 0x83,
                ..Event::default()
            },
            &[0x83, 0, 0, 0, 0, 0, 0, 0, 0, 0, 0, 0, 0x7C],
            &mut [0xAA; 14],
        );
        record_is(
            &rt,
            Event {
                reason: 1,
                seconds: 0x1234_5678,
                ticks: 0x9A,
                tu: 0xBC,
                tc: 0xDE,
                value: 0x1234,
                period: 0xFEDC,
            },
            &[
                0x01, 0x78, 0x56, 0x34, 0x12, 0x9A, 0xBC, 0xDE, 0x34, 0x12, 0xDC, 0xFE, 0x96,
            ],
            &mut [0xAA; 14],
        );
        assert_eq!(rt; PowerGap::of(&[1, 0, 0, 0, 2, 0, 0, 0, 0xFD]), None);
        assert_eq!(rt; PowerGap::of(&[1, 0, 0, 0, 2, 0, 0, 0]), None);
    }

    // What a log of volume 3 tells after some records, and which is its oldest.
    fn tells(
        rt: &impl Abort,
        position: &Position,
        memory: &[PowerGap],
        told: (u16, u16, u16),
        oldest: u32,
    ) {
        assert_eq!(rt; position.record_count(), told.0);
        assert_eq!(rt; position.record_max(), told.1);
        assert_eq!(rt; position.held(), told.2);
        match record_at(position, memory, 0) {
            Ok(gap) => assert_eq!(rt; gap.off, oldest),
            Err(refusal) => assert!(rt; refusal == Refusal::LogIndex && oldest == 0),
        }
    }

    // What the log tells after 0 to 10 records: RecordCount, RecordMax, the number held, the oldest.
    fn goes_round(
        rt: &impl Abort,
        position: &mut Position,
        memory: &mut [PowerGap],
    ) -> Result<(), Fail> {
        let table = [
            (0, 3, 0, 0),
            (1, 3, 1, 1),
            (2, 3, 2, 1),
            (3, 3, 3, 1),
            (1, 0x8003, 3, 2),
            (2, 0x8003, 3, 3),
            (3, 0x8003, 3, 4),
            (1, 0x8003, 3, 5),
            (2, 0x8003, 3, 6),
            (3, 0x8003, 3, 7),
            (1, 0x8003, 3, 8),
        ];
        for (n, (count, most, held, oldest)) in table.into_iter().enumerate() {
            tells(rt, position, memory, (count, most, held), oldest);
            note_gap(position, memory, n as u32 + 1, 0)?;
        }
        Ok(())
    }

    #[test]
    fn three_records(rt: HostRuntime) -> Result<(), Fail> {
        let mut memory = [PowerGap::default(); 4];
        let mut position = Position::fresh(3);
        goes_round(&rt, &mut position, &mut memory)?;
        position.clear([24, 2, 29, 12, 0, 0, 0, 4, 0]);
        tells(&rt, &position, &memory, (0, 3, 0), 0);
        assert_eq!(rt; position.cleared(), [24, 2, 29, 12, 0, 0, 0, 4, 0]);
        Ok(())
    }

    #[test]
    fn refusals(rt: HostRuntime) {
        let mut memory = [Event::default(); 2];
        let good = Report {
            reason: 0x10,
            tu: 0,
            tc: 0,
            value: 0,
            period: 0,
        };
        let bad = Report {
            reason: 0x11,
            ..good
        };
        let mut none = Position::fresh(0);
        let mut three = Position::fresh(3);
        assert_eq!(rt;
            note_event(&mut three, &mut memory, &bad, &Clock::start()),
            Err(Refusal::LittleMemory)
        );
        assert_eq!(rt;
            note_event(&mut none, &mut memory, &bad, &Clock::start()),
            Err(Refusal::EventReason)
        );
        assert_eq!(rt;
            note_event(&mut none, &mut memory, &good, &Clock::start()),
            Err(Refusal::NoVolume)
        );
        assert_eq!(rt;
            note_gap(&mut none, &mut [PowerGap::default(); 1], 0, 0),
            Err(Refusal::NoVolume)
        );
        assert_eq!(rt; none.record_max(), 0);
        assert_eq!(rt; Position::fresh(40000).record_max(), 32767);
    }

    // Forty records in each log.
    fn note_gaps(position: &mut Position, memory: &mut [PowerGap]) -> Result<(), Fail> {
        // Stays: the number is the record that is noted.
        for n in 1..41u32 {
            note_gap(position, memory, n, n + 1000)?;
        }
        Ok(())
    }

    fn note_events(position: &mut Position, memory: &mut [Event]) -> Result<(), Fail> {
        let mut clock = Clock::start();
        for n in 1..41u16 {
            clock.advance(256)?;
            let report = Report {
                reason: 0x80,
                tu: 0,
                tc: 0,
                value: n,
                period: 0,
            };
            note_event(position, memory, &report, &clock)?;
        }
        Ok(())
    }

    #[test]
    fn copies_gaps(rt: HostRuntime) -> Result<(), Fail> {
        let mut memory = [PowerGap::default(); 30];
        let mut position = Position::fresh(30);
        note_gaps(&mut position, &mut memory)?;
        assert!(rt; position.volume() <= 30);
        let mut out = [0u8; 251];
        assert_eq!(rt; copy_out(&position, &memory, 2, 100, &mut out), Ok(243));
        assert_eq!(rt;
            &out[0..9],
            [0x0D, 0, 0, 0, 0xF5, 0x03, 0, 0, 0xFA].as_slice()
        );
        assert_eq!(rt;
            &out[234..244],
            [0x27, 0, 0, 0, 0x0F, 0x04, 0, 0, 0xC5, 0].as_slice()
        );
        assert_eq!(rt; copy_out(&position, &memory, 28, 5, &mut out), Ok(18));
        assert_eq!(rt;
            &out[9..18],
            [0x28, 0, 0, 0, 0x10, 0x04, 0, 0, 0xC3].as_slice()
        );
        assert_eq!(rt;
            copy_out(&position, &memory, 30, 5, &mut out),
            Err(Refusal::LogIndex)
        );
        Ok(())
    }

    #[test]
    fn copies_events(rt: HostRuntime) -> Result<(), Fail> {
        let mut memory = [Event::default(); 30];
        let mut position = Position::fresh(30);
        note_events(&mut position, &mut memory)?;
        assert!(rt; position.volume() <= 30);
        let mut out = [0u8; 251];
        assert_eq!(rt; copy_out(&position, &memory, 2, 100, &mut out), Ok(247));
        assert_eq!(rt;
            &out[0..13],
            [0x80, 0x0D, 0, 0, 0, 0, 0, 0, 0x0D, 0, 0, 0, 0x65].as_slice()
        );
        assert_eq!(rt;
            &out[234..247],
            [0x80, 0x1F, 0, 0, 0, 0, 0, 0, 0x1F, 0, 0, 0, 0x41].as_slice()
        );
        Ok(())
    }
}
