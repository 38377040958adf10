// Whole runs of a converter against answers that were worked out elsewhere.
#![tactic(auto)]

#[cfg(test)]
mod tests {
    use converter::Heard;
    use converter::noting::Note;
    use records::{Event, PowerGap};
    use refusal::Company;
    use reply_frame::read_reply;
    use runs::running::live;
    use runs::{Call, Lent, Slot};
    use station::frame_for;
    use std::alloc::{AllocError, Global};
    use std::process::Abort;
    use std::test::Fail;
    use store::Filled;
    use store::flat::Flat;

    // What comes of a call: what hearing grants, or a refusal's number and what comes with it.
    // Stays: refusals are wanted by the numbers that they are told by, as they were worked out elsewhere.
    type Answer = Result<Option<Heard>, (u8, Company)>;

    // One request, and what is answered to it.
    // Stays: on the line any byte is a command, also one that no converter knows.
    #[derive(Clone, Copy)]
    struct Case {
        address: u16,
        command: u8,
        parameters: [u8; 9],
        answer: Answer,
    }

    const DONE: Answer = Ok(Some(Heard {
        used: 18,
        reply: 18,
    }));

    // A line of which so many bytes are used up, and a reply of so many.
    fn granted(used: usize, reply: usize) -> Answer {
        Ok(Some(Heard { used, reply }))
    }

    // A refusal of a line that is one frame.
    fn refused(number: u8) -> Answer {
        Err((number, Company::Used(18)))
    }

    const LENT: Lent = Lent { events: 1, gaps: 1 };

    fn answer_in(slot: &Slot) -> Answer {
        slot.result
            .map_err(|unheard| (unheard.refusal.number(), unheard.company))
    }

    // Makes the calls on a converter with address 0x0001 and the passwords 1234 and 5678.
    fn run(calls: &[Call<'_>], slots: &mut [Slot]) {
        let mut cells = [0u8; 256];
        cells[0..11].copy_from_slice(b"\x01\x00\x0012345678");
        let _ = live(
            Flat::filled(cells),
            1,
            1,
            calls,
            slots,
            &mut [Event::default()],
            &mut [PowerGap::default()],
        );
    }

    fn hear(line: &[u8]) -> Call<'_> {
        Call::Hear {
            line,
            room: 295,
            lent: LENT,
        }
    }

    impl Case {
        fn frame(&self) -> [u8; 18] {
            frame_for(self.address, self.command, &self.parameters)
        }
    }

    fn frames_of(heap: Global, cases: &[Case]) -> Result<Vec<[u8; 18]>, AllocError> {
        cases.iter().map(|case| case.frame()).collect(heap)
    }

    fn calls_of(heap: Global, frames: &[[u8; 18]]) -> Result<Vec<Call<'_>>, AllocError> {
        frames.iter().map(|frame| hear(frame)).collect(heap)
    }

    // The requests of a table are answered as it says, one after another.
    fn answered(rt: &impl Abort, heap: Global, cases: &[Case]) -> Result<(), Fail> {
        let frames = frames_of(heap, cases)?;
        let calls = calls_of(heap, frames.as_slice())?;
        let mut slots = vec![in heap; Slot::blank(); cases.len()]?;
        run(calls.as_slice(), slots.as_mut_slice());
        for (slot, case) in slots.iter().zip(cases.iter()) {
            assert_eq!(rt; answer_in(slot), case.answer);
        }
        Ok(())
    }

    // A request for the converter's own address.
    fn own(command: u8, parameters: [u8; 9], answer: Answer) -> Case {
        Case {
            address: 0x0001,
            command,
            parameters,
            answer,
        }
    }

    // 2024 has a 29 February, 2023 has none.
    #[test]
    fn leap_days(rt: HostRuntime) -> Result<(), Fail> {
        answered(
            &rt,
            rt.alloc(),
            &[
                own(0x17, [24, 2, 29, 0, 0, 0, 0, 0, 0], DONE),
                own(0x17, [23, 2, 29, 0, 0, 0, 0, 0, 0], refused(8)),
            ],
        )
    }

    // Broadcast is granted and not replied to.
    #[test]
    fn broadcast(rt: HostRuntime) -> Result<(), Fail> {
        let synchronise = Case {
            address: 0x00ff,
            command: 0x1b,
            parameters: [0; 9],
            answer: granted(18, 0),
        };
        answered(&rt, rt.alloc(), &[synchronise])
    }

    // Setpoints are numbered 0 to 15, and a refused write ends preparation.
    #[test]
    fn setpoints(rt: HostRuntime) -> Result<(), Fail> {
        let prepare = [0xa5, 0, 0, 0, 0, 0, 0, 0, 0];
        let permit = *b"1234\0\0\0\0\0";
        let last = [15, 2, 1, 0, 0, 0, 0, 0, 0];
        let past = [16, 2, 1, 0, 0, 0, 0, 0, 0];
        answered(
            &rt,
            rt.alloc(),
            &[
                own(0x01, prepare, DONE),
                own(0x06, permit, DONE),
                own(0x12, last, DONE),
                own(0x01, prepare, DONE),
                own(0x06, permit, DONE),
                own(0x12, past, refused(8)),
                own(0x12, last, refused(6)),
            ],
        )
    }

    // What a fresh converter answers to a line.
    fn answer_to(line: &[u8]) -> Answer {
        let mut slots = [Slot::blank()];
        run(&[hear(line)], &mut slots);
        let [heard] = slots;
        answer_in(&heard)
    }

    // Five bytes of noise before a request, a line without one, a line too short for one.
    #[test]
    fn used_counts(rt: HostRuntime) {
        let mut line = [0xaau8; 23];
        line[5..23].copy_from_slice(&frame_for(0x0001, 0x03, &[0; 9]));
        assert_eq!(rt; answer_to(&line), granted(23, 18));
        assert_eq!(rt; answer_to(&[0; 20]), Err((2, Company::Used(3))));
        assert_eq!(rt; answer_to(&line[5..22]), Err((2, Company::Used(0))));
    }

    // What comes of a line after readings are taken.
    fn slot_after<'a>(readings: &'a [u8], line: &'a [u8]) -> Slot {
        let mut slots = [Slot::blank(); 2];
        run(&[Call::Measure { readings }, hear(line)], &mut slots);
        let [_, heard] = slots;
        heard
    }

    // Mask 0x000440 chooses 24 bytes from place 48 on and 5 from place 128 on: 29 data bytes, 41 on the line.
    #[test]
    fn readings_by_mask(rt: HostRuntime) -> Result<(), Fail> {
        let mut readings = [0x11u8; 175];
        readings[48..72].copy_from_slice(&[0x66; 24]);
        readings[128..133].copy_from_slice(&[0xaa; 5]);
        let frame = frame_for(0x0001, 0x07, &[0x40, 4, 0, 0, 0, 0, 0, 0, 0]);
        let slot = slot_after(&readings, &frame);
        assert_eq!(rt; answer_in(&slot), granted(18, 41));
        let mut data = [0u8; 29];
        let reply = read_reply(&slot.reply[0..41], &mut data)?;
        assert_eq!(rt; reply.length, 29);
        assert_eq!(rt; &data[0..24], [0x66; 24].as_slice());
        assert_eq!(rt; &data[24..29], [0xaa; 5].as_slice());
        Ok(())
    }

    // A power gap that was noted is what the log of power gaps gives: eight bytes, low byte first, and their CSum,
    // 255 - 25.
    #[test]
    fn noted_gap(rt: HostRuntime) -> Result<(), Fail> {
        let note = Note::Gap(PowerGap {
            off: 0x0102_0304,
            on: 0x0102_0408,
        });
        let frame = frame_for(0x0001, 0x1f, &[0x0e, 0, 0, 1, 0, 0, 0, 0, 0]);
        let mut slots = [Slot::blank(); 2];
        run(&[Call::Note { note, lent: LENT }, hear(&frame)], &mut slots);
        let [noted, heard] = slots;
        assert_eq!(rt; answer_in(&noted), Ok(None));
        assert_eq!(rt; answer_in(&heard), granted(18, 18));
        let mut data = [0u8; 10];
        read_reply(&heard.reply[0..18], &mut data)?;
        assert_eq!(rt; data, [4, 3, 2, 1, 8, 4, 2, 1, 230, 0]);
        Ok(())
    }
}
