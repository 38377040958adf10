// Access over a list of requests: what is answered to each, and what stands afterwards.
#![tactic(auto)]

#[cfg(test)]
mod tests {
    use access::{Access, Destination, decide, destination_of};
    use refusal::Refusal;
    use request::Request;
    use request::checked::{Checked, Row};
    use request::rows::PasswordKind;
    use std::process::Abort;
    use std::test::Fail;
    use store::flat::Flat;
    use store::{Filled, Store};

    // One request: its command and parameters, the number it is refused with (0: granted), and what stands
    // after it.
    struct Case {
        // Stays: commands and numbers of refusals are the bytes that were worked out by hand.
        command: u8,
        parameters: [u8; 9],
        number: u8,
        prepared: bool,
        permitted: Option<PasswordKind>,
    }

    const CASES: [Case; 28] = [
        // not prepared
        Case {
            command: 0x12,
            parameters: [0, 1, 0, 0, 0, 0, 0, 0, 0],
            number: 6,
            prepared: false,
            permitted: None,
        },
        Case {
            command: 0x01,
            parameters: [0xa5, 0, 0, 0, 0, 0, 0, 0, 0],
            number: 0,
            prepared: true,
            permitted: None,
        },
        // prepared, not permitted
        Case {
            command: 0x12,
            parameters: [0, 1, 0, 0, 0, 0, 0, 0, 0],
            number: 7,
            prepared: false,
            permitted: None,
        },
        Case {
            command: 0x06,
            parameters: [1, 2, 3, 4, 0, 0, 0, 0, 0],
            number: 0,
            prepared: false,
            permitted: Some(PasswordKind::Setpoint),
        },
        // neither ends the other
        Case {
            command: 0x01,
            parameters: [0xa5, 0, 0, 0, 0, 0, 0, 0, 0],
            number: 0,
            prepared: true,
            permitted: Some(PasswordKind::Setpoint),
        },
        // 16 setpoints, numbered from 0
        Case {
            command: 0x12,
            parameters: [0x10, 1, 0, 0, 0, 0, 0, 0, 0],
            number: 8,
            prepared: false,
            permitted: None,
        },
        Case {
            command: 0x01,
            parameters: [0xa5, 0, 0, 0, 0, 0, 0, 0, 0],
            number: 0,
            prepared: true,
            permitted: None,
        },
        // a wrong password ends preparation
        Case {
            command: 0x06,
            parameters: [1, 2, 3, 5, 0, 0, 0, 0, 0],
            number: 10,
            prepared: false,
            permitted: None,
        },
        // parameters before passwords
        Case {
            command: 0x06,
            parameters: [9, 9, 9, 9, 2, 0, 0, 0, 0],
            number: 8,
            prepared: false,
            permitted: None,
        },
        Case {
            command: 0x06,
            parameters: [5, 6, 7, 8, 1, 0, 0, 0, 0],
            number: 0,
            prepared: false,
            permitted: Some(PasswordKind::Counter),
        },
        // another kind in its place
        Case {
            command: 0x06,
            parameters: [1, 2, 3, 4, 0, 0, 0, 0, 0],
            number: 0,
            prepared: false,
            permitted: Some(PasswordKind::Setpoint),
        },
        Case {
            command: 0x06,
            parameters: [5, 6, 7, 8, 1, 0, 0, 0, 0],
            number: 0,
            prepared: false,
            permitted: Some(PasswordKind::Counter),
        },
        Case {
            command: 0x01,
            parameters: [0xa5, 0, 0, 0, 0, 0, 0, 0, 0],
            number: 0,
            prepared: true,
            permitted: Some(PasswordKind::Counter),
        },
        // counters do not write setpoints
        Case {
            command: 0x12,
            parameters: [0, 1, 0, 0, 0, 0, 0, 0, 0],
            number: 7,
            prepared: false,
            permitted: None,
        },
        Case {
            command: 0x01,
            parameters: [0xa5, 0, 0, 0, 0, 0, 0, 0, 0],
            number: 0,
            prepared: true,
            permitted: None,
        },
        Case {
            command: 0x06,
            parameters: [1, 2, 3, 4, 0, 0, 0, 0, 0],
            number: 0,
            prepared: true,
            permitted: Some(PasswordKind::Setpoint),
        },
        // granted, and both end
        Case {
            command: 0x12,
            parameters: [0x0f, 0x80, 1, 0, 0, 0, 0, 0, 0],
            number: 0,
            prepared: false,
            permitted: None,
        },
        // three records are held
        Case {
            command: 0x1f,
            parameters: [4, 3, 0, 1, 0, 0, 0, 0, 0],
            number: 9,
            prepared: false,
            permitted: None,
        },
        Case {
            command: 0x1f,
            parameters: [4, 2, 0, 1, 0, 0, 0, 0, 0],
            number: 0,
            prepared: false,
            permitted: None,
        },
        // another key
        Case {
            command: 0x01,
            parameters: [0xa4, 0, 0, 0, 0, 0, 0, 0, 0],
            number: 8,
            prepared: false,
            permitted: None,
        },
        Case {
            command: 0x01,
            parameters: [0xa5, 0, 0, 0, 0, 0, 0, 0, 0],
            number: 0,
            prepared: true,
            permitted: None,
        },
        // the counter password
        Case {
            command: 0x1d,
            parameters: [4, 5, 6, 7, 9, 0, 0, 0, 0],
            number: 10,
            prepared: false,
            permitted: None,
        },
        Case {
            command: 0x01,
            parameters: [0xa5, 0, 0, 0, 0, 0, 0, 0, 0],
            number: 0,
            prepared: true,
            permitted: None,
        },
        // no such log
        Case {
            command: 0x1d,
            parameters: [5, 5, 6, 7, 8, 0, 0, 0, 0],
            number: 8,
            prepared: false,
            permitted: None,
        },
        Case {
            command: 0x01,
            parameters: [0xa5, 0, 0, 0, 0, 0, 0, 0, 0],
            number: 0,
            prepared: true,
            permitted: None,
        },
        // broadcast is no address of its own
        Case {
            command: 0x02,
            parameters: [0x12, 1, 0xff, 0, 0, 0, 0, 0, 0],
            number: 8,
            prepared: false,
            permitted: None,
        },
        Case {
            command: 0x01,
            parameters: [0xa5, 0, 0, 0, 0, 0, 0, 0, 0],
            number: 0,
            prepared: true,
            permitted: None,
        },
        Case {
            command: 0x02,
            parameters: [0x12, 1, 0x34, 0, 0, 0, 0, 0, 0],
            number: 0,
            prepared: false,
            permitted: None,
        },
    ];

    // Address 0x0112, setpoint password 1 2 3 4, counter password 5 6 7 8.
    fn cells() -> [u8; 256] {
        let mut bytes = [0u8; 256];
        bytes[0..11].copy_from_slice(&[0x12, 0x01, 0, 1, 2, 3, 4, 5, 6, 7, 8]);
        bytes
    }

    fn number(answer: Result<Checked, Refusal>) -> u8 {
        answer.map_or_else(|refusal| refusal.number(), |_| 0)
    }

    // One request at a converter whose logs hold three records.
    fn serve(rt: &impl Abort, access: &mut Access, store: &Flat, case: &Case) -> Result<(), Fail> {
        let request = Request::of(case.command, &case.parameters).ok_or("unknown command")?;
        assert_eq!(rt;
            number(decide(access, &Row { request }, store, 3)),
            case.number
        );
        assert_eq!(rt;
            *access,
            Access {
                prepared: case.prepared,
                permitted: case.permitted,
            }
        );
        Ok(())
    }

    #[test]
    fn served_in_turn(rt: HostRuntime) -> Result<(), Fail> {
        let store = Flat::filled(cells());
        let mut access = Access::closed();
        for case in &CASES {
            serve(&rt, &mut access, &store, case)?;
        }
        Ok(())
    }

    // A granted write, a cell that it sets, and the byte that it gives it.
    struct Write {
        command: u8,
        parameters: [u8; 9],
        cell: u8,
        byte: u8,
    }

    const WRITES: [Write; 8] = [
        Write {
            command: 0x15,
            parameters: [0x13, 0, 0, 0, 0, 0, 0, 0, 0],
            cell: 2,
            byte: 0x13,
        },
        Write {
            command: 0x19,
            parameters: [3, 5, 2, 10, 5, 24, 0, 0, 0],
            cell: 16,
            byte: 24,
        },
        Write {
            command: 0x12,
            parameters: [15, 128, 1, 11, 12, 13, 14, 15, 16],
            cell: 160,
            byte: 16,
        },
        Write {
            command: 0x2e,
            parameters: [3, 21, 22, 23, 24, 25, 26, 27, 28],
            cell: 185,
            byte: 21,
        },
        Write {
            command: 0x2b,
            parameters: [0x11, 31, 32, 0, 0, 0, 33, 0, 0],
            cell: 19,
            byte: 33,
        },
        // no debounce time given: 6
        Write {
            command: 0x2b,
            parameters: [0x10, 41, 42, 0, 0, 0, 43, 0, 0],
            cell: 20,
            byte: 6,
        },
        Write {
            command: 0x04,
            parameters: [2, 5, 6, 7, 8, 51, 52, 53, 54],
            cell: 10,
            byte: 54,
        },
        Write {
            command: 0x02,
            parameters: [0x12, 0x01, 0x34, 0x02, 0, 0, 0, 0, 0],
            cell: 1,
            byte: 2,
        },
    ];

    fn write_one(rt: &impl Abort, store: &mut Flat, case: &Write) -> Result<(), Fail> {
        let request = Request::of(case.command, &case.parameters).ok_or("unknown command")?;
        let mut access = Access {
            prepared: true,
            permitted: Some(PasswordKind::Setpoint),
        };
        let checked = decide(&mut access, &Row { request }, store, 0)?;
        checked.row.write_to(store);
        assert_eq!(rt; store.read(case.cell), case.byte);
        Ok(())
    }

    #[test]
    fn writes_reach_their_cells(rt: HostRuntime) -> Result<(), Fail> {
        let mut store = Flat::filled(cells());
        for case in &WRITES {
            write_one(&rt, &mut store, case)?;
        }
        assert_eq!(rt; destination_of(&store, 0x0234), Destination::Own);
        assert_eq!(rt; destination_of(&store, 0x0112), Destination::Foreign);
        assert_eq!(rt; destination_of(&store, 0x00ff), Destination::Broadcast);
        Ok(())
    }
}
