// Replies of many lengths, sound and damaged.
use refusal::Refusal;
use reply_frame::{Reply, read_reply, write_reply};
use std::process::Abort;
use std::test::Fail;

struct Case {
    // how many data bytes, of those that `payload` gives
    count: usize,
    length: usize,
    // the first block's check word, and the last block's
    first: [u8; 2],
    last: [u8; 2],
    // the sum of all bytes of the frame
    sum: u32,
}

const CASES: [Case; 8] = [
    Case {
        count: 0,
        length: 18,
        first: [0x73, 0x7a],
        last: [0x73, 0x7a],
        sum: 375,
    },
    Case {
        count: 9,
        length: 18,
        first: [0xb5, 0xa2],
        last: [0xb5, 0xa2],
        sum: 760,
    },
    Case {
        count: 10,
        length: 18,
        first: [0xf2, 0x5e],
        last: [0xf2, 0x5e],
        sum: 819,
    },
    Case {
        count: 11,
        length: 21,
        first: [0x76, 0xcf],
        last: [0x29, 0xe1],
        sum: 1148,
    },
    Case {
        count: 24,
        length: 34,
        first: [0x59, 0x44],
        last: [0x8e, 0x84],
        sum: 2587,
    },
    Case {
        count: 25,
        length: 37,
        first: [0xdd, 0xd5],
        last: [0x0a, 0xea],
        sum: 3280,
    },
    Case {
        count: 100,
        length: 122,
        first: [0xaa, 0xf6],
        last: [0x80, 0xf1],
        sum: 14483,
    },
    Case {
        count: 251,
        length: 295,
        first: [0xe2, 0x8f],
        last: [0x75, 0xf8],
        sum: 36329,
    },
];

const ADDRESS: u16 = 0x0112;

// 3, 10, 17, … modulo 256
fn payload() -> [u8; 252] {
    let mut bytes = [0u8; 252];
    for (byte, place) in bytes.iter_mut().zip(0u8..252) {
        *byte = place.wrapping_mul(7).wrapping_add(3);
    }
    bytes
}

fn sum(bytes: &[u8]) -> u32 {
    bytes
        .iter()
        .fold(0, |all: u32, byte| all.wrapping_add(u32::from(*byte)))
}

// The data of a reply as it is read: at least ten bytes, the missing ones 0, and behind them what was there.
fn read_back(rt: &impl Abort, frame: &[u8], count: usize, bytes: &[u8; 252]) {
    let mut memory = [0xddu8; 260];
    let length = count.max(10);
    assert_eq!(rt;
        read_reply(frame, &mut memory),
        Ok(Reply {
            address: ADDRESS,
            length,
        })
    );
    assert!(rt; count <= 252);
    let mut expected = [0xddu8; 260];
    expected[..length].fill(0);
    expected[..count].copy_from_slice(&bytes[..count]);
    assert_eq!(rt; memory, expected);
}

#[test]
fn written_and_read(rt: HostRuntime) -> Result<(), Fail> {
    let bytes = payload();
    for case in &CASES {
        let mut out = [0xeeu8; 300];
        let data = bytes.get(0..case.count).ok_or("count")?;
        assert_eq!(rt; write_reply(&mut out, ADDRESS, data), Ok(case.length));
        let frame = out.get(0..case.length).ok_or("length")?;
        assert_eq!(rt; sum(frame), case.sum);
        assert_eq!(rt; frame.get(16..18), Some(&case.first[0..2]));
        assert_eq!(rt;
            frame.get(case.length.saturating_sub(2)..),
            Some(&case.last[0..2])
        );
        assert_eq!(rt; out.get(case.length).copied(), Some(0xee));
        read_back(&rt, frame, case.count, &bytes);
    }
    Ok(())
}

#[test]
fn no_room(rt: HostRuntime) {
    let bytes = payload();
    let mut out = [0xeeu8; 300];
    assert_eq!(rt;
        write_reply(&mut out, ADDRESS, &bytes),
        Err(Refusal::NoRoom)
    );
    assert_eq!(rt;
        write_reply(&mut out[0..294], ADDRESS, &bytes[0..251]),
        Err(Refusal::NoRoom)
    );
    assert_eq!(rt; sum(&out), 300 * 0xee);
    assert_eq!(rt; write_reply(&mut out, ADDRESS, &bytes[0..25]), Ok(37));
    let mut memory = [0xddu8; 24];
    assert_eq!(rt; read_reply(&out[0..37], &mut memory), Err(Refusal::NoRoom));
    assert_eq!(rt; sum(&memory), 24 * 0xdd);
}

struct Damage {
    place: usize,
    refusal: Refusal,
}

// 25 data bytes make the blocks 2 to 17, 18 to 33 and 34 to 36.
const DAMAGES: [Damage; 8] = [
    Damage {
        place: 0,
        refusal: Refusal::NoReply,
    },
    Damage {
        place: 1,
        refusal: Refusal::NoReply,
    },
    Damage {
        place: 2,
        refusal: Refusal::NoReply,
    },
    Damage {
        place: 3,
        refusal: Refusal::NoReply,
    },
    Damage {
        place: 4,
        refusal: Refusal::CheckWord(0),
    },
    Damage {
        place: 17,
        refusal: Refusal::CheckWord(0),
    },
    Damage {
        place: 18,
        refusal: Refusal::CheckWord(1),
    },
    Damage {
        place: 36,
        refusal: Refusal::CheckWord(2),
    },
];

// One bit turned over in `frame`: what reading tells, and that it writes nothing.
fn read_damaged(rt: &impl Abort, frame: &[u8; 37], case: &Damage) {
    let mut copy = *frame;
    let mut memory = [0xddu8; 30];
    assert!(rt; case.place < 37);
    copy[case.place] ^= 0x20;
    assert_eq!(rt; read_reply(&copy, &mut memory), Err(case.refusal));
    assert_eq!(rt; sum(&memory), 30 * 0xdd);
}

#[test]
fn damaged(rt: HostRuntime) {
    let bytes = payload();
    let mut out = [0u8; 37];
    assert_eq!(rt; write_reply(&mut out, ADDRESS, &bytes[0..25]), Ok(37));
    for case in &DAMAGES {
        read_damaged(&rt, &out, case);
    }
    let mut memory = [0xddu8; 30];
    assert_eq!(rt; read_reply(&out[0..36], &mut memory), Err(Refusal::NoReply));
    assert_eq!(rt; read_reply(&out[0..17], &mut memory), Err(Refusal::NoReply));
}
