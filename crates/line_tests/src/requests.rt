// Check words and requests.
use check_word::check_word;
use refusal::Refusal;
use request_frame::{read_request, search, unfinished, write_request};
use std::test::Fail;

struct Word {
    bytes: &'static [u8],
    word: u16,
}

const WORDS: [Word; 7] = [
    Word {
        bytes: b"",
        word: 0xffff,
    },
    Word {
        bytes: b"\x00",
        word: 0xffff,
    },
    Word {
        bytes: b"\x01",
        word: 0xc29a,
    },
    Word {
        bytes: b"\xff",
        word: 0x53b7,
    },
    Word {
        bytes: b"\x80\x00",
        word: 0x8d2a,
    },
    Word {
        bytes: b"123456789",
        word: 0xc2b7,
    },
    Word {
        bytes: b"\x00\x01\x02\x03\x04\x05\x06\x07\x08\x09\x0a\x0b\x0c\x0d",
        word: 0xb318,
    },
];

#[test]
fn check_words(rt: HostRuntime) {
    for case in &WORDS {
        assert_eq!(rt; check_word(case.bytes), case.word);
    }
}

struct Case {
    address: u16,
    // Stays: commands are the bytes of frames that were worked out elsewhere.
    command: u8,
    parameters: [u8; 9],
    frame: [u8; 18],
}

const CASES: [Case; 4] = [
    Case {
        address: 0x0112,
        command: 0x01,
        parameters: [0xa5, 0, 0, 0, 0, 0, 0, 0, 0],
        frame: [
            0x05, 0x64, 0, 0, 0x12, 0x01, 0x01, 0xa5, 0, 0, 0, 0, 0, 0, 0, 0, 0x1e, 0x28,
        ],
    },
    Case {
        address: 0x00ff,
        command: 0x1b,
        parameters: [0, 0, 0, 0, 0, 0, 0, 0, 0],
        frame: [
            0x05, 0x64, 0, 0, 0xff, 0, 0x1b, 0, 0, 0, 0, 0, 0, 0, 0, 0, 0x48, 0x42,
        ],
    },
    Case {
        address: 0xfffe,
        command: 0x2e,
        parameters: [3, 1, 2, 3, 4, 5, 6, 7, 8],
        frame: [
            0x05, 0x64, 0, 0, 0xfe, 0xff, 0x2e, 3, 1, 2, 3, 4, 5, 6, 7, 8, 0xeb, 0xed,
        ],
    },
    Case {
        address: 0x6405,
        command: 0x05,
        parameters: [0x05, 0x64, 0, 0, 0x05, 0x64, 0, 0, 0x05],
        frame: [
            0x05, 0x64, 0, 0, 0x05, 0x64, 0x05, 0x05, 0x64, 0, 0, 0x05, 0x64, 0, 0, 0x05, 0x4f,
            0xca,
        ],
    },
];

// Behind noise with false heads, the frame is found, cut out, and followed by what was there.
#[test]
fn written_and_found(rt: HostRuntime) -> Result<(), Fail> {
    for case in &CASES {
        let mut line = [0xeeu8; 30];
        line[0..9].copy_from_slice(&[0x05, 0x64, 0, 0, 0x05, 0x05, 0x64, 0, 0x05]);
        assert_eq!(rt;
            write_request(&mut line[9..], case.address, case.command, &case.parameters),
            Ok(())
        );
        assert_eq!(rt; &line[9..27], &case.frame[0..18]);
        assert_eq!(rt; &line[27..30], [0xee, 0xee, 0xee].as_slice());
        assert_eq!(rt; search(&line), Some((9, case.command)));
        let request = read_request(&line, 9).ok_or("no request")?;
        assert_eq!(rt; request.address, case.address);
        assert_eq!(rt; request.command, case.command);
        assert_eq!(rt; request.parameters, &case.parameters[0..9]);
        assert!(rt; read_request(&line, 8).is_none());
        assert_eq!(rt; search(&line[0..26]), None);
        assert_eq!(rt; unfinished(&line[0..26]), Some(9));
    }
    Ok(())
}

// One bit turned over anywhere in the frame, and it is no request.
#[test]
fn damaged(rt: HostRuntime) {
    for case in &CASES {
        // Stays: this runs over the places of the byte that is changed in a copy, and not over the bytes.
        for i in 0..18 {
            let mut line = case.frame;
            line[i] ^= 0x10;
            assert_eq!(rt; search(&line), None);
        }
    }
    let mut short = [0xeeu8; 17];
    assert_eq!(rt;
        write_request(&mut short, 1, 1, &[0; 9]),
        Err(Refusal::NoRoom)
    );
    assert_eq!(rt; &short[0..17], [0xee; 17].as_slice());
}
