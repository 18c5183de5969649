// Recordings whole and torn, places inside and beyond them, and the limits of a recording and of a line buffer.
use recording::listing::{line, names};
use recording::reader::{piece, read};
use recording::status::Refusal;
use std::alloc::Global;
use std::process::Abort;
use std::test::Fail;

// The lines of all pieces, going on from place 0; at each the piece call answers what was read there, and at the end none.
fn listing(rt: &impl Abort, heap: Global, recording: &[u8]) -> Result<Vec<u8>, Fail> {
    let mut text = Vec::new(heap);
    let mut row = [0; 32];
    let mut place = 0;
    while let Some(reading) = read(recording, place)? {
        let answer = (u16::from(reading.label), reading.raw, reading.next);
        assert_eq!(rt; piece(recording, place), answer);
        let count = line(recording, place, &mut row)?;
        text.extend_from_slice(&row[..count])?;
        place = reading.next;
    }
    assert_eq!(rt; line(recording, place, &mut row), Ok(0));
    assert_eq!(rt; counted(recording, place), (0, 0, recording.len()));
    Ok(text)
}

// What the piece call answers, with the count of raw bytes in place of these.
fn counted(recording: &[u8], place: usize) -> (u16, usize, usize) {
    let (status, raw, next) = piece(recording, place);
    (status, raw.len(), next)
}

// A recording and its lines.
const LISTINGS: [(&[u8], &[u8]); 12] = [
    (b"", b""),
    (b"~", b""),
    (b"~~", b"1 0 empty -\n"),
    (b"abc", b"0 3 open -\n"),
    (b"abc~", b"0 3 stray -\n"),
    (b"~abc", b"1 3 open -\n"),
    (
        b"abc~\x06\0\x08\x5d\x9c~def",
        b"0 3 stray -\n4 5 good 6\n10 3 open -\n",
    ),
    (
        b"~\x06\0\x08\x7d~\x06\0\x08\x5d\x9c~",
        b"1 4 escape -\n6 5 good 6\n",
    ),
    (b"~\x06\0\x08\x5d\x9d~\x06~", b"1 5 check -\n7 1 short -\n"),
    (b"~\xff\0\x08\x77\x8c~", b"1 5 good 255\n"),
    // An escape byte alone, before a byte that needs none, and before another escape byte.
    (
        b"~\x7d~\x06\x7d\0\x08~\x7d\x7d\x5e~",
        b"1 1 escape -\n3 4 escape -\n8 3 escape -\n",
    ),
    // Four bytes with one of them escaped, and check bytes in the wrong order.
    (
        b"~\x06\0\x7d\x5e\x9c~\x06\0\x08\x9c\x5d~",
        b"1 5 short -\n7 5 check -\n",
    ),
];

#[test]
fn listings(rt: HostRuntime) -> Result<(), Fail> {
    for (recording, expected) in LISTINGS {
        let text = listing(&rt, rt.alloc(), recording)?;
        assert_eq!(rt; text.as_slice(), expected);
    }
    Ok(())
}

#[test]
fn places(rt: HostRuntime) {
    let recording = b"~\x06\0\x08\x5d\x9c~\x06";
    // Place; status number, count of raw bytes, place to go on.
    let table = [
        (0, (6, 5, 7)),
        (1, (6, 5, 7)),
        (3, (4, 3, 7)),
        (6, (1, 0, 7)),
        (7, (7, 1, 8)),
        (8, (0, 0, 8)),
        (9, (203, 0, 9)),
    ];
    for (place, answer) in table {
        assert_eq!(rt; counted(recording, place), answer);
    }
}

#[test]
fn limit_of_a_recording(rt: HostRuntime) -> Result<(), Fail> {
    let mut bytes = vec![in rt.alloc(); 0; 65_536]?;
    assert_eq!(rt; counted(&bytes, 0), (7, 65_536, 65_536));
    bytes.push(0)?;
    assert_eq!(rt; counted(&bytes, 70_000), (202, 0, 70_000));
    assert_eq!(rt;
        line(&bytes, 70_000, &mut [0; 32]),
        Err(Refusal::LongRecording)
    );
    assert_eq!(rt;
        line(&bytes, 70_000, &mut [0; 31]),
        Err(Refusal::ShortBuffer)
    );
    Ok(())
}

#[test]
fn room_for_a_line(rt: HostRuntime) {
    let mut short = [0xee; 31];
    assert_eq!(rt; line(b"~", 2, &mut short), Err(Refusal::ShortBuffer));
    assert_eq!(rt; names(&mut short), Err(Refusal::ShortBuffer));
    assert_eq!(rt; short, [0xee; 31]);
    let mut row = [0xee; 32];
    assert_eq!(rt; line(b"~", 2, &mut row), Err(Refusal::PlaceBeyond));
    assert_eq!(rt; line(b"~", 1, &mut row), Ok(0));
    assert_eq!(rt; row, [0xee; 32]);
    assert_eq!(rt; line(b"~~", 0, &mut row), Ok(12));
    assert_eq!(rt; &row[..14], b"1 0 empty -\n\xee\xee".as_slice());
    assert_eq!(rt; names(&mut row), Ok(28));
    assert_eq!(rt; &row, b"place bytes verdict command\n\xee\xee\xee\xee");
}
