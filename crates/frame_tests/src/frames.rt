// The vendor guide's two framing examples there and back, the longest content, and noise before a good frame.
use frame::FLAG;
use frame::receiver::Receiver;
use frame::verdict::Verdict;
use frame::writer::write_frame;
use std::test::Fail;

// A message and its frame.
const EXAMPLES: [(&[u8], &[u8]); 2] = [
    (
        b"\x03\x07\x02\0\0\0\0\x03\0\x7d",
        b"~\x03\x07\x02\0\0\0\0\x03\0\x7d\x5d\x9a\xb2~",
    ),
    (
        b"\x04\x03\x01\0\x03\0~",
        b"~\x04\x03\x01\0\x03\0\x7d\x5e\xa2\x91~",
    ),
];

// The content of a join request.
const JOIN: &[u8] = b"\x06\0\x08\x5d\x9c";

// What a flag drops: an escape that it cuts off, a bad one, too long a content, too short a one.
const NOISE: [&[u8]; 4] = [b"\x7d", b"\x06\x7d\0", &[0xff; 126], b"\x06\0"];

fn give(receiver: &mut Receiver, bytes: &[u8]) {
    for byte in bytes {
        receiver.put(*byte);
    }
}

// A frame but for its closing flag: what a receiver has heard when it can judge the piece.
fn unclosed(frame: &[u8]) -> Result<&[u8], Fail> {
    Ok(frame.strip_suffix(&[FLAG]).ok_or("no closing flag")?)
}

#[test]
fn frames_there_and_back(rt: HostRuntime) -> Result<(), Fail> {
    for (message, frame) in EXAMPLES {
        let mut out = [0xee; 16];
        assert_eq!(rt; write_frame(message, &mut out), Some(frame.len()));
        assert!(rt; out.starts_with(frame));
        assert!(rt; out[15] == 0xee);
        let mut receiver = Receiver::new();
        give(&mut receiver, unclosed(frame)?);
        assert_eq!(rt; receiver.closing(), Some(Verdict::Good));
        assert!(rt; receiver.content().starts_with(message));
        assert_eq!(rt; receiver.content().len(), message.len() + 2);
    }
    Ok(())
}

#[test]
fn a_frame_that_does_not_fit(rt: HostRuntime) {
    let mut out = [0xee; 11];
    assert_eq!(rt; write_frame(b"\x04\x03\x01\0\x03\0~", &mut out), None);
    assert_eq!(rt; &out, &[0xee; 11]);
}

// Writes a message of `count` bytes of `fill` as a frame and gives it to a receiver, all but the closing flag.
fn sent(count: usize, fill: u8) -> Result<Receiver, Fail> {
    let message = [fill; 124];
    let message = message
        .get(..count)
        .ok_or("a message of more than 124 bytes")?;
    let mut out = [0; 256];
    let length = write_frame(message, &mut out).ok_or("no room")?;
    let frame = out.get(..length).ok_or("more than the buffer holds")?;
    let mut receiver = Receiver::new();
    give(&mut receiver, unclosed(frame)?);
    Ok(receiver)
}

#[test]
fn longest_content(rt: HostRuntime) -> Result<(), Fail> {
    for fill in [0x00, 0x7e, 0x7d] {
        let receiver = sent(123, fill)?;
        assert_eq!(rt; receiver.closing(), Some(Verdict::Good));
        assert_eq!(rt; receiver.content().len(), 125);
        let mut receiver = sent(124, fill)?;
        assert_eq!(rt; receiver.closing(), Some(Verdict::Long));
        receiver.put(0x7d);
        assert_eq!(rt; receiver.closing(), Some(Verdict::Escape));
    }
    // Two bytes and their check bytes are one short of a content.
    assert_eq!(rt; sent(2, 0x00)?.closing(), Some(Verdict::Short));
    Ok(())
}

#[test]
fn noise_is_not_carried_over_a_flag(rt: HostRuntime) {
    let mut receiver = Receiver::new();
    give(&mut receiver, JOIN);
    assert_eq!(rt; receiver.closing(), None, "no flag came yet");
    assert!(rt; receiver.content().is_empty());
    for noise in NOISE {
        receiver.put(FLAG);
        give(&mut receiver, noise);
        receiver.put(FLAG);
        give(&mut receiver, JOIN);
        assert_eq!(rt; receiver.closing(), Some(Verdict::Good));
        assert_eq!(rt; receiver.content(), JOIN);
    }
}

#[test]
fn an_earlier_piece_is_not_printed(rt: HostRuntime) -> Result<(), Fail> {
    let mut receiver = Receiver::new();
    give(&mut receiver, b"~AB");
    let text = format!(in rt.alloc(); "{receiver:?}")?;
    assert!(rt; text.contains("content: [65, 66]"));
    receiver.put(FLAG);
    let text = format!(in rt.alloc(); "{receiver:?}")?;
    assert!(rt; text.contains("content: []"));
    assert!(rt; !text.contains("65"));
    Ok(())
}
