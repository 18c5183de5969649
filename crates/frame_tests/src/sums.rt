// Published values: RFC 1662's table and its constant, the sum of the nine digits, and the vendor guide's two framing examples.
use fcs::{fcs_table, fcs16};

// RFC 1662's constant 0xf0b8, complemented as every sum is.
const GOOD: u16 = 0x0f47;

// Bytes and their sum.
const SUMS: [(&[u8], u16); 6] = [
    (b"", 0x0000),
    (b"123456789", 0x906e),
    (b"\x03\x07\x02\0\0\0\0\x03\0\x7d", 0xb29a),
    (b"\x03\x07\x02\0\0\0\0\x03\0\x7d\x9a\xb2", GOOD),
    (b"\x04\x03\x01\0\x03\0\x7e", 0x91a2),
    (b"\x04\x03\x01\0\x03\0\x7e\xa2\x91", GOOD),
];

// A byte and its entry in the published table.
const ENTRIES: [(usize, u16); 8] = [
    (0, 0x0000),
    (1, 0x1189),
    (7, 0x74bf),
    (8, 0x8c48),
    (127, 0x8b70),
    (128, 0x8408),
    (248, 0x7bc7),
    (255, 0x0f78),
];

#[test]
fn published_table(rt: HostRuntime) {
    for (byte, entry) in ENTRIES {
        assert_eq!(rt; fcs_table().get(byte), Some(&entry));
    }
}

#[test]
fn published_sums(rt: HostRuntime) {
    for (bytes, sum) in SUMS {
        assert_eq!(rt; fcs16(bytes), sum);
    }
}
