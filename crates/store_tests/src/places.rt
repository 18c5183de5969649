// Every setting: its identifier, width, rule at its edges and factory value; and the numbers that name no place.
use settings::place::Place;
use settings::table::{PLACES, WIDEST};
use std::test::Fail;

// Identifier, width, first bytes that are allowed, first bytes that are not, last byte of the factory value.
const SETTINGS: [(u8, usize, &[u8], &[u8], u8); PLACES] = [
    (0x01, 8, &[0, 1, 255], &[], 0),
    (0x03, 2, &[0, 1, 255], &[], 0),
    (0x04, 1, &[0, 127, 128, 255], &[], 8),
    (0x05, 11, &[0, 1, 2], &[3, 255], 0),
    (0x15, 1, &[0, 1], &[2, 255], 0),
    (0x18, 1, &[0, 1], &[2, 255], 0),
    (0x1b, 1, &[0, 1], &[2, 255], 0),
    (0x13, 1, &[1, 127, 255], &[0], 127),
];

// Whether a place allows a value of this many bytes, of which the first is given.
fn allows(place: Place, first: u8, count: usize) -> bool {
    let mut value = [0; WIDEST + 1];
    value[0] = first;
    value.get(..count).is_some_and(|value| place.allows(value))
}

// Whether a place takes a first byte at its own width, and at no other.
fn takes(place: Place, first: u8) -> bool {
    (0..=WIDEST + 1).all(|count| allows(place, first, count) == (count == place.width()))
}

#[test]
fn every_row_of_the_table(rt: HostRuntime) -> Result<(), Fail> {
    for (number, (identifier, width, allowed, refused, last)) in SETTINGS.iter().enumerate() {
        let place = Place::of_identifier(*identifier).ok_or_else(|| Fail::new("no place"))?;
        assert!(rt; usize::from(place) == number && place.width() == *width);
        for first in *allowed {
            assert!(rt; takes(place, *first));
        }
        for first in *refused {
            assert!(rt; !allows(place, *first, *width));
        }
        let mut row = [0xee; WIDEST];
        assert!(rt; place.factory(&mut row) == *width && 0 < *width && *width <= WIDEST);
        let mut expected = [0xee; WIDEST];
        expected[..*width].fill(0);
        expected[*width - 1] = *last;
        assert_eq!(rt; row, expected);
    }
    Ok(())
}

#[test]
fn numbers_that_name_no_place(rt: HostRuntime) {
    for identifier in 0..=255 {
        let known = SETTINGS.iter().any(|(named, ..)| *named == identifier);
        assert_eq!(rt; Place::of_identifier(identifier).is_some(), known);
    }
    assert!(rt; Place::new(PLACES - 1).is_some() && Place::new(PLACES).is_none());
}
