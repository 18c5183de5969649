// Service values on the line and back, and the rule at each of its edges.
use service::domain::{Domain, UnknownDomain};
use service::value::{SIZE, Service};
use std::test::Fail;

#[test]
fn bytes_there_and_back(rt: HostRuntime) {
    let bytes = [0x7f, 0x05, 0x01, 0xf9, 0x81, 0x00, 0x01, 0x02, 0xff];
    let service = Service::from(bytes);
    let expected = Service {
        id: 127,
        flags: 5,
        domain: 1,
        destination: 0xf981,
        time: 0x0001_02ff,
    };
    assert_eq!(rt; service, expected);
    assert_eq!(rt; <[u8; SIZE]>::from(service), bytes);
}

// Id, flags, domain, time, and whether they keep the rule.
const VALUES: [(u8, u8, u8, u32, bool); 20] = [
    (0, 1, 0, 1, true),
    (127, 1, 0, 1, true),
    (128, 1, 0, 1, false),
    (255, 1, 0, 1, false),
    // A deletion: all but the id is ignored.
    (127, 9, 9, 0, true),
    (128, 1, 0, 0, false),
    // Publish.
    (1, 0, 0, 1, false),
    (1, 2, 0, 1, false),
    (1, 5, 0, 1, false),
    // Event.
    (1, 5, 1, 1, true),
    (1, 1, 1, 1, false),
    (1, 4, 1, 1, false),
    (1, 6, 1, 1, false),
    // No such domain.
    (1, 1, 2, 1, false),
    (1, 1, 4, 1, false),
    (1, 5, 255, 1, false),
    // Block transfer.
    (1, 0, 3, 0xffff_ffff, true),
    (1, 3, 3, 1, true),
    (1, 4, 3, 1, false),
    (1, 255, 3, 1, false),
];

#[test]
fn rule_at_its_edges(rt: HostRuntime) {
    for (id, flags, domain, time, kept) in VALUES {
        let service = Service {
            id,
            flags,
            domain,
            destination: 0xf981,
            time,
        };
        assert_eq!(rt; service.keeps_rule(), kept);
    }
}

#[test]
fn domains_by_number(rt: HostRuntime) -> Result<(), Fail> {
    assert_eq!(rt; Domain::try_from(0), Ok(Domain::Publish));
    assert_eq!(rt; Domain::try_from(1), Ok(Domain::Event));
    assert_eq!(rt; Domain::try_from(2), Err(UnknownDomain(2)));
    assert_eq!(rt; Domain::try_from(3), Ok(Domain::BlockTransfer));
    let text = UnknownDomain(2).to_string(rt.alloc())?;
    assert_eq!(rt; text.as_str(), "no domain has the number 2");
    Ok(())
}
