// A table filled, refilled and emptied; ids at the edge of what there is; and deletions.
use service::value::Service;
use services::table::{Refusal, Table};
use std::process::Abort;
use std::test::Fail;

// A service to publish; a time of 0 deletes it.
fn publish(id: u8, time: u32) -> Service {
    Service {
        id,
        flags: 1,
        domain: 0,
        destination: 0xf981,
        time,
    }
}

// A table that holds the ids 100 to 107.
fn full(rt: &impl Abort) -> Table {
    let mut table = Table::new();
    for id in 100..108 {
        assert_eq!(rt; table.accept(publish(id, 1)), Ok(()));
        assert_eq!(rt; table.get(id), Some(publish(id, 1)));
        assert_eq!(rt; table.left(), 107 - usize::from(id));
    }
    table
}

#[test]
fn filled_refilled_emptied(rt: HostRuntime) {
    let mut table = full(&rt);
    for id in 100..108 {
        assert_eq!(rt; table.accept(publish(9, 1)), Err(Refusal::Full));
        assert_eq!(rt; table.accept(publish(id, 2)), Ok(()));
        assert_eq!(rt; table.get(id), Some(publish(id, 2)));
        assert_eq!(rt; table.left(), 0);
    }
    table.clear();
    assert_eq!(rt; table.left(), 8);
    for id in 0..=255 {
        assert_eq!(rt; table.get(id), None);
    }
}

#[test]
fn room_after_a_deletion(rt: HostRuntime) {
    for gone in 100..108 {
        let mut table = full(&rt);
        assert_eq!(rt;
            table.accept(publish(9, 0)),
            Ok(()),
            "not held, and no fault"
        );
        assert_eq!(rt; table.left(), 0);
        assert_eq!(rt; table.accept(publish(gone, 0)), Ok(()));
        assert_eq!(rt; table.left(), 1);
        assert_eq!(rt; table.get(gone), None);
        assert_eq!(rt; table.accept(publish(9, 3)), Ok(()));
        assert_eq!(rt; table.left(), 0);
        for id in 100..108 {
            assert_eq!(rt; table.get(id).is_some(), id != gone);
        }
    }
}

#[test]
fn ids_at_the_edge(rt: HostRuntime) {
    let mut table = Table::new();
    assert_eq!(rt; table.accept(publish(127, 1)), Ok(()));
    assert_eq!(rt; table.accept(publish(128, 1)), Err(Refusal::Rule));
    assert_eq!(rt; table.accept(publish(128, 0)), Err(Refusal::Rule));
    assert_eq!(rt; table.get(127), Some(publish(127, 1)));
    assert_eq!(rt; table.get(128), None);
    assert_eq!(rt; table.left(), 7);
}

#[test]
fn refusals_as_text(rt: HostRuntime) -> Result<(), Fail> {
    let rule = Refusal::Rule.to_string(rt.alloc())?;
    assert_eq!(rt; rule.as_str(), "the service breaks the rule");
    let full = Refusal::Full.to_string(rt.alloc())?;
    assert_eq!(rt; full.as_str(), "no entry is free");
    Ok(())
}
