// Reading one element: every refusal at its boundary.
use landmark::{Element, Refusal, Role, read_element};
use std::process::Abort;
use std::test::Fail;

// A record, and whether it is read, or the number of its refusal.
struct Case {
    record: &'static [u8],
    verdict: Result<(), u8>,
}

const CASES: [Case; 33] = [
    Case {
        record: b"",
        verdict: Err(1),
    },
    Case {
        record: b"\x04",
        verdict: Err(1),
    },
    Case {
        record: b"\x00\x00",
        verdict: Err(2),
    },
    Case {
        record: b"\x01\x00",
        verdict: Err(1),
    },
    Case {
        record: b"\x01\x00\x04",
        verdict: Err(2),
    },
    Case {
        record: b"\x02\x00",
        verdict: Err(1),
    },
    Case {
        record: b"\x02\x00\x04",
        verdict: Err(1),
    },
    Case {
        record: b"\x02\x00\x04\x00",
        verdict: Ok(()),
    },
    Case {
        record: b"\xff\xff\x04\x00",
        verdict: Err(1),
    },
    Case {
        record: b"\x02\x00\x00\x00",
        verdict: Err(2),
    },
    Case {
        record: b"\x02\x00\x06\x00",
        verdict: Err(2),
    },
    Case {
        record: b"\x02\x00\x10\x00",
        verdict: Err(2),
    },
    Case {
        record: b"\x02\x00\x02\x01",
        verdict: Err(2),
    },
    Case {
        record: b"\x02\x00\x01\x00",
        verdict: Err(3),
    },
    Case {
        record: b"\x03\x00\x01\x00\x01",
        verdict: Err(3),
    },
    Case {
        record: b"\x05\x00\x01\x00\x01\x00\x00",
        verdict: Err(3),
    },
    Case {
        record: b"\x04\x00\x01\x00\x00\x00",
        verdict: Err(4),
    },
    Case {
        record: b"\x04\x00\x01\x00\x03\x00",
        verdict: Err(4),
    },
    Case {
        record: b"\x04\x00\x01\x00\x01\x01",
        verdict: Err(4),
    },
    Case {
        record: b"\x04\x00\x01\x00\x01\x00",
        verdict: Ok(()),
    },
    Case {
        record: b"\x04\x00\x01\x00\x02\x00",
        verdict: Ok(()),
    },
    Case {
        record: b"\x02\x00\x02\x00",
        verdict: Err(3),
    },
    Case {
        record: b"\x03\x00\x02\x00a",
        verdict: Ok(()),
    },
    Case {
        record: b"\x42\x00\x02\x00aaaaaaaaaaaaaaaaaaaaaaaaaaaaaaaaaaaaaaaaaaaaaaaaaaaaaaaaaaaaaaaa",
        verdict: Ok(()),
    },
    Case {
        record: b"\x43\x00\x02\x00aaaaaaaaaaaaaaaaaaaaaaaaaaaaaaaaaaaaaaaaaaaaaaaaaaaaaaaaaaaaaaaaa",
        verdict: Err(3),
    },
    Case {
        record: b"\x05\x00\x03\x00\x00\x00\x00",
        verdict: Err(3),
    },
    Case {
        record: b"\x06\x00\x03\x00\x00\x00\x00\x00",
        verdict: Ok(()),
    },
    Case {
        record: b"\x06\x00\x03\x00\xff\x00\xff\x00",
        verdict: Ok(()),
    },
    Case {
        record: b"\x06\x00\x03\x00\x00\x00\x00\x01",
        verdict: Err(4),
    },
    Case {
        record: b"\x06\x00\x03\x00\x02\x00\x01\x00",
        verdict: Err(4),
    },
    Case {
        record: b"\x03\x00\x04\x00\x00",
        verdict: Err(3),
    },
    Case {
        record: b"\x02\x00\x05\x00",
        verdict: Ok(()),
    },
    Case {
        record: b"\x03\x00\x05\x00\x00",
        verdict: Err(3),
    },
];

// Whether an element is read at a place, or the number of the refusal; a fault's detail is the place.
fn verdict_at(rt: &impl Abort, list: &[u8], place: usize) -> Result<(), u8> {
    let Err(fault) = read_element(list, place) else {
        return Ok(());
    };
    assert_eq!(rt; fault.detail, place);
    Err(fault.refusal.number())
}

#[test]
fn every_refusal_of_a_record(rt: HostRuntime) -> Result<(), Fail> {
    for case in CASES.iter() {
        assert_eq!(rt;
            verdict_at(&rt, case.record, 0),
            case.verdict,
            "a record of the table"
        );
    }
    Ok(())
}

#[test]
fn places_past_the_end(rt: HostRuntime) -> Result<(), Fail> {
    let list = b"\x02\x00\x04\x00";
    assert_eq!(rt; verdict_at(&rt, list, 4), Err(1));
    assert_eq!(rt; verdict_at(&rt, list, 3), Err(1));
    assert_eq!(rt; verdict_at(&rt, list, 5), Err(1));
    assert_eq!(rt; verdict_at(&rt, list, usize::MAX), Err(1));
    Ok(())
}

#[test]
fn elements_with_their_values(rt: HostRuntime) -> Result<(), Fail> {
    let list = b"\x04\x00\x01\x00\x02\x00\x04\x00\x02\x00ab\x06\x00\x03\x00\x01\x00\x02\x00";
    let start = read_element(list, 0)?;
    assert_eq!(rt; start.next, 6);
    let Element::Start(role) = start.element else {
        return Err(Fail::new("no start"));
    };
    assert_eq!(rt; role, Role::Bar);
    let run = read_element(list, start.next)?;
    assert_eq!(rt; run.next, 12);
    let Element::Run(bytes) = run.element else {
        return Err(Fail::new("no run"));
    };
    assert!(rt; bytes == b"ab".as_slice());
    let Element::Gap(gap) = read_element(list, run.next)?.element else {
        return Err(Fail::new("no gap"));
    };
    assert_eq!(rt; gap.least, 1);
    assert_eq!(rt; gap.greatest, 2);
    Ok(())
}

#[test]
fn roles_by_number_and_name(rt: HostRuntime) -> Result<(), Fail> {
    assert_eq!(rt; Role::try_from(1u16), Ok(Role::Entry));
    assert_eq!(rt; Role::try_from(2u16), Ok(Role::Bar));
    assert_eq!(rt; Role::try_from(0u16), Err(Refusal::BadValue));
    assert_eq!(rt; Role::try_from(3u16), Err(Refusal::BadValue));
    let names = format!(in rt.alloc(); "{} {}", Role::Entry, Role::Bar)?;
    assert!(rt; names.as_str() == "entry bar");
    Ok(())
}
