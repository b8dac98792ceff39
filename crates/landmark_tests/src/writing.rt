// Writing one element: every refusal at its boundary, and what is left untouched.
use landmark::{Element, Gap, Role, read_element, write_element};
use std::process::Abort;
use std::test::Fail;

const LONG: [u8; 65] = [7; 65];

fn gap<'a>(least: u16, greatest: u16) -> Element<'a> {
    Element::Gap(Gap { least, greatest })
}

fn start<'a>(role: Role) -> Element<'a> {
    Element::Start(role)
}

fn star<'a>() -> Element<'a> {
    Element::Star
}

// The place after the record, or the number of the refusal; a refusal leaves the buffer as it was.
fn written(rt: &impl Abort, place: usize, element: Element<'_>) -> Result<Result<usize, u8>, Fail> {
    let mut buffer = [0x55u8; 80];
    match write_element(&mut buffer, place, element) {
        Ok(next) => {
            let read = read_element(&buffer, place)?;
            assert_eq!(rt; read.next, next);
            Ok(Ok(next))
        }
        Err(fault) => {
            assert_eq!(rt; buffer, [0x55; 80]);
            assert_eq!(rt; fault.detail, place);
            Ok(Err(fault.refusal.number()))
        }
    }
}

#[test]
fn runs_at_their_limits(rt: HostRuntime) -> Result<(), Fail> {
    assert_eq!(rt; written(&rt, 0, Element::Run(&LONG[0..0]))?, Err(3));
    assert_eq!(rt; written(&rt, 0, Element::Run(&LONG[0..1]))?, Ok(5));
    assert_eq!(rt; written(&rt, 0, Element::Run(&LONG[0..64]))?, Ok(68));
    assert_eq!(rt; written(&rt, 0, Element::Run(&LONG[0..65]))?, Err(3));
    assert_eq!(rt; written(&rt, 90, Element::Run(&LONG[0..65]))?, Err(3));
    Ok(())
}

#[test]
fn gaps_at_their_limits(rt: HostRuntime) -> Result<(), Fail> {
    assert_eq!(rt; written(&rt, 0, gap(0, 0))?, Ok(8));
    assert_eq!(rt; written(&rt, 0, gap(255, 255))?, Ok(8));
    assert_eq!(rt; written(&rt, 0, gap(2, 1))?, Err(4));
    assert_eq!(rt; written(&rt, 0, gap(0, 256))?, Err(4));
    Ok(())
}

#[test]
fn space_at_its_limit(rt: HostRuntime) -> Result<(), Fail> {
    assert_eq!(rt; written(&rt, 76, star())?, Ok(80));
    assert_eq!(rt; written(&rt, 77, star())?, Err(8));
    assert_eq!(rt; written(&rt, 74, start(Role::Entry))?, Ok(80));
    assert_eq!(rt; written(&rt, 75, start(Role::Bar))?, Err(8));
    assert_eq!(rt; written(&rt, 81, star())?, Err(8));
    assert_eq!(rt; written(&rt, usize::MAX, star())?, Err(8));
    Ok(())
}

#[test]
fn only_the_record_is_touched(rt: HostRuntime) -> Result<(), Fail> {
    let mut buffer = [0x55u8; 10];
    let next = write_element(&mut buffer, 2, start(Role::Bar))?;
    assert_eq!(rt; next, 8);
    assert!(rt; buffer == *b"\x55\x55\x04\x00\x01\x00\x02\x00\x55\x55");
    Ok(())
}
