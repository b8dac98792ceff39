// The shift finder: its answers, and every refusal of building and mounting at its boundary.
use crate::both::{THREE, answers, refused};
use finder::Finder;
use shift::{ShiftFinder, build};
use std::test::Fail;

// one run of 64 bytes, and one of 64 with one of 1
const FULL: &[u8] =
    b"\x04\x00\x01\x00\x01\x00\x42\x00\x02\x00aaaaaaaaaaaaaaaaaaaaaaaaaaaaaaaaaaaaaaaaaaaaaaaaaaaaaaaaaaaaaaaa";

const OVERFULL: &[u8] =
    b"\x04\x00\x01\x00\x01\x00\x42\x00\x02\x00aaaaaaaaaaaaaaaaaaaaaaaaaaaaaaaaaaaaaaaaaaaaaaaaaaaaaaaaaaaaaaaa\x03\x00\x02\x00a";

#[test]
fn three_words_in_abab(rt: HostRuntime) -> Result<(), Fail> {
    let mut table = [0u64; 256];
    assert_eq!(rt; build(THREE, &mut table)?, 256);
    let mut finder = ShiftFinder::mounted(THREE, &table)?;
    answers(&rt, &mut finder);
    Ok(())
}

#[test]
fn refusals_of_building(rt: HostRuntime) {
    let mut table = [7u64; 257];
    assert_eq!(rt; refused(build(b"", &mut table)), Err((5, 0)));
    assert_eq!(rt; refused(build(OVERFULL, &mut table)), Err((9, 65)));
    assert!(rt; table == [7u64; 257]);
    let mut small = [7u64; 255];
    assert_eq!(rt; refused(build(OVERFULL, &mut small)), Err((9, 65)));
    assert_eq!(rt; refused(build(FULL, &mut small)), Err((10, 256)));
    assert!(rt; small == [7u64; 255]);
}

#[test]
fn what_building_writes(rt: HostRuntime) {
    let mut table = [7u64; 257];
    assert_eq!(rt; refused(build(FULL, &mut table)), Ok(()));
    assert_eq!(rt; table[256], 7);
    assert_eq!(rt; table[97], u64::MAX);
    assert_eq!(rt; table[98], 0);
}

#[test]
fn a_new_finder_finds_nothing(rt: HostRuntime) {
    let mut finder = ShiftFinder::new();
    assert_eq!(rt; finder.count(), 0);
    assert_eq!(rt; finder.take(b'a'), 0);
}

#[test]
fn refusals_of_mounting(rt: HostRuntime) -> Result<(), Fail> {
    let mut table = [0u64; 257];
    assert_eq!(rt; build(FULL, &mut table)?, 256);
    assert_eq!(rt;
        refused(ShiftFinder::new().mount(b"\x04", &table)),
        Err((1, 0))
    );
    assert_eq!(rt;
        refused(ShiftFinder::new().mount(OVERFULL, &table)),
        Err((9, 65))
    );
    assert_eq!(rt;
        refused(ShiftFinder::new().mount(FULL, &table[0..255])),
        Err((10, 256))
    );
    table[256] = 1;
    assert_eq!(rt; refused(ShiftFinder::new().mount(FULL, &table)), Ok(()));
    table[255] = 1;
    assert_eq!(rt;
        refused(ShiftFinder::new().mount(FULL, &table)),
        Err((11, 255))
    );
    table[97] = 1;
    assert_eq!(rt;
        refused(ShiftFinder::new().mount(FULL, &table)),
        Err((11, 97))
    );
    assert_eq!(rt;
        refused(ShiftFinder::new().mount(THREE, &table)),
        Err((11, 97))
    );
    Ok(())
}
