// Finders side by side, and pairs of pairs.
use crate::both::THREE;
use finder::{Finder, Pair, hear};
use shift::{ShiftFinder, build};
use std::test::Fail;

// A finder on the list and its table.
fn mounted<'a>(list: &'a [u8], table: &'a [u64]) -> Result<ShiftFinder<'a>, Fail> {
    let mut finder = ShiftFinder::mounted(list, table)?;
    Ok(finder)
}

#[test]
fn pairs_of_pairs(rt: HostRuntime) -> Result<(), Fail> {
    let mut table = [0u64; 256];
    assert_eq!(rt; build(THREE, &mut table)?, 256);
    let mut both = Pair {
        left: Pair {
            left: mounted(THREE, &table)?,
            right: mounted(THREE, &table)?,
        },
        right: mounted(THREE, &table)?,
    };
    assert_eq!(rt; both.count(), 9);
    assert_eq!(rt; hear(&mut both, b"ab"), 0b101101101);
    assert_eq!(rt; hear(&mut both, b"abab"), 0b111111111);
    assert_eq!(rt; hear(&mut both, b""), 0);
    assert_eq!(rt; both.length_of(4), 3);
    assert_eq!(rt; both.byte_of(5, 0), b'b');
    assert_eq!(rt; both.length_of(9), 0);
    assert_eq!(rt; both.length_of(64), 0);
    Ok(())
}
