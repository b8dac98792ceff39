// Every refusal of a call on a scan at its boundary, where no order is out. A refused call changes nothing.
use crate::calls::{Call, Said, Step, on_each_finder};
use crate::samples::{BARRED, ENTRY};
use std::test::Fail;

// the words ab and cd, each a landmark; ab and ce; ab; ab, cd and e
const APART: &[u8] =
    b"\x04\x00\x01\x00\x01\x00\x04\x00\x02\x00ab\x04\x00\x01\x00\x02\x00\x04\x00\x02\x00cd";

const SECOND: &[u8] = b"\x04\x00\x01\x00\x01\x00\x04\x00\x02\x00ab\x04\x00\x02\x00ce";

const SHORT: &[u8] = b"\x04\x00\x01\x00\x01\x00\x04\x00\x02\x00ab";

const LONG: &[u8] =
    b"\x04\x00\x01\x00\x01\x00\x04\x00\x02\x00ab\x04\x00\x02\x00cd\x03\x00\x02\x00e";

// the words cd and ab; abc and cd
const TURNED: &[u8] = b"\x04\x00\x01\x00\x01\x00\x04\x00\x02\x00cd\x04\x00\x02\x00ab";

const LONGER: &[u8] = b"\x04\x00\x01\x00\x01\x00\x05\x00\x02\x00abc\x04\x00\x02\x00cd";

// a, a bar; b, a bar; c, an entry; d, an entry
const FOUR: &[u8] =
    b"\x04\x00\x01\x00\x02\x00\x03\x00\x02\x00a\x04\x00\x01\x00\x02\x00\x03\x00\x02\x00b\x04\x00\x01\x00\x01\x00\x03\x00\x02\x00c\x04\x00\x01\x00\x01\x00\x03\x00\x02\x00d";

const AN_IDLE_SCAN: [Step; 6] = [
    (Call::Offer(0, b""), Err((15, 0))),
    (Call::Offer(7, b"ab"), Err((15, 0))),
    (Call::Ask(0), Err((15, 0))),
    (Call::Ask(9), Err((15, 0))),
    (Call::Enter(0), Err((15, 0))),
    (Call::Strike(9), Err((15, 0))),
];

#[test]
fn an_idle_scan(rt: HostRuntime) -> Result<(), Fail> {
    on_each_finder(&rt, ENTRY, &AN_IDLE_SCAN)
}

const ANNOUNCED_LENGTHS: [Step; 11] = [
    (Call::Open(b"", 0), Err((5, 0))),
    (Call::Open(ENTRY, 0), Err((13, 0))),
    (Call::Open(ENTRY, 1048577), Err((13, 1048577))),
    (Call::Open(ENTRY, usize::MAX), Err((13, usize::MAX))),
    (Call::Open(SHORT, 0), Err((13, 0))),
    (Call::Ask(0), Err((15, 0))),
    (Call::Open(ENTRY, 1), Ok(Said::Done)),
    (Call::Offer(0, b"ab"), Err((17, 1))),
    (Call::Offer(0, b"a"), Ok(Said::Taken(1))),
    (Call::Open(ENTRY, 1048576), Ok(Said::Done)),
    (Call::Offer(0, b"ab"), Ok(Said::Taken(2))),
];

#[test]
fn announced_lengths(rt: HostRuntime) -> Result<(), Fail> {
    on_each_finder(&rt, ENTRY, &ANNOUNCED_LENGTHS)
}

const FINDERS_WITH_OTHER_WORDS: [Step; 10] = [
    (Call::Open(TURNED, 5), Err((14, 0))),
    (Call::Open(LONGER, 5), Err((14, 0))),
    (Call::Open(SECOND, 5), Err((14, 1))),
    (Call::Open(SHORT, 5), Err((14, 1))),
    (Call::Open(LONG, 5), Err((14, 2))),
    (Call::Open(BARRED, 5), Err((14, 2))),
    (Call::Ask(0), Err((15, 0))),
    (Call::Open(APART, 3), Ok(Said::Done)),
    (Call::Ask(1), Ok(Said::End(None))),
    (Call::Ask(2), Err((18, 2))),
];

#[test]
fn finders_with_other_words(rt: HostRuntime) -> Result<(), Fail> {
    on_each_finder(&rt, ENTRY, &FINDERS_WITH_OTHER_WORDS)
}

const PLACES_AND_LENGTHS_OF_BLOCKS: [Step; 14] = [
    (Call::Open(ENTRY, 6), Ok(Said::Done)),
    (Call::Offer(1, b"abxcdef"), Err((16, 0))),
    (Call::Offer(0, b"abxcdef"), Err((17, 6))),
    (Call::Offer(0, b""), Ok(Said::Taken(0))),
    (Call::Offer(0, b"abx"), Ok(Said::Taken(3))),
    (Call::Offer(2, b"cde"), Err((16, 3))),
    (Call::Offer(4, b"cde"), Err((16, 3))),
    (Call::Offer(usize::MAX, b""), Err((16, 3))),
    (Call::Offer(3, b"cdef"), Err((17, 6))),
    (Call::Offer(3, b"cde"), Ok(Said::Taken(6))),
    (Call::Offer(6, b"f"), Err((17, 6))),
    (Call::Offer(6, b""), Ok(Said::Taken(6))),
    (Call::Ask(0), Ok(Said::End(Some(5)))),
    (Call::Enter(0), Ok(Said::Entry(5))),
];

#[test]
fn places_and_lengths_of_blocks(rt: HostRuntime) -> Result<(), Fail> {
    on_each_finder(&rt, ENTRY, &PLACES_AND_LENGTHS_OF_BLOCKS)
}

const LANDMARKS_THAT_ARE_NOT_THERE: [Step; 8] = [
    (Call::Open(BARRED, 6), Ok(Said::Done)),
    (Call::Ask(1), Ok(Said::End(None))),
    (Call::Ask(2), Err((18, 2))),
    (Call::Ask(usize::MAX), Err((18, usize::MAX))),
    (Call::Enter(0), Err((20, 0))),
    (Call::Enter(1), Err((19, 1))),
    (Call::Enter(2), Err((18, 2))),
    (Call::Strike(32), Err((18, 32))),
];

#[test]
fn landmarks_that_are_not_there(rt: HostRuntime) -> Result<(), Fail> {
    on_each_finder(&rt, BARRED, &LANDMARKS_THAT_ARE_NOT_THERE)
}

const ORDERS_FOR_IMAGES_THAT_ARE_NOT_WHOLE: [Step; 9] = [
    (Call::Open(FOUR, 3), Ok(Said::Done)),
    (Call::Offer(0, b"ca"), Ok(Said::Taken(2))),
    (Call::Enter(0), Err((19, 0))),
    (Call::Enter(1), Err((19, 1))),
    (Call::Enter(2), Err((20, 2))),
    (Call::Enter(3), Err((20, 2))),
    (Call::Enter(4), Err((18, 4))),
    (Call::Offer(2, b"x"), Ok(Said::Taken(3))),
    (Call::Enter(2), Err((21, 0))),
];

#[test]
fn orders_for_images_that_are_not_whole(rt: HostRuntime) -> Result<(), Fail> {
    on_each_finder(&rt, FOUR, &ORDERS_FOR_IMAGES_THAT_ARE_NOT_WHOLE)
}

const BARS_AND_ENDS_OF_WHOLE_IMAGES: [Step; 19] = [
    (Call::Open(FOUR, 3), Ok(Said::Done)),
    (Call::Offer(0, b"cba"), Ok(Said::Taken(3))),
    (Call::Enter(2), Err((21, 0))),
    (Call::Enter(3), Err((21, 0))),
    (Call::Enter(1), Err((19, 1))),
    (Call::Open(FOUR, 3), Ok(Said::Done)),
    (Call::Offer(0, b"cxb"), Ok(Said::Taken(3))),
    (Call::Enter(3), Err((21, 1))),
    (Call::Open(FOUR, 3), Ok(Said::Done)),
    (Call::Offer(0, b"xcc"), Ok(Said::Taken(3))),
    (Call::Enter(3), Err((22, 3))),
    (Call::Enter(2), Ok(Said::Entry(2))),
    (Call::Strike(2), Ok(Said::Done)),
    (Call::Enter(2), Ok(Said::Entry(2))),
    (Call::Open(FOUR, 2), Ok(Said::Done)),
    (Call::Ask(2), Ok(Said::End(None))),
    (Call::Offer(0, b"xc"), Ok(Said::Taken(2))),
    (Call::Enter(2), Err((23, 2))),
    (Call::Enter(3), Err((22, 3))),
];

#[test]
fn bars_and_ends_of_whole_images(rt: HostRuntime) -> Result<(), Fail> {
    on_each_finder(&rt, FOUR, &BARS_AND_ENDS_OF_WHOLE_IMAGES)
}

// Refused openings leave the bytes taken and the ends as they were.
const A_SCAN_GOES_ON_AFTER_REFUSALS: [Step; 19] = [
    (Call::Open(ENTRY, 6), Ok(Said::Done)),
    (Call::Offer(0, b"ab"), Ok(Said::Taken(2))),
    (Call::Open(b"\x04", 6), Err((1, 0))),
    (Call::Open(ENTRY, 0), Err((13, 0))),
    (Call::Open(SECOND, 6), Err((14, 1))),
    (Call::Offer(3, b"x"), Err((16, 2))),
    (Call::Offer(2, b"xcdef"), Err((17, 6))),
    (Call::Ask(1), Err((18, 1))),
    (Call::Enter(0), Err((20, 2))),
    (Call::Offer(2, b"xcd"), Ok(Said::Taken(5))),
    (Call::Open(SHORT, 6), Err((14, 1))),
    (Call::Ask(0), Ok(Said::End(Some(5)))),
    (Call::Offer(5, b"e"), Ok(Said::Taken(6))),
    (Call::Open(ENTRY, 1048577), Err((13, 1048577))),
    (Call::Enter(0), Ok(Said::Entry(5))),
    (Call::Open(ENTRY, 4), Ok(Said::Done)),
    (Call::Ask(0), Ok(Said::End(None))),
    (Call::Offer(0, b"xcde"), Ok(Said::Taken(4))),
    (Call::Enter(0), Err((22, 0))),
];

#[test]
fn a_scan_goes_on_after_refusals(rt: HostRuntime) -> Result<(), Fail> {
    on_each_finder(&rt, ENTRY, &A_SCAN_GOES_ON_AFTER_REFUSALS)
}
