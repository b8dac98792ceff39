// Lists and images whose ends are known.
use crate::calls::{Call, Said, Step, on_each_finder};
use std::test::Fail;

// ab{1,2}cd, an entry
pub(crate) const ENTRY: &[u8] =
    b"\x04\x00\x01\x00\x01\x00\x04\x00\x02\x00ab\x06\x00\x03\x00\x01\x00\x02\x00\x04\x00\x02\x00cd";

// the same, and de, a bar
pub(crate) const BARRED: &[u8] =
    b"\x04\x00\x01\x00\x01\x00\x04\x00\x02\x00ab\x06\x00\x03\x00\x01\x00\x02\x00\x04\x00\x02\x00cd\x04\x00\x01\x00\x02\x00\x04\x00\x02\x00de";

// aa*a
const OPEN: &[u8] = b"\x04\x00\x01\x00\x01\x00\x04\x00\x02\x00aa\x02\x00\x04\x00\x03\x00\x02\x00a";

// abe{3,5}d*ca{2,6}bd
const FOUR: &[u8] =
    b"\x04\x00\x01\x00\x01\x00\x05\x00\x02\x00abe\x06\x00\x03\x00\x03\x00\x05\x00\x03\x00\x02\x00d\x02\x00\x04\x00\x04\x00\x02\x00ca\x06\x00\x03\x00\x02\x00\x06\x00\x04\x00\x02\x00bd";

const AN_IMAGE_IN_THREE_BLOCKS: [Step; 7] = [
    (Call::Open(ENTRY, 6), Ok(Said::Done)),
    (Call::Offer(0, b"a"), Ok(Said::Taken(1))),
    (Call::Offer(1, b"bxc"), Ok(Said::Taken(4))),
    (Call::Ask(0), Ok(Said::End(None))),
    (Call::Offer(4, b"de"), Ok(Said::Taken(6))),
    (Call::Ask(0), Ok(Said::End(Some(5)))),
    (Call::Enter(0), Ok(Said::Entry(5))),
];

#[test]
fn an_image_in_three_blocks(rt: HostRuntime) -> Result<(), Fail> {
    on_each_finder(&rt, ENTRY, &AN_IMAGE_IN_THREE_BLOCKS)
}

const AN_END_AT_THE_LENGTH: [Step; 4] = [
    (Call::Open(ENTRY, 5), Ok(Said::Done)),
    (Call::Offer(0, b"abxcd"), Ok(Said::Taken(5))),
    (Call::Ask(0), Ok(Said::End(Some(5)))),
    (Call::Enter(0), Err((23, 5))),
];

#[test]
fn an_end_at_the_length(rt: HostRuntime) -> Result<(), Fail> {
    on_each_finder(&rt, ENTRY, &AN_END_AT_THE_LENGTH)
}

const A_BAR: [Step; 5] = [
    (Call::Open(BARRED, 7), Ok(Said::Done)),
    (Call::Offer(0, b"abxcdef"), Ok(Said::Taken(7))),
    (Call::Ask(0), Ok(Said::End(Some(5)))),
    (Call::Ask(1), Ok(Said::End(Some(6)))),
    (Call::Enter(0), Err((21, 1))),
];

#[test]
fn a_bar(rt: HostRuntime) -> Result<(), Fail> {
    on_each_finder(&rt, BARRED, &A_BAR)
}

// A list, an image, and the end of landmark 0 in it.
const ENDS: [(&[u8], &[u8], Option<usize>); 8] = [
    (ENTRY, b"abxcd", Some(5)),
    (ENTRY, b"abcd", None),
    (ENTRY, b"abxxxcd", None),
    (ENTRY, b"ababxcd", Some(7)),
    (ENTRY, b"ababcd", Some(6)),
    (OPEN, b"aaa", Some(3)),
    (OPEN, b"aa", None),
    (FOUR, b"cabebdabedaacafabde", Some(18)),
];

#[test]
fn known_ends(rt: HostRuntime) -> Result<(), Fail> {
    for (list, image, end) in ENDS.iter() {
        let steps = [
            (Call::Open(list, image.len()), Ok(Said::Done)),
            (Call::Offer(0, image), Ok(Said::Taken(image.len()))),
            (Call::Ask(0), Ok(Said::End(*end))),
        ];
        on_each_finder(&rt, list, &steps)?;
    }
    Ok(())
}
