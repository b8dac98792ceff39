// Calls while an order is out, and orders brought to another scan.
use crate::calls::{Call, Said, Step, answers, answers_while_out};
use crate::spending::{Way, bring, exchange};
use scan::{Scan, agree};
use shift::{ShiftFinder, build};
use std::test::Fail;

// a and b, two entries
const TWO: &[u8] =
    b"\x04\x00\x01\x00\x01\x00\x03\x00\x02\x00a\x04\x00\x01\x00\x01\x00\x03\x00\x02\x00b";

// The image abx is taken whole.
const WHOLE: [Step; 2] = [
    (Call::Open(TWO, 3), Ok(Said::Done)),
    (Call::Offer(0, b"abx"), Ok(Said::Taken(3))),
];

// Opening and issuing are refused, and all else goes on.
const OUT: [Step; 10] = [
    (Call::Open(TWO, 3), Err((12, 1))),
    (Call::Open(TWO, 0), Err((12, 1))),
    (Call::Open(b"", 3), Err((5, 0))),
    (Call::Enter(0), Err((12, 1))),
    (Call::Strike(1), Err((12, 1))),
    (Call::Enter(9), Err((12, 1))),
    (Call::Offer(3, b""), Ok(Said::Taken(3))),
    (Call::Offer(3, b"a"), Err((17, 3))),
    (Call::Ask(0), Ok(Said::End(Some(1)))),
    (Call::Ask(2), Err((18, 2))),
];

#[test]
fn calls_while_an_order_is_out(rt: HostRuntime) -> Result<(), Fail> {
    let mut table = [0u64; 256];
    assert_eq!(rt; build(TWO, &mut table)?, 256);
    let mut scan = Scan::new(ShiftFinder::mounted(TWO, &table)?);
    answers(&rt, &mut scan, &WHOLE)?;
    answers_while_out(&rt, &mut scan, 1, &OUT, 2)?;
    answers_while_out(&rt, &mut scan, 0, &[(Call::Enter(1), Err((12, 0)))], 1)?;
    answers(&rt, &mut scan, &[(Call::Enter(1), Ok(Said::Entry(2)))])?;
    answers(&rt, &mut scan, &WHOLE)
}

#[test]
fn orders_of_another_scan(rt: HostRuntime) -> Result<(), Fail> {
    let mut table = [0u64; 256];
    assert_eq!(rt; build(TWO, &mut table)?, 256);
    let mut from = Scan::new(ShiftFinder::mounted(TWO, &table)?);
    answers(&rt, &mut from, &WHOLE)?;
    let mut to = Scan::new(ShiftFinder::mounted(TWO, &table)?);
    assert_eq!(rt;
        bring(&mut from, &mut to, 1, Way::CarryOut)?,
        Err((24, 2)),
        "to an idle scan"
    );
    answers(&rt, &mut to, &WHOLE)?;
    assert_eq!(rt;
        bring(&mut from, &mut to, 1, Way::CarryOut)?,
        Err((24, 2)),
        "to a scan with none out"
    );
    assert_eq!(rt;
        bring(&mut from, &mut to, 0, Way::StrikeOff)?,
        Err((24, 1)),
        "to a scan with none out"
    );
    assert_eq!(rt;
        exchange(&mut from, &mut to, 1, 0)?,
        Err((24, 2)),
        "of another landmark"
    );
    assert_eq!(rt;
        exchange(&mut from, &mut to, 0, 1)?,
        Err((24, 1)),
        "of another landmark"
    );
    assert_eq!(rt;
        exchange(&mut from, &mut to, 1, 1)?,
        Ok(Said::Entry(2)),
        "with equal numbers"
    );
    answers(
        &rt,
        &mut to,
        &[
            (Call::Open(TWO, 3), Ok(Said::Done)),
            (Call::Offer(0, b"xab"), Ok(Said::Taken(3))),
        ],
    )?;
    assert_eq!(rt;
        exchange(&mut from, &mut to, 0, 0)?,
        Err((24, 1)),
        "of another entry"
    );
    assert_eq!(rt;
        exchange(&mut to, &mut from, 0, 0)?,
        Err((24, 2)),
        "of another entry"
    );
    Ok(())
}

#[test]
fn scans_that_agree(rt: HostRuntime) -> Result<(), Fail> {
    let mut table = [0u64; 256];
    assert_eq!(rt; build(TWO, &mut table)?, 256);
    let mut left = Scan::new(ShiftFinder::mounted(TWO, &table)?);
    let mut right = Scan::new(ShiftFinder::mounted(TWO, &table)?);
    assert!(rt; agree(&left, &right), "both idle");
    answers(&rt, &mut left, &WHOLE)?;
    assert!(rt; !agree(&left, &right), "one idle");
    assert!(rt; !agree(&right, &left), "one idle");
    answers(
        &rt,
        &mut right,
        &[
            (Call::Open(TWO, 3), Ok(Said::Done)),
            (Call::Offer(0, b"ab"), Ok(Said::Taken(2))),
        ],
    )?;
    assert!(rt; !agree(&left, &right), "a byte less");
    answers(
        &rt,
        &mut right,
        &[(Call::Offer(2, b"b"), Ok(Said::Taken(3)))],
    )?;
    assert!(rt; agree(&left, &right), "the same ends");
    answers(
        &rt,
        &mut right,
        &[
            (Call::Open(TWO, 4), Ok(Said::Done)),
            (Call::Offer(0, b"axb"), Ok(Said::Taken(3))),
        ],
    )?;
    assert!(rt; !agree(&left, &right), "another end");
    Ok(())
}
