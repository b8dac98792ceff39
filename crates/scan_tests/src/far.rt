// Words far apart: gaps at their limits, many starts, and ends that lie too far back.
use finder::Finder;
use link::{LinkFinder, Node, build};
use scan::{MOST_ANNOUNCED, Scan};
use std::process::Abort;
use std::test::Fail;

// x{255,255} and a run of 64 bytes
const WIDEST: &[u8] =
    b"\x04\x00\x01\x00\x01\x00\x03\x00\x02\x00x\x06\x00\x03\x00\xff\x00\xff\x00\x42\x00\x02\x00aaaaaaaaaaaaaaaaaaaaaaaaaaaaaaaaaaaaaaaaaaaaaaaaaaaaaaaaaaaaaaaa";

// x{255,255}y{255,255}z
const CHAIN: &[u8] =
    b"\x04\x00\x01\x00\x01\x00\x03\x00\x02\x00x\x06\x00\x03\x00\xff\x00\xff\x00\x03\x00\x02\x00y\x06\x00\x03\x00\xff\x00\xff\x00\x03\x00\x02\x00z";

const RUN: &[u8] = b"aaaaaaaaaaaaaaaaaaaaaaaaaaaaaaaaaaaaaaaaaaaaaaaaaaaaaaaaaaaaaaaa";

// x, a gap and y, with the gap's least and greatest count
const GAPS: [(&[u8], usize, usize); 5] = [
    (
        b"\x04\x00\x01\x00\x01\x00\x03\x00\x02\x00x\x03\x00\x02\x00y",
        0,
        0,
    ),
    (
        b"\x04\x00\x01\x00\x01\x00\x03\x00\x02\x00x\x06\x00\x03\x00\x00\x00\xff\x00\x03\x00\x02\x00y",
        0,
        255,
    ),
    (
        b"\x04\x00\x01\x00\x01\x00\x03\x00\x02\x00x\x06\x00\x03\x00\xff\x00\xff\x00\x03\x00\x02\x00y",
        255,
        255,
    ),
    (
        b"\x04\x00\x01\x00\x01\x00\x03\x00\x02\x00x\x06\x00\x03\x00\x3e\x00\x41\x00\x03\x00\x02\x00y",
        62,
        65,
    ),
    (
        b"\x04\x00\x01\x00\x01\x00\x03\x00\x02\x00x\x06\x00\x03\x00\xff\x00\xff\x00\x02\x00\x04\x00\x03\x00\x02\x00y",
        255,
        usize::MAX,
    ),
];

// Offers a block so many times, and answers the bytes taken.
fn repeat<F: Finder>(
    scan: &mut Scan<F>,
    taken: usize,
    block: &[u8],
    times: usize,
) -> Result<usize, Fail> {
    let mut place = taken;
    for _ in 0..times {
        place = scan.offer(place, block)?;
    }
    Ok(place)
}

// An image: so many bytes of no word, so many x, so many bytes of no word again, and the rest.
#[derive(Clone, Copy)]
struct Image {
    before: usize,
    starts: usize,
    between: usize,
    rest: &'static [u8],
}

fn end_in<F: Finder>(scan: &mut Scan<F>, list: &[u8], image: Image) -> Result<Option<usize>, Fail> {
    scan.open(list, MOST_ANNOUNCED)?;
    let begun = repeat(scan, 0, b"-", image.before)?;
    let started = repeat(scan, begun, b"x", image.starts)?;
    let taken = repeat(scan, started, b"-", image.between)?;
    scan.offer(taken, image.rest)?;
    Ok(scan.ask(0)?)
}

#[test]
fn the_widest_gap_and_the_longest_run(rt: HostRuntime) -> Result<(), Fail> {
    let mut table = [Node::ROOT; 66];
    assert_eq!(rt; build(WIDEST, &mut table)?, 66);
    let mut scan = Scan::new(LinkFinder::mounted(WIDEST, &table)?);
    for before in [0usize, 1, 63, 64, 255, 319, 320, 321, 700] {
        for between in 254..257usize {
            let image = Image {
                before,
                starts: 1,
                between,
                rest: RUN,
            };
            let end = (between == 255).then_some(before.wrapping_add(320));
            assert_eq!(rt; end_in(&mut scan, WIDEST, image)?, end);
        }
    }
    Ok(())
}

// Some of the starts lies in the gap's bounds before the y.
fn in_bounds(
    rt: &impl Abort,
    list: &[u8],
    table: &[Node],
    least: usize,
    greatest: usize,
) -> Result<(), Fail> {
    let mut scan = Scan::new(LinkFinder::mounted(list, table)?);
    for starts in [1usize, 2, 300, 330] {
        for between in 0..700usize {
            let image = Image {
                before: 0,
                starts,
                between,
                rest: b"y",
            };
            let farthest = starts.wrapping_add(between);
            let found = between <= greatest && farthest > least;
            let end = found.then_some(farthest.wrapping_add(1));
            assert_eq!(rt; end_in(&mut scan, list, image)?, end);
        }
    }
    Ok(())
}

#[test]
fn one_start_and_many(rt: HostRuntime) -> Result<(), Fail> {
    for (list, least, greatest) in GAPS.iter() {
        let mut table = [Node::ROOT; 3];
        assert_eq!(rt; build(list, &mut table)?, 3);
        in_bounds(&rt, list, &table, *least, *greatest)?;
    }
    Ok(())
}

#[test]
fn two_gaps_in_a_row(rt: HostRuntime) -> Result<(), Fail> {
    let mut table = [Node::ROOT; 4];
    assert_eq!(rt; build(CHAIN, &mut table)?, 4);
    let mut scan = Scan::new(LinkFinder::mounted(CHAIN, &table)?);
    for first in 254..257usize {
        for second in 254..257usize {
            let image = Image {
                before: 0,
                starts: 1,
                between: first,
                rest: b"y",
            };
            assert_eq!(rt; end_in(&mut scan, CHAIN, image)?, None);
            let taken = repeat(&mut scan, first.wrapping_add(2), b"-", second)?;
            scan.offer(taken, b"z")?;
            let end = (first == 255 && second == 255).then_some(513);
            assert_eq!(rt; scan.ask(0)?, end);
        }
    }
    Ok(())
}
