// Random lists, images and cuttings over every kind of finder, against a trial of all picks.
use crate::calls::{Answer, Said};
use crate::dice::Dice;
use crate::picks::{Word, end_by_picks};
use crate::spending::{Way, enter};
use finder::{Finder, Pair};
use landmark::{Element, Role, write_element};
use link::{LinkFinder, Node};
use scan::{Scan, agree};
use shift::ShiftFinder;
use std::alloc::{AllocError, Global};
use std::process::Abort;
use std::test::Fail;

const WORDS: [&[u8]; 10] = [
    b"a", b"b", b"ab", b"ba", b"aa", b"bb", b"aba", b"abb", b"bab", b"aab",
];

// How cases are made: the last of the words in use, the most that is added to a gap, the most words of a landmark, the most
// steps of 3 bytes in an image, and how rare the letters a and b are.
#[derive(Clone, Copy)]
struct Kind {
    last: u8,
    wide: u8,
    words: u8,
    steps: u8,
    rare: u8,
}

const NEAR: Kind = Kind {
    last: 9,
    wide: 3,
    words: 3,
    steps: 8,
    rare: 1,
};

const FAR: Kind = Kind {
    last: 1,
    wide: 127,
    words: 2,
    steps: 220,
    rare: 90,
};

// What is known of a landmark.
#[derive(Clone, Copy)]
struct Known {
    role: Role,
    end: Option<usize>,
}

// An image, a list of two parts, and what is known of its landmarks.
#[derive(Drop)]
struct Case {
    image: Vec<u8>,
    left: Vec<u8>,
    right: Vec<u8>,
    whole: Vec<u8>,
    known: Vec<Known>,
}

fn random_word(dice: &mut Dice, kind: Kind) -> Word {
    let least = dice.up_to(kind.wide);
    let more = dice.up_to(kind.wide);
    let greatest = (dice.up_to(2) != 0).then_some(least.saturating_add(more));
    let at = dice.up_to(kind.last).min(9) as usize;
    Word {
        bytes: WORDS[at],
        least,
        greatest,
    }
}

fn add_word(list: &mut Vec<u8>, word: &[u8]) -> Result<(), Fail> {
    let mut record = [0u8; 68];
    let end = write_element(&mut record, 0, Element::Run(word))?;
    list.extend_from_slice(&record[..end])?;
    Ok(())
}

// The least bytes as so many anys, then a star or a gap for those beyond.
fn add_gap(list: &mut Vec<u8>, word: &Word) -> Result<(), AllocError> {
    for _ in 0..word.least {
        list.extend_from_slice(b"\x02\x00\x05\x00")?;
    }
    match word.greatest {
        Some(greatest) => {
            let more = greatest.saturating_sub(word.least);
            list.extend_from_slice(&[6, 0, 3, 0, 0, 0, more, 0])
        }
        None => list.extend_from_slice(b"\x02\x00\x04\x00"),
    }
}

fn add_landmark(list: &mut Vec<u8>, role: Role, words: &[Word]) -> Result<(), Fail> {
    list.extend_from_slice(&[4, 0, 1, 0, role as u8, 0])?;
    for (k, word) in words.iter().enumerate() {
        if k > 0 {
            add_gap(list, word)?;
        }
        add_word(list, word.bytes)?;
    }
    Ok(())
}

// One more landmark of one to three words.
fn add_random(
    dice: &mut Dice,
    kind: Kind,
    image: &[u8],
    list: &mut Vec<u8>,
    known: &mut Vec<Known>,
) -> Result<(), Fail> {
    let words = [
        random_word(dice, kind),
        random_word(dice, kind),
        random_word(dice, kind),
    ];
    let count = dice.up_to(kind.words).clamp(1, 3) as usize;
    let role = if dice.up_to(3) == 0 {
        Role::Bar
    } else {
        Role::Entry
    };
    add_landmark(list, role, &words[..count])?;
    let end = end_by_picks(image, &words[..count]);
    known.push(Known { role, end })?;
    Ok(())
}

fn random_image(heap: Global, dice: &mut Dice, kind: Kind) -> Result<Vec<u8>, AllocError> {
    let mut image = Vec::new(heap);
    image.extend_from_slice(b"c")?;
    for _ in 0..dice.up_to(kind.steps) {
        for _ in 0..3 {
            image.push(match dice.up_to(kind.rare) {
                0 => b'a',
                1 => b'b',
                _ => b'c',
            })?;
        }
    }
    Ok(image)
}

fn random_case(heap: Global, dice: &mut Dice, kind: Kind) -> Result<Case, Fail> {
    let image = random_image(heap, dice, kind)?;
    let mut known = Vec::new(heap);
    let mut left = Vec::new(heap);
    for _ in 0..dice.up_to(1) + 1 {
        add_random(dice, kind, image.as_slice(), &mut left, &mut known)?;
    }
    let mut right = Vec::new(heap);
    for _ in 0..dice.up_to(1) + 1 {
        add_random(dice, kind, image.as_slice(), &mut right, &mut known)?;
    }
    let mut whole = Vec::new(heap);
    whole.extend_from_slice(left.as_slice())?;
    whole.extend_from_slice(right.as_slice())?;
    Ok(Case {
        image,
        left,
        right,
        whole,
        known,
    })
}

#[derive(Drop)]
struct Tables {
    nodes: [Node; 40],
    numbers: [u64; 256],
}

fn tables_of(list: &[u8]) -> Result<Tables, Fail> {
    let mut nodes = [Node::ROOT; 40];
    link::build(list, &mut nodes)?;
    let mut numbers = [0u64; 256];
    shift::build(list, &mut numbers)?;
    Ok(Tables { nodes, numbers })
}

// An end is answered as soon as the bytes up to it are taken.
fn asks<F: Finder>(
    rt: &impl Abort,
    scan: &Scan<F>,
    known: &[Known],
    taken: usize,
) -> Result<(), Fail> {
    for (k, one) in known.iter().enumerate() {
        assert_eq!(rt; scan.ask(k)?, one.end.filter(|end| *end <= taken));
    }
    Ok(())
}

// What issuing an order for the landmark in the whole image answers.
fn order_for(known: &[Known], landmark: usize, one: Known, length: usize) -> Answer {
    if one.role == Role::Bar {
        return Err((19, landmark));
    }
    if let Some(bar) = known
        .iter()
        .position(|other| other.role == Role::Bar && other.end.is_some())
    {
        return Err((21, bar));
    }
    match one.end {
        Some(end) if end == length => Err((23, end)),
        Some(end) => Ok(Said::Entry(end)),
        None => Err((22, landmark)),
    }
}

// Opens the scan and offers the image in blocks of at most `size` bytes, each in two parts. All answers are as known.
fn follow<F: Finder>(
    rt: &impl Abort,
    scan: &mut Scan<F>,
    case: &Case,
    size: usize,
) -> Result<(), Fail> {
    scan.open(case.whole.as_slice(), case.image.len())?;
    let mut taken = 0;
    for block in case.image.as_slice().chunks(size.max(1)) {
        let (head, tail) = block.split_at(block.len() / 2);
        taken = scan.offer(taken, head)?;
        taken = scan.offer(taken, tail)?;
        asks(rt, scan, case.known.as_slice(), taken)?;
    }
    for (k, one) in case.known.as_slice().iter().enumerate() {
        assert_eq!(rt;
            enter(scan, k, Way::CarryOut),
            order_for(case.known.as_slice(), k, *one, taken)
        );
    }
    Ok(())
}

fn on_the_whole(rt: &impl Abort, case: &Case, whole: &Tables, size: usize) -> Result<(), Fail> {
    let list = case.whole.as_slice();
    let mut by_links = Scan::new(LinkFinder::mounted(list, &whole.nodes)?);
    follow(rt, &mut by_links, case, size)?;
    let mut by_shifts = Scan::new(ShiftFinder::mounted(list, &whole.numbers)?);
    follow(rt, &mut by_shifts, case, 3)?;
    assert!(rt; agree(&by_links, &by_shifts));
    Ok(())
}

fn on_both_parts(
    rt: &impl Abort,
    case: &Case,
    one: &Tables,
    two: &Tables,
    size: usize,
) -> Result<(), Fail> {
    let mut by_pair = Scan::new(Pair {
        left: LinkFinder::mounted(case.left.as_slice(), &one.nodes)?,
        right: ShiftFinder::mounted(case.right.as_slice(), &two.numbers)?,
    });
    follow(rt, &mut by_pair, case, size)?;
    let mut by_other = Scan::new(Pair {
        left: ShiftFinder::mounted(case.left.as_slice(), &one.numbers)?,
        right: LinkFinder::mounted(case.right.as_slice(), &two.nodes)?,
    });
    follow(rt, &mut by_other, case, 100)?;
    assert!(rt; agree(&by_pair, &by_other));
    Ok(())
}

fn cases(rt: &impl Abort, heap: Global, seed: u64, kind: Kind, count: usize) -> Result<(), Fail> {
    let mut dice = Dice { state: seed };
    for _ in 0..count {
        let case = random_case(heap, &mut dice, kind)?;
        let whole = tables_of(case.whole.as_slice())?;
        on_the_whole(rt, &case, &whole, dice.up_to(9) as usize)?;
        let left = tables_of(case.left.as_slice())?;
        let right = tables_of(case.right.as_slice())?;
        on_both_parts(rt, &case, &left, &right, dice.up_to(9) as usize)?;
    }
    Ok(())
}

#[test]
fn random_lists_and_images(rt: HostRuntime) -> Result<(), Fail> {
    cases(&rt, rt.alloc(), 1, NEAR, 500)
}

#[test]
fn random_words_far_apart(rt: HostRuntime) -> Result<(), Fail> {
    cases(&rt, rt.alloc(), 2, FAR, 100)
}
