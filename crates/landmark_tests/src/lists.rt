// Reading whole lists: the order of records, the sums of gaps, and the limits.
use landmark::{ListWords, Records, read_list};
use std::alloc::{AllocError, Global};
use std::process::Abort;
use std::test::Fail;

// A list written one letter a record: E and B are starts, r and s runs of 1 and 64 bytes, * a star, ? an any,
// 0 a gap {0,0}, w a gap {255,255}, v a gap {0,255}, x a byte that is no record.
fn list_of(heap: Global, letters: &[u8]) -> Result<Vec<u8>, AllocError> {
    let mut list = Vec::new(heap);
    for letter in letters {
        let record: &[u8] = match *letter {
            b'E' => b"\x04\x00\x01\x00\x01\x00",
            b'B' => b"\x04\x00\x01\x00\x02\x00",
            b'r' => b"\x03\x00\x02\x00a",
            b's' =>
                b"\x42\x00\x02\x00aaaaaaaaaaaaaaaaaaaaaaaaaaaaaaaaaaaaaaaaaaaaaaaaaaaaaaaaaaaaaaaa",
            b'*' => b"\x02\x00\x04\x00",
            b'?' => b"\x02\x00\x05\x00",
            b'0' => b"\x06\x00\x03\x00\x00\x00\x00\x00",
            b'w' => b"\x06\x00\x03\x00\xff\x00\xff\x00",
            b'v' => b"\x06\x00\x03\x00\x00\x00\xff\x00",
            _ => b"\x00",
        };
        list.extend_from_slice(record)?;
    }
    Ok(list)
}

// A list, and what reading it answers: its words, or the number and the detail of its fault.
struct Case {
    letters: &'static [u8],
    verdict: Result<usize, (u8, usize)>,
}

const CASES: [Case; 33] = [
    Case {
        letters: b"",
        verdict: Err((5, 0)),
    },
    Case {
        letters: b"x",
        verdict: Err((1, 0)),
    },
    Case {
        letters: b"r",
        verdict: Err((5, 0)),
    },
    Case {
        letters: b"*",
        verdict: Err((5, 0)),
    },
    Case {
        letters: b"E",
        verdict: Err((5, 6)),
    },
    Case {
        letters: b"EE",
        verdict: Err((5, 6)),
    },
    Case {
        letters: b"E*r",
        verdict: Err((5, 6)),
    },
    Case {
        letters: b"E?r",
        verdict: Err((5, 6)),
    },
    Case {
        letters: b"E0r",
        verdict: Err((5, 6)),
    },
    Case {
        letters: b"Er",
        verdict: Ok(1),
    },
    Case {
        letters: b"Err",
        verdict: Ok(2),
    },
    Case {
        letters: b"Er*",
        verdict: Err((5, 15)),
    },
    Case {
        letters: b"Er*E",
        verdict: Err((5, 15)),
    },
    Case {
        letters: b"ErB",
        verdict: Err((5, 17)),
    },
    Case {
        letters: b"ErBs",
        verdict: Ok(2),
    },
    Case {
        letters: b"Erx",
        verdict: Err((1, 11)),
    },
    Case {
        letters: b"Er*r",
        verdict: Ok(2),
    },
    Case {
        letters: b"Erwr",
        verdict: Ok(2),
    },
    Case {
        letters: b"Erw?r",
        verdict: Err((6, 23)),
    },
    Case {
        letters: b"Erw0r",
        verdict: Ok(2),
    },
    Case {
        letters: b"Erv?r",
        verdict: Err((6, 23)),
    },
    Case {
        letters: b"Erv?*r",
        verdict: Ok(2),
    },
    Case {
        letters: b"Er*v?r",
        verdict: Ok(2),
    },
    Case {
        letters: b"Erw*?r",
        verdict: Err((6, 27)),
    },
    Case {
        letters: b"Erw?",
        verdict: Err((5, 23)),
    },
    Case {
        letters: b"Erw?B",
        verdict: Err((5, 23)),
    },
    Case {
        letters: b"Erw?x",
        verdict: Err((1, 23)),
    },
    Case {
        letters: b"Erwrwr",
        verdict: Ok(3),
    },
    Case {
        letters: b"ErErErErErErErErErErErErErErErErErErErErErErErErErErErErErErErEr",
        verdict: Ok(32),
    },
    Case {
        letters: b"ErErErErErErErErErErErErErErErErErErErErErErErErErErErErErErErErEr",
        verdict: Err((7, 352)),
    },
    Case {
        letters: b"ErErErErErErErErErErErErErErErErErErErErErErErErErErErErErErErEr*E",
        verdict: Err((5, 356)),
    },
    Case {
        letters: b"Errrrrrrrrrrrrrrrrrrrrrrrrrrrrrrrrrrrrrrrrrrrrrrrrrrrrrrrrrrrrrrr",
        verdict: Ok(64),
    },
    Case {
        letters: b"Errrrrrrrrrrrrrrrrrrrrrrrrrrrrrrrrrrrrrrrrrrrrrrrrrrrrrrrrrrrrrrrr",
        verdict: Err((7, 326)),
    },
];

fn answers(rt: &impl Abort, case: &Case, list: &[u8]) {
    let verdict = read_list(list)
        .map(|counts| counts.words)
        .map_err(|fault| (fault.refusal.number(), fault.detail));
    assert_eq!(rt; verdict, case.verdict, "the list {:?}", case.letters);
}

#[test]
fn every_list_of_the_table(rt: HostRuntime) -> Result<(), Fail> {
    for case in CASES.iter() {
        let list = list_of(rt.alloc(), case.letters)?;
        answers(&rt, case, list.as_slice());
    }
    Ok(())
}

#[test]
fn an_unbounded_row_of_zero_gaps(rt: HostRuntime) -> Result<(), Fail> {
    let mut list = list_of(rt.alloc(), b"Er")?;
    let zero = list_of(rt.alloc(), b"0")?;
    for _ in 0..100000 {
        list.extend_from_slice(zero.as_slice())?;
    }
    let run = list_of(rt.alloc(), b"s")?;
    list.extend_from_slice(run.as_slice())?;
    let counts = read_list(list.as_slice())?;
    assert_eq!(rt; counts.landmarks, 1);
    assert_eq!(rt; counts.words, 2);
    assert_eq!(rt; counts.run_bytes, 65);
    Ok(())
}

#[test]
fn sums_that_pass_any_counter(rt: HostRuntime) -> Result<(), Fail> {
    let mut list = list_of(rt.alloc(), b"Er")?;
    let wide = list_of(rt.alloc(), b"wv")?;
    for _ in 0..70000 {
        list.extend_from_slice(wide.as_slice())?;
    }
    let place = list.len();
    let run = list_of(rt.alloc(), b"r")?;
    list.extend_from_slice(run.as_slice())?;
    let Err(fault) = read_list(list.as_slice()) else {
        return Err(Fail::new("accepted"));
    };
    assert_eq!(rt; fault.refusal.number(), 6);
    assert_eq!(rt; fault.detail, place);
    Ok(())
}

#[test]
fn faults_in_plain_words(rt: HostRuntime) -> Result<(), Fail> {
    let Err(fault) = read_list(b"") else {
        return Err(Fail::new("accepted"));
    };
    let text = format!(in rt.alloc(); "{fault}")?;
    assert!(rt;
        text.as_str()
            == "5 0: a list begins with a start, a run follows each start, and each landmark ends with a run (at byte 0)"
    );
    Ok(())
}

#[test]
fn records_up_to_the_first_fault(rt: HostRuntime) -> Result<(), Fail> {
    let list = list_of(rt.alloc(), b"Erxr")?;
    let mut places = vec![in rt.alloc()]?;
    for read in Records::of(list.as_slice()) {
        places.push(
            read.map(|read| read.place)
                .map_err(|fault| (fault.refusal.number(), fault.detail)),
        )?;
    }
    assert_eq!(rt; places.as_slice(), [Ok(0), Ok(6), Err((1, 11))].as_slice());
    assert_eq!(rt; Records::from_place(list.as_slice(), 6).count(), 2);
    Ok(())
}

#[test]
fn words_in_order(rt: HostRuntime) -> Result<(), Fail> {
    let list = list_of(rt.alloc(), b"Er*sBrx")?;
    let sizes: Vec<usize> = ListWords::of(list.as_slice())
        .map(|word| word.len())
        .collect(rt.alloc())?;
    assert_eq!(rt; sizes.as_slice(), [1, 64, 1].as_slice());
    Ok(())
}
