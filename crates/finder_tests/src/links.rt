// The link finder: its tables, its answers, and every refusal of building and mounting.
use crate::both::{THREE, answers, refused};
use link::{LinkFinder, Node, build};
use std::test::Fail;

// he, she, his and hers, each a landmark of its own
const HERS: &[u8] =
    b"\x04\x00\x01\x00\x01\x00\x04\x00\x02\x00he\x04\x00\x01\x00\x01\x00\x05\x00\x02\x00she\x04\x00\x01\x00\x01\x00\x05\x00\x02\x00his\x04\x00\x01\x00\x01\x00\x06\x00\x02\x00hers";

#[test]
fn three_words_in_abab_by_links(rt: HostRuntime) -> Result<(), Fail> {
    let mut table = [Node::ROOT; 7];
    assert_eq!(rt; build(THREE, &mut table)?, 6);
    answers(&rt, &mut LinkFinder::mounted(THREE, &table)?);
    Ok(())
}

#[test]
fn textbook_failure_links(rt: HostRuntime) -> Result<(), Fail> {
    let mut table = [Node::ROOT; 13];
    assert_eq!(rt; build(HERS, &mut table)?, 10);
    let backs = [0u16, 0, 0, 0, 1, 2, 0, 3, 0, 3];
    for (node, back) in table.iter().zip(backs.iter()) {
        assert_eq!(rt; node.back, *back);
    }
    assert!(rt; table[10] == Node::ROOT);
    Ok(())
}

#[test]
fn short_tables(rt: HostRuntime) -> Result<(), Fail> {
    let mut table = [Node::ROOT; 6];
    assert_eq!(rt; refused(build(THREE, &mut table)), Err((10, 7)));
    assert_eq!(rt;
        refused(LinkFinder::new().mount(THREE, &table)),
        Err((10, 7))
    );
    assert_eq!(rt; refused(LinkFinder::new().mount(b"", &table)), Err((5, 0)));
    Ok(())
}

#[test]
fn one_wrong_number_in_each_field(rt: HostRuntime) -> Result<(), Fail> {
    let mut table = [Node::ROOT; 7];
    assert_eq!(rt; build(THREE, &mut table)?, 6);
    table[6] = Node {
        depth: 9,
        byte: 9,
        first: 9,
        next: 9,
        back: 9,
        mask: 9,
    };
    assert_eq!(rt; refused(LinkFinder::new().mount(THREE, &table)), Ok(()));
    table[5].mask = 6;
    assert_eq!(rt;
        refused(LinkFinder::new().mount(THREE, &table)),
        Err((11, 5))
    );
    table[4].back = 0;
    assert_eq!(rt;
        refused(LinkFinder::new().mount(THREE, &table)),
        Err((11, 4))
    );
    table[3].next = 5;
    assert_eq!(rt;
        refused(LinkFinder::new().mount(THREE, &table)),
        Err((11, 3))
    );
    table[2].first = 60000;
    assert_eq!(rt;
        refused(LinkFinder::new().mount(THREE, &table)),
        Err((11, 2))
    );
    table[1].byte = 98;
    assert_eq!(rt;
        refused(LinkFinder::new().mount(THREE, &table)),
        Err((11, 1))
    );
    table[0].depth = 1;
    assert_eq!(rt;
        refused(LinkFinder::new().mount(THREE, &table)),
        Err((11, 0))
    );
    Ok(())
}
