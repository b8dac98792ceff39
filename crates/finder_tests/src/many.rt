// The link finder on words that share bytes, and on as many and as long words as a list may have.
use finder::{Finder, hear};
use landmark::{Element, write_element};
use link::{LinkFinder, Node, build};
use std::alloc::{AllocError, Global};
use std::process::Abort;
use std::test::Fail;

// the words ab and ab; ab and abc; bc and abc
const EQUAL: &[u8] = b"\x04\x00\x01\x00\x01\x00\x04\x00\x02\x00ab\x04\x00\x02\x00ab";

const PREFIX: &[u8] = b"\x04\x00\x01\x00\x01\x00\x04\x00\x02\x00ab\x05\x00\x02\x00abc";

const SUFFIX: &[u8] = b"\x04\x00\x01\x00\x01\x00\x04\x00\x02\x00bc\x05\x00\x02\x00abc";

// What a finder on the list and its table answers to the last byte.
fn heard(list: &[u8], table: &[Node], bytes: &[u8]) -> Result<u64, Fail> {
    let mut finder = LinkFinder::mounted(list, table)?;
    Ok(hear(&mut finder, bytes))
}

// The table has so many nodes, and the words that end these bytes are those of the masks.
fn hears(
    rt: &impl Abort,
    list: &[u8],
    table: &mut [Node],
    nodes: usize,
    masks: &[(&[u8], u64)],
) -> Result<(), Fail> {
    assert_eq!(rt; build(list, table)?, nodes);
    for (bytes, mask) in masks {
        assert_eq!(rt; heard(list, table, bytes)?, *mask);
    }
    Ok(())
}

#[test]
fn equal_words(rt: HostRuntime) -> Result<(), Fail> {
    let masks: [(&[u8], u64); 3] = [(b"ab", 3), (b"aab", 3), (b"aba", 0)];
    hears(&rt, EQUAL, &mut [Node::ROOT; 5], 3, &masks)
}

#[test]
fn a_word_that_is_a_prefix(rt: HostRuntime) -> Result<(), Fail> {
    let masks: [(&[u8], u64); 3] = [(b"ab", 1), (b"abc", 2), (b"abcab", 1)];
    hears(&rt, PREFIX, &mut [Node::ROOT; 6], 4, &masks)
}

#[test]
fn a_word_that_is_a_suffix(rt: HostRuntime) -> Result<(), Fail> {
    let masks: [(&[u8], u64); 3] = [(b"bc", 1), (b"abc", 3), (b"abbc", 1)];
    hears(&rt, SUFFIX, &mut [Node::ROOT; 6], 6, &masks)
}

// A list that has its start.
fn started(heap: Global) -> Result<Vec<u8>, AllocError> {
    let mut list = Vec::new(heap);
    list.extend_from_slice(b"\x04\x00\x01\x00\x01\x00")?;
    Ok(list)
}

// As the random tests of scans do: test crates share no library, and no library of the project has a heap.
fn add_word(list: &mut Vec<u8>, word: &[u8]) -> Result<(), Fail> {
    let mut record = [0u8; 68];
    let end = write_element(&mut record, 0, Element::Run(word))?;
    list.extend_from_slice(&record[..end])?;
    Ok(())
}

#[test]
fn as_many_equal_words_as_there_may_be(rt: HostRuntime) -> Result<(), Fail> {
    let mut list = started(rt.alloc())?;
    for _ in 0..64 {
        add_word(&mut list, b"ab")?;
    }
    let mut table = vec![in rt.alloc(); Node::ROOT; 129]?;
    assert_eq!(rt; build(list.as_slice(), table.as_mut_slice())?, 3);
    assert_eq!(rt; heard(list.as_slice(), table.as_slice(), b"xab")?, u64::MAX);
    Ok(())
}

#[test]
fn as_many_and_as_long_words_as_there_may_be(rt: HostRuntime) -> Result<(), Fail> {
    let mut list = started(rt.alloc())?;
    for k in 0..64u8 {
        add_word(&mut list, &[k; 64])?;
    }
    let mut table = vec![in rt.alloc(); Node::ROOT; 4097]?;
    assert_eq!(rt; build(list.as_slice(), table.as_mut_slice())?, 4097);
    let mut finder = LinkFinder::mounted(list.as_slice(), table.as_slice())?;
    // byte k, 64 times, is word k and no other
    for k in 0..64u8 {
        assert_eq!(rt; hear(&mut finder, &[k; 63]), 0);
        assert_eq!(rt; finder.take(k), 1u64 << k);
        assert_eq!(rt; finder.take(k), 1u64 << k);
    }
    Ok(())
}
