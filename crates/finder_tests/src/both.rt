// What the tests of both finders share.
use finder::Finder;
use landmark::Fault;
use std::process::Abort;

// ab, bab and b, each a landmark of its own
pub(crate) const THREE: &[u8] =
    b"\x04\x00\x01\x00\x01\x00\x04\x00\x02\x00ab\x04\x00\x01\x00\x01\x00\x05\x00\x02\x00bab\x04\x00\x01\x00\x01\x00\x03\x00\x02\x00b";

// The number and the detail of the refusal, if there is one.
pub(crate) fn refused<T: Drop>(answer: Result<T, Fault>) -> Result<(), (u8, usize)> {
    answer
        .map(|_| ())
        .map_err(|fault| (fault.refusal.number(), fault.detail))
}

// What a finder on the three words answers: abab in front of and behind an x, and b at rest.
pub(crate) fn answers<F: Finder>(rt: &impl Abort, finder: &mut F) {
    let heard = [
        (b'a', 0),
        (b'b', 5),
        (b'a', 0),
        (b'b', 7),
        (b'x', 0),
        (b'a', 0),
        (b'b', 5),
        (b'a', 0),
        (b'b', 7),
    ];
    for (b, words) in heard {
        assert_eq!(rt; finder.take(b), words);
    }
    finder.rest();
    assert_eq!(rt; finder.take(b'b'), 4);
    assert_eq!(rt; finder.count(), 3);
    assert_eq!(rt; finder.length_of(1), 3);
    assert_eq!(rt; finder.length_of(3), 0);
    assert_eq!(rt; finder.byte_of(1, 1), b'a');
    assert_eq!(rt; finder.byte_of(1, 3), 0);
}
