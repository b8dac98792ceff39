// Where words begin and end among the run bytes.

// Bit p of `firsts` is set if run byte p is the first of a word, and of `lasts` if it is the last of one.
#[derive(Clone, Copy, Default)]
pub(crate) struct Edges {
    pub(crate) firsts: u64,
    pub(crate) lasts: u64,
}
