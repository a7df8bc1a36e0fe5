//! The part of a list of literals that a lemma has.

// Where a lemma's literals begin and how many they are, and whether the lemma is kept.
#[derive(Clone, Copy)]
pub(crate) struct Span {
    pub start: usize,
    pub len: u16,
    pub kept: bool,
}
