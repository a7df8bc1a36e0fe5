//! How far the newest lemma is.

// How far the newest lemma is: none is being proved, its literals are being denied, or its denial is being refuted.
#[derive(Clone, Copy, PartialEq, Eq)]
pub(crate) enum Stage {
    Free,
    Denying,
    Refuting,
}
