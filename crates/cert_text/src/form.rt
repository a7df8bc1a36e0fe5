//! The forms of certificates, by their first lines.

/// The form of a certificate, as its first line says it.
#[derive(Clone, Copy, Debug, PartialEq, Eq)]
pub enum Form {
    /// `nonocert 1`: a tree, without givens.
    Tree,
    /// `nonocert 2`: a tree, with givens.
    GivenTree,
    /// `nonolemma 1`: with lemmas.
    Lemmas,
    /// `nonolemma 2`: with lemmas, and several steps on a line.
    LemmaRuns,
}
