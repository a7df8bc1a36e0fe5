//! How much of what a certificate has that takes memory.

ghost use Rattle.std.specs.Prelude.{◌≡◌, ◌<◌, ◌^◌};
ghost use Rattle.std.specs.List.{sum_by};
ghost use Rattle.cert_check.specs.Machined.{denials_of, lemmas_of, parts_of};

use cert_text::CertLine;

// How many parts, denied literals and lemmas some lines have.
#[derive(Clone, Copy)]
pub(crate) struct Needs {
    pub parts: usize,
    pub literals: usize,
    pub lemmas: usize,
}

impl Needs {
    // What the lines need.
    pub(crate) fn of(lines: &[CertLine]) -> Needs
        ensures parts { result.parts ≡ sum_by parts_of lines.now }
        ensures literals { result.literals ≡ sum_by denials_of lines.now }
        ensures lemmas { result.lemmas ≡ sum_by lemmas_of lines.now }
        ensures few_parts { result.parts < 2 ^ 60 }
        ensures few_lemmas { result.lemmas < 2 ^ 60 }
    {
        let (mut parts, mut literals, mut lemmas) = (0, 0, 0);
        for i in 0..lines.len() {
            match lines[i] {
                CertLine::Part(_) => parts += 1,
                CertLine::Deny(_) => literals += 1,
                CertLine::Lemma => lemmas += 1,
                _ => {}
            }
        }
        Needs {
            parts,
            literals,
            lemmas,
        }
    }
}
