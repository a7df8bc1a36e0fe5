//! What was asked of the system so far. It exists only in proofs: at run time it takes no memory, and its methods do nothing.

ghost use Rattle.std.specs.Prelude.{◌≡◌};
ghost use base.Fml.{ftrue};
ghost use Rattle.nonobench.specs.Asked.{Asked, nothing_asked};

use std::marker::Model;

/// The names that were opened, in order, and how often an opening or a read failed, as they were noted.
#[derive(Drop)]
pub(crate) struct Log {
    pub(crate) ghost asked: { Asked },
}

impl Model for Log {
    ghost also_owns = { λ _. ftrue };
}

/// What is noted: a file was opened, or could not be; or a read failed.
#[derive(Clone, Copy, Drop)]
pub(crate) enum Note<'a> {
    Opened(&'a str),
    NotOpened(&'a str),
    NotRead,
}

impl Log {
    ghost use Rattle.nonobench.specs.Noted.{noted};

    pub(crate) fn new() -> Log
        ensures { result.asked ≡ nothing_asked }
    {
        Log {}
    }

    /// The log with one note more.
    pub(crate) fn and(&self, _note: &Note<'_>) -> Log
        ensures { result.asked ≡ noted self.now.asked _note.now }
    {
        Log {}
    }
}
