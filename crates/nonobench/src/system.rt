//! The files of the system. The proofs know nothing of their contents, but each call is noted.

ghost use Rattle.std.specs.Prelude.{◌≡◌};
ghost use Rattle.nonobench.specs.Asked.{nothing_asked};

use crate::log::{Log, Note};
use program::Files;
use std::io::{self, Read};
use std::{fs, rt};

/// The files of the system, with a log of what was asked of them.
#[derive(Drop)]
pub(crate) struct System<'a, R> {
    rt: &'a R,
    pub(crate) log: Log,
}

impl<'a, R> System<'a, R> {
    pub(crate) fn new(rt: &'a R) -> System<'a, R>
        ensures { result.log.asked ≡ nothing_asked }
    {
        System {
            rt,
            log: Log::new(),
        }
    }
}

impl<R: rt::Files> Files for System<'_, R> {
    type File = R::File;

    ghost opened = { λ system. system.log.asked.opened };

    ghost faults = { λ system. system.log.asked.faults };

    fn open(&mut self, path: &str) -> io::Result<R::File> {
        let answer = fs::open(self.rt, path);
        let note = match answer {
            Ok(_) => Note::Opened(path),
            Err(_) => Note::NotOpened(path),
        };
        self.log = self.log.and(&note);
        answer
    }

    fn read_from<S: Read>(&mut self, reader: &mut S, buffer: &mut [u8]) -> io::Result<usize> {
        let answer = reader.read(buffer);
        if answer.is_err() {
            self.log = self.log.and(&Note::NotRead);
        }
        answer
    }
}
