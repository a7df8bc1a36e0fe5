//! A line of which more bytes may come.

ghost use Rattle.std.specs.Prelude.{◌≡◌, ◌≤◌, ◌++◌, ◌==◌, [], length, take};
ghost use Rattle.std.specs.Str.Lines.{strip_carriage_return};
ghost use Rattle.command_text.specs.Lines.{AsksBounded, request_of};

use crate::request::{MOST_BYTES, Request, request_of};
use std::marker::Model;

// How many bytes of a line are kept: those that it may have, a carriage return, and one more that shows it to be too long.
const KEPT: usize = MOST_BYTES + 2;

// The first bytes of a line, which decide what it asks for. Further bytes are not kept.
#[derive(Drop)]
pub(crate) struct Draft {
    bytes: [u8; KEPT],
    len: usize,
}

impl Model for Draft {
    ghost use Rattle.std.specs.Prelude.{ℕ, List, take, ◌≤◌};

    ghost Value = { List ℕ };

    ghost view = { λ d. take d.len d.bytes };

    ghost invariant = { λ d. d.len ≤ 202 };
}

impl Draft {
    // A line of which no byte has come.
    pub(crate) fn new() -> Draft
        ensures { result ≡ [] }
    {
        Draft {
            bytes: [0; KEPT],
            len: 0,
        }
    }

    // Whether no byte has come.
    pub(crate) fn is_empty(&self) -> bool
        ensures { result ≡ (length self.now == 0) }
    {
        self.len == 0
    }

    // More bytes of the line have come.
    pub(crate) fn extend(&mut self, piece: &[u8])
        ensures { self.new ≡ take 202 (self.old ++ piece.now) }
    {
        let count = piece.len().min(KEPT - self.len);
        let end = self.len + count;
        self.bytes[self.len..end].copy_from_slice(&piece[..count]);
        self.len = end;
    }

    // What the line asks for, now that its end has come.
    pub(crate) fn request(&self) -> Request
        ensures value { result ≡ request_of (strip_carriage_return self.now) }
        ensures bounded { AsksBounded result }
    {
        match &self.bytes[..self.len] {
            [front @ .., b'\r'] => request_of(front),
            line => request_of(line),
        }
    }
}
