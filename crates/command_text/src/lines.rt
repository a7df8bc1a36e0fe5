//! The lines of a session, as they come from a reader.

ghost use Rattle.std.specs.Prelude.{◌≡◌, ◌+◌, ◌-◌, ◌*◌, ◌<◌, ◌≤◌, ◌∷◌, ◌++◌, ◌==◌, [], false, length, take, drop, IfOk, IfSome, OnErr, OnOk, OnSome, position};
ghost use Rattle.std.specs.Io.KnownBytes.{Consumes, IsAtEnd, Keeps};
ghost use Rattle.command_text.specs.Lines.{AsksBounded, Hands, TakesPiece, Waits, is_feed, steps_left};

use crate::draft::Draft;
use crate::request::Request;
use std::io::Read;
use std::marker::Model;

/// A read failed, or more than 1,048,576 reads were needed.
#[derive(Clone, Copy)]
pub struct ReadFault;

// The most reads that a session makes.
const MOST_READS: u32 = 1_048_576;

// How many bytes one read has room for.
const ROOM: usize = 4096;

// The bytes of the last read that are still to be looked at.
#[derive(Drop)]
struct Inbox {
    room: [u8; ROOM],
    start: usize,
    end: usize,
}

impl Model for Inbox {
    ghost use Rattle.std.specs.Prelude.{ℕ, List, take, drop, ◌-◌, ◌≤◌};

    ghost Value = { List ℕ };

    ghost view = { λ b. take (b.end - b.start) (drop b.start b.room) };

    ghost invariant = { λ b. (b.start ≤ b.end) × (b.end ≤ 4096) };
}

impl Inbox {
    fn new() -> Inbox
        ensures { result ≡ [] }
    {
        Inbox {
            room: [0; ROOM],
            start: 0,
            end: 0,
        }
    }

    fn as_slice(&self) -> &[u8]
        ensures { result.now ≡ self.now }
    {
        &self.room[self.start..self.end]
    }

    // Drops the first bytes.
    fn skip(&mut self, count: usize)
        requires { count ≤ length self.old }
        ensures { self.new ≡ drop count self.old }
    {
        self.start += count;
    }

    // Reads once. Bytes that were still to be looked at are lost.
    fn refill<R: Read>(&mut self, reader: &mut R) -> Result<(), ReadFault>
        ensures fits { OnOk result (length self.new ≤ 4096) }
        ensures read { OnOk result
            (Consumes (R.remaining reader.old) (R.remaining reader.new) self.new) }
        ensures end { OnOk result (self.new ≡ [] → IsAtEnd (R.remaining reader.new)) }
        ensures err { OnErr result (Keeps (R.remaining reader.old) (R.remaining reader.new)) }
    {
        self.end = reader.read(&mut self.room).map_err(|_| ReadFault)?;
        self.start = 0;
        Ok(())
    }
}

/// Cuts what a reader gives into lines. A read may end anywhere in a line.
#[derive(Drop)]
pub struct Lines {
    inbox: Inbox,
    reads: u32,
    ended: bool,
}

impl Lines {
    /// The lines of a reader before its first read.
    pub fn new() -> Lines
        ensures waiting { result.inbox ≡ [] }
        ensures ended { result.ended ≡ false }
        ensures reads { result.reads ≡ 0 }
    {
        Lines {
            inbox: Inbox::new(),
            reads: 0,
            ended: false,
        }
    }

    /// What the next line asks for, or None at the end of the input.
    ///
    /// A line ends with a line feed, and a carriage return before that, or at the end of the last line, is dropped. The
    /// last line needs no line feed where it has a byte. However long a line is, at most 202 bytes are kept. An error means
    /// that a read failed, or that more than 1,048,576 reads were needed; the unfinished line is then lost.
    pub fn next<R: Read>(&mut self, reader: &mut R) -> Result<Option<Request>, ReadFault>
        ensures value { Hands (R.remaining reader.old) (R.remaining reader.new) self.old self.new
            result }
        ensures bounded { IfOk result (λ asked. IfSome asked AsksBounded) }
        ensures steps { IfOk result
            (λ asked. OnSome asked (steps_left self.new < steps_left self.old)) }
    {
        let mut draft = Draft::new();
        while self.has_more(reader)? {
            if self.take_piece(&mut draft) {
                return Ok(Some(draft.request()));
            }
        }
        if draft.is_empty() {
            return Ok(None);
        }
        Ok(Some(draft.request()))
    }

    // Whether a byte waits. Where none did, it reads once, unless the end of the input was reached before.
    fn has_more<R: Read>(&mut self, reader: &mut R) -> Result<bool, ReadFault>
        ensures waits { IfOk result (λ more.
            Waits (R.remaining reader.old) (R.remaining reader.new) self.old self.new more) }
        ensures err { OnErr result (Keeps (R.remaining reader.old) (R.remaining reader.new)
            × ((self.old.inbox ≡ []) × (self.old.ended ≡ false))) }
    {
        if self.inbox.as_slice().is_empty() && !self.ended {
            self.read_on(reader)?;
        }
        Ok(!self.inbox.as_slice().is_empty())
    }

    // Reads once, where no byte waits, and notes the end of the input.
    fn read_on<R: Read>(&mut self, reader: &mut R) -> Result<(), ReadFault>
        ensures read { OnOk result
            (Consumes (R.remaining reader.old) (R.remaining reader.new) self.new.inbox) }
        ensures ended { OnOk result (self.new.ended ≡ (length self.new.inbox == 0)) }
        ensures end { OnOk result (self.new.inbox ≡ [] → IsAtEnd (R.remaining reader.new)) }
        ensures steps { OnOk result (steps_left self.new < 4097 * (1048576 - self.old.reads)) }
        ensures err { OnErr result (Keeps (R.remaining reader.old) (R.remaining reader.new)) }
    {
        if self.reads >= MOST_READS {
            return Err(ReadFault);
        }
        self.inbox.refill(reader)?;
        self.reads += 1;
        self.ended = self.inbox.as_slice().is_empty();
        Ok(())
    }

    // Moves what waits to the line, up to a line feed, and returns whether there was one.
    fn take_piece(&mut self, draft: &mut Draft) -> bool
        ensures piece { TakesPiece self.old self.new draft.old draft.new result }
        ensures ended { self.new.ended ≡ self.old.ended }
        ensures reads { self.new.reads ≡ self.old.reads }
    {
        let waiting = self.inbox.as_slice();
        let feed = feed_place(waiting);
        let end = feed.unwrap_or(waiting.len());
        draft.extend(&waiting[..end]);
        self.inbox.skip(end + usize::from(feed.is_some()));
        feed.is_some()
    }
}

// The place of the first line feed.
fn feed_place(bytes: &[u8]) -> Option<usize>
    ensures { result ≡ position is_feed bytes.now }
{
    bytes.iter().position(|b| *b == b'\n')
}
