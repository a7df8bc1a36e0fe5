//! The benches that a host has opened, and the text of its last call.

ghost use Rattle.std.specs.Prelude.{◌≡◌, ◌⊎◌, ◌<◌, ◌++◌, true, [], Err, length, IfErr, IfOk, IfSome, OnErr, option_map};
ghost use Rattle.program_options.specs.declared.fault.ProgramFault.TheVariants.{Memory, Write as Unwritten};
ghost use Rattle.answers.specs.Open.{OpensFile};
ghost use Rattle.program_options.specs.Options.{IsLawful};
ghost use Rattle.report_text.specs.Report.{palette_text};
ghost use Rattle.web.specs.Desk.{AssessesBy, Checks, Closes, IsKept, IsOpened, IsShort, Opens, Proves, RunsOver, Says, Tells, place_of};

use crate::status::{CLOSED, DONE, MEMORY};
use answers::{
    AssessOptions, Options, ProgramFault, ProveOptions, run_assess, run_prove, start_bench,
};
use line_settle::MaskEngine;
use live_audit::Bench;
use picture::Rgb;
use propagate::InOrder;
use report_text::palette_text;
use session::run_session;
use std::alloc::{AllocError, Global};
use text_check::check_texts;

/// A bench under its handle.
#[derive(Drop)]
pub struct Seat {
    pub handle: u32,
    pub bench: Bench<MaskEngine, InOrder>,
}

/// The benches that are open, the handle that was given last, and the text of the last call.
#[derive(Drop)]
pub struct Desk {
    pub alloc: Global,
    pub seats: Vec<Seat>,
    pub given: u32,
    pub text: Vec<u8>,
}

impl Desk {
    /// A desk without benches.
    pub fn make(alloc: Global) -> Result<Box<Desk>, AllocError>
        ensures seats { IfOk result (λ desk. desk.value.seats.items ≡ []) }
        ensures given { IfOk result (λ desk. desk.value.given ≡ 0) }
    {
        let desk = Desk {
            alloc,
            seats: Vec::new(alloc),
            given: 0,
            text: Vec::new(alloc),
        };
        Ok(Box::new(alloc, desk)?)
    }

    /// Opens a bench on a file, and returns the status and its handle, which was never given before, or 0 where none is
    /// opened. The text says which colour each letter is, or is the file's error.
    pub fn open(&mut self, file: &[u8], options: &Options) -> (u32, u32)
        requires { IsLawful options.now }
        ensures { Opens file.now options.now self.old self.new result.0 result.1 }
    {
        match self.begin(file, options) {
            Ok(handle) => (DONE, handle),
            Err(fault) => (self.refuse(&fault), 0),
        }
    }

    /// Runs a session with these lines as its whole input on the bench of a handle. What it writes is the text.
    pub fn say(&mut self, handle: u32, lines: &[u8]) -> u32
        ensures { Says handle lines.now self.old self.new result }
    {
        self.text.clear();
        match self.place(handle) {
            None => CLOSED,
            Some(at) => say_at(self.alloc, &mut self.seats[at], lines, &mut self.text),
        }
    }

    /// Ends the bench of a handle.
    pub fn close(&mut self, handle: u32) -> u32
        ensures { Closes handle self.old self.new result }
    {
        self.text.clear();
        match self.place(handle) {
            None => CLOSED,
            Some(at) => {
                drop(self.seats.remove(at));
                DONE
            }
        }
    }

    /// Checks a certificate of a picture, by the text of the file of the givens that are published; without it, the certificate may
    /// have any. What the program writes for it, with a line for each of the certificate's givens below, or why it refuses it, is the
    /// text.
    pub fn check(
        &mut self,
        file: &[u8],
        cert: &[u8],
        givens: Option<&[u8]>,
        background: Option<Rgb>,
    ) -> u32
        ensures checks { Checks file.now background (option_map (λ text. text.now) givens.entry)
            cert.now self.new.text.items result }
        ensures kept { IsKept self.old self.new }
    {
        match check_texts(self.alloc, file, cert, givens, background) {
            Ok(accepted) => self.show(accepted.line, accepted.givens),
            Err(fault) => self.refuse(&ProgramFault::from(fault)),
        }
    }

    /// Makes a certificate of a picture with the givens of a text. What the program writes for it, or why it refuses it, is the
    /// text.
    pub fn prove(&mut self, file: &[u8], givens: &[u8], options: ProveOptions) -> u32
        ensures proves { Proves file.now givens.now options self.new.text.items result }
        ensures kept { IsKept self.old self.new }
    {
        self.text.clear();
        match run_prove(self.alloc, file, Some(givens), options, &mut self.text) {
            Ok(()) => DONE,
            Err(ProgramFault::NoCertificate) => DONE,
            Err(fault) => self.refuse(&fault),
        }
    }

    /// Assesses a puzzle by the text of its file, and by those of the givens and the certificate that are passed. The block with the
    /// palette below, or why it is refused, is the text.
    pub fn assess(
        &mut self,
        file: &[u8],
        givens: Option<&[u8]>,
        cert: Option<&[u8]>,
        options: &AssessOptions,
    ) -> u32
        ensures assesses { AssessesBy file.now (option_map (λ text. text.now) givens.entry)
            (option_map (λ text. text.now) cert.entry) options.now self.new.text.items result }
        ensures kept { IsKept self.old self.new }
    {
        match run_assess(self.alloc, file, givens, cert, options) {
            Ok(block) => self.show(block.text, block.palette),
            Err(fault) => self.refuse(&fault),
        }
    }

    // Makes a text with another below it the text. Where memory is refused, there is no text.
    fn show(&mut self, text: Vec<u8>, below: Vec<u8>) -> u32
        ensures shows { IsShort self.new.text.items result ⊎ ((result ≡ 0)
            × (self.new.text.items ≡ text.items ++ below.items)) }
        ensures kept { IsKept self.old self.new }
    {
        self.text = text;
        match self.text.extend_from_slice(&below) {
            Ok(()) => DONE,
            Err(_) => self.refuse(&ProgramFault::Memory),
        }
    }

    // Starts a bench on a file, under the handle after the last one that was given, and makes its palette the text.
    fn begin(&mut self, file: &[u8], options: &Options) -> Result<u32, ProgramFault>
        requires { IsLawful options.now }
        ensures opened { IfOk result (λ handle.
            IsOpened file.now options.now self.old self.new handle) }
        ensures kept { OnErr result (IsKept self.old self.new) }
        ensures fault { IfErr result (λ fault.
            (fault ≡ Memory) ⊎ OpensFile file.now options.now (Err fault)) }
    {
        let handle = self.given.checked_add(1).ok_or(ProgramFault::Memory)?;
        let bench = start_bench(self.alloc, file, options)?;
        let text = palette_in(self.alloc, &bench)?;
        match self.seats.push(Seat { handle, bench }) {
            Ok(()) => {}
            Err(_) => return Err(ProgramFault::Memory),
        }
        self.given = handle;
        self.text = text;
        Ok(handle)
    }

    // Makes the text say why a call was refused, and returns the status. Where memory was or is refused, there is no text.
    fn refuse(&mut self, fault: &ProgramFault) -> u32
        ensures tells { IsShort self.new.text.items result
            ⊎ Tells fault.now self.new.text.items result }
        ensures memory { fault.now ≡ Memory → IsShort self.new.text.items result }
        ensures write { fault.now ≡ Unwritten → IsShort self.new.text.items result }
        ensures kept { IsKept self.old self.new }
    {
        self.text.clear();
        // A write to the text fails only where memory for it is refused.
        if matches!(fault, ProgramFault::Memory | ProgramFault::Write) {
            return MEMORY;
        }
        let Ok(text) = format!(in self.alloc; "{fault}") else {
            return MEMORY;
        };
        self.text = text.into_bytes();
        u32::from(fault.status())
    }

    // The place of the bench with a handle.
    fn place(&self, handle: u32) -> Option<usize>
        ensures place { result ≡ place_of self.now.seats.items handle }
        ensures within { IfSome result (λ at. at < length self.now.seats.items) }
    {
        self.seats.iter().position(|seat| seat.handle == handle)
    }
}

// Which colour each letter is in the present picture of a bench.
fn palette_in(alloc: Global, bench: &Bench<MaskEngine, InOrder>) -> Result<Vec<u8>, AllocError>
    ensures { IfOk result (λ text. text.items ≡ palette_text bench.now.history.document.colours) }
{
    let document = bench.document();
    palette_text(alloc, &document.palette)
}

// Runs a session on one bench. It ends early where memory for its text is refused, or where it needs more reads than a session
// makes: where the lines have more than 4,294,963,200 bytes.
fn say_at(alloc: Global, seat: &mut Seat, lines: &[u8], text: &mut Vec<u8>) -> u32
    ensures handle { seat.new.handle ≡ seat.old.handle }
    ensures runs { RunsOver lines.now text.old.items text.new.items seat.old.bench seat.new.bench
        result }
{
    let mut reader = lines;
    match run_session(alloc, &mut reader, text, &mut seat.bench) {
        Ok(()) => DONE,
        Err(_) => MEMORY,
    }
}
