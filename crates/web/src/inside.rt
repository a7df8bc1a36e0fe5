//! The calls, on the desk that the host's pointer leads to.

ghost use Rattle.std.specs.Prelude.{◌≡◌, [], ◌++◌, drop, length, option_map, take};
ghost use Rattle.program_options.specs.Options.{IsLawful};
ghost use Rattle.web.specs.Desk.{AssessesBy, Checks, Closes, IsKept, Opens, Proves, Says};

use crate::held::Held;
use answers::{AssessOptions, Options, ProveOptions};
use picture::Rgb;
use std::mem::replace;

/// Opens a bench on a file with options, and returns the status and the handle.
pub fn open_in(held: Held, asked: (&[u8], Options)) -> (Held, (u32, u32))
    requires { IsLawful asked.1 }
    ensures { Opens asked.entry.0.now asked.entry.1 held.desk
        result.0.desk result.1.0 result.1.1 }
{
    let mut desk = held.into_box();
    let answer = desk.open(asked.0, &asked.1);
    (Held::new(desk), answer)
}

/// Answers lines on a bench.
pub fn say_in(held: Held, asked: (u32, &[u8])) -> (Held, u32)
    ensures { Says asked.entry.0 asked.entry.1.now held.desk result.0.desk result.1 }
{
    let mut desk = held.into_box();
    let status = desk.say(asked.0, asked.1);
    (Held::new(desk), status)
}

/// Ends a bench.
pub fn close_in(held: Held, handle: u32) -> (Held, u32)
    ensures { Closes handle held.desk result.0.desk result.1 }
{
    let mut desk = held.into_box();
    let status = desk.close(handle);
    (Held::new(desk), status)
}

/// Checks a certificate. `asked` is the file, the certificate, the givens that are published, if they are passed, and the background.
pub fn check_in(held: Held, asked: (&[u8], &[u8], Option<&[u8]>, Option<Rgb>)) -> (Held, u32)
    ensures checks { Checks asked.entry.0.now asked.entry.3
        (option_map (λ text. text.now) asked.entry.2) asked.entry.1.now
        result.0.desk.text.items result.1 }
    ensures kept { IsKept held.desk result.0.desk }
{
    let mut desk = held.into_box();
    let status = desk.check(asked.0, asked.1, asked.2, asked.3);
    (Held::new(desk), status)
}

/// Makes a certificate. `asked` is the file, the givens and the options.
pub fn prove_in(held: Held, asked: (&[u8], &[u8], ProveOptions)) -> (Held, u32)
    ensures proves { Proves asked.entry.0.now asked.entry.1.now asked.entry.2
        result.0.desk.text.items result.1 }
    ensures kept { IsKept held.desk result.0.desk }
{
    let mut desk = held.into_box();
    let status = desk.prove(asked.0, asked.1, asked.2);
    (Held::new(desk), status)
}

/// The texts of a puzzle's file, and of its givens and its certificate if they are passed.
#[derive(Clone, Copy)]
pub struct Puzzle<'a> {
    pub file: &'a [u8],
    pub givens: Option<&'a [u8]>,
    pub cert: Option<&'a [u8]>,
}

/// Assesses a puzzle with options.
pub fn assess_in(held: Held, asked: (Puzzle<'_>, AssessOptions)) -> (Held, u32)
    ensures assesses { AssessesBy asked.entry.0.file.now
        (option_map (λ text. text.now) asked.entry.0.givens)
        (option_map (λ text. text.now) asked.entry.0.cert) asked.entry.1
        result.0.desk.text.items result.1 }
    ensures kept { IsKept held.desk result.0.desk }
{
    let mut desk = held.into_box();
    let puzzle = asked.0;
    let status = desk.assess(puzzle.file, puzzle.givens, puzzle.cert, &asked.1);
    (Held::new(desk), status)
}

/// Drops the text of the last call.
pub fn forget_in(held: Held, _: ()) -> (Held, ())
    ensures text { result.0.desk.text.items ≡ [] }
    ensures kept { IsKept held.desk result.0.desk }
{
    let mut desk = held.into_box();
    desk.text.clear();
    (Held::new(desk), ())
}

/// Takes the text of the last call out.
pub fn lend_text(held: Held, _: ()) -> (Held, Vec<u8>)
    ensures text { result.1.items ≡ held.desk.text.items }
    ensures kept { IsKept held.desk result.0.desk }
{
    let mut desk = held.into_box();
    let blank = Vec::new(desk.alloc);
    let text = replace(&mut desk.text, blank);
    (Held::new(desk), text)
}

/// Puts that text back.
pub fn keep_text(held: Held, text: Vec<u8>) -> (Held, ())
    ensures text { result.0.desk.text.items ≡ text.items }
    ensures kept { IsKept held.desk result.0.desk }
{
    let mut desk = held.into_box();
    desk.text = text;
    (Held::new(desk), ())
}

/// Copies as many bytes as there is room for, and returns the length of the text.
pub fn copy_front(text: &[u8], out: &mut [u8]) -> usize
    ensures all { result ≡ length text.now }
    ensures front { out.new ≡ take (length out.old) text.now ++ drop (length text.now) out.old }
{
    let count = text.len().min(out.len());
    out[..count].copy_from_slice(&text[..count]);
    text.len()
}
