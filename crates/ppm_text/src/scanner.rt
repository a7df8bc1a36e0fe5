//! The tokens of a P3 text: numbers with their byte offsets, without white space and comments.

ghost use Rattle.std.specs.Prelude.{◌≡◌, ℕ, ◌+◌, ◌∷◌, ◌<◌, ◌≤◌, length, slice_index, drop, is_some, true, false, IfNone, IfSome, IfOk};
ghost use Rattle.picture.specs.Readers.{Reads};
ghost use Rattle.ppm_text.specs.Tokens.{is_gap, tokens_from, tokens_at, without_comments, magic_of, next_place};
ghost use Rattle.ppm_text.specs.Numerals.{ReadsNumber, begins_number, capped_at, number_on};
ghost use Rattle.ppm_text.specs.ClosedNumbers.{IsBehind, IsClosedNumber, begins_white};

use crate::fault::{PpmFault, Read};
use std::marker::Model;

// Greater numbers are read as this one, which is above every limit.
const CAP: u32 = 65_536;

/// A number, and the byte at which its digits begin.
#[derive(Clone, Copy, Drop)]
pub struct Numeral {
    pub place: usize,
    pub value: u32,
}

/// The tokens of a text that are still to be read.
#[derive(Drop)]
pub struct Scanner<'a> {
    bytes: &'a [u8],
    at: usize,
}

impl<'a> Model for Scanner<'a> {
    ghost use Rattle.std.specs.Prelude.{◌≤◌, length};
    ghost use Rattle.ppm_text.specs.Tokens.{Unread, tokens_at};

    ghost Value = { Unread };

    ghost view = { λ s. record { end = length s.bytes.now; tokens = tokens_at s.bytes.now s.at } };

    ghost invariant = { λ s. s.at ≤ length s.bytes.now };
}

impl<'a> Scanner<'a> {
    /// Reads the magic `P3`, or answers `NotP3`.
    pub fn start(bytes: &'a [u8]) -> Read<Scanner<'a>>
        ensures { Reads (λ s. s) result (magic_of bytes.now) }
    {
        match bytes {
            [b'P', b'3'] | [b'P', b'3', b' ' | 9..=13 | b'#', ..] => Ok(Scanner { bytes, at: 2 }),
            _ => Err(PpmFault::NotP3(0)),
        }
    }

    // Each sample of a picture is read here, so this and what it calls are inlined into its caller's loop.
    #[inline(always)]
    /// Reads the next token as a number, at most `CAP`. The errors are `Truncated` and `BadNumber`.
    pub fn numeral(&mut self) -> Read<Numeral>
        ensures read { Reads (λ n. (n, self.new.tokens)) result
            (capped_at self.old.end self.old.tokens) }
        ensures end { self.new.end ≡ self.old.end }
    {
        let (numeral, end) = numeral_after(self.bytes, self.at)?;
        self.at = end;
        Ok(numeral)
    }

    #[tactic(auto, using(crate::proofs::NextNumeral::next_token))]
    /// The byte at which the next token begins, if there is one.
    pub fn next_place(&self) -> Option<usize>
        ensures { result ≡ next_place self.now.tokens }
    {
        let place = token_start(self.bytes, self.at);
        (place < self.bytes.len()).then_some(place)
    }
}

#[tactic(auto, using(crate::proofs::NextNumeral::closed_token))]
#[inline(always)]
// The next number from a place on, and a place after its token. Usually it begins at once, and white space ends it.
fn numeral_after(bytes: &[u8], from: usize) -> Read<(Numeral, usize)>
    requires { from ≤ length bytes.now }
    ensures read { ReadsNumber bytes.now from result }
    ensures within { IfOk result (λ x. x.1 ≤ length bytes.now) }
{
    match closed_number(&bytes[from..]) {
        Some((value, count)) => Ok((Numeral { place: from, value }, from + count)),
        None => any_numeral(bytes, from),
    }
}

#[tactic(auto, using(crate::proofs::ClosedNumbers::closed_numbers))]
#[inline(always)]
// The number that begins a text, and its length with the white space that must end it. Most have up to three digits.
fn closed_number(text: &[u8]) -> Option<(u32, usize)>
    ensures { IfSome result (λ x. IsClosedNumber text.now x.0 x.1) }
{
    let (first, rest) = first_digit(text)?;
    let Some((second, rest)) = first_digit(rest) else {
        return begins_white(rest).then_some((first, 2));
    };
    let tens = first * 10 + second;
    let Some((third, rest)) = first_digit(rest) else {
        return begins_white(rest).then_some((tens, 3));
    };
    let (value, rest) = count_on(tens * 10 + third, rest);
    if begins_white(rest) {
        return Some((value, text.len() - rest.len() + 1));
    }
    None
}

// Whether a text begins with white space.
fn begins_white(text: &[u8]) -> bool
    ensures { result ≡ begins_white text.now }
{
    matches!(text, [b' ' | 9..=13, ..])
}

#[tactic(auto, using(crate::proofs::NextNumeral::next_numeral))]
#[inline(never)]
// As `numeral_after`, for any number, also after white space and comments.
fn any_numeral(bytes: &[u8], from: usize) -> Read<(Numeral, usize)>
    requires { from ≤ length bytes.now }
    ensures read { ReadsNumber bytes.now from result }
    ensures within { IfOk result (λ x. x.1 ≤ length bytes.now) }
{
    let place = token_start(bytes, from);
    if place >= bytes.len() {
        return Err(PpmFault::Truncated(place));
    }
    let (value, end) = count_digits(bytes, place);
    match behind_token(bytes, end) {
        Some(behind) => Ok((Numeral { place, value }, behind)),
        None => Err(PpmFault::BadNumber(place)),
    }
}

#[tactic(auto, using(crate::proofs::Scanning::scanning))]
#[inline(never)]
// Where the next token begins, or the end of the text.
fn token_start(bytes: &[u8], from: usize) -> usize
    requires { from ≤ length bytes.now }
    ensures within { result ≤ length bytes.now }
    ensures same { tokens_at bytes.now result ≡ tokens_at bytes.now from }
    ensures stops { result < length bytes.now → is_gap (slice_index bytes.now result) ≡ false }
{
    let mut at = from;
    while at < bytes.len()
        && let Some(behind) = behind_gap(bytes, at)
    {
        at = behind;
    }
    at
}

#[tactic(auto, using(crate::proofs::Scanning::scanning))]
#[inline(always)]
// A place after the white space byte or the comment that begins here, if one does.
fn behind_gap(bytes: &[u8], at: usize) -> Option<usize>
    requires { at < length bytes.now }
    ensures further { IfSome result (λ behind. at < behind) }
    ensures within { IfSome result (λ behind. behind ≤ length bytes.now) }
    ensures same { IfSome result (λ behind. tokens_at bytes.now behind ≡ tokens_at bytes.now at) }
    ensures gap { is_some result ≡ is_gap (slice_index bytes.now at) }
{
    match bytes[at] {
        b' ' | 9..=13 => Some(at + 1),
        b'#' => Some(comment_end(bytes, at + 1)),
        _ => None,
    }
}

#[tactic(auto, using(crate::proofs::Scanning::scanning))]
#[inline(never)]
// Where a comment ends that was opened before this place: at a line end, or at the end of the text.
fn comment_end(bytes: &[u8], from: usize) -> usize
    requires { from ≤ length bytes.now }
    ensures further { from ≤ result }
    ensures within { result ≤ length bytes.now }
    ensures same { tokens_at bytes.now result
        ≡ tokens_from false from (without_comments true (drop from bytes.now)) }
{
    let mut at = from;
    while at < bytes.len() && !matches!(bytes[at], b'\n' | b'\r') {
        at += 1;
    }
    at
}

#[tactic(auto, using(crate::proofs::Counting::counting))]
#[inline(always)]
// The number that the digits from a place on spell, and where they end.
fn count_digits(bytes: &[u8], from: usize) -> (u32, usize)
    requires { from ≤ length bytes.now }
    ensures within { result.1 ≤ length bytes.now }
    ensures value { number_on (Some result.0) (drop result.1 bytes.now)
        ≡ number_on (Some 0) (drop from bytes.now) }
    ensures rest { tokens_from true result.1 (without_comments false (drop result.1 bytes.now))
        ≡ tokens_from true from (without_comments false (drop from bytes.now)) }
    ensures stops { begins_number (drop result.1 bytes.now) ≡ false }
{
    let (value, rest) = count_on(0, &bytes[from..]);
    (value, bytes.len() - rest.len())
}

#[tactic(auto, using(crate::proofs::Counting::counting))]
#[inline(always)]
// A number with the digits that begin a text appended, at most `CAP`, and the rest of the text.
fn count_on(number: u32, text: &[u8]) -> (u32, &[u8])
    requires { number ≤ 65536 }
    ensures value { number_on (Some result.0) result.1.now ≡ number_on (Some number) text.now }
    ensures rest { IsBehind text.now result.1.now }
    ensures stops { begins_number result.1.now ≡ false }
{
    let mut rest = text;
    let mut value = number;
    while let Some((digit, behind)) = first_digit(rest) {
        value = (value * 10 + digit).min(CAP);
        rest = behind;
    }
    (value, rest)
}

#[inline(always)]
// The value of the digit that begins a text, and the rest of the text, or `None` if no digit does.
fn first_digit(text: &[u8]) -> Option<(u32, &[u8])>
    ensures some { IfSome result (λ x. text.now ≡ (48 + x.0) ∷ x.1.now) }
    ensures value { IfSome result (λ x. x.0 ≤ 9) }
    ensures none { IfNone result (begins_number text.now ≡ false) }
{
    match text {
        [digit @ b'0'..=b'9', behind @ ..] => Some((u32::from(*digit - b'0'), behind)),
        _ => None,
    }
}

#[tactic(auto, using(crate::proofs::Counting::token_end))]
#[inline(always)]
// A place after a token whose digits end here, or `None` if the token goes on with another byte.
fn behind_token(bytes: &[u8], end: usize) -> Option<usize>
    requires { end ≤ length bytes.now }
    ensures within { IfSome result (λ behind. behind ≤ length bytes.now) }
    ensures ends { IfSome result
        (λ behind. (n : ℕ) → number_on (Some n) (drop end bytes.now) ≡ Some n) }
    ensures rest { IfSome result
        (λ behind. tokens_from true end (without_comments false (drop end bytes.now))
        ≡ tokens_at bytes.now behind) }
    ensures other { IfNone result (end < length bytes.now) }
    ensures goes_on { IfNone result (is_gap (slice_index bytes.now end) ≡ false) }
{
    if end >= bytes.len() {
        return Some(end);
    }
    behind_gap(bytes, end)
}
