//! Colours by their letters.

ghost use Rattle.std.specs.Prelude.{◌≡◌, ◌<◌, ◌≤◌, ◌^◌, IfSome, OnOk, OnErr};
ghost use Rattle.std.specs.Io.KnownBytes.{Appends};
ghost use Rattle.picture.specs.Writers.{AppendsFront};
ghost use Rattle.cert_text.specs.Letters.{colour_at, colours_named, letter, letter_where, letters_text};

use picture::{MAX_COLOURS, WriteFault, send};
use std::io::Write;

// The colour that a letter names: `.` is the background, and `a` to `o` are 1 to 15.
fn colour_in(byte: u8) -> Option<u8>
    ensures value { result ≡ colour_at byte }
    ensures small { IfSome result (λ k. k < 16) }
{
    match byte {
        b'.' => Some(0),
        b'a'..=b'o' => Some(byte - (b'a' - 1)),
        _ => None,
    }
}

// The mask of the colours that a word names by letters in ascending order, at least one.
pub(crate) fn colours_in(word: &[u8]) -> Option<u16>
    ensures value { result ≡ colours_named word.now }
    ensures some { IfSome result (λ colours. 0 < colours) }
{
    if word.is_empty() {
        return None;
    }
    let mut colours: u16 = 0;
    let mut least = 0;
    for i in 0..word.len() {
        let colour = colour_in(word[i])?;
        if colour < least {
            return None;
        }
        colours += 1 << colour;
        least = colour + 1;
    }
    Some(colours)
}

// The letter of a colour.
fn letter_of(colour: u8) -> u8
    requires { colour < 16 }
    ensures { result ≡ letter colour }
{
    if colour == 0 { b'.' } else { b'a' - 1 + colour }
}

// Writes the letter of a colour, if a mask has it.
fn send_letter<W: Write>(colours: u16, colour: u8, writer: &mut W) -> Result<(), WriteFault>
    requires { colour < 16 }
    ensures ok { OnOk result
        (Appends (W.contents writer.old) (W.contents writer.new) (letter_where colours colour)) }
    ensures err { OnErr result (AppendsFront
        (W.contents writer.old) (W.contents writer.new) (letter_where colours colour)) }
{
    if colours & (1 << colour) == 0 {
        send(b"", writer)
    } else {
        send(&[letter_of(colour)], writer)
    }
}

#[tactic(auto, using(picture::proofs::SendingLaws::pieces))]
// Writes the letters of the colours of a mask, in ascending order.
pub(crate) fn send_letters<W: Write>(colours: u16, writer: &mut W) -> Result<(), WriteFault>
    ensures ok { OnOk result
        (Appends (W.contents writer.old) (W.contents writer.new) (letters_text colours)) }
    ensures err { OnErr result
        (AppendsFront (W.contents writer.old) (W.contents writer.new) (letters_text colours)) }
{
    for colour in 0..MAX_COLOURS {
        send_letter(colours, colour, writer)?;
    }
    Ok(())
}
