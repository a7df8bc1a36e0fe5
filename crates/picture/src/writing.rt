//! Writing all bytes to a writer, or a prefix of them.

ghost use Rattle.std.specs.Prelude.{◌<◌, ◌≤◌, length, take, IfOk, OnOk, OnErr};
ghost use Rattle.std.specs.Io.KnownBytes.{Appends, Keeps};
ghost use Rattle.picture.specs.Writers.{AppendsFront, number_text};

use itoa::Buffer;
use std::io::Write;
use thiserror::Error;

/// A write failed, or wrote no byte.
#[derive(Clone, Copy, Debug, PartialEq, Eq, Error)]
#[error("write failed")]
pub struct WriteFault;

#[tactic(auto, using(crate::proofs::WritingLemmas::sending))]
/// Writes all the bytes, or after an error a prefix of them.
pub fn send<W: Write>(bytes: &[u8], writer: &mut W) -> Result<(), WriteFault>
    ensures ok { OnOk result (Appends (W.contents writer.old) (W.contents writer.new) bytes.now) }
    ensures err { OnErr result
        (AppendsFront (W.contents writer.old) (W.contents writer.new) bytes.now) }
{
    let mut sent = 0;
    while sent < bytes.len() {
        sent += write_some(&bytes[sent..], writer)?;
    }
    Ok(())
}

#[tactic(auto, using(crate::proofs::SendingLaws::sending))]
/// Writes a number in decimal digits and a byte after it, or after an error a prefix of them.
pub fn send_number<W: Write>(number: u16, close: u8, writer: &mut W) -> Result<(), WriteFault>
    ensures ok { OnOk result
        (Appends (W.contents writer.old) (W.contents writer.new) (number_text number close)) }
    ensures err { OnErr result
        (AppendsFront (W.contents writer.old) (W.contents writer.new) (number_text number close)) }
{
    let mut buffer = Buffer::new();
    send(buffer.format(number).as_bytes(), writer)?;
    send(&[close], writer)
}

// Writes at least one of the bytes, and says how many.
fn write_some<W: Write>(bytes: &[u8], writer: &mut W) -> Result<usize, WriteFault>
    requires { 0 < length bytes.now }
    ensures count { IfOk result (λ n. (0 < n) × (n ≤ length bytes.now)) }
    ensures ok { IfOk result
        (λ n. Appends (W.contents writer.old) (W.contents writer.new) (take n bytes.now)) }
    ensures err { OnErr result (Keeps (W.contents writer.old) (W.contents writer.new)) }
{
    match writer.write(bytes) {
        Ok(0) | Err(_) => Err(WriteFault),
        Ok(count) => Ok(count),
    }
}
