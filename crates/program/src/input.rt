//! Reads an input to its end.

ghost use Rattle.std.specs.Prelude.{◌≡◌, ◌⊎◌, ◌<◌, ◌≤◌, ℕ, List, length, take, IfOk, IfErr, IfSome, MatchResult};
ghost use Rattle.std.specs.Io.KnownBytes.{Consumes, IsAtEnd};
ghost use Rattle.program.specs.Files.{FailsBy};
ghost use Rattle.program_options.specs.declared.fault.ProgramFault.TheVariants.{Memory, TooLong, Read as Unread};

use crate::files::Files;
use answers::ProgramFault;
use std::alloc::Global;
use std::io::Read;

/// The largest size of an input, in bytes.
pub const MAX_INPUT: usize = 16_777_216;

// The size of the buffer for one read, in bytes.
const ROOM: usize = 4096;

/// Reads an input to its end. `TooLong` where it has more than 16,777,216 bytes, else `Read`, if a read failed, or `Memory`.
pub fn read_input<F: Files, R: Read>(
    alloc: Global,
    files: &mut F,
    reader: &mut R,
) -> Result<Vec<u8>, ProgramFault>
    ensures all { IfOk result
        (λ bytes. IfSome (R.remaining reader.old) (λ input. bytes.items ≡ input)) }
    ensures fits { IfOk result (λ bytes. length bytes.items ≤ 16777216) }
    ensures long { result ≡ Err ProgramFault.TooLong
        → IfSome (R.remaining reader.old) (λ input. 16777216 < length input) }
    ensures only { IfErr result (λ e. (e ≡ TooLong) ⊎ ((e ≡ Unread) ⊎ (e ≡ Memory))) }
    ensures keeps { (name : List ℕ) → F.held files.new name ≡ F.held files.old name }
    ensures opens { F.opened files.new ≡ F.opened files.old }
    ensures cause { FailsBy (F.faults files.old) (F.faults files.new) result }
{
    let mut bytes = Vec::new(alloc);
    let mut buffer = [0; ROOM];
    loop {
        let count = read_some(files, reader, &mut buffer)?;
        if count == 0 {
            return Ok(bytes);
        }
        if bytes.len() + count > MAX_INPUT {
            return Err(ProgramFault::TooLong);
        }
        bytes.extend_from_slice(&buffer[..count])?;
    }
}

// One read, and how many bytes it gave: none only at the end of the input.
fn read_some<F: Files, R: Read>(
    files: &mut F,
    reader: &mut R,
    buffer: &mut [u8],
) -> Result<usize, ProgramFault>
    requires { 0 < length buffer.old }
    ensures within { IfOk result (λ count. count ≤ length buffer.new) }
    ensures bytes { IfOk result (λ count.
        Consumes (R.remaining reader.old) (R.remaining reader.new) (take count buffer.new)) }
    ensures end { IfOk result (λ count. count ≡ 0 → IsAtEnd (R.remaining reader.new)) }
    ensures err { IfErr result (λ e. e ≡ Unread) }
    ensures keeps { (name : List ℕ) → F.held files.new name ≡ F.held files.old name }
    ensures opens { F.opened files.new ≡ F.opened files.old }
    ensures cause { MatchResult result (λ _. F.faults files.new ≡ F.faults files.old)
        (λ _. F.faults files.old < F.faults files.new) }
{
    files
        .read_from(reader, buffer)
        .map_err(|_| ProgramFault::Read)
}
