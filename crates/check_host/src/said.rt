//! What a call says: its status, and its text in the room that a host lends.

ghost use Rattle.std.specs.Prelude.{◌≡◌, ◌≢◌, ◌⊎◌, length};
ghost use Rattle.text_check.specs.declared.fault.CheckFault.TheVariants.{Memory};
ghost use Rattle.check_host.specs.Calls.{IsShort, Refuses, Says, put};

use crate::status::{DONE, MEMORY, REFUSED};
use std::alloc::Global;
use text_check::{Accepted, CheckFault};

/// Puts as much of a text as there is room for, and zeros behind it.
pub fn put(text: &[u8], out: &mut [u8])
    ensures { out.new ≡ put text.now (length out.old) }
{
    let count = text.len().min(out.len());
    out[..count].copy_from_slice(&text[..count]);
    out[count..].fill(0);
}

/// Puts the line of a certificate that is accepted, or why it is not, and returns the status.
pub fn say(alloc: Global, answer: Result<Accepted, CheckFault>, out: &mut [u8]) -> u32
    ensures { Says answer (length out.old) out.new result }
{
    match answer {
        Ok(accepted) => {
            put(&accepted.line, out);
            DONE
        }
        Err(fault) => refuse(alloc, fault, out),
    }
}

// Puts why a call was refused, and returns the status. Where memory was or is refused, there is no text.
fn refuse(alloc: Global, fault: CheckFault, out: &mut [u8]) -> u32
    ensures { IsShort (length out.old) out.new result
        ⊎ ((fault ≢ Memory) × Refuses fault (length out.old) out.new result) }
{
    if matches!(fault, CheckFault::Memory) {
        put(b"", out);
        return MEMORY;
    }
    let Ok(text) = format!(in alloc; "{fault}") else {
        put(b"", out);
        return MEMORY;
    };
    put(text.as_bytes(), out);
    REFUSED
}
