//! The calls that a host makes. Each puts its text in the room that the host lends, as far as it fits, and zeros behind it.
//!
//! A call takes memory while it reads and checks, and for its text; the checker takes all of its own before it begins
//! (`Checker::make`). Where some is refused, the status is 4. Putting the text takes none.

ghost use Rattle.std.specs.Prelude.{◌≡◌, IfSome, None, Some, length, option_map};
ghost use Rattle.check_host.specs.Calls.{Checks, IsUnasked, background_asked, put};
ghost use Rattle.check_host.specs.Flaws.{NoFlaws, TellsFlaws, status_of};
ghost use Rattle.check_host.specs.declared.calls.TheConstants.{VERSION};

use crate::asked::background_of;
use crate::flawed::flaws_of;
use crate::said::{put, say};
use crate::status::{DONE, MEMORY, OPTIONS, REFUSED};
use std::alloc::Global;
use text_check::{CheckFault, check_texts};

// The version of the library, as `nonobench --version` prints it after the name.
const VERSION: &str = "0.8.0";

/// Puts the version of the library.
#[unsafe(no_mangle)]
pub extern "C" fn nonocheck_version(out: &mut [u8])
    ensures { out.new ≡ put VERSION.now (length out.old) }
{
    put(VERSION.as_bytes(), out);
}

/// Checks a certificate of a picture, which may have any givens. The text is what the program writes for it, or why it is refused.
/// The background is white where it has no samples.
#[unsafe(no_mangle)]
pub extern "C" fn nonocheck_check_any_given(
    alloc: Global,
    file: &[u8],
    cert: &[u8],
    background: &[u16],
    out: &mut [u8],
) -> u32
    ensures checks { IfSome (background_asked background.now) (λ colour.
        Checks file.now colour None cert.now (length out.old) out.new result) }
    ensures refused { background_asked background.now ≡ None
        → IsUnasked (length out.old) out.new result }
{
    check_into(alloc, file, cert, None, background, out)
}

/// Checks a certificate of a picture by the text of the file of the givens that are published, which may be empty. The text is what
/// the program writes for it, or why it is refused.
#[unsafe(no_mangle)]
pub extern "C" fn nonocheck_check(
    alloc: Global,
    file: &[u8],
    cert: &[u8],
    givens: &[u8],
    background: &[u16],
    out: &mut [u8],
) -> u32
    ensures checks { IfSome (background_asked background.now) (λ colour.
        Checks file.now colour (Some givens.now) cert.now (length out.old) out.new result) }
    ensures refused { background_asked background.now ≡ None
        → IsUnasked (length out.old) out.new result }
{
    check_into(alloc, file, cert, Some(givens), background, out)
}

// The two calls above, which are two since each is a function of the C library.
fn check_into(
    alloc: Global,
    file: &[u8],
    cert: &[u8],
    givens: Option<&[u8]>,
    background: &[u16],
    out: &mut [u8],
) -> u32
    ensures checks { IfSome (background_asked background.now) (λ colour.
        Checks file.now colour (option_map (λ text. text.now) givens.entry) cert.now
        (length out.old) out.new result) }
    ensures refused { background_asked background.now ≡ None
        → IsUnasked (length out.old) out.new result }
{
    let Some(background) = background_of(background) else {
        put(b"", out);
        return OPTIONS;
    };
    let answer = check_texts(alloc, file, cert, givens, background);
    say(alloc, answer, out)
}

/// Finds the flaws of a picture that show without a search: whether it is blank, whether no cell has the background, and the pairs of colours that look alike, as two bytes each, by their numbers, with zeros behind them. Where the picture
/// is refused, there are none.
#[unsafe(no_mangle)]
pub extern "C" fn nonocheck_flaws(
    alloc: Global,
    file: &[u8],
    background: &[u16],
    is_blank: &mut bool,
    lacks_background: &mut bool,
    alike: &mut [u8],
) -> u32
    ensures flaws { IfSome (background_asked background.now) (λ colour.
        TellsFlaws file.now colour (length alike.old) is_blank.new lacks_background.new alike.new
        result) }
    ensures refused { background_asked background.now ≡ None → result ≡ 6 }
    ensures none { (result ≡ 0 → ⊥)
        → NoFlaws (length alike.old) is_blank.new lacks_background.new alike.new }
{
    (*is_blank, *lacks_background) = (false, false);
    let Some(background) = background_of(background) else {
        put(b"", alike);
        return OPTIONS;
    };
    match flaws_of(alloc, file, background) {
        Ok(found) => {
            (*is_blank, *lacks_background) = (found.is_blank, found.lacks_background);
            put(&found.alike, alike);
            DONE
        }
        Err(fault) => {
            put(b"", alike);
            refused_by(fault)
        }
    }
}

// The status of a refused file.
fn refused_by(fault: CheckFault) -> u32
    ensures { result ≡ status_of fault }
{
    match fault {
        CheckFault::Memory => MEMORY,
        _ => REFUSED,
    }
}
