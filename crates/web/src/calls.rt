//! The calls that a host makes.
//!
//! `nonobench_start`, `open`, `say`, `check`, `prove` and `assess` take memory, and may do so up to the last byte of their text; where
//! some is refused, the status is 4. The other calls take none: by their clauses they have no such status.

ghost use Rattle.std.specs.Prelude.{◌≡◌, ◌⊎◌, ◌++◌, None, Some, [], drop, length, option_map, take, IfSome, IsSome};
ghost use denote.RawPtr.{null_ptr};
ghost use Rattle.program_options.specs.declared.version.TheConstants.{VERSION};
ghost use Rattle.web.specs.Asked.{assess_options_asked, background_asked, options_asked, prove_options_asked, text_if};
ghost use Rattle.web.specs.Desk.{AssessesBy, Checks, Closes, IsKept, IsUnasked, Opens, Proves, Says};
ghost use Rattle.web.specs.Held.{IsEmpty};

use crate::asked::{assess_options_of, background_of, options_of, prove_options_of, text_if};
use crate::cell::DeskCell;
use crate::desk::Desk;
use crate::held::Held;
use crate::inside::{
    Puzzle, assess_in, check_in, close_in, copy_front, forget_in, keep_text, lend_text, open_in,
    prove_in, say_in,
};
use crate::status::{DONE, MEMORY, OPTIONS};
use answers::VERSION;
use core::mem::replace_with;
use std::alloc::Global;

/// Copies the version to `out`, as far as there is room, and returns its length in bytes.
#[unsafe(no_mangle)]
pub extern "C" fn nonobench_version(out: &mut [u8]) -> usize
    ensures all { result ≡ length VERSION.now }
    ensures front { out.new ≡ take (length out.old) VERSION.now
        ++ drop (length VERSION.now) out.old }
{
    copy_front(VERSION.as_bytes(), out)
}

/// Makes an empty desk, and puts its pointer in a cell that holds none. All other calls but the version's take that cell.
#[unsafe(no_mangle)]
pub extern "C" fn nonobench_start(alloc: Global, out: &mut DeskCell) -> u32
    requires { out.old.desk ≡ None }
    ensures status { (result ≡ 0) ⊎ (result ≡ 4) }
    ensures made { result ≡ 0 → IsSome out.new.desk }
    ensures empty { IfSome out.new.desk IsEmpty }
    ensures kept { result ≡ 4 → out.new ≡ out.old }
{
    match Desk::make(alloc) {
        Ok(desk) => {
            *out = DeskCell::of(Held::new(desk));
            DONE
        }
        Err(_) => MEMORY,
    }
}

/// Ends the desk of a cell with all its benches. Where the pointer is null, nothing is done.
#[unsafe(no_mangle)]
pub extern "C" fn nonobench_end(cell: DeskCell)
    requires { cell.desk ≡ None → cell.ptr ≡ null_ptr }
{
    if let Some(held) = cell.into_held() {
        drop(held.into_box());
    }
}

/// Opens a bench on a file, and sets `handle` to its handle, or to 0 where none is opened. The text says which colour each letter
/// is, or is the file's error.
#[unsafe(no_mangle)]
pub extern "C" fn nonobench_open(
    held: &mut Held,
    file: &[u8],
    non: bool,
    background: &[u8],
    history: u32,
    handle: &mut u32,
) -> u32
    ensures opens { IfSome (options_asked non background.now history) (λ options.
        Opens file.now options held.old.desk held.new.desk result handle.new) }
    ensures refused { options_asked non background.now history ≡ None
        → IsUnasked held.old.desk held.new.desk result }
    ensures none { options_asked non background.now history ≡ None → handle.new ≡ 0 }
{
    let Some(options) = options_of(non, background, history) else {
        replace_with(held, (), forget_in);
        *handle = 0;
        return OPTIONS;
    };
    let (status, given) = replace_with(held, (file, options), open_in);
    *handle = given;
    status
}

/// Answers lines on the bench of a handle. What a session writes for them is the text.
#[unsafe(no_mangle)]
pub extern "C" fn nonobench_say(held: &mut Held, handle: u32, lines: &[u8]) -> u32
    ensures { Says handle lines.now held.old.desk held.new.desk result }
{
    replace_with(held, (handle, lines), say_in)
}

/// Copies the text of the last call to `out`, as far as there is room, and returns its length in bytes.
#[unsafe(no_mangle)]
pub extern "C" fn nonobench_take(held: &mut Held, out: &mut [u8]) -> usize
    ensures all { result ≡ length held.old.desk.text.items }
    ensures front { out.new ≡ take (length out.old) held.old.desk.text.items
        ++ drop (length held.old.desk.text.items) out.old }
    ensures text { held.new.desk.text.items ≡ held.old.desk.text.items }
    ensures kept { IsKept held.old.desk held.new.desk }
{
    let text = replace_with(held, (), lend_text);
    let count = copy_front(&text, out);
    replace_with(held, text, keep_text);
    count
}

/// Ends the bench of a handle.
#[unsafe(no_mangle)]
pub extern "C" fn nonobench_close(held: &mut Held, handle: u32) -> u32
    ensures { Closes handle held.old.desk held.new.desk result }
{
    replace_with(held, handle, close_in)
}

/// Checks a certificate of a picture, which may have any givens. What the program writes for it, with a line for each of its givens
/// below, or an error, is the text.
#[unsafe(no_mangle)]
pub extern "C" fn nonobench_check_any_given(
    held: &mut Held,
    file: &[u8],
    cert: &[u8],
    background: &[u8],
) -> u32
    ensures checks { IfSome (background_asked background.now) (λ colour.
        Checks file.now colour None cert.now held.new.desk.text.items result) }
    ensures refused { background_asked background.now ≡ None
        → IsUnasked held.old.desk held.new.desk result }
    ensures kept { IsKept held.old.desk held.new.desk }
{
    check_on(held, file, cert, None, background)
}

/// Checks a certificate of a picture by the text of the file of the givens that are published, which may be empty. The text is as
/// for `nonobench_check_any_given`.
#[unsafe(no_mangle)]
pub extern "C" fn nonobench_check(
    held: &mut Held,
    file: &[u8],
    cert: &[u8],
    givens: &[u8],
    background: &[u8],
) -> u32
    ensures checks { IfSome (background_asked background.now) (λ colour.
        Checks file.now colour (Some givens.now) cert.now held.new.desk.text.items result) }
    ensures refused { background_asked background.now ≡ None
        → IsUnasked held.old.desk held.new.desk result }
    ensures kept { IsKept held.old.desk held.new.desk }
{
    check_on(held, file, cert, Some(givens), background)
}

// The two calls above, which are two since each is a function of the C library.
fn check_on(
    held: &mut Held,
    file: &[u8],
    cert: &[u8],
    givens: Option<&[u8]>,
    background: &[u8],
) -> u32
    ensures checks { IfSome (background_asked background.now) (λ colour.
        Checks file.now colour (option_map (λ text. text.now) givens.entry) cert.now
        held.new.desk.text.items result) }
    ensures refused { background_asked background.now ≡ None
        → IsUnasked held.old.desk held.new.desk result }
    ensures kept { IsKept held.old.desk held.new.desk }
{
    let Some(background) = background_of(background) else {
        replace_with(held, (), forget_in);
        return OPTIONS;
    };
    replace_with(held, (file, cert, givens, background), check_in)
}

/// Makes a certificate of a picture with the givens of a text, which may be empty: one with lemmas in the form `nonolemma 1` or
/// `nonolemma 2`, or a tree. A search that is `complete` has no bounds. What the program writes for it, or an error, is the text.
#[unsafe(no_mangle)]
pub extern "C" fn nonobench_prove(
    held: &mut Held,
    file: &[u8],
    givens: &[u8],
    background: &[u8],
    complete: bool,
    format: u32,
) -> u32
    ensures proves { IfSome (prove_options_asked background.now complete format) (λ options.
        Proves file.now givens.now options held.new.desk.text.items result) }
    ensures refused { prove_options_asked background.now complete format ≡ None
        → IsUnasked held.old.desk held.new.desk result }
    ensures kept { IsKept held.old.desk held.new.desk }
{
    let Some(options) = prove_options_of(background, complete, format) else {
        replace_with(held, (), forget_in);
        return OPTIONS;
    };
    replace_with(held, (file, givens, options), prove_in)
}

/// Assesses a puzzle: a P3 text, or a .non text with a goal. The texts of its givens and of its certificate count where they are
/// passed. `allowance` is a word: 0 to 99999 splits, `off` for no bound, or empty for 10,000. The block, which ends with `fit` or
/// `unfit`, with the palette below it, or an error, is the text.
#[unsafe(no_mangle)]
pub extern "C" fn nonobench_assess(
    held: &mut Held,
    file: &[u8],
    non: bool,
    background: &[u8],
    has_givens: bool,
    givens: &[u8],
    has_cert: bool,
    cert: &[u8],
    allowance: &[u8],
) -> u32
    ensures assesses { IfSome (assess_options_asked non background.now allowance.now) (λ options.
        AssessesBy file.now (text_if has_givens givens.now) (text_if has_cert cert.now) options
        held.new.desk.text.items result) }
    ensures refused { assess_options_asked non background.now allowance.now ≡ None
        → IsUnasked held.old.desk held.new.desk result }
    ensures kept { IsKept held.old.desk held.new.desk }
{
    let Some(options) = assess_options_of(non, background, allowance) else {
        replace_with(held, (), forget_in);
        return OPTIONS;
    };
    let puzzle = Puzzle {
        file,
        givens: text_if(has_givens, givens),
        cert: text_if(has_cert, cert),
    };
    replace_with(held, (puzzle, options), assess_in)
}
