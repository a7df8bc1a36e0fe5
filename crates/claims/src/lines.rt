//! A session's answers are right.

ghost use Rattle.std.specs.Prelude.{IfOk};
ghost use Rattle.claims.specs.Session.{AnswersAll, AnswersUntil};
ghost use Rattle.command_text.specs.Lines.{lines_of};
ghost use Rattle.live_audit.specs.Calls.{machine};

use command_text::SessionFault;
use line_facts::LineEngine;
use live_audit::Bench;
use propagate::Agenda;
use session::run_session;
use std::alloc::Global;
use std::io::{Read, Write};

/// What a session answers to a text that is its whole input: an answer for each line, true of the document that the lines
/// before it lead to.
pub fn answered<E: LineEngine + Drop, A: Agenda + Drop>(
    alloc: Global,
    bench: &mut Bench<E, A>,
    input: &[u8],
) -> Result<Vec<u8>, SessionFault>
    ensures { IfOk result (λ text. AnswersAll (lines_of input.now) text.items
        (machine bench.old.history bench.old.allowance)
        (machine bench.new.history bench.new.allowance)) }
{
    let mut left = input;
    let mut text = Vec::new(alloc);
    run_session(alloc, &mut left, &mut text, bench)?;
    Ok(text)
}

/// Runs a session with any reader and writer. Where a read fails, the lines whose line feed had been read are answered; where a
/// write fails, a prefix of the right answers was written; and else the whole input is answered.
pub fn answered_until<R: Read, W: Write, E: LineEngine + Drop, A: Agenda + Drop>(
    alloc: Global,
    bench: &mut Bench<E, A>,
    reader: &mut R,
    writer: &mut W,
) -> Result<(), SessionFault>
    ensures { AnswersUntil (R.remaining reader.old) (R.remaining reader.new)
        (W.contents writer.old) (W.contents writer.new)
        (machine bench.old.history bench.old.allowance)
        (machine bench.new.history bench.new.allowance) result }
{
    run_session(alloc, reader, writer, bench)
}
