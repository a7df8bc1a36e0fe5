//! A whole session: commands in, text out.

ghost use Rattle.live_audit.specs.Calls.{machine};
ghost use Rattle.session.specs.Session.{Runs};
ghost use Rattle.session.specs.Truth.{TellsTruth};

use crate::answer::answer_to;
use command_text::{Lines, SessionFault};
use line_facts::LineEngine;
use live_audit::Bench;
use picture::send;
use propagate::Agenda;
use std::alloc::Global;
use std::io::{Read, Write};

/// Answers each line of the reader's input on the writer, until the input ends.
///
/// Each answer is true of the document that the lines before it lead to. A refused command prints its refusal and the
/// session continues. After a failed read, the lines whose line feed had been read are answered, and an unfinished
/// one is not. After a failed write, a prefix of the right text was written, and the bench has the effect of the
/// command that was being answered.
pub fn run_session<R: Read, W: Write, E: LineEngine + Drop, A: Agenda + Drop>(
    alloc: Global,
    reader: &mut R,
    writer: &mut W,
    bench: &mut Bench<E, A>,
) -> Result<(), SessionFault>
    ensures truth { TellsTruth (R.remaining reader.old) (R.remaining reader.new)
        (W.contents writer.old) (W.contents writer.new)
        (machine bench.old.history bench.old.allowance)
        (machine bench.new.history bench.new.allowance) result }
    ensures says { Runs (R.remaining reader.old) (R.remaining reader.new) (W.contents writer.old)
        (W.contents writer.new) bench.old bench.new result }
{
    let _ = bench.map();
    answer_lines(alloc, reader, writer, bench)
}

// Answers the lines. The contract is about the bench's whole state, with what it keeps and counts.
fn answer_lines<R: Read, W: Write, E: LineEngine + Drop, A: Agenda + Drop>(
    alloc: Global,
    reader: &mut R,
    writer: &mut W,
    bench: &mut Bench<E, A>,
) -> Result<(), SessionFault>
    ensures { Runs (R.remaining reader.old) (R.remaining reader.new) (W.contents writer.old)
        (W.contents writer.new) bench.old bench.new result }
{
    let mut lines = Lines::new();
    while let Some(request) = lines.next(reader)? {
        let answer = answer_to(alloc, bench, request);
        send(answer.bytes(), writer)?;
    }
    Ok(())
}
