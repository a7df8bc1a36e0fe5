//! The audit of a document (clues and closed book), made from scratch or from the audit before a change.

ghost use Rattle.std.specs.Prelude.{◌≡◌, ◌≤◌, IfOk, IfErr};
ghost use Rattle.clues.specs.Change.{IsChangeOf};
ghost use Rattle.edits.specs.Design.{design_of};
ghost use Rattle.fixpoint.specs.declared.fault.CloseFault.TheVariants as fault;
ghost use Rattle.live_audit.specs.Audit.{GoesOn, IsAnew, IsAuditOf, IsBaseFor, nothing_done};

use clues::{Change, ClueBook};
use edits::know;
use justify::Book;
use line_facts::{Facts, LineEngine, Meter, NOTHING_DONE};
use picture::{Document, MAX_SIDE};
use propagate::{Agenda, CloseFault, all_lines, close};
use retract::{Kept, keep};
use std::alloc::{AllocError, Global};

/// The clues of a picture, and the closed book: the steps that exclude all that its lines force.
#[derive(Drop)]
pub(crate) struct Audit {
    pub clues: ClueBook,
    pub book: Book,
}

/// A step of a history: the document before it with its audit, the document after it, and the change of its picture. All four are
/// borrowed.
#[derive(Clone, Copy, Drop)]
pub(crate) struct Revision<'a> {
    pub audit: &'a Audit,
    pub old: &'a Document,
    pub new: &'a Document,
    pub change: &'a Change,
}

/// Audits a document from scratch: computes its picture's clues, and closes the empty book over what its givens exclude. Also
/// returns the work. The only error is out of memory.
pub(crate) fn audit_anew<E: LineEngine, A: Agenda>(
    alloc: Global,
    engine: &mut E,
    agenda: &mut A,
    document: &Document,
) -> Result<(Audit, Meter), CloseFault>
    requires { MAX_SIDE ≤ E.longest engine.old }
    ensures audit { IfOk result
        (λ (audit, _). IsAuditOf (design_of document.now) audit.clues audit.book) }
    ensures work { IfOk result (λ (audit, work). IsAnew audit.book.base audit.book
        nothing_done work (E.calls engine.old) (E.calls engine.new)) }
    ensures calls { E.calls engine.old ≤ E.calls engine.new }
    ensures memory { IfErr result (λ e. e ≡ fault.Memory) }
    ensures same_longest { E.longest engine.new ≡ E.longest engine.old }
{
    know(document);
    let mut work = NOTHING_DONE;
    let base = base_of(alloc, document)?;
    let clues = ClueBook::of(alloc, &document.picture)?;
    let book = Book::start(alloc, base)?;
    let dirty = all_lines(book.facts());
    let book = close(engine, agenda, book, &clues, &dirty, &mut work)?;
    let _ = book.facts();
    Ok((Audit { clues, book }, work))
}

/// Audits a document after a change, from the audit of the document before. Its clues are refreshed, and the steps that are still
/// valid over what its givens exclude are kept. The book is closed again from the dirty lines alone. The result is an audit of the
/// new document, with the same facts as one made from scratch. Also returns the work. The old audit is not changed. The only error
/// is out of memory.
pub(crate) fn audit_again<E: LineEngine, A: Agenda>(
    alloc: Global,
    engine: &mut E,
    agenda: &mut A,
    revision: &Revision,
) -> Result<(Audit, Meter), CloseFault>
    requires audited { IsAuditOf (design_of revision.now.old.now) revision.now.audit.now.clues
        revision.now.audit.now.book }
    requires change { IsChangeOf revision.now.change.now revision.now.old.now.picture
        revision.now.new.now.picture }
    requires long { MAX_SIDE ≤ E.longest engine.old }
    ensures audit { IfOk result
        (λ (audit, _). IsAuditOf (design_of revision.now.new.now) audit.clues audit.book) }
    ensures goes_on { IfOk result (λ (audit, work). GoesOn revision.now.change.now.moves
        revision.now.audit.now.clues audit.clues revision.now.audit.now.book audit.book
        nothing_done work (E.calls engine.old) (E.calls engine.new)) }
    ensures calls { E.calls engine.old ≤ E.calls engine.new }
    ensures memory { IfErr result (λ e. e ≡ fault.Memory) }
    ensures same_longest { E.longest engine.new ≡ E.longest engine.old }
{
    let before = revision.audit;
    let change = revision.change;
    know(revision.new);
    let mut work = NOTHING_DONE;
    let base = base_of(alloc, revision.new)?;
    let clues = before.clues.refresh(&revision.new.picture, change)?;
    let Kept { book, dirty } = keep(alloc, &before.book, &before.clues, &clues, change, base)?;
    let _ = book.facts();
    let book = close(engine, agenda, book, &clues, &dirty, &mut work)?;
    let _ = book.facts();
    Ok((Audit { clues, book }, work))
}

// What the givens of a document exclude. It is not inlined, so that a profiler shows it.
#[inline(never)]
fn base_of(alloc: Global, document: &Document) -> Result<Facts, AllocError>
    ensures { IfOk result (IsBaseFor (design_of document.now)) }
{
    know(document);
    let base = Facts::base(alloc, document)?;
    Ok(base)
}
