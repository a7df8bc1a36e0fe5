//! One picture kept audited after every stroke.

ghost use Rattle.std.specs.Prelude.{◌≡◌, ◌<◌, ◌≤◌, length, None, IfOk, IfErr, IfSome, OnOk, OnErr};
ghost use Rattle.picture.specs.Rows.{width_of};
ghost use Rattle.clues.specs.Change.{IsChangeOf};
ghost use Rattle.edits.specs.declared.fault.EditFault.TheVariants.{Memory};
ghost use Rattle.edits.specs.Design.{design_of};
ghost use Rattle.edits.specs.History.{IsPlanFor, advanced};
ghost use Rattle.live_audit.specs.Assessing.{AreFewToAssess, IsAssessmentOf, IsPathOf};
ghost use Rattle.live_audit.specs.Bench.{Begins, FitsDepth, IsAudited};
ghost use Rattle.live_audit.specs.Calls.{Accepts, CarriesOn, IsAsBefore, IsAtOnce, IsFoundOn, IsLeftBy, Learns, Refuses};
ghost use Rattle.live_audit.specs.Certify.{Certifies};
ghost use Rattle.live_audit.specs.Reason.{Explains};
ghost use Rattle.live_audit.specs.Stroke.{Edits, Redoes, Undoes};
ghost use Rattle.live_audit.specs.Verdict.{Decides, IsToldBy, IsVerdictOn, AnswersAs};
ghost use Rattle.second_search.specs.JudgedParts.{HasNoFilling};

use crate::assessing::{assessment_of, path_of};
use crate::audit::{Audit, Revision, audit_again, audit_anew};
use crate::certifying::{Finding, certify_ordered};
use crate::judging::{answers_next, other_kept, rule, rule_beside};
use crate::verdict::Verdict;
use crate::why::Why;
use crate::work::{NO_WORK, Work};
use assess::Assessment;
use certificate::Cert;
use clues::ClueBook;
use edits::{Edit, EditFault, MAX_DEPTH, Prepared, Studio};
use grade::Path;
use justify::Book;
use line_facts::{Facts, LineEngine};
use picture::{Document, MAX_SIDE};
use propagate::Agenda;
use second_search::Keeper;
use std::alloc::{AllocError, Global};
use std::marker::Model;

/// The largest number of splits that can be allowed.
pub const MAX_ALLOWANCE: u32 = 99_999;

/// A document with its history, and all that follows from its picture: the clues, the book of reasons, the map and the verdict.
/// They are true of the present picture after every call. A refused call changes nothing, but one that ran out of memory may have
/// used the engine and the agenda, and raised `calls`, which never falls.
#[derive(Drop)]
pub struct Bench<E: LineEngine, A: Agenda> {
    alloc: Global,
    studio: Studio,
    audit: Audit,
    keeper: Keeper,
    allowance: Option<u32>,
    engine: E,
    agenda: A,
    work: Work,
}

impl<E: LineEngine, A: Agenda> Model for Bench<E, A> {
    ghost use Rattle.live_audit.specs.Bench.{Seen, seen, IsBench};

    ghost Value = { Seen };

    ghost view = { λ b. seen b.studio b.audit.clues b.audit.book b.keeper b.allowance b.work (E.calls b.engine) };

    ghost invariant = { λ b. IsBench
        (E.longest b.engine)
        (seen b.studio b.audit.clues b.audit.book b.keeper b.allowance b.work (E.calls b.engine)) };
}

impl<E: LineEngine + Drop, A: Agenda + Drop> Bench<E, A> {
    ghost use Rattle.std.specs.Borrow.{sem};
    ghost use Rattle.second_search.specs.Lent.{ends_so};
    ghost use Rattle.second_search.specs.Verdict.{Verdict as Judgement};
    ghost use Rattle.live_audit.specs.contracts.bench.Bench.{the_row};

    /// A bench with a document and no history. It can undo up to `depth` edits, which is 1 to `MAX_DEPTH`. Its engine must take
    /// lines of `MAX_SIDE` cells. Later calls allocate by the same allocator.
    pub fn start(
        alloc: Global,
        document: Document,
        depth: u16,
        mut engine: E,
        mut agenda: A,
    ) -> Result<Bench<E, A>, AllocError>
        requires depth { (0 < depth) × (depth ≤ MAX_DEPTH) }
        requires long { MAX_SIDE ≤ E.longest engine }
        ensures begins { IfOk result (Begins (design_of document) depth (E.calls engine)) }
        ensures audited { IfOk result IsAudited }
    {
        let Ok((audit, edit)) = audit_anew(alloc, &mut engine, &mut agenda, &document) else {
            return Err(AllocError);
        };
        let keeper = Keeper::start(alloc, audit.book.facts())?;
        let studio = Studio::start(alloc, document, depth)?;
        Ok(Bench {
            alloc,
            studio,
            audit,
            keeper,
            allowance: None,
            engine,
            agenda,
            work: Work { edit, ..NO_WORK },
        })
    }

    /// Makes an edit: the history goes on, the clues are those of the new picture, and the book keeps the steps that are still
    /// valid, and is closed again. On an error nothing changes.
    pub fn apply(&mut self, edit: &Edit) -> Result<(), EditFault>
        ensures accepted { OnOk result (Accepts (Edits edit.now) self.old self.new) }
        ensures refused { IfErr result (λ fault. Refuses (Edits edit.now) fault self.old self.new) }
        ensures calls { self.old.calls ≤ self.new.calls }
        ensures audited { IsAudited self.new }
    {
        let prepared = self.studio.prepare(self.alloc, edit)?;
        self.advance(prepared)
    }

    /// Takes back the last edit. `UndoEmpty` where there is none. On an error nothing changes.
    pub fn undo(&mut self) -> Result<(), EditFault>
        ensures accepted { OnOk result (Accepts Undoes self.old self.new) }
        ensures refused { IfErr result (λ fault. Refuses Undoes fault self.old self.new) }
        ensures calls { self.old.calls ≤ self.new.calls }
        ensures audited { IsAudited self.new }
    {
        let prepared = self.studio.prepare_undo()?;
        self.advance(prepared)
    }

    /// Makes the last undone edit again. `RedoEmpty` where there is none. On an error nothing changes.
    pub fn redo(&mut self) -> Result<(), EditFault>
        ensures accepted { OnOk result (Accepts Redoes self.old self.new) }
        ensures refused { IfErr result (λ fault. Refuses Redoes fault self.old self.new) }
        ensures calls { self.old.calls ≤ self.new.calls }
        ensures audited { IsAudited self.new }
    {
        let prepared = self.studio.prepare_redo()?;
        self.advance(prepared)
    }

    // Audits the document to which the step leads, and only then takes the step, which allocates nothing.
    fn advance(&mut self, prepared: Prepared) -> Result<(), EditFault>
        requires plan { IsPlanFor self.old.history prepared }
        requires change { IsChangeOf prepared.change self.old.history.document.rows
            prepared.document.rows }
        ensures history { OnOk result
            (self.new.history ≡ advanced self.old.history prepared.advance) }
        ensures book { OnOk result (CarriesOn prepared.change.moves self.old self.new) }
        ensures memory { IfErr result (λ fault. fault ≡ Memory) }
        ensures as_before { OnErr result (IsAsBefore self.old self.new) }
        ensures calls { self.old.calls ≤ self.new.calls }
        ensures audited { IsAudited self.new }
    {
        let turn = Revision {
            audit: &self.audit,
            old: self.studio.document(),
            new: prepared.document(),
            change: prepared.change(),
        };
        let Ok((audit, edit)) = audit_again(self.alloc, &mut self.engine, &mut self.agenda, &turn)
        else {
            return Err(EditFault::Memory);
        };
        let keeper = answers_next(
            &self.keeper,
            self.studio.document(),
            &self.audit,
            prepared.document(),
            &audit,
        )?;
        self.studio.commit(prepared);
        self.audit = audit;
        self.keeper = keeper;
        self.work.edit = edit;
        Ok(())
    }

    /// Whether another picture of the present one's size has its clues and, in the givens, its colours: Unique if there is none,
    /// else Ambiguous with such a picture. It is Undecided only if an allowance is set and the search of a part takes more splits.
    /// Where another filling of a part is kept, nothing is searched. Else the parts about which nothing is known are searched in
    /// order, up to the first that has another filling or is broken off at the allowance. What the searches that ended found is
    /// kept. So a verdict that was decided is answered without a search until an accepted edit, undo or redo drops the filling
    /// that it showed or, where it was Unique, leaves a part about which nothing is known. Where memory runs out nothing changes
    /// but `calls`.
    pub fn verdict(&mut self) -> Result<Verdict<'_>, AllocError>
        ensures* keeps { sem 𝓛 (ends_so (the_row E.row A.row E.LineEngine A.Agenda) self.entry
            (IsLeftBy self.old result)) }
        ensures headline { IfOk result (IsVerdictOn self.old.history.document self.old.allowance) }
    {
        let is_decided = self.decide()?;
        Ok(self.shown(is_decided))
    }

    // Judges the present picture by its parts, counts the work, and answers whether that decides the verdict.
    fn decide(&mut self) -> Result<bool, AllocError>
        ensures decides { IfOk result (λ is_decided. (j : Judgement)
            × (IsToldBy self.new.history.document self.new.allowance self.new.kept is_decided j
            × Decides self.old self.new j)) }
        ensures as_before { OnErr result (IsAsBefore self.old self.new) }
        ensures calls { self.old.calls ≤ self.new.calls }
        ensures audited { IsAudited self.new }
    {
        let (is_decided, work) = rule(
            &mut self.keeper,
            &mut self.engine,
            self.studio.document(),
            &self.audit,
            self.allowance,
        )?;
        self.work = Work {
            edit: self.work.edit,
            ..work
        };
        Ok(is_decided)
    }

    // The verdict after a judgement, by whether that was decided, and by the other picture that is kept.
    fn shown(&self, is_decided: bool) -> Verdict<'_>
        ensures { (j : Judgement)
            → IsToldBy self.now.history.document self.now.allowance self.now.kept is_decided j
            → AnswersAs self.now result j
            × IsVerdictOn self.now.history.document self.now.allowance result }
    {
        match self.keeper.other() {
            Some(picture) => Verdict::Ambiguous(picture),
            None if is_decided => Verdict::Unique,
            None => Verdict::Undecided {
                splits: self.allowance.unwrap_or(0),
            },
        }
    }

    /// Sets how many splits the search of one part may make in a verdict, at most `MAX_ALLOWANCE`; None allows any number. A new
    /// bench has none. This is not an edit, and a verdict that was decided stays decided.
    pub fn allow(&mut self, allowance: Option<u32>)
        requires { IfSome allowance (λ splits. splits ≤ MAX_ALLOWANCE) }
        ensures value { self.new ≡ record self.old { allowance = allowance } }
        ensures audited { IsAudited self.new }
    {
        self.allowance = allowance;
    }

    /// A certificate of the present document with its colours numbered as they appear: the checker accepts it for the ordered
    /// picture, and its givens are exactly the document's. None exactly where there is another picture with the present one's clues
    /// and, in the givens, its colours. The allowance does not matter: it begins as a verdict without one and keeps what that
    /// finds, so a verdict after it searches nothing. Where another filling is kept already, it answers at once, and nothing
    /// changes. `work` stays as it was. Where memory runs out nothing changes but `calls`.
    pub fn certify(&mut self) -> Result<Option<Cert>, AllocError>
        ensures certifies { IfOk result (Certifies self.old.history.document) }
        ensures learns { OnOk result (Learns self.old self.new) }
        ensures as_before { OnErr result (IsAsBefore self.old self.new) }
        ensures at_once { OnOk result (IsAtOnce self.old self.new) }
        ensures calls { self.old.calls ≤ self.new.calls }
        ensures audited { IsAudited self.new }
    {
        let found = self.find_certificate()?;
        Ok(self.keep(found))
    }

    /// What `certify` answers, with what its search found out about the parts. None of it is kept yet: nothing changes but `calls`.
    /// So a caller can first allocate what it needs for the answer, and then `keep` it.
    pub fn find_certificate(&mut self) -> Result<Finding, AllocError>
        ensures certifies { IfOk result (λ found. Certifies self.old.history.document found.cert) }
        ensures finds { IfOk result (IsFoundOn self.new) }
        ensures as_before { IsAsBefore self.old self.new }
        ensures at_once { OnOk result (IsAtOnce self.old self.new) }
        ensures calls { self.old.calls ≤ self.new.calls }
        ensures audited { IsAudited self.new }
    {
        match other_kept(&self.keeper, self.studio.document(), &self.audit) {
            Some(_) => Ok(Finding {
                cert: None,
                keeper: None,
            }),
            None => self.search_certificate(),
        }
    }

    // Judges the present picture by its parts without an allowance, where no other filling of a part is kept, and makes a
    // certificate where that finds no other picture.
    fn search_certificate(&mut self) -> Result<Finding, AllocError>
        requires { HasNoFilling self.old.kept (length self.old.kept) }
        ensures certifies { IfOk result (λ found. Certifies self.old.history.document found.cert) }
        ensures finds { IfOk result (IsFoundOn self.new) }
        ensures as_before { IsAsBefore self.old self.new }
        ensures calls { self.old.calls ≤ self.new.calls }
        ensures audited { IsAudited self.new }
    {
        let before = self.engine.calls();
        let document = self.studio.document();
        let keeper = rule_beside(&self.keeper, &mut self.engine, document, &self.audit)?;
        let judging = self.engine.calls().saturating_sub(before);
        if let Some(_) = keeper.other() {
            return Ok(Finding {
                cert: None,
                keeper: Some(keeper),
            });
        }
        let cert = certify_ordered(self.alloc, &mut self.engine, document, judging)?;
        Ok(Finding {
            cert,
            keeper: Some(keeper),
        })
    }

    /// Keeps what `find_certificate` found out about the parts, and gives the certificate. No call may have changed the bench since
    /// then. It allocates nothing and cannot fail.
    pub fn keep(&mut self, found: Finding) -> Option<Cert>
        requires { IsFoundOn self.old found }
        ensures cert { result ≡ found.cert }
        ensures learns { Learns self.old self.new }
        ensures at_once { IsAtOnce self.old self.new }
        ensures calls { self.new.calls ≡ self.old.calls }
        ensures audited { IsAudited self.new }
    {
        let _ = self.map();
        let Finding { cert, keeper } = found;
        let Some(next) = keeper else {
            return cert;
        };
        self.keeper = next;
        cert
    }

    /// The present document.
    pub fn document(&self) -> &Document
        ensures value { design_of result.now ≡ self.now.history.document }
        ensures audited { IsAudited self.now }
    {
        self.studio.document()
    }

    /// The clues of the present picture.
    pub fn clues(&self) -> &ClueBook
        ensures value { result.now ≡ self.now.clues }
        ensures audited { IsAudited self.now }
    {
        &self.audit.clues
    }

    /// The map: for each cell its candidates, the colours that line solving leaves, from the givens and the clues.
    pub fn map(&self) -> &Facts
        ensures value { result.now ≡ self.now.book.facts }
        ensures audited { IsAudited self.now }
    {
        self.audit.book.facts()
    }

    /// The book of reasons: its base is what the givens exclude, and its facts are the map.
    pub fn book(&self) -> &Book
        ensures value { result.now ≡ self.now.book }
        ensures audited { IsAudited self.now }
    {
        &self.audit.book
    }

    /// How many edits can be undone.
    pub fn past_len(&self) -> usize
        ensures value { result ≡ length self.now.history.past }
        ensures fits { FitsDepth self.now.history }
    {
        self.studio.past_len()
    }

    /// How many edits can be made again.
    pub fn future_len(&self) -> usize
        ensures value { result ≡ length self.now.history.future }
        ensures fits { FitsDepth self.now.history }
    {
        self.studio.future_len()
    }

    /// The work of the last edit, undo, redo or start that was accepted, and of the last verdict.
    pub fn work(&self) -> Work
        ensures { result ≡ self.now.work }
    {
        self.work
    }

    /// How often the engine was called. The count stops at the largest `u64`.
    pub fn calls(&self) -> u64
        ensures { result ≡ self.now.calls }
    {
        self.engine.calls()
    }

    /// Whether a colour from 0 to 15 can be in a cell of the picture: Possible exactly where the map leaves it, Given exactly where
    /// the givens exclude it. Else it is the step of the book that excludes it, with those of its premises that this exclusion
    /// alone needs. No line is evaluated.
    pub fn why(&self, row: u8, col: u8, colour: u8) -> Result<Why, AllocError>
        requires in_rows { row < length self.now.history.document.rows }
        requires in_columns { col < width_of self.now.history.document.rows }
        requires in_colours { colour < 16 }
        ensures explains { IfOk result (Explains self.now row col colour) }
        ensures audited { IsAudited self.now }
    {
        let book = &self.audit.book;
        if book.base().excluded(row, col, colour) {
            return Ok(Why::Given);
        }
        match book.trimmed(&self.audit.clues, row, col, colour)? {
            Some(reason) => Ok(Why::By(reason)),
            None => Ok(Why::Possible),
        }
    }

    /// The path of line logic on the present puzzle: its looks that excluded something, each with premises of which none can be
    /// left out, and whether all blocks of its line stood before. Nothing is kept, and nothing changes but `calls`.
    pub fn path(&mut self) -> Result<Path, AllocError>
        ensures path { IfOk result (IsPathOf self.old.history.document) }
        ensures as_before { IsAsBefore self.old self.new }
        ensures calls { self.old.calls ≤ self.new.calls }
        ensures audited { IsAudited self.new }
    {
        path_of(
            self.alloc,
            &mut self.engine,
            self.studio.document(),
            &self.audit,
        )
    }

    /// How many splits the search of each part may make, where that is bounded.
    pub fn allowance(&self) -> Option<u32>
        ensures { result ≡ self.now.allowance }
    {
        self.allowance
    }

    /// Assesses the present puzzle under an allowance of its own: whether it is fit to be published. What was found before does not
    /// count, nothing is kept, and nothing changes but `calls`.
    pub fn assess(&mut self, allowance: Option<u32>) -> Result<Assessment, AllocError>
        ensures assessment { IfOk result
            (IsAssessmentOf self.old.history.document allowance) }
        ensures few { AreFewToAssess self.old.history.document allowance self.old.calls
            self.new.calls }
        ensures as_before { IsAsBefore self.old self.new }
        ensures calls { self.old.calls ≤ self.new.calls }
        ensures audited { IsAudited self.new }
    {
        assessment_of(
            self.alloc,
            &mut self.engine,
            self.studio.document(),
            allowance,
        )
    }
}
