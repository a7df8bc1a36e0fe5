//! The walk over the lines of a certificate: what each does to the facts at hand, to those that wait, and to the lemmas.

ghost use Rattle.std.specs.Prelude.{◌≡◌, ◌+◌, ◌∷◌, ◌<◌, ◌≤◌, [], true, OnOk};
ghost use Rattle.cert_check.specs.FirstFault.{found_by};
ghost use Rattle.cert_check.specs.Lemmas.{held_to, left_of};
ghost use Rattle.cert_check.specs.Machined.{Affords, IsRight, Spent, Takes, machined, owed, reached};
ghost use Rattle.cert_check.specs.Walk.{CanCheck, at_facts, next_at, settled, walk_of};

use crate::board::Board;
use crate::claim::Claim;
use crate::forcing::{force, is_dead};
use crate::opening::{Open, cell_of, open_in};
use crate::places::{cell_in, line_at};
use crate::stage::Stage;
use crate::store::Store;
use cert_text::{CellNumber, CertFault, CertLine, LineNumber, Literal};
use line_facts::LineEngine;
use std::marker::Model;

// A walk over the lines of a certificate, in memory that was taken before.
#[derive(Drop)]
pub(crate) struct Machine {
    board: Board,
    store: Store,
    stage: Stage,
}

impl Model for Machine {
    ghost use Rattle.cert_check.specs.Machined.{Machined, machined};
    ghost use Rattle.cert_check.specs.Walk.{walk_of};

    ghost Value = { Machined };

    ghost view = { λ m. machined
        (walk_of m.board.at_hand m.board.behind m.store.lemmas m.store.denied m.stage)
        m.board.strays m.board.waits m.board.settled m.board.parts m.store.literals m.store.spare
        m.store.height m.store.width };
}

impl Machine {
    // The walk before the first line.
    pub(crate) fn start(board: Board, store: Store) -> Machine
        ensures { result ≡ machined
            (walk_of board.at_hand board.behind store.lemmas store.denied Stage.Free)
            board.strays board.waits board.settled board.parts store.literals store.spare
            store.height store.width }
    {
        Machine {
            board,
            store,
            stage: Stage::Free,
        }
    }

    // Takes a line with its number, and answers whether a branch is at hand after it.
    pub(crate) fn step<E: LineEngine>(
        &mut self,
        engine: &mut E,
        claim: &Claim,
        line: CertLine,
        number: usize,
    ) -> Result<bool, CertFault>
        requires can { CanCheck claim.now.picture.now claim.now.clues.now (E.longest engine.old) }
        requires right { IsRight claim.now.picture.now self.old }
        requires affords { Affords self.old line }
        ensures spent { OnOk result (Spent self.old self.new line) }
        ensures takes { Takes claim.now.picture.now (found_by self.old.walk line) self.new line
            number result }
        ensures calls { E.calls engine.old ≤ E.calls engine.new }
        ensures same_longest { E.longest engine.new ≡ E.longest engine.old }
        ensures work { E.calls engine.new ≤ E.calls engine.old + 1 }
    {
        match line {
            CertLine::Deny(literal) => self.deny(claim, literal, number),
            _ => {
                self.settle();
                self.settled_step(engine, claim, line, number)
            }
        }
    }

    // Ends the literals of the lemma that begins, if one does.
    fn settle(&mut self)
        ensures walk { self.new.walk ≡ settled self.old.walk }
        ensures strays { self.new.strays ≡ self.old.strays }
        ensures waits { self.new.waits ≡ self.old.waits }
        ensures settled { self.new.settled ≡ self.old.settled }
        ensures parts { self.new.parts ≡ self.old.parts }
        ensures literals { self.new.literals ≡ self.old.literals }
        ensures spare { self.new.spare ≡ self.old.spare }
        ensures height { self.new.height ≡ self.old.height }
        ensures width { self.new.width ≡ self.old.width }
    {
        if self.stage == Stage::Denying {
            self.stage = Stage::Refuting;
        }
    }

    // Takes any line but a `deny`, once the stage is settled.
    fn settled_step<E: LineEngine>(
        &mut self,
        engine: &mut E,
        claim: &Claim,
        line: CertLine,
        number: usize,
    ) -> Result<bool, CertFault>
        requires can { CanCheck claim.now.picture.now claim.now.clues.now (E.longest engine.old) }
        requires right { IsRight claim.now.picture.now self.old }
        requires affords { Affords self.old line }
        ensures spent { OnOk result (Spent self.old self.new line) }
        ensures takes { Takes claim.now.picture.now self.old.walk self.new line number result }
        ensures calls { E.calls engine.old ≤ E.calls engine.new }
        ensures same_longest { E.longest engine.new ≡ E.longest engine.old }
        ensures work { E.calls engine.new ≤ E.calls engine.old + 1 }
    {
        match line {
            CertLine::Line(at) => self.force_line(engine, claim, at, number),
            CertLine::Use(lemma) => self.use_lemma(claim, lemma, number),
            CertLine::Split(at) => self.split(claim, at, number),
            CertLine::Dead(at) => self.end_line(engine, claim, at, number),
            CertLine::Broken(lemma) => self.end_lemma(claim, lemma, number),
            CertLine::Done => self.end_shown(claim, number),
            CertLine::Part(literal) => self.part(claim, literal, number),
            CertLine::Lemma => self.begin(claim, number),
            CertLine::Deny(literal) => self.deny(claim, literal, number),
            CertLine::Forget(lemma) => self.forget(claim, lemma, number),
        }
    }

    // The branch goes on with what the line forces.
    fn force_line<E: LineEngine>(
        &mut self,
        engine: &mut E,
        claim: &Claim,
        at: LineNumber,
        number: usize,
    ) -> Result<bool, CertFault>
        requires can { CanCheck claim.now.picture.now claim.now.clues.now (E.longest engine.old) }
        requires right { IsRight claim.now.picture.now self.old }
        requires affords { Affords self.old (CertLine.Line at) }
        ensures spent { OnOk result (Spent self.old self.new (CertLine.Line at)) }
        ensures takes { Takes claim.now.picture.now self.old.walk self.new (CertLine.Line at)
            number result }
        ensures calls { E.calls engine.old ≤ E.calls engine.new }
        ensures same_longest { E.longest engine.new ≡ E.longest engine.old }
        ensures work { E.calls engine.new ≤ E.calls engine.old + 1 }
    {
        let picture = claim.picture;
        let Some(line) = line_at(picture, at) else {
            return Err(CertFault::Place(number));
        };
        force(engine, &mut self.board, claim, line);
        Ok(true)
    }

    // The branch goes on with what the lemma says of the facts at hand.
    fn use_lemma(&mut self, claim: &Claim, lemma: u16, number: usize) -> Result<bool, CertFault>
        requires right { IsRight claim.now.picture.now self.old }
        requires affords { Affords self.old (CertLine.Use lemma) }
        ensures spent { OnOk result (Spent self.old self.new (CertLine.Use lemma)) }
        ensures takes { Takes claim.now.picture.now self.old.walk self.new (CertLine.Use lemma)
            number result }
    {
        let Some(found) = self.store.kept(lemma) else {
            return Err(CertFault::NoLemma(number));
        };
        let open = open_in(self.board.at_hand(), found.literals, found.places);
        if let Open::One(literal) = open {
            self.hold_to(claim, literal);
        }
        Ok(true)
    }

    // A branch begins for each colour that is left in the cell: that of the lowest one, if there is one.
    fn split(&mut self, claim: &Claim, at: CellNumber, number: usize) -> Result<bool, CertFault>
        requires right { IsRight claim.now.picture.now self.old }
        requires affords { Affords self.old (CertLine.Split at) }
        ensures spent { OnOk result (Spent self.old self.new (CertLine.Split at)) }
        ensures takes { Takes claim.now.picture.now self.old.walk self.new (CertLine.Split at)
            number result }
    {
        let Some(cell) = cell_in(claim.picture, at) else {
            return Err(CertFault::Place(number));
        };
        if self.board.at_hand().left(cell.row, cell.col) == 0 {
            return Ok(self.go_on(claim));
        }
        self.board.split(claim.picture, cell);
        Ok(true)
    }

    // The branch ends, since no list fits the line.
    fn end_line<E: LineEngine>(
        &mut self,
        engine: &mut E,
        claim: &Claim,
        at: LineNumber,
        number: usize,
    ) -> Result<bool, CertFault>
        requires can { CanCheck claim.now.picture.now claim.now.clues.now (E.longest engine.old) }
        requires right { IsRight claim.now.picture.now self.old }
        requires affords { Affords self.old (CertLine.Dead at) }
        ensures spent { OnOk result (Spent self.old self.new (CertLine.Dead at)) }
        ensures takes { Takes claim.now.picture.now self.old.walk self.new (CertLine.Dead at)
            number result }
        ensures calls { E.calls engine.old ≤ E.calls engine.new }
        ensures same_longest { E.longest engine.new ≡ E.longest engine.old }
        ensures work { E.calls engine.new ≤ E.calls engine.old + 1 }
    {
        let _ = engine.calls();
        let Some(line) = line_at(claim.picture, at) else {
            return Err(CertFault::Place(number));
        };
        if !is_dead(engine, self.board.at_hand(), claim.clues.clue(line), line) {
            return Err(CertFault::NotDead(number));
        }
        Ok(self.go_on(claim))
    }

    // The branch ends, since no literal of the lemma is open.
    fn end_lemma(&mut self, claim: &Claim, lemma: u16, number: usize) -> Result<bool, CertFault>
        requires right { IsRight claim.now.picture.now self.old }
        requires affords { Affords self.old (CertLine.Broken lemma) }
        ensures spent { OnOk result (Spent self.old self.new (CertLine.Broken lemma)) }
        ensures takes { Takes claim.now.picture.now self.old.walk self.new (CertLine.Broken lemma)
            number result }
    {
        let Some(found) = self.store.kept(lemma) else {
            return Err(CertFault::NoLemma(number));
        };
        let open = open_in(self.board.at_hand(), found.literals, found.places);
        match open {
            Open::Nothing => Ok(self.go_on(claim)),
            Open::One(_) | Open::More => Err(CertFault::NotDead(number)),
        }
    }

    // The branch ends, since the picture alone is left.
    fn end_shown(&mut self, claim: &Claim, number: usize) -> Result<bool, CertFault>
        requires right { IsRight claim.now.picture.now self.old }
        requires affords { Affords self.old CertLine.Done }
        ensures spent { OnOk result (Spent self.old self.new CertLine.Done) }
        ensures takes { Takes claim.now.picture.now self.old.walk self.new CertLine.Done
            number result }
    {
        if !self.board.shows_only(claim.picture) {
            return Err(CertFault::NotDone(number));
        }
        Ok(self.go_on(claim))
    }

    // Two branches begin: the cell without the literal's colours, and then with these alone.
    fn part(&mut self, claim: &Claim, literal: Literal, number: usize) -> Result<bool, CertFault>
        requires right { IsRight claim.now.picture.now self.old }
        requires affords { Affords self.old (CertLine.Part literal) }
        ensures spent { OnOk result (Spent self.old self.new (CertLine.Part literal)) }
        ensures takes { Takes claim.now.picture.now self.old.walk self.new (CertLine.Part literal)
            number result }
    {
        let picture = claim.picture;
        let Some(cell) = cell_in(picture, literal.cell) else {
            return Err(CertFault::Place(number));
        };
        self.board.part(picture, cell, literal.colours);
        Ok(true)
    }

    // A lemma begins. The facts as they are wait until it is kept.
    fn begin(&mut self, claim: &Claim, number: usize) -> Result<bool, CertFault>
        requires right { IsRight claim.now.picture.now self.old }
        requires affords { Affords self.old CertLine.Lemma }
        ensures spent { OnOk result (Spent self.old self.new CertLine.Lemma) }
        ensures takes { Takes claim.now.picture.now self.old.walk self.new CertLine.Lemma
            number result }
    {
        if !self.board.is_last() {
            return Err(CertFault::Misplaced(number));
        }
        self.board.keep_waiting(claim.picture);
        self.stage = Stage::Denying;
        Ok(true)
    }

    // The lemma that begins gets a literal, which is denied.
    fn deny(&mut self, claim: &Claim, literal: Literal, number: usize) -> Result<bool, CertFault>
        requires right { IsRight claim.now.picture.now self.old }
        requires affords { Affords self.old (CertLine.Deny literal) }
        ensures spent { OnOk result (Spent self.old self.new (CertLine.Deny literal)) }
        ensures takes { Takes claim.now.picture.now self.old.walk self.new (CertLine.Deny literal)
            number result }
    {
        if self.stage != Stage::Denying {
            return Err(CertFault::Misplaced(number));
        }
        let Some(cell) = cell_in(claim.picture, literal.cell) else {
            return Err(CertFault::Place(number));
        };
        if !self.store.has_room() {
            return Err(CertFault::Full(number));
        }
        self.store.deny(literal, cell);
        let left = self.board.at_hand().left(cell.row, cell.col);
        self.board
            .hold(claim.picture, cell, left & !literal.colours);
        Ok(true)
    }

    // A lemma is kept no longer.
    fn forget(&mut self, claim: &Claim, lemma: u16, number: usize) -> Result<bool, CertFault>
        requires right { IsRight claim.now.picture.now self.old }
        requires affords { Affords self.old (CertLine.Forget lemma) }
        ensures spent { OnOk result (Spent self.old self.new (CertLine.Forget lemma)) }
        ensures takes { Takes claim.now.picture.now self.old.walk self.new (CertLine.Forget lemma)
            number result }
    {
        if !self.board.is_last() {
            return Err(CertFault::Misplaced(number));
        }
        let Some(_found) = self.store.kept(lemma) else {
            return Err(CertFault::NoLemma(number));
        };
        self.store.forget(lemma);
        Ok(true)
    }

    // Holds the cell of a literal to its colours.
    fn hold_to(&mut self, claim: &Claim, literal: Literal)
        requires right { IsRight claim.now.picture.now self.old }
        requires some { 0 < left_of self.old.walk.at_hand literal }
        ensures walk { self.new.walk
            ≡ at_facts self.old.walk (held_to self.old.walk.at_hand literal) }
        ensures right { IsRight claim.now.picture.now self.new }
        ensures parts { self.new.parts ≡ self.old.parts }
        ensures literals { self.new.literals ≡ self.old.literals }
        ensures spare { self.new.spare ≡ self.old.spare }
    {
        let Some(cell) = cell_of(self.board.at_hand(), literal) else {
            return;
        };
        let left = self.board.at_hand().left(cell.row, cell.col);
        self.board.hold(claim.picture, cell, left & literal.colours);
    }

    // Ends the branch at hand and begins the next that waits. False where none does. A lemma is kept where the last facts that
    // wait are at hand again.
    fn go_on(&mut self, claim: &Claim) -> bool
        requires right { IsRight claim.now.picture.now self.old }
        requires room { owed self.old.walk.stage ≤ self.old.spare }
        ensures walk { reached result self.new.walk ≡ next_at self.old.walk self.old.walk.behind }
        ensures right { result ≡ true → IsRight claim.now.picture.now self.new }
        ensures parts { self.new.parts ≡ self.old.parts }
        ensures literals { self.new.literals ≡ self.old.literals }
        ensures spare { self.old.spare + owed self.new.walk.stage
            ≤ self.new.spare + owed self.old.walk.stage }
    {
        if !self.board.advance(claim.picture) {
            return false;
        }
        if self.stage != Stage::Free && self.board.is_last() {
            self.store.keep();
            self.stage = Stage::Free;
        }
        true
    }
}
