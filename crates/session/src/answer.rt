//! The answers of a session to its lines. All memory is allocated before the first byte of an answer is written.

ghost use Rattle.std.specs.Prelude.{◌≡◌, ◌+◌, ◌++◌, ◌<◌, ◌≤◌, [], codes, vec_capacity, vec_len, Option, IfOk, OnErr, OnOk};
ghost use Rattle.picture.specs.Content.{content_of};
ghost use Rattle.picture.specs.Writers.{number_text};
ghost use Rattle.ppm_text.specs.Text.{ppm_text};
ghost use Rattle.edits.specs.Fault.{has_cell};
ghost use Rattle.cert_text.specs.Cert.{Certificate};
ghost use Rattle.command_text.specs.Parse.{IsBounded};
ghost use Rattle.command_text.specs.declared.command.Command.TheVariants as command;
ghost use Rattle.command_text.specs.Lines.{AsksBounded};
ghost use Rattle.report_text.specs.AssessmentText.{assessment_text};
ghost use Rattle.report_text.specs.Room.{TakesRoom, picture_room};
ghost use Rattle.report_text.specs.Shown.{map_text, picture_text};
ghost use Rattle.grade.specs.declared.pathing.Path.{Path};
ghost use Rattle.assess.specs.declared.assessment.Assessment.{Assessment};
ghost use Rattle.live_audit.specs.Assessing.{IsAssessmentOf, IsPathOf};
ghost use Rattle.live_audit.specs.Certify.{Certifies};
ghost use Rattle.live_audit.specs.Calls.{IsAsBefore, Learns};
ghost use Rattle.live_audit.specs.Bench.{IsAudited};
ghost use Rattle.session.specs.Answer.{GivesNon, IsAsked, answer_text, stroke_said, text_said};
ghost use Rattle.session.specs.Room.{verdict_room};
ghost use Rattle.session.specs.Allowing.{assess_allowance};
ghost use Rattle.session.specs.Session.{Replies, Says, report_on};
ghost use Rattle.session.specs.Texts.{certified_text, path_shown, verdict_text, verdict_word, why_text};

use crate::refusal::Refusal;
use certificate::{Cert, write_cert};
use command_text::{ASSESS_SPLITS, Command, Request};
use edits::{Edit, EditFault};
use line_facts::{Facts, LineEngine};
use live_audit::{Bench, Verdict, Why};
use non_text::{NonWriteFault, write_non};
use picture::{Document, Picture};
use ppm_text::write_ppm;
use propagate::Agenda;
use report_text::{
    ENDING_ROOM, clues_text, push_assessment, push_ending, push_front, push_map, push_number,
    push_path, push_picture, push_reason,
};
use std::alloc::{AllocError, Global};

// How many bytes `undecided `, a number of at most ten digits and a line feed take.
const UNDECIDED_ROOM: usize = 21;

/// The answer to a line of a session.
#[derive(Drop)]
pub(crate) enum Answer {
    /// Nothing: the line has no word.
    Silence,
    /// `ok`.
    Done,
    /// A text, complete.
    Text(Vec<u8>),
    /// A refusal. Its line is static, so it needs no memory.
    Refused(Refusal),
}

impl Answer {
    // The bytes that are written.
    pub(crate) fn bytes(&self) -> &[u8]
        ensures { result.now ≡ answer_text self.now }
    {
        match self {
            Answer::Silence => &[],
            Answer::Done => b"ok\n",
            Answer::Text(text) => text.as_slice(),
            Answer::Refused(refusal) => refusal.line(),
        }
    }
}

fn stroke_answer(outcome: Result<(), EditFault>) -> Answer
    ensures { result ≡ stroke_said outcome }
{
    match outcome {
        Ok(()) => Answer::Done,
        Err(fault) => Answer::Refused(Refusal::Edit(fault)),
    }
}

fn text_answer(outcome: Result<Vec<u8>, AllocError>) -> Answer
    ensures { result ≡ text_said outcome }
{
    match outcome {
        Ok(text) => Answer::Text(text),
        Err(AllocError) => Answer::Refused(Refusal::Memory),
    }
}

fn map_text(alloc: Global, map: &Facts) -> Result<Vec<u8>, AllocError>
    ensures { IfOk result (λ text. text.items ≡ map_text map.now) }
{
    let mut text = Vec::new(alloc);
    push_map(&mut text, map)?;
    Ok(text)
}

// Says whether a colour is excluded from a cell, and why. A cell outside the picture is refused.
fn answer_why<E: LineEngine + Drop, A: Agenda + Drop>(
    alloc: Global,
    bench: &Bench<E, A>,
    row: u8,
    col: u8,
    colour: u8,
) -> Answer
    requires { colour < 16 }
    ensures { Replies (command.Why row col colour) bench.now (answer_text result) bench.now }
{
    if !has_cell(&bench.document().picture, row, col) {
        return Answer::Refused(Refusal::Edit(EditFault::Place));
    }
    match bench.why(row, col, colour) {
        Ok(why) => text_answer(why_text(alloc, &why)),
        Err(AllocError) => Answer::Refused(Refusal::Memory),
    }
}

// Whether the picture has a cell in this row and column.
fn has_cell(picture: &Picture, row: u8, col: u8) -> bool
    ensures { result ≡ has_cell picture.now row col }
{
    row < picture.height() && col < picture.width()
}

fn why_text(alloc: Global, why: &Why) -> Result<Vec<u8>, AllocError>
    ensures { IfOk result (λ text. text.items ≡ why_text why.now) }
{
    let mut text = Vec::new(alloc);
    push_why(&mut text, why)?;
    Ok(text)
}

fn push_why(text: &mut Vec<u8>, why: &Why) -> Result<(), AllocError>
    ensures { OnOk result (text.new.items ≡ text.old.items ++ why_text why.now) }
{
    match why {
        Why::Possible => text.extend_from_slice(b"possible\n"),
        Why::Given => text.extend_from_slice(b"given\n"),
        Why::By(reason) => push_reason(text, reason),
    }
}

fn verdict_text<E: LineEngine + Drop, A: Agenda + Drop>(
    alloc: Global,
    bench: &mut Bench<E, A>,
) -> Result<Vec<u8>, AllocError>
    ensures { IsAsked verdict_text bench.old bench.new result }
{
    let mut text = room_for_verdict(alloc, &bench.document().picture)?;
    let verdict = bench.verdict()?;
    push_verdict(&mut text, &verdict)?;
    Ok(text)
}

// An empty text with room for any verdict on a picture.
fn room_for_verdict(alloc: Global, picture: &Picture) -> Result<Vec<u8>, AllocError>
    ensures empty { IfOk result (λ text. text.items ≡ []) }
    ensures room { IfOk result
        (λ text. vec_len text + (21 + picture_room picture.now) ≤ vec_capacity text) }
{
    let row_room = usize::from(picture.width()) + 1;
    let picture_room = usize::from(picture.height()) * row_room;
    Vec::with_capacity(alloc, UNDECIDED_ROOM + picture_room)
}

fn push_verdict(text: &mut Vec<u8>, verdict: &Verdict<'_>) -> Result<(), AllocError>
    ensures items { OnOk result (text.new.items ≡ text.old.items ++ verdict_text verdict.now) }
    ensures room { TakesRoom text.old text.new (verdict_room verdict.now) result }
{
    match verdict {
        Verdict::Unique => text.extend_from_slice(b"unique\n"),
        Verdict::Ambiguous(other) => push_other(text, other),
        Verdict::Undecided { splits } => push_undecided(text, *splits),
    }
}

#[tactic(auto, using(std::proofs::lemmas::List::append_assoc))]
fn push_other(text: &mut Vec<u8>, other: &Picture) -> Result<(), AllocError>
    ensures items { OnOk result (text.new.items
        ≡ text.old.items ++ (codes "ambiguous\n" ++ picture_text other.now)) }
    ensures room { TakesRoom text.old text.new (10 + picture_room other.now) result }
{
    text.extend_from_slice(b"ambiguous\n")?;
    push_picture(text, other)
}

#[tactic(auto, using(crate::proofs::RoomLemmas::numbers))]
fn push_undecided(text: &mut Vec<u8>, splits: u32) -> Result<(), AllocError>
    ensures items { OnOk result (text.new.items
        ≡ text.old.items ++ (codes "undecided " ++ number_text splits 10)) }
    ensures room { TakesRoom text.old text.new 21 result }
{
    text.extend_from_slice(b"undecided ")?;
    push_number(text, splits as usize)?;
    Ok(text.push(b'\n')?)
}

// The report. All its memory is allocated before the verdict is asked for, since that may change what the bench keeps.
fn report_text<E: LineEngine + Drop, A: Agenda + Drop>(
    alloc: Global,
    bench: &mut Bench<E, A>,
) -> Result<Vec<u8>, AllocError>
    ensures { IsAsked (report_on bench.old) bench.old bench.new result }
{
    let mut text = Vec::new(alloc);
    push_front(&mut text, bench.document(), bench.clues(), bench.map())?;
    text.reserve(ENDING_ROOM)?;
    let verdict = bench.verdict()?;
    let word = verdict_word(&verdict);
    push_ending(&mut text, word, bench.past_len(), bench.future_len())?;
    Ok(text)
}

// The verdict's word.
fn verdict_word(verdict: &Verdict<'_>) -> &'static [u8]
    ensures { result.now ≡ verdict_word verdict.now }
{
    match verdict {
        Verdict::Unique => b"unique",
        Verdict::Ambiguous(_) => b"ambiguous",
        Verdict::Undecided { .. } => b"undecided",
    }
}

// The P3 text of a document. A write to a `Vec` fails only when memory runs out.
fn ppm_text(alloc: Global, document: &Document) -> Result<Vec<u8>, AllocError>
    ensures { IfOk result (λ text. text.items ≡ ppm_text (content_of document.now)) }
{
    let mut text = Vec::new(alloc);
    write_ppm(document, &mut text).map_err(|_| AllocError)?;
    Ok(text)
}

// The .non text of a picture, or a refusal: a cell has a colour above 1, or memory ran out.
fn non_answer(alloc: Global, picture: &Picture) -> Answer
    ensures { GivesNon picture.now result }
{
    let mut text = Vec::new(alloc);
    match write_non(alloc, picture, &mut text) {
        Ok(()) => Answer::Text(text),
        Err(NonWriteFault::TwoColoursOnly) => Answer::Refused(Refusal::TwoColoursOnly),
        Err(NonWriteFault::Memory | NonWriteFault::Write) => Answer::Refused(Refusal::Memory),
    }
}

// The certificate's text, or that there is another picture. What the search found is kept once the text is complete.
fn certificate_text<E: LineEngine + Drop, A: Agenda + Drop>(
    alloc: Global,
    bench: &mut Bench<E, A>,
) -> Result<Vec<u8>, AllocError>
    ensures text { IfOk result (λ text. (found : Option Certificate)
        × (Certifies bench.old.history.document found × (text.items ≡ certified_text found))) }
    ensures learns { OnOk result (Learns bench.old bench.new) }
    ensures as_before { OnErr result (IsAsBefore bench.old bench.new) }
    ensures calls { bench.old.calls ≤ bench.new.calls }
    ensures audited { IsAudited bench.new }
{
    let found = bench.find_certificate()?;
    let mut text = Vec::new(alloc);
    push_found(&mut text, &found.cert)?;
    let _ = bench.keep(found);
    Ok(text)
}

fn push_found(text: &mut Vec<u8>, found: &Option<Cert>) -> Result<(), AllocError>
    requires { text.old.items ≡ [] }
    ensures { OnOk result (text.new.items ≡ certified_text found.now) }
{
    match found {
        Some(cert) => write_cert(cert, text).map_err(|_| AllocError),
        None => text.extend_from_slice(b"ambiguous\n"),
    }
}

// The allowance of an assessment: none where it is taken away, else that of the session, or 10,000 splits.
fn assess_allowance(is_off: bool, allowance: Option<u32>) -> Option<u32>
    ensures { result ≡ assess_allowance is_off allowance }
{
    match (is_off, allowance) {
        (true, _) => None,
        (false, None) => Some(ASSESS_SPLITS),
        (false, Some(splits)) => Some(splits),
    }
}

// Whether the puzzle is fit to be published. `is_off` takes away the bound on splits.
fn assessment_text<E: LineEngine + Drop, A: Agenda + Drop>(
    alloc: Global,
    bench: &mut Bench<E, A>,
    is_off: bool,
) -> Result<Vec<u8>, AllocError>
    ensures text { IfOk result (λ text. (found : Assessment)
        × (IsAssessmentOf bench.old.history.document
        (assess_allowance is_off bench.old.allowance) found
        × (text.items ≡ assessment_text found))) }
    ensures as_before { IsAsBefore bench.old bench.new }
    ensures calls { bench.old.calls ≤ bench.new.calls }
{
    let mut text = Vec::new(alloc);
    let bound = assess_allowance(is_off, bench.allowance());
    let found = bench.assess(bound)?;
    push_assessment(&mut text, &found)?;
    Ok(text)
}

// The path of line logic.
fn path_text<E: LineEngine + Drop, A: Agenda + Drop>(
    alloc: Global,
    bench: &mut Bench<E, A>,
) -> Result<Vec<u8>, AllocError>
    ensures text { IfOk result (λ text. (path : Path)
        × (IsPathOf bench.old.history.document path × (text.items ≡ path_shown path))) }
    ensures as_before { IsAsBefore bench.old bench.new }
    ensures calls { bench.old.calls ≤ bench.new.calls }
{
    let path = bench.path()?;
    let mut text = Vec::new(alloc);
    push_path(&mut text, &path)?;
    Ok(text)
}

// The answer to a command, which also takes effect on the bench.
fn answer_command<E: LineEngine + Drop, A: Agenda + Drop>(
    alloc: Global,
    bench: &mut Bench<E, A>,
    command: Command,
) -> Answer
    requires { IsBounded command }
    ensures { Replies command bench.old (answer_text result) bench.new }
{
    match command {
        Command::Edit(edit) => stroke_answer(bench.apply(&edit)),
        Command::Undo => stroke_answer(bench.undo()),
        Command::Redo => stroke_answer(bench.redo()),
        Command::Clues => text_answer(clues_text(alloc, bench.clues())),
        Command::Map => text_answer(map_text(alloc, bench.map())),
        Command::Verdict => text_answer(verdict_text(alloc, bench)),
        Command::Why { row, col, colour } => answer_why(alloc, bench, row, col, colour),
        Command::WritePpm => text_answer(ppm_text(alloc, bench.document())),
        Command::WriteNon => non_answer(alloc, &bench.document().picture),
        Command::Report => text_answer(report_text(alloc, bench)),
        Command::Allow(allowance) => {
            bench.allow(allowance);
            Answer::Done
        }
        Command::Certify => text_answer(certificate_text(alloc, bench)),
        Command::Assess { is_off } => text_answer(assessment_text(alloc, bench, is_off)),
        Command::Path => text_answer(path_text(alloc, bench)),
    }
}

#[tactic(auto, unfolding(crate::specs::Session::Says))]
// The answer to a line's request, which also takes effect on the bench.
pub(crate) fn answer_to<E: LineEngine + Drop, A: Agenda + Drop>(
    alloc: Global,
    bench: &mut Bench<E, A>,
    request: Request,
) -> Answer
    requires { AsksBounded request }
    ensures { Says bench.old request (answer_text result) bench.new }
{
    match request {
        Request::Nothing => Answer::Silence,
        Request::Refused(fault) => Answer::Refused(Refusal::Line(fault)),
        Request::Command(command) => answer_command(alloc, bench, command),
    }
}
