//! A certificate as a value: its form, its givens and its steps.

ghost use Rattle.std.specs.Prelude.{◌≡◌, ◌+◌, ◌<◌, ◌≤◌, ◌↔◌, length, take, IfOk, IsTrue};
ghost use Rattle.std.specs.List.{AllByRecursion};
ghost use Rattle.cert_text.specs.Cert.{AreLongest, AreOfForm, AreOrdered, AreRuns, CanHaveGivens, HasRuns, IsCert, IsLongest, IsOfForm, IsOfLemmas, IsOfTree, IsRun, IsWritable, ShareWord, certificate, place_of};

use crate::cert_line::{CellNumber, CertLine, Literal};
use crate::form::Form;
use crate::runs::MAX_RUN;
use std::alloc::{AllocError, Global};
use std::marker::Model;

/// A certificate, as a text of its form has it.
#[derive(Drop)]
pub struct Cert {
    form: Form,
    givens: Vec<CellNumber>,
    lines: Vec<CertLine>,
    runs: Vec<u16>,
}

impl Model for Cert {
    ghost use Rattle.cert_text.specs.Cert.{Certificate, certificate};

    ghost Value = { Certificate };

    ghost view = { λ c. certificate c.form c.givens.items c.lines.items c.runs.items };
}

impl Cert {
    /// The certificate with these givens and steps. In the form `LemmaRuns` a line of its text has one step or more, and
    /// `runs` says how many, line by line; in the others `runs` is empty.
    pub fn new(form: Form, givens: Vec<CellNumber>, lines: Vec<CertLine>, runs: Vec<u16>) -> Cert
        ensures { result ≡ certificate form givens.items lines.items runs.items }
    {
        Cert {
            form,
            givens,
            lines,
            runs,
        }
    }

    /// The form.
    pub fn form(&self) -> Form
        ensures { result ≡ self.now.form }
    {
        self.form
    }

    /// The cells that are given, in the order of rows.
    pub fn givens(&self) -> &[CellNumber]
        ensures { result.now ≡ self.now.givens }
    {
        &self.givens
    }

    /// The steps below the givens. In trees each branch is complete before the next, if the certificate is right.
    pub fn lines(&self) -> &[CertLine]
        ensures { result.now ≡ self.now.lines }
    {
        &self.lines
    }

    /// How many steps each line of the text has, in the form `LemmaRuns`. Empty in the others, where each has one.
    pub fn runs(&self) -> &[u16]
        ensures { result.now ≡ self.now.runs }
    {
        &self.runs
    }

    /// The number of the line of the text that has a step, by its index. That of the line that is missing, for the index
    /// behind the last.
    pub fn place_of(&self, step: usize) -> usize
        requires { step ≤ length self.now.lines }
        ensures { result ≡ place_of self.now.runs (2 + length self.now.givens) step }
    {
        let mut place = 2 + self.givens().len();
        let mut left = step;
        for run in &self.runs {
            let run = usize::from(*run);
            if left < run {
                return place;
            }
            left -= run;
            place += 1;
        }
        place + left
    }

    /// Whether the text that is written for the certificate is read as the same certificate. Then the givens are in the
    /// order of rows, none twice; the steps are the form's, and the runs are those of lines; numbers have at most three
    /// digits, and each literal names a colour.
    pub fn is_writable(&self) -> bool
        ensures { IsTrue result ↔ IsCert self.now }
    {
        can_have_givens(self.form, &self.givens)
            && are_of_form(self.form, &self.lines)
            && has_runs(self.form, &self.runs, &self.lines)
    }
}

impl Literal {
    // Whether it can be written: its numbers have at most three digits, and it names a colour.
    fn is_writable(self) -> bool
        ensures { IsTrue result ↔ IsWritable self }
    {
        self.cell.row < 1000 && self.cell.col < 1000 && self.colours > 0
    }
}

impl CertLine {
    // Whether a text of the form can have the step.
    fn is_of_form(self, form: Form) -> bool
        ensures { IsTrue result ↔ IsOfForm form self }
    {
        match form {
            Form::Tree | Form::GivenTree => self.is_of_tree(),
            Form::Lemmas | Form::LemmaRuns => self.is_of_lemmas(),
        }
    }

    fn is_of_tree(self) -> bool
        ensures { IsTrue result ↔ IsOfTree self }
    {
        match self {
            CertLine::Line(line) | CertLine::Dead(line) => line.number < 1000,
            CertLine::Split(cell) => cell.row < 1000 && cell.col < 1000,
            CertLine::Done => true,
            _ => false,
        }
    }

    fn is_of_lemmas(self) -> bool
        ensures { IsTrue result ↔ IsOfLemmas self }
    {
        match self {
            CertLine::Line(line) | CertLine::Dead(line) => line.number < 1000,
            CertLine::Part(literal) | CertLine::Deny(literal) => literal.is_writable(),
            CertLine::Split(_) => false,
            _ => true,
        }
    }

    // Whether a line can have both steps.
    fn shares_word(self, other: CertLine) -> bool
        ensures { IsTrue result ↔ ShareWord self other }
    {
        match (self, other) {
            (CertLine::Line(_), CertLine::Line(_)) => true,
            (CertLine::Use(_), CertLine::Use(_)) => true,
            (CertLine::Forget(_), CertLine::Forget(_)) => true,
            _ => false,
        }
    }
}

// Whether these can be the givens.
fn can_have_givens(form: Form, givens: &[CellNumber]) -> bool
    ensures { IsTrue result ↔ CanHaveGivens form givens.now }
{
    match form {
        Form::Tree => givens.is_empty(),
        _ => are_ordered(givens),
    }
}

// Whether cells are in the order of rows, none twice, by numbers of at most three digits.
fn are_ordered(cells: &[CellNumber]) -> bool
    ensures { IsTrue result ↔ AreOrdered 0 cells.now }
{
    let mut least = 0;
    for cell in cells {
        if cell.row >= 1000 || cell.col >= 1000 {
            return false;
        }
        let rank = u32::from(cell.row) * 1000 + u32::from(cell.col);
        if rank < least {
            return false;
        }
        least = rank + 1;
    }
    true
}

// Whether a text of the form can have the steps.
fn are_of_form(form: Form, lines: &[CertLine]) -> bool
    ensures { IsTrue result ↔ AreOfForm form lines.now }
{
    lines.iter().all(|line| line.is_of_form(form))
}

// Whether a line can have all these steps.
fn share_word(step: CertLine, others: &[CertLine]) -> bool
    ensures { IsTrue result ↔ AllByRecursion (ShareWord step) others.now }
{
    others.iter().all(|other| step.shares_word(*other))
}

// Whether the steps are those of one line.
fn is_run(steps: &[CertLine]) -> bool
    ensures { IsTrue result ↔ IsRun steps.now }
{
    match steps {
        [] => false,
        [step, others @ ..] => others.len() < MAX_RUN && share_word(*step, others),
    }
}

// How many of the first steps a line can have together.
fn run_at(steps: &[CertLine]) -> usize
    requires { 0 < length steps.now }
    ensures run { IsRun (take result steps.now) }
    ensures longest { IsLongest result steps.now }
    ensures some { 0 < result }
    ensures few { result ≤ length steps.now }
    ensures most { result ≤ MAX_RUN }
{
    let mut count = 1;
    while count < steps.len() && count < MAX_RUN && steps[0].shares_word(steps[count]) {
        count += 1;
    }
    count
}

/// How many steps each line has, for a certificate of the form `LemmaRuns` with these steps: as many as a line can have
/// together.
pub fn runs_of(alloc: Global, steps: &[CertLine]) -> Result<Vec<u16>, AllocError>
    ensures runs { IfOk result (λ runs. AreRuns runs.items steps.now) }
    ensures longest { IfOk result (λ runs. AreLongest runs.items steps.now) }
{
    let mut runs = Vec::new(alloc);
    let mut rest = steps;
    while !rest.is_empty() {
        let run = run_at(rest);
        runs.push(run as u16)?;
        let (_, behind) = rest.split_at(run);
        rest = behind;
    }
    Ok(runs)
}

// Whether the steps are these runs, one after another.
fn are_runs(runs: &[u16], lines: &[CertLine]) -> bool
    ensures { IsTrue result ↔ AreRuns runs.now lines.now }
{
    let mut rest = lines;
    for run in runs {
        let run = usize::from(*run);
        if run > rest.len() {
            return false;
        }
        let (steps, behind) = rest.split_at(run);
        if !is_run(steps) {
            return false;
        }
        rest = behind;
    }
    rest.is_empty()
}

// Whether the lengths of lines are those of the form.
fn has_runs(form: Form, runs: &[u16], lines: &[CertLine]) -> bool
    ensures { IsTrue result ↔ HasRuns form runs.now lines.now }
{
    match form {
        Form::LemmaRuns => are_runs(runs, lines),
        _ => runs.is_empty(),
    }
}
