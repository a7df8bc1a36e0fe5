//! The writer of certificates.

ghost use Rattle.std.specs.Prelude.{◌≡◌, ◌++◌, decimal, OnOk, OnErr};
ghost use Rattle.std.specs.Io.KnownBytes.{Appends};
ghost use Rattle.std.specs.List.{flat_map};
ghost use Rattle.picture.specs.Writers.{AppendsFront};
ghost use Rattle.cert_text.specs.Cert.{cut_into};
ghost use Rattle.cert_text.specs.WrittenCert.{axis_joined, axis_text, cell_text, cert_text, colours_text, form_text, given_text, line_text, literal_text, named_text, numbered_text, place_text, run_text, steps_text, word_text, words_text};

use crate::cert::Cert;
use crate::cert_line::{CellNumber, CertLine, LineNumber, Literal};
use crate::form::Form;
use crate::letters::send_letters;
use itoa::Buffer;
use picture::{Axis, WriteFault, send, send_number};
use std::io::Write;

// The letter of an axis, and a space.
fn axis_word(axis: Axis) -> &'static [u8]
    ensures { result.now ≡ axis_text axis }
{
    match axis {
        Axis::Across => b"r ",
        Axis::Down => b"c ",
    }
}

#[tactic(auto, using(picture::proofs::SendingLaws::sending))]
/// Writes a line of a text: a word, and the row or column that is named. After an error a prefix of it was written.
pub fn send_named<W: Write>(word: &[u8], line: LineNumber, writer: &mut W) -> Result<(), WriteFault>
    ensures ok { OnOk result
        (Appends (W.contents writer.old) (W.contents writer.new) (named_text word.now line)) }
    ensures err { OnErr result
        (AppendsFront (W.contents writer.old) (W.contents writer.new) (named_text word.now line)) }
{
    send(word, writer)?;
    send(axis_word(line.axis), writer)?;
    send_number(line.number, b'\n', writer)
}

#[tactic(auto, using(picture::proofs::SendingLaws::sending))]
// Writes a line of a text: a word, and the cell that is named.
fn send_cell<W: Write>(word: &[u8], cell: CellNumber, writer: &mut W) -> Result<(), WriteFault>
    ensures ok { OnOk result
        (Appends (W.contents writer.old) (W.contents writer.new) (cell_text word.now cell)) }
    ensures err { OnErr result
        (AppendsFront (W.contents writer.old) (W.contents writer.new) (cell_text word.now cell)) }
{
    send(word, writer)?;
    send_number(cell.row, b' ', writer)?;
    send_number(cell.col, b'\n', writer)
}

#[tactic(auto, using(picture::proofs::SendingLaws::sending))]
// Writes a line that names a lemma.
fn send_numbered<W: Write>(word: &[u8], number: u16, writer: &mut W) -> Result<(), WriteFault>
    ensures ok { OnOk result
        (Appends (W.contents writer.old) (W.contents writer.new) (numbered_text word.now number)) }
    ensures err { OnErr result (AppendsFront
        (W.contents writer.old) (W.contents writer.new) (numbered_text word.now number)) }
{
    send(word, writer)?;
    send_number(number, b'\n', writer)
}

#[tactic(auto, using(picture::proofs::SendingLaws::sending))]
// Writes a word and a cell.
fn send_place<W: Write>(word: &[u8], cell: CellNumber, writer: &mut W) -> Result<(), WriteFault>
    ensures ok { OnOk result
        (Appends (W.contents writer.old) (W.contents writer.new) (place_text word.now cell)) }
    ensures err { OnErr result
        (AppendsFront (W.contents writer.old) (W.contents writer.new) (place_text word.now cell)) }
{
    send(word, writer)?;
    send_number(cell.row, b' ', writer)?;
    send_number(cell.col, b' ', writer)
}

#[tactic(auto, using(picture::proofs::SendingLaws::sending))]
// Writes the letters of colours, and ends the line.
fn send_colours<W: Write>(colours: u16, writer: &mut W) -> Result<(), WriteFault>
    ensures ok { OnOk result
        (Appends (W.contents writer.old) (W.contents writer.new) (colours_text colours)) }
    ensures err { OnErr result
        (AppendsFront (W.contents writer.old) (W.contents writer.new) (colours_text colours)) }
{
    send_letters(colours, writer)?;
    send(b"\n", writer)
}

#[tactic(auto, using(picture::proofs::SendingLaws::sending))]
// Writes a line that names a cell and colours.
fn send_literal<W: Write>(word: &[u8], literal: Literal, writer: &mut W) -> Result<(), WriteFault>
    ensures ok { OnOk result
        (Appends (W.contents writer.old) (W.contents writer.new) (literal_text word.now literal)) }
    ensures err { OnErr result (AppendsFront
        (W.contents writer.old) (W.contents writer.new) (literal_text word.now literal)) }
{
    send_place(word, literal.cell, writer)?;
    send_colours(literal.colours, writer)
}

// Writes a line below the givens.
fn send_line<W: Write>(line: CertLine, writer: &mut W) -> Result<(), WriteFault>
    ensures ok { OnOk result
        (Appends (W.contents writer.old) (W.contents writer.new) (line_text line)) }
    ensures err { OnErr result
        (AppendsFront (W.contents writer.old) (W.contents writer.new) (line_text line)) }
{
    match line {
        CertLine::Line(line) => send_named(b"line ", line, writer),
        CertLine::Use(lemma) => send_numbered(b"use ", lemma, writer),
        CertLine::Split(cell) => send_cell(b"split ", cell, writer),
        CertLine::Dead(line) => send_named(b"dead ", line, writer),
        CertLine::Broken(lemma) => send_numbered(b"dead l ", lemma, writer),
        CertLine::Done => send(b"done\n", writer),
        CertLine::Part(literal) => send_literal(b"part ", literal, writer),
        CertLine::Lemma => send(b"lemma\n", writer),
        CertLine::Deny(literal) => send_literal(b"deny ", literal, writer),
        CertLine::Forget(lemma) => send_numbered(b"drop ", lemma, writer),
    }
}

#[tactic(auto, using(picture::proofs::SendingLaws::pieces))]
/// Writes a line of a text for each given. After an error a prefix of them was written.
pub fn send_givens<W: Write>(givens: &[CellNumber], writer: &mut W) -> Result<(), WriteFault>
    ensures ok { OnOk result
        (Appends (W.contents writer.old) (W.contents writer.new) (flat_map given_text givens.now)) }
    ensures err { OnErr result
        (AppendsFront (W.contents writer.old) (W.contents writer.new)
        (flat_map given_text givens.now)) }
{
    for i in 0..givens.len() {
        send_cell(b"given ", givens[i], writer)?;
    }
    Ok(())
}

#[tactic(auto, using(picture::proofs::SendingLaws::pieces))]
// Writes the lines below the givens.
fn send_lines<W: Write>(lines: &[CertLine], writer: &mut W) -> Result<(), WriteFault>
    ensures ok { OnOk result
        (Appends (W.contents writer.old) (W.contents writer.new) (flat_map line_text lines.now)) }
    ensures err { OnErr result
        (AppendsFront (W.contents writer.old) (W.contents writer.new)
        (flat_map line_text lines.now)) }
{
    for i in 0..lines.len() {
        send_line(lines[i], writer)?;
    }
    Ok(())
}

// A space, and the letter of an axis.
fn axis_joined(axis: Axis) -> &'static [u8]
    ensures { result.now ≡ axis_joined axis }
{
    match axis {
        Axis::Across => b" r",
        Axis::Down => b" c",
    }
}

#[tactic(auto, using(picture::proofs::SendingLaws::sending))]
// Writes bytes and a number in decimal digits.
fn send_digits<W: Write>(front: &[u8], number: u16, writer: &mut W) -> Result<(), WriteFault>
    ensures ok { OnOk result
        (Appends (W.contents writer.old) (W.contents writer.new) (front.now ++ decimal number)) }
    ensures err { OnErr result (AppendsFront
        (W.contents writer.old) (W.contents writer.new) (front.now ++ decimal number)) }
{
    let mut buffer = Buffer::new();
    send(front, writer)?;
    send(buffer.format(number).as_bytes(), writer)
}

// Writes the word that names a step, after a space.
fn send_word<W: Write>(step: CertLine, writer: &mut W) -> Result<(), WriteFault>
    ensures ok { OnOk result
        (Appends (W.contents writer.old) (W.contents writer.new) (word_text step)) }
    ensures err { OnErr result
        (AppendsFront (W.contents writer.old) (W.contents writer.new) (word_text step)) }
{
    match step {
        CertLine::Line(line) => send_digits(axis_joined(line.axis), line.number, writer),
        CertLine::Use(lemma) => send_digits(b" ", lemma, writer),
        CertLine::Forget(lemma) => send_digits(b" ", lemma, writer),
        _ => send(b"", writer),
    }
}

#[tactic(auto, using(picture::proofs::SendingLaws::pieces))]
// Writes the words that name steps, each after a space.
fn send_words<W: Write>(steps: &[CertLine], writer: &mut W) -> Result<(), WriteFault>
    ensures ok { OnOk result
        (Appends (W.contents writer.old) (W.contents writer.new) (flat_map word_text steps.now)) }
    ensures err { OnErr result
        (AppendsFront (W.contents writer.old) (W.contents writer.new)
        (flat_map word_text steps.now)) }
{
    for i in 0..steps.len() {
        send_word(steps[i], writer)?;
    }
    Ok(())
}

#[tactic(auto, using(picture::proofs::SendingLaws::sending))]
// Writes a line of a text: a word, and the steps that follow it.
fn send_joined<W: Write>(word: &[u8], steps: &[CertLine], writer: &mut W) -> Result<(), WriteFault>
    ensures ok { OnOk result
        (Appends (W.contents writer.old) (W.contents writer.new) (words_text word.now steps.now)) }
    ensures err { OnErr result
        (AppendsFront (W.contents writer.old) (W.contents writer.new)
        (words_text word.now steps.now)) }
{
    send(word, writer)?;
    send_words(steps, writer)?;
    send(b"\n", writer)
}

// Writes the line of a run.
fn send_run<W: Write>(steps: &[CertLine], writer: &mut W) -> Result<(), WriteFault>
    ensures ok { OnOk result
        (Appends (W.contents writer.old) (W.contents writer.new) (run_text steps.now)) }
    ensures err { OnErr result
        (AppendsFront (W.contents writer.old) (W.contents writer.new) (run_text steps.now)) }
{
    match steps {
        [] => send(b"", writer),
        [CertLine::Line(_), ..] => send_joined(b"line", steps, writer),
        [CertLine::Use(_), ..] => send_joined(b"use", steps, writer),
        [CertLine::Forget(_), ..] => send_joined(b"drop", steps, writer),
        [step, ..] => send_line(*step, writer),
    }
}

#[tactic(auto, using(crate::proofs::WriteLemmas::run_writing))]
// Writes the lines of runs.
fn send_runs<W: Write>(runs: &[u16], steps: &[CertLine], writer: &mut W) -> Result<(), WriteFault>
    ensures ok { OnOk result (Appends (W.contents writer.old) (W.contents writer.new)
        (flat_map run_text (cut_into runs.now steps.now))) }
    ensures err { OnErr result (AppendsFront (W.contents writer.old) (W.contents writer.new)
        (flat_map run_text (cut_into runs.now steps.now))) }
{
    let mut rest = steps;
    for run in runs {
        let (steps, behind) = rest.split_at(usize::from(*run).min(rest.len()));
        send_run(steps, writer)?;
        rest = behind;
    }
    Ok(())
}

// Writes the lines below the givens.
fn send_steps<W: Write>(cert: &Cert, writer: &mut W) -> Result<(), WriteFault>
    ensures ok { OnOk result (Appends (W.contents writer.old) (W.contents writer.new)
        (steps_text cert.now.form cert.now.lines cert.now.runs)) }
    ensures err { OnErr result (AppendsFront (W.contents writer.old) (W.contents writer.new)
        (steps_text cert.now.form cert.now.lines cert.now.runs)) }
{
    match cert.form() {
        Form::LemmaRuns => send_runs(cert.runs(), cert.lines(), writer),
        _ => send_lines(cert.lines(), writer),
    }
}

// The first line of a certificate.
fn form_text(form: Form) -> &'static [u8]
    ensures { result.now ≡ form_text form }
{
    match form {
        Form::Tree => b"nonocert 1\n",
        Form::GivenTree => b"nonocert 2\n",
        Form::Lemmas => b"nonolemma 1\n",
        Form::LemmaRuns => b"nonolemma 2\n",
    }
}

#[tactic(auto, using(picture::proofs::SendingLaws::sending))]
/// Writes a certificate as a text, each line with a line feed: the form, the givens and the steps. `read_cert` reads
/// it as the same certificate, if it can be written. No memory is taken, and after an error a prefix of the text was
/// written.
pub fn write_cert<W: Write>(cert: &Cert, writer: &mut W) -> Result<(), WriteFault>
    ensures ok { OnOk result
        (Appends (W.contents writer.old) (W.contents writer.new) (cert_text cert.now)) }
    ensures err { OnErr result
        (AppendsFront (W.contents writer.old) (W.contents writer.new) (cert_text cert.now)) }
{
    send(form_text(cert.form()), writer)?;
    send_givens(cert.givens(), writer)?;
    send_steps(cert, writer)
}
