//! A program for tests and for measuring: it checks certificates of every form, and takes their figures. Each line of standard input
//! names the files of a P3 picture, of a certificate and, if its givens are to be compared, of the givens that are published, with
//! single spaces between them. What the checker answers is printed, with the figures of a certificate that it accepts.
#![tactic(auto)]

use anyhow::Result;
use assess::{Guesses, guesses_of};
use cert_check::{check_cert, check_published};
use cert_text::{CertFault, Form, read_cert};
use line_settle::MaskEngine;
use picture::{CellSet, MAX_SIDE, Picture};
use ppm_text::read_ppm;
use std::alloc::Global;
use std::fs;
use std::rt::Files;
use text_check::published_cells;

fn main(rt: HostRuntime) -> Result<()> {
    for line in rt.lines(rt.alloc()) {
        let line = line?;
        if let Some((file, rest)) = line.as_str().split_once(' ') {
            tell(&rt, file, rest)?;
        }
    }
    Ok(())
}

// Checks the certificate in a file for the picture in another, and prints the answer. `rest` names the certificate and, behind a
// space, the published givens.
fn tell(rt: &(impl AllocGlobal + Print + Files), file: &str, rest: &str) -> Result<()> {
    let text = fs::read(rt, file)?;
    let document = match read_ppm(rt.alloc(), &text, None) {
        Ok(document) => document,
        Err(fault) => {
            println!(rt; "ppm {}", fault.name())?;
            return Ok(());
        }
    };
    let picture = &document.picture;
    match rest.split_once(' ') {
        None => print_answer(rt, checked(rt.alloc(), picture, &fs::read(rt, rest)?, None)),
        Some((cert, givens)) => {
            let cert = fs::read(rt, cert)?;
            let givens = fs::read(rt, givens)?;
            match published_cells(&givens, picture.height(), picture.width()) {
                Ok(cells) => print_answer(rt, checked(rt.alloc(), picture, &cert, Some(&cells))),
                Err(fault) => Ok(println!(rt; "{fault}")?),
            }
        }
    }
}

// Prints how many givens a certificate has that is accepted, and the figures of a tree; or its first error.
fn print_answer(
    rt: &impl Print,
    answer: Result<(usize, Option<Guesses>), CertFault>,
) -> Result<()> {
    match answer {
        Ok((givens, figures)) => {
            print!(rt; "accepted")?;
            if givens > 0 {
                print!(rt; ", givens {givens}")?;
            }
            if let Some(Guesses { splits, depth }) = figures {
                print!(rt; ", splits {splits}, depth {depth}")?;
            }
            println!(rt; "")?;
        }
        Err(fault) => {
            let line = fault.place().unwrap_or(0);
            println!(rt; "{} at line {line}", fault.name())?;
        }
    }
    Ok(())
}

// How many givens a certificate has, and the figures of a tree, if it is accepted and names no other cells than those that are
// published.
fn checked(
    alloc: Global,
    picture: &Picture,
    text: &[u8],
    published: Option<&CellSet>,
) -> Result<(usize, Option<Guesses>), CertFault> {
    let cert = read_cert(alloc, text)?;
    let _ = picture.height();
    let mut engine = MaskEngine::make(alloc, MAX_SIDE)?;
    match published {
        None => check_cert(alloc, &mut engine, picture, &cert)?,
        Some(cells) => check_published(alloc, &mut engine, picture, &cert, cells)?,
    }
    let figures = match cert.form() {
        Form::Tree | Form::GivenTree => Some(guesses_of(alloc, &mut engine, picture, &cert)?),
        Form::Lemmas | Form::LemmaRuns => None,
    };
    Ok((cert.givens().len(), figures))
}
