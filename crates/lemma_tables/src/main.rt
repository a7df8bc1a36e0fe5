//! A program for tests and for measuring: it checks certificates, and makes those with lemmas. Each line of standard input names a P3
//! picture's file and a certificate's, with a space between them, and what the checker answers is printed; or it names a picture's file
//! alone, and a certificate is printed, or `ambiguous` or `undecided`.
#![tactic(auto)]

use anyhow::{Result, bail};
use cert_check::check_cert;
use cert_text::{Cert, CertFault, read_cert, write_cert};
use lemma_proof::{EFFORT, Made, make_proof};
use line_settle::MaskEngine;
use picture::{MAX_SIDE, Picture};
use ppm_text::read_ppm;
use std::alloc::Global;
use std::io::{BufWriter, Write};
use std::rt::Files;
use std::{fs, io};

fn main(rt: HostRuntime) -> Result<()> {
    for line in rt.lines(rt.alloc()) {
        let line = line?;
        match line.as_str().split_once(' ') {
            Some((file, proof)) => tell(&rt, file, proof)?,
            None => prove(&rt, line.as_str())?,
        }
    }
    Ok(())
}

// Checks the proof in a file for the picture in another, and prints the answer.
fn tell(rt: &(impl AllocGlobal + Print + Files), file: &str, proof: &str) -> Result<()> {
    let text = fs::read(rt, file)?;
    let proof = fs::read(rt, proof)?;
    let document = match read_ppm(rt.alloc(), &text, None) {
        Ok(document) => document,
        Err(fault) => {
            println!(rt; "ppm {}", fault.name())?;
            return Ok(());
        }
    };
    match checked(rt.alloc(), &document.picture, &proof) {
        Ok(0) => println!(rt; "accepted")?,
        Ok(givens) => println!(rt; "accepted, givens {givens}")?,
        Err(fault) => {
            let line = fault.place().unwrap_or(0);
            println!(rt; "{} at line {line}", fault.name())?;
        }
    }
    Ok(())
}

// Prints a proof of the picture in a file, or why there is none.
fn prove(rt: &(impl AllocGlobal + Print + Files), file: &str) -> Result<()> {
    let text = fs::read(rt, file)?;
    let document = match read_ppm(rt.alloc(), &text, None) {
        Ok(document) => document,
        Err(fault) => {
            println!(rt; "ppm {}", fault.name())?;
            return Ok(());
        }
    };
    let _ = document.picture.height();
    let mut engine = MaskEngine::make(rt.alloc(), MAX_SIDE)?;
    match make_proof(
        rt.alloc(),
        &mut engine,
        &document.picture,
        &document.givens,
        EFFORT,
    )? {
        Made::Proof(proof) => print_proof(rt, &proof),
        Made::Other(_) => Ok(println!(rt; "ambiguous")?),
        Made::Undecided => Ok(println!(rt; "undecided")?),
    }
}

// Prints the text of a proof.
fn print_proof(rt: &(impl AllocGlobal + Print), proof: &Cert) -> Result<()> {
    let mut writer = BufWriter::new(rt.alloc(), io::writer(rt))?;
    if write_cert(proof, &mut writer).is_err() {
        bail!("write failed");
    }
    writer.flush()?;
    Ok(())
}

// How many givens a proof has, if it is accepted.
fn checked(alloc: Global, picture: &Picture, text: &[u8]) -> Result<usize, CertFault> {
    let proof = read_cert(alloc, text)?;
    let _ = picture.height();
    let mut engine = MaskEngine::make(alloc, MAX_SIDE)?;
    check_cert(alloc, &mut engine, picture, &proof)?;
    Ok(proof.givens().len())
}
