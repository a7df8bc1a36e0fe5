//! Certificates with lemmas: read, written, checked and made.

use super::made::{SQUARE, document_of, engine_of};
use super::of_certificates::PUZZLE;
use super::{Memory, equal, first_of};
use cert_check::check_cert;
use cert_text::{Cert, CertFault, read_cert, write_cert};
use lemma_proof::{EFFORT, Made, make_proof, with_single_steps};
use line_facts::LineEngine;
use line_settle::MaskEngine;
use picture::{CellSet, Picture};
use std::alloc::{AllocError, Global};
use std::process::Abort;

// A proof of the square, with two lemmas, two branches in the first, and the first no longer kept at the end.
const TEXT: &[u8] = b"nonolemma 1
lemma
deny 1 1 a
part 2 1 a
line r 1
dead c 2
line r 1
dead c 2
lemma
deny 2 2 b
use 1
line r 1
line c 1
line r 2
dead c 2
use 2
use 1
drop 1
line r 1
line c 1
done
";

fn read(rt: &impl Abort, alloc: Global, memory: Memory) -> Cert {
    let first = read_cert(alloc, TEXT);
    first_of(rt, memory, CertFault::Memory, first, read_cert(alloc, TEXT))
}

// Writes it into a text that has room for it, so that nothing is allocated.
fn writes(rt: &impl Abort, alloc: Global, memory: Memory, proof: &Cert) {
    let room = Vec::with_capacity(alloc, TEXT.len());
    let again = Vec::with_capacity(alloc, TEXT.len());
    let mut text: Vec<u8> = first_of(rt, memory, AllocError, room, again);
    assert!(rt; proof.is_writable());
    assert!(rt; write_cert(proof, &mut text).is_ok());
    assert!(rt; text.as_slice() == TEXT);
}

fn checked(
    rt: &impl Abort,
    alloc: Global,
    engine: &mut MaskEngine,
    picture: &Picture,
    proof: &Cert,
) -> Result<(), CertFault> {
    assert!(rt; picture.width() <= engine.longest() && picture.height() <= engine.longest());
    check_cert(alloc, engine, picture, proof)
}

fn checks(
    rt: &impl Abort,
    alloc: Global,
    memory: Memory,
    engine: &mut MaskEngine,
    picture: &Picture,
    proof: &Cert,
) {
    let first = checked(rt, alloc, engine, picture, proof);
    let second = checked(rt, alloc, engine, picture, proof);
    first_of(rt, memory, CertFault::Memory, first, second);
}

// Makes a proof with the red cell as its given.
fn made(
    rt: &impl Abort,
    alloc: Global,
    engine: &mut MaskEngine,
    picture: &Picture,
) -> Result<Made, AllocError> {
    assert!(rt; picture.width() <= engine.longest() && picture.height() <= engine.longest());
    assert!(rt; picture.width() > 1 && picture.height() > 3);
    let mut givens = CellSet::empty();
    givens.put(3, 1);
    make_proof(alloc, engine, picture, &givens, EFFORT)
}

// Makes a certificate of a puzzle that lines alone do not settle, and checks it in both forms.
fn makes(rt: &impl Abort, alloc: Global, memory: Memory, engine: &mut MaskEngine) {
    let puzzle = document_of(rt, alloc, memory, PUZZLE);
    let first = made(rt, alloc, engine, &puzzle.picture);
    let second = made(rt, alloc, engine, &puzzle.picture);
    match first_of(rt, memory, AllocError, first, second) {
        Made::Proof(proof) => {
            equal(rt, "givens", proof.givens().len(), 1);
            checks(rt, alloc, memory, engine, &puzzle.picture, &proof);
            let first = with_single_steps(alloc, &proof);
            let second = with_single_steps(alloc, &proof);
            let single = first_of(rt, memory, AllocError, first, second);
            equal(rt, "runs", single.runs().len(), 0);
            checks(rt, alloc, memory, engine, &puzzle.picture, &single);
        }
        _ => panic!(rt; "a proof"),
    }
}

// Reads, writes, checks and makes a proof.
fn goes_on(rt: &impl Abort, alloc: Global, memory: Memory) {
    let square = document_of(rt, alloc, memory, SQUARE);
    let mut engine = engine_of(rt, alloc, memory);
    let proof = read(rt, alloc, memory);
    writes(rt, alloc, memory, &proof);
    checks(rt, alloc, memory, &mut engine, &square.picture, &proof);
    makes(rt, alloc, memory, &mut engine);
}

#[test]
fn a_refused_growth_changes_nothing(rt: HostRuntime) {
    goes_on(&rt, rt.alloc(), Memory::Refused);
}

#[test]
fn ample_memory_is_enough(rt: HostRuntime) {
    goes_on(&rt, rt.alloc(), Memory::Ample);
}
