//! Certificates: read, written, checked and made.

use super::made::{document_of, engine_of};
use super::{Memory, equal, first_of};
use certificate::{Cert, CertFault, check_cert, make_cert, read_cert, write_cert};
use line_facts::LineEngine;
use line_settle::MaskEngine;
use picture::{CellSet, Picture};
use std::alloc::{AllocError, Global};
use std::process::Abort;

/// `aa...`, `...a.`, `a...a`, `ab..a`, `...a.` in white, black and red.
pub const PUZZLE: &[u8] = b"P3 5 5 1
0 0 0 0 0 0 1 1 1 1 1 1 1 1 1
1 1 1 1 1 1 1 1 1 0 0 0 1 1 1
0 0 0 1 1 1 1 1 1 1 1 1 0 0 0
0 0 0 1 0 0 1 1 1 1 1 1 0 0 0
1 1 1 1 1 1 1 1 1 0 0 0 1 1 1
";

// A certificate of it.
const TEXT: &[u8] = b"nonocert 2
given 4 2
line r 1
line r 2
line r 3
line r 4
line r 5
line c 2
line c 3
split 5 1
line c 1
line r 1
line r 3
line c 2
split 2 4
line r 2
line c 4
line r 3
line r 4
line r 5
dead c 5
line r 2
line c 4
line r 3
line c 5
line r 4
line r 5
done
line r 5
line c 1
line r 3
line c 2
line r 1
line c 1
line r 2
dead c 5
";

fn read(rt: &impl Abort, alloc: Global, memory: Memory) -> Cert {
    let first = read_cert(alloc, TEXT);
    first_of(rt, memory, CertFault::Memory, first, read_cert(alloc, TEXT))
}

// Writes it into a text that has room for it, so that nothing is allocated.
fn writes(rt: &impl Abort, alloc: Global, memory: Memory, cert: &Cert) {
    let room = Vec::with_capacity(alloc, TEXT.len());
    let again = Vec::with_capacity(alloc, TEXT.len());
    let mut text: Vec<u8> = first_of(rt, memory, AllocError, room, again);
    assert!(rt; write_cert(cert, &mut text).is_ok());
    assert!(rt; text.as_slice() == TEXT);
}

fn checked(
    rt: &impl Abort,
    alloc: Global,
    engine: &mut MaskEngine,
    picture: &Picture,
    cert: &Cert,
) -> Result<(), CertFault> {
    assert!(rt; picture.width() <= engine.longest() && picture.height() <= engine.longest());
    check_cert(alloc, engine, picture, cert)
}

fn checks(
    rt: &impl Abort,
    alloc: Global,
    memory: Memory,
    engine: &mut MaskEngine,
    picture: &Picture,
    cert: &Cert,
) {
    let first = checked(rt, alloc, engine, picture, cert);
    let second = checked(rt, alloc, engine, picture, cert);
    first_of(rt, memory, CertFault::Memory, first, second);
}

// Makes a certificate with the red cell as its given.
fn made(
    rt: &impl Abort,
    alloc: Global,
    engine: &mut MaskEngine,
    picture: &Picture,
) -> Result<Option<Cert>, AllocError> {
    assert!(rt; picture.width() <= engine.longest() && picture.height() <= engine.longest());
    assert!(rt; picture.width() > 1 && picture.height() > 3);
    let mut givens = CellSet::empty();
    givens.put(3, 1);
    make_cert(alloc, engine, picture, &givens)
}

// Reads, writes, checks and makes a certificate.
fn goes_on(rt: &impl Abort, alloc: Global, memory: Memory) {
    let document = document_of(rt, alloc, memory, PUZZLE);
    let mut engine = engine_of(rt, alloc, memory);
    let cert = read(rt, alloc, memory);
    writes(rt, alloc, memory, &cert);
    checks(rt, alloc, memory, &mut engine, &document.picture, &cert);
    let first = made(rt, alloc, &mut engine, &document.picture);
    let second = made(rt, alloc, &mut engine, &document.picture);
    let cert = first_of(rt, memory, AllocError, first, second).expect(rt, "a certificate");
    equal(rt, "givens", cert.givens().len(), 1);
    checks(rt, alloc, memory, &mut engine, &document.picture, &cert);
}

#[test]
fn a_refused_growth_changes_nothing(rt: HostRuntime) {
    goes_on(&rt, rt.alloc(), Memory::Refused);
}

#[test]
fn ample_memory_is_enough(rt: HostRuntime) {
    goes_on(&rt, rt.alloc(), Memory::Ample);
}
