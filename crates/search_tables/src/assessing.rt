//! Assessments.
//!
//! `assess PICTURE` assesses a document, before an allowance under that. It prints the assessment, as the program does. `assess by OTHER PICTURE` assesses by the certificate that is made of another picture with
//! its givens, or prints why this is refused.

use anyhow::{Context, Result};
use assess::{Assessment, assess, assess_by};
use certificate::make_cert;
use line_settle::MaskEngine;
use picture::MAX_SIDE;
use report_text::push_assessment;
use std::alloc::Global;
use table_words::document_in;

/// The assessment of a picture, as a text.
pub fn assessed(alloc: Global, picture: &str, allowance: Option<u32>) -> Result<String> {
    let document = document_in(alloc, picture)?;
    let mut engine = MaskEngine::make(alloc, MAX_SIDE)?;
    let found = assess(alloc, &mut engine, &document, allowance)?;
    text_of(alloc, &found)
}

/// The assessment of a picture by the certificate that is made of another one, as a text.
pub fn assessed_by(alloc: Global, picture: &str, other: &str) -> Result<String> {
    let document = document_in(alloc, picture)?;
    let certified = document_in(alloc, other)?;
    let _ = certified.picture.height();
    let mut engine = MaskEngine::make(alloc, MAX_SIDE)?;
    let cert = make_cert(alloc, &mut engine, &certified.picture, &certified.givens)?;
    let cert = cert.context("there is another picture")?;
    match assess_by(alloc, &mut engine, &document, &cert) {
        Ok(found) => text_of(alloc, &found),
        Err(fault) => Ok(format!(in alloc; "refused: {fault}\n")?),
    }
}

// An assessment as a text.
fn text_of(alloc: Global, found: &Assessment) -> Result<String> {
    let mut text = Vec::new(alloc);
    push_assessment(&mut text, found)?;
    Ok(String::from_utf8(text)?)
}
