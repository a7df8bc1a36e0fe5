//! Certificates of a document.

ghost use Rattle.std.specs.Prelude.{◌≡◌, ◌≤◌, IfOk};
ghost use Rattle.edits.specs.Design.{design_of};
ghost use Rattle.live_audit.specs.Certify.{Certifies};

use certificate::{Cert, make_cert_within};
use edits::know;
use line_facts::LineEngine;
use picture::{Document, MAX_SIDE};
use second_search::{BOUNDS, Keeper};
use std::alloc::{AllocError, Global};

/// What `Bench::find_certificate` found: a certificate, or none where there is another picture; and what its search found
/// out about the parts, None if nothing was searched. `Bench::keep` keeps that.
#[derive(Drop)]
pub struct Finding {
    pub cert: Option<Cert>,
    pub(crate) keeper: Option<Keeper>,
}

/// Makes a certificate of the ordered form of a document. Judging the document has evaluated `judging` lines.
pub(crate) fn certify_ordered<E: LineEngine>(
    alloc: Global,
    engine: &mut E,
    document: &Document,
    judging: u64,
) -> Result<Option<Cert>, AllocError>
    requires long { MAX_SIDE ≤ E.longest engine.old }
    ensures certifies { IfOk result (Certifies (design_of document.now)) }
    ensures same_longest { E.longest engine.new ≡ E.longest engine.old }
    ensures calls { E.calls engine.old ≤ E.calls engine.new }
{
    know(document);
    let document = document.ordered()?;
    know(&document);
    let (picture, givens) = (&document.picture, &document.givens);
    make_cert_within(alloc, engine, picture, givens, BOUNDS, Some(judging))
}
