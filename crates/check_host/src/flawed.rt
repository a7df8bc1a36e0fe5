//! The flaws of a puzzle that show without a search.

ghost use Rattle.std.specs.Prelude.{◌≡◌, ◌++◌, OnOk};
ghost use Rattle.std.specs.List.{flat_map};
ghost use Rattle.check_host.specs.Flaws.{Finds, pair_bytes};

use flaws::{Alike, alike_pairs, has_colour, is_painted};
use picture::Rgb;
use ppm_text::read_ppm;
use std::alloc::{AllocError, Global};
use text_check::CheckFault;

/// What is found: the pairs of colours that look alike as two bytes each.
#[derive(Drop)]
pub struct Flaws {
    pub is_blank: bool,
    pub lacks_background: bool,
    pub alike: Vec<u8>,
}

/// The flaws of the picture of a P3 text.
pub fn flaws_of(alloc: Global, file: &[u8], background: Option<Rgb>) -> Result<Flaws, CheckFault>
    ensures { Finds file.now background result }
{
    let document = read_ppm(alloc, file, background)?;
    let picture = &document.picture;
    let pairs = alike_pairs(alloc, &document)?;
    let mut alike = Vec::new(alloc);
    push_pairs(&mut alike, &pairs)?;
    Ok(Flaws {
        is_blank: !is_painted(picture),
        lacks_background: !has_colour(picture, 0),
        alike,
    })
}

#[tactic(auto, using(std::proofs::lemmas::List::append_assoc))]
// Appends pairs of colours.
fn push_pairs(bytes: &mut Vec<u8>, pairs: &[Alike]) -> Result<(), AllocError>
    ensures { OnOk result (bytes.new.items ≡ bytes.old.items ++ flat_map pair_bytes pairs.now) }
{
    for pair in pairs {
        push_pair(bytes, *pair)?;
    }
    Ok(())
}

#[tactic(auto, using(std::proofs::lemmas::List::append_assoc))]
// Appends two colours by their numbers.
fn push_pair(bytes: &mut Vec<u8>, pair: Alike) -> Result<(), AllocError>
    ensures { OnOk result (bytes.new.items ≡ bytes.old.items ++ pair_bytes pair) }
{
    bytes.push(pair.first)?;
    Ok(bytes.push(pair.second)?)
}
