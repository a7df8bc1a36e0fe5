//! Colours that look alike, as a puzzle shows them.

ghost use Rattle.std.specs.Prelude.{◌≡◌, ◌*◌, ◌<◌, ◌≤◌, IfOk};
ghost use Rattle.flaws.specs.Alike.{alike_pairs, distance_of, is_flaw, look_alike, rgb_shown, sample_shown, weighted};

use crate::cells::is_shown;
use picture::{Document, Rgb};
use std::alloc::{AllocError, Global};

/// Two colours by their numbers, the lower one first.
#[derive(Clone, Copy, Debug, PartialEq, Eq)]
pub struct Alike {
    pub first: u8,
    pub second: u8,
}

#[tactic(auto, using(crate::proofs::AlikeLemmas::pairs))]
/// The pairs of colours that look alike, by rising letters, of those that cells have and the background.
pub fn alike_pairs(alloc: Global, document: &Document) -> Result<Vec<Alike>, AllocError>
    ensures { IfOk result
        (λ pairs. pairs.items ≡ alike_pairs document.now.palette document.now.picture) }
{
    let mut pairs = Vec::new(alloc);
    for i in 0..256u16 {
        let pair = Alike {
            first: (i / 16) as u8,
            second: (i % 16) as u8,
        };
        if is_flaw(document, pair) {
            pairs.push(pair)?;
        }
    }
    Ok(pairs)
}

// Whether two of the colours that a puzzle shows look alike, where the first has the lower letter.
fn is_flaw(document: &Document, pair: Alike) -> bool
    ensures { result ≡ is_flaw document.now.palette document.now.picture pair }
{
    let palette = &document.palette;
    if pair.first >= pair.second {
        return false;
    }
    if pair.second >= palette.len() {
        return false;
    }
    if !is_shown(&document.picture, pair.first) {
        return false;
    }
    if !is_shown(&document.picture, pair.second) {
        return false;
    }
    let (one, other) = (palette.rgb(pair.first), palette.rgb(pair.second));
    look_alike(palette.maxval(), one, other)
}

/// Whether two colours with samples up to a maxval look alike as they are shown, in 0 to 255: where the distance named redmean
/// (https://www.compuphase.com/cmetric.htm) is below 64.
pub fn look_alike(maxval: u16, one: Rgb, other: Rgb) -> bool
    requires { 0 < maxval }
    ensures { result ≡ look_alike maxval one other }
{
    distance(rgb_shown(maxval, one), rgb_shown(maxval, other)) < 512 * 64 * 64
}

fn rgb_shown(maxval: u16, rgb: Rgb) -> Rgb
    requires { 0 < maxval }
    ensures shown { result ≡ rgb_shown maxval rgb }
    ensures small { (result.r ≤ 255) × (result.g ≤ 255) × (result.b ≤ 255) }
{
    Rgb {
        r: sample_shown(maxval, rgb.r),
        g: sample_shown(maxval, rgb.g),
        b: sample_shown(maxval, rgb.b),
    }
}

// A sample in 0 to 255, rounded, halves up.
fn sample_shown(maxval: u16, sample: u16) -> u16
    requires { 0 < maxval }
    ensures shown { result ≡ sample_shown maxval sample }
    ensures small { result ≤ 255 }
{
    let (maxval, sample) = (u32::from(maxval), u32::from(sample));
    ((510 * sample + maxval) / (2 * maxval)).min(255) as u16
}

// 512 times the square of the distance of two colours.
fn distance(one: Rgb, other: Rgb) -> u32
    requires one { (one.r ≤ 255) × (one.g ≤ 255) × (one.b ≤ 255) }
    requires other { (other.r ≤ 255) × (other.g ≤ 255) × (other.b ≤ 255) }
    ensures { result ≡ distance_of one other }
{
    let reds = u32::from(one.r + other.r);
    weighted(1024 + reds, one.r, other.r)
        + weighted(2048, one.g, other.g)
        + weighted(1534 - reds, one.b, other.b)
}

// A weight times the square of the difference of two samples.
fn weighted(weight: u32, one: u16, other: u16) -> u32
    requires weight { weight ≤ 2048 }
    requires one { one ≤ 255 }
    requires other { other ≤ 255 }
    ensures value { result ≡ weighted weight one other }
    ensures small { result ≤ 2048 * 255 * 255 }
{
    let apart = u32::from(one.max(other) - one.min(other));
    weight * apart * apart
}
