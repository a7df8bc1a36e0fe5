//! The colour of a background, as a word.

ghost use Rattle.std.specs.Prelude.{◌≡◌, option_map, position};
ghost use Rattle.program_options.specs.Background.{background_of, is_comma, sample_before, sample_seen};

use command_text::sample_in;
use picture::Rgb;

/// The colour that three samples with commas between them name, as `255,0,0`. Each is 0 to 65,535. None for any
/// other word.
pub fn background_in(text: &[u8]) -> Option<Rgb>
    ensures { result ≡ background_of text.now }
{
    let (r, rest) = sample_before(text)?;
    let (g, rest) = sample_before(rest)?;
    let b = sample_in(rest)?;
    Some(Rgb { r, g, b })
}

#[tactic(auto, using(std::proofs::lemmas::List::take_rest))]
// The sample before the first comma, and what follows that.
fn sample_before(text: &[u8]) -> Option<(u16, &[u8])>
    ensures { option_map sample_seen result ≡ sample_before text.now }
{
    let end = comma_place(text)?;
    let sample = sample_in(&text[..end])?;
    Some((sample, &text[end + 1..]))
}

// The place of the first comma.
fn comma_place(text: &[u8]) -> Option<usize>
    ensures { result ≡ position is_comma text.now }
{
    text.iter().position(|b| *b == b',')
}
