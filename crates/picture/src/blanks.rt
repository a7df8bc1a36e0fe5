//! Blanks between the words of a line of text.

ghost use Rattle.std.specs.Prelude.{◌≡◌, position};
ghost use Rattle.picture.specs.Blanks.{is_blank, is_no_blank};

#[tactic(auto, unfolding(crate::specs::Blanks::is_blank))]
/// Whether a byte is a space or a TAB.
pub fn is_blank(byte: u8) -> bool
    ensures { result ≡ is_blank byte }
{
    byte == b' ' || byte == b'\t'
}

/// The place of the first blank.
pub fn blank_place(bytes: &[u8]) -> Option<usize>
    ensures { result ≡ position is_blank bytes.now }
{
    bytes.iter().position(|b| is_blank(*b))
}

/// The place of the first byte that is no blank.
pub fn word_place(bytes: &[u8]) -> Option<usize>
    ensures { result ≡ position is_no_blank bytes.now }
{
    bytes.iter().position(|b| !is_blank(*b))
}
