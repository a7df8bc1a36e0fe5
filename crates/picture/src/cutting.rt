//! Cutting a text at a separator. Nothing is copied.

ghost use Rattle.std.specs.Prelude.{◌≡◌, ◌<◌, ◌==◌, ◌∷◌, length, position, IfNone, IfSome};
ghost use Rattle.std.specs.List.{slice_split};
ghost use Rattle.picture.specs.Readers.{pieces_behind};

/// The bytes before the first separator and those after it; without one, all and None.
pub fn split_first(bytes: &[u8], separator: u8) -> (&[u8], Option<&[u8]>)
    ensures pieces { slice_split (λ b. b == separator) bytes.now
        ≡ result.0.now ∷ pieces_behind separator result.1 }
    ensures shorter { IfSome result.1 (λ rest. length rest.now < length bytes.now) }
    ensures all { IfNone result.1 (result.0.now ≡ bytes.now) }
{
    match place_of(bytes, separator) {
        Some(end) => (&bytes[..end], Some(&bytes[end + 1..])),
        None => (bytes, None),
    }
}

// The place of the first separator.
fn place_of(bytes: &[u8], separator: u8) -> Option<usize>
    ensures { result ≡ position (λ b. b == separator) bytes.now }
{
    bytes.iter().position(|b| *b == separator)
}
