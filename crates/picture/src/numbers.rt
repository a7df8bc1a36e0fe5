//! Numbers in texts: decimal digits alone, with leading zeros or without. Nothing is copied.

ghost use Rattle.std.specs.Prelude.{◌≡◌, ◌^◌, ◌<◌, ◌≤◌, IfSome, min, option_map};
ghost use Rattle.picture.specs.Numbers.{number_spelled, short_number};

// Larger numbers count as this one, which is above every limit.
const MOST: u32 = 100_000;

#[tactic(auto, using(crate::proofs::NumberLemmas::numbers))]
/// The value of digits alone, at least one, else None. Values above 100,000 count as 100,000.
pub fn number_in(bytes: &[u8]) -> Option<u32>
    ensures { result ≡ option_map (min 100000) (number_spelled bytes.now) }
{
    if bytes.is_empty() {
        return None;
    }
    let mut value = 0;
    for byte in bytes {
        if !byte.is_ascii_digit() {
            return None;
        }
        value = (value * 10 + u32::from(*byte - b'0')).min(MOST);
    }
    Some(value)
}

#[tactic(auto, using(crate::proofs::NumberLemmas::short_numbers))]
/// The value of digits alone, from one to `most` of them, else None.
pub fn short_number_in(bytes: &[u8], most: usize) -> Option<u32>
    requires { most ≤ 5 }
    ensures value { result ≡ short_number most bytes.now }
    ensures small { IfSome result (λ n. n < 10 ^ most) }
{
    if bytes.len() > most {
        return None;
    }
    number_in(bytes)
}
