//! The background as a host passes it.

ghost use Rattle.std.specs.Prelude.{◌≡◌};
ghost use Rattle.check_host.specs.Calls.{background_asked};

use picture::Rgb;

/// The background that samples name: `Some(None)` where there are none, and None where there are not three.
pub fn background_of(samples: &[u16]) -> Option<Option<Rgb>>
    ensures { result ≡ background_asked samples.now }
{
    match samples.len() {
        0 => Some(None),
        3 => Some(Some(Rgb {
            r: samples[0],
            g: samples[1],
            b: samples[2],
        })),
        _ => None,
    }
}
