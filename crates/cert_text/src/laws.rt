//! The law of the round trip. Its function does nothing, and its contract is the law.

ghost use Rattle.cert_text.specs.Cert.{Certificate, IsCert};
ghost use Rattle.cert_text.specs.WrittenCert.{IsReadAgain};

#[tactic(auto, using(crate::proofs::RoundTrip::is_read_again))]
/// The law of the round trip: the text that is written for a certificate is read as the same certificate.
pub fn round_trip()
    ensures { (cert : Certificate) → IsCert cert → IsReadAgain cert }
{}
