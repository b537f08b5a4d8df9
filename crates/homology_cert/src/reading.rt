//! Reading certificates, line by line.
ghost use Rattle.std.specs.Prelude.{◌≡◌, ◌≢◌, ◌≤◌, ℕ, List, [], ◌∷◌, ◌++◌, ◌⊎◌, length, Err, IfOk, IfSome, IfNone, MatchOption};
ghost use Rattle.torus_geom.specs.Marks.{Marks};
ghost use Rattle.homology_cert.specs.CertificateLimits.{max_certificate};
ghost use Rattle.homology_cert.specs.Certificates.{Certificate, IsCertificate};
ghost use Rattle.homology_cert.specs.CertificateCodes.{certificate_of};
ghost use Rattle.homology_cert.specs.CertificateText.{certificate_text, IsFirstBadLine};
ghost use Rattle.homology_cert.specs.Inner.CodeCertificates.{IsCertificate as IsCodeCertificate};
ghost use Rattle.homology_cert.specs.Inner.CodeText.{certificate_text as code_text, IsFirstBadLine as IsCodeBadLine};
ghost use Rattle.homology_cert.specs.Inner.Reading.{IsFree};

use crate::certificates::{Cert, CertCell};
use crate::places::{Place, next_place};
use grid_ports::NoMemory;
use std::alloc::{AllocError, Global};
use text_lines::first_part;
use thiserror::Error;

/// The greatest number of bytes of a text that is read as a certificate.
pub const MAX_CERTIFICATE: usize = 16_777_216;

/// Why a text is no certificate.
#[derive(Clone, Copy, PartialEq, Eq, Debug, Error)]
pub enum CertEnd {
    /// The line of this number, counted from 1, is the first that no certificate has there.
    #[error("the text is no certificate")]
    BadLine { line: u32 },
    /// The allocator refused.
    #[error("out of memory")]
    NoMemory,
}

impl From<NoMemory> for CertEnd {
    ghost use Rattle.homology_cert.specs.declared.reading.CertEnd.TheVariants.{NoMemory};

    ghost from_gives = { λ _ e. e ≡ NoMemory };

    fn from(_: NoMemory) -> Self {
        CertEnd::NoMemory
    }
}

impl From<AllocError> for CertEnd {
    ghost use Rattle.homology_cert.specs.declared.reading.CertEnd.TheVariants.{NoMemory};

    ghost from_gives = { λ _ e. e ≡ NoMemory };

    fn from(_: AllocError) -> Self {
        CertEnd::NoMemory
    }
}

/// The certificate with this text, as docs/FORMATS.md says, or the first bad line.
///
/// The text, of at most 16,777,216 bytes, is gone through once, and nothing is copied but what the
/// certificate keeps.
///
/// # Errors
///
/// `BadLine` if the text is that of no certificate; `NoMemory` if the allocator refuses.
pub fn read_cert(alloc: Global, text: &[u8]) -> Result<Cert, CertEnd>
    requires { length text.now ≤ max_certificate }
    ensures read { IfOk result (λ c. text.now ≡ certificate_text (certificate_of c)) }
    ensures refused { (line : ℕ) → result ≡ Err (CertEnd.BadLine line) → IsFirstBadLine text.now line }

    // The text of a certificate is read back as that certificate.
    ensures read_back { (c : Certificate) → IsCertificate c → text.now ≡ certificate_text c
        → IfOk result (λ d. certificate_of d ≡ c) }

    // Whatever the call answers: a text is that of one certificate at most.
    ensures one_certificate { (c d : Certificate) → IsCertificate c → IsCertificate d
        → certificate_text c ≡ certificate_text d → c ≡ d }

    // Whatever the call answers: each text is that of a certificate, or has a first bad line, and only one.
    ensures some_answer { (t : List ℕ) → length t ≤ max_certificate
        → ((c : Certificate) × IsCertificate c × (t ≡ certificate_text c)) ⊎ ((line : ℕ) × IsFirstBadLine t line) }
    ensures one_line { (t : List ℕ) (k l : ℕ) → IsFirstBadLine t k → IsFirstBadLine t l → k ≡ l }

    // The limit is that of the definitions.
    ensures limit { MAX_CERTIFICATE ≡ max_certificate }
{
    cert_of(alloc, text)
}

// The certificate with this text.
fn cert_of(alloc: Global, text: &[u8]) -> Result<Cert, CertEnd>
    requires { length text.now ≤ max_certificate }
    ensures certificate { IfOk result (λ c. IsCodeCertificate c) }
    ensures read { IfOk result (λ c. text.now ≡ code_text c) }
    ensures refused { (line : ℕ) → result ≡ Err (CertEnd.BadLine line) → IsCodeBadLine text.now line }
{
    let mut place = Place::Start;
    let mut cells = Vec::new(alloc);
    let mut rest = text;
    let mut number = 1;
    while let Some((line, after)) = first_line(rest) {
        let Some(next) = next_place(alloc, place, &mut cells, line)? else {
            return Err(CertEnd::BadLine { line: number });
        };
        place = next;
        rest = after;
        number += 1;
    }
    match whole(place, cells, rest) {
        Some(cert) => Ok(cert),
        None => Err(CertEnd::BadLine { line: number }),
    }
}

// The certificate, if this is the place after its last line and nothing follows.
fn whole(place: Place, cells: Vec<CertCell>, rest: &[u8]) -> Option<Cert>
    requires { (g : Marks) → place ≡ Place.End g → rest.now ≡ []
        → IsCodeCertificate (record { grid = g; cells = cells.items }) }
    ensures { MatchOption result ((g : Marks) → place ≡ Place.End g → rest.now ≢ [])
        (λ c. (place ≡ Place.End c.grid) × (c.cells ≡ cells.items) × (rest.now ≡ [])) }
{
    if !rest.is_empty() {
        return None;
    }
    match place {
        Place::End(grid) => Some(Cert::of(grid, cells)),
        _ => None,
    }
}

// The bytes before the first line feed, and those after it, if there is one.
fn first_line(text: &[u8]) -> Option<(&[u8], &[u8])>
    ensures some { IfSome result (λ p. (text.now ≡ p.0.now ++ 10 ∷ p.1.now) × IsFree 10 p.0.now) }
    ensures none { IfNone result (IsFree 10 text.now) }
{
    first_part(text, b"\n")
}
