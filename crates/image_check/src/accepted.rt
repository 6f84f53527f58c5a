//! What the checker hands out.
ghost use Rattle.std.specs.Prelude.{◌≡◌, ◌≤◌, length};
ghost use Rattle.image_check.specs.Rising.{IsRisingBelow};

use certificate::Certificate;
use std::marker::Model;

/// A certificate that agrees with an image, and the sectors that are stale there.
///
/// The checker makes one, and whoever made the certificate by looking at the whole image knows as much. It borrows the certificate, which a
/// device started from it reads without a copy.
#[derive(Drop)]
pub struct Accepted<'a> {
    certificate: &'a Certificate,
    stale: Vec<u32>,
}

impl<'a> Model for Accepted<'a> {
    ghost use Rattle.std.specs.Prelude.{◌≤◌, length};
    ghost use Rattle.image_check.specs.Rising.{IsRisingBelow};
    ghost use Rattle.image_check.specs.Accepted.{Acceptance};

    ghost Value = { Acceptance };

    ghost view = { λ a. record { claim = a.certificate.now; stale = a.stale.items } };

    ghost invariant = { λ a. record { few : length a.stale.items ≤ a.certificate.now.capacity; rising : IsRisingBelow a.certificate.now.sizes.sectors a.stale.items } };
}

impl<'a> Accepted<'a> {
    /// What is known of a certificate. That it agrees with an image, and that these are its stale sectors, is for the caller to know:
    /// `IsAcceptance` says it. (This project's.)
    pub fn new(certificate: &'a Certificate, stale: Vec<u32>) -> Accepted<'a>
        requires few { length stale.items ≤ certificate.now.capacity }
        requires rising { IsRisingBelow certificate.now.sizes.sectors stale.items }
        ensures claim { result.claim ≡ certificate.now }
        ensures stale { result.stale ≡ stale.items }
    {
        Accepted { certificate, stale }
    }

    /// The certificate.
    pub fn certificate(&self) -> &'a Certificate
        ensures { result.now ≡ self.now.claim }
    {
        self.certificate
    }

    /// The capacity of the cached mapping table, in entries, that the check was for.
    pub fn capacity(&self) -> u32
        ensures { result ≡ self.now.claim.capacity }
    {
        self.certificate.capacity()
    }

    /// The stale sectors, rising: those whose entry in the newest translation page isn't the row of their newest page.
    /// They are at most as many as the capacity.
    pub fn stale(&self) -> &[u32]
        ensures is { result.now ≡ self.now.stale }
        ensures few { length result.now ≤ self.now.claim.capacity }
        ensures rising { IsRisingBelow self.now.claim.sizes.sectors result.now }
    {
        &self.stale
    }
}
