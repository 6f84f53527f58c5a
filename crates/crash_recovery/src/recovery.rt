//! A store is recovered as it is opened to write.
ghost use Rattle.std.specs.Prelude.{◌≡◌, ◌≢◌, ℕ, true, false, IfOk, OnOk, OnErr, IsErrOf, Ok};
ghost use Rattle.page_layout.specs.Counter.{HasRisen};
ghost use Rattle.certificate.specs.Claim.{sizes_of};
ghost use Rattle.image_check.specs.Agrees.{Agrees, IsCertificateOf};
ghost use Rattle.crash_recovery.specs.Asked.{HasLooked};
ghost use Rattle.crash_recovery.specs.Taken.{Recovers, RecoversSome};

use crate::cut::cut_back;
use crate::dead::erase_dead;
use crate::fault::RecoveryFault;
use certificate::Certificate;
use file_die::Store;
use page_layout::geometry::Geometry;
use std::alloc::Global;

// Whether a certificate is of this geometry.
fn is_of(certificate: &Certificate, geometry: &Geometry) -> bool
    ensures yes { result ≡ true → (certificate.now.sizes ≡ sizes_of geometry.now) × IsCertificateOf geometry.now certificate.now }
    ensures no { result ≡ false → certificate.now.sizes ≢ sizes_of geometry.now }
{
    let claimed = certificate.geometry();
    claimed.data_bytes() == geometry.data_bytes()
        && claimed.spare_bytes() == geometry.spare_bytes()
        && claimed.pages() == geometry.pages()
        && claimed.blocks() == geometry.blocks()
        && claimed.sectors() == geometry.sectors()
}

/// Takes away what a crash left torn in a store, whose pages have this certificate: its torn blocks are cut back, as `cut_back` does; where there is none to be cut, those that have no live page are
/// erased again, as `erase_dead` does. Answers whether any page was changed: the store is to be mounted again then. Both at once would be wrong: what is cut may have been the newer pages of an erased block's. With the certificate of another geometry nothing is done.
///
/// # Errors
///
/// `OutOfMemory` where a growth was refused: of an honest store the pages are as they were. `Store` as of these two. (This project's.)
pub fn recover<S: Store>(
    alloc: Global,
    store: &mut S,
    certificate: &Certificate,
    mark: u64,
) -> Result<bool, RecoveryFault>
    ensures recovers { IfOk result (λ changed. S.honest store.old ≡ true → (capacity : ℕ) → Agrees (S.held store.old).geometry capacity (S.held store.old).pages certificate.now →
        Recovers mark (S.held store.old) (S.held store.new) changed) }
    ensures some { OnErr result (S.honest store.old ≡ true → (capacity : ℕ) → Agrees (S.held store.old).geometry capacity (S.held store.old).pages certificate.now →
        RecoversSome mark (S.held store.old) (S.held store.new)) }
    ensures geometry { (S.held store.new).geometry ≡ (S.held store.old).geometry }
    ensures honest { S.honest store.new ≡ S.honest store.old }
    ensures settled { OnOk result (S.failed store.new ≡ S.failed store.old) }
    ensures rose { IsErrOf result RecoveryFault.Store → HasRisen (S.failed store.old) (S.failed store.new) }
    ensures unchanged { IsErrOf result RecoveryFault.OutOfMemory → HasLooked S.held S.honest S.failed store.old true store.new }
    ensures elsewhere { certificate.now.sizes ≢ sizes_of (S.held store.old).geometry → (result ≡ Ok false) × (store.new ≡ store.old) }
{
    if !is_of(certificate, &store.geometry()) {
        return Ok(false);
    }
    let cut = cut_back(alloc, store, certificate, mark)?;
    if cut {
        return Ok(true);
    }
    erase_dead(alloc, store, certificate)
}
