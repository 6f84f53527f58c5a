//! Bytes are read as a certificate.
ghost use Rattle.std.specs.Prelude.{◌≡◌, ◌≢◌, ◌⊎◌, IfOk, IfErr, IsErrAnd, MatchResult};
ghost use Rattle.certificate.specs.Claim.{Claim};
ghost use Rattle.certificate.specs.Spelling.{Fits, certificate_bytes};
ghost use Rattle.certificate.specs.Reading.{claim_in};
ghost use Rattle.certificate.specs.Faults.{IsFirstCertificateFault};
ghost use Rattle.certificate.specs.Heads.{IsHeadOf};
ghost use Rattle.certificate.specs.declared.fault.CertFault.{CertFault};
ghost use Rattle.certificate.specs.declared.fault.CertFault.TheVariants.{OutOfMemory};

use crate::body::{has_other_class, has_row_past, read_body};
use crate::certificate::Certificate;
use crate::fault::CertFault;
use crate::head::{Head, read_head};
use std::alloc::Global;

// The certificate of whole bytes with this head.
fn read_parts(alloc: Global, head: Head, bytes: &[u8]) -> Result<Certificate, CertFault>
    requires { IsHeadOf bytes.now head }
    ensures ok { IfOk result (λ certificate. certificate ≡ claim_in bytes.now) }
    ensures fits { IfOk result Fits }
    ensures err { IfErr result (IsFirstCertificateFault bytes.now) }
{
    let geometry = head.geometry;
    let body = read_body(alloc, &geometry, bytes)?;
    if has_other_class(&body.blocks) {
        return Err(CertFault::ClassRange);
    }
    let rows = geometry.rows();
    if has_row_past(rows, &body.directory) || has_row_past(rows, &body.sectors) {
        return Err(CertFault::RowRange);
    }
    Ok(Certificate::new(
        geometry,
        head.capacity,
        head.next,
        body.blocks,
        body.directory,
        body.sectors,
    ))
}

/// The certificate that all of the bytes spell. Errors, of which the first of this order is answered:
///
/// - `Short`: there are fewer than 8 bytes.
/// - `Magic`: the first eight are not `DFTLCRT1`.
/// - `Short`: there are fewer than 40 bytes.
/// - `Limit`: the head's numbers are no geometry, or its capacity is not from 1 to 65536.
/// - `Short`: there are fewer bytes than the head promises.
/// - `Long`: there are more.
/// - `ClassRange`: a block has a class above 5.
/// - `RowRange`: a row of the directory or of a sector is neither a row of the die nor FFFFFFFFh.
///
/// `OutOfMemory` may come in place of the last two, or of the certificate: memory is asked for only once the bytes are as
/// many as their head promises, and then all at once, before they are read. Source: this project.
pub fn read_certificate(alloc: Global, bytes: &[u8]) -> Result<Certificate, CertFault>
    // What is read is spelled so.
    ensures found { IfOk result (λ certificate. Fits certificate × (certificate_bytes certificate ≡ bytes.now)) }
    // What is spelled so is read, unless memory runs out.
    ensures only { (c : Claim) → Fits c → bytes.now ≡ certificate_bytes c → MatchResult result (λ certificate. certificate ≡ c) (λ fault. fault ≡ OutOfMemory) }
    // What the fault says stands in the bytes, and nothing that is looked for earlier.
    ensures err { IfErr result (IsFirstCertificateFault bytes.now) }
    // The fault that stands in the bytes is answered, unless memory runs out.
    ensures answered { (fault : CertFault) → fault ≢ OutOfMemory → IsFirstCertificateFault bytes.now fault → IsErrAnd result (λ answer. (answer ≡ fault) ⊎ (answer ≡ OutOfMemory)) }
{
    let head = read_head(bytes)?;
    read_parts(alloc, head, bytes)
}
