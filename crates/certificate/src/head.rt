//! The head of forty bytes is read.
ghost use Rattle.std.specs.Prelude.{◌≡◌, ◌≤◌, ◌≢◌, OnOk, IfOk, IfErr, length};
ghost use Rattle.certificate.specs.Reading.{next_sequence_in};
ghost use Rattle.certificate.specs.Faults.{IsFirstCertificateFault, HasHead};
ghost use Rattle.certificate.specs.Heads.{IsHeadOf, IsLimitsOf};

use crate::fault::CertFault;
use crate::layout::{HEAD_BYTES, MAGIC, layout_bytes};
use page_layout::geometry::Geometry;
use page_layout::word::read_word;

// The numbers that stand before the states of the blocks.
#[derive(Clone, Copy)]
pub(crate) struct Head {
    pub(crate) geometry: Geometry,
    pub(crate) capacity: u32,
    pub(crate) next: u64,
}

// A whole head, with its magic.
fn check_magic(bytes: &[u8]) -> Result<(), CertFault>
    ensures ok { OnOk result (HasHead bytes.now) }
    ensures err { IfErr result (IsFirstCertificateFault bytes.now) }
{
    if bytes.len() < MAGIC.len() {
        return Err(CertFault::Short);
    }
    if bytes[..8] != MAGIC[..] {
        return Err(CertFault::Magic);
    }
    if bytes.len() < HEAD_BYTES {
        return Err(CertFault::Short);
    }
    Ok(())
}

// The next sequence, of eight bytes.
fn read_next(bytes: &[u8]) -> u64
    requires { 40 ≤ length bytes.now }
    ensures { result ≡ next_sequence_in bytes.now }
{
    u64::from_le_bytes([
        bytes[32], bytes[33], bytes[34], bytes[35], bytes[36], bytes[37], bytes[38], bytes[39],
    ])
}

// The geometry and the capacity of a whole head, within their limits.
fn read_limits(bytes: &[u8]) -> Result<(Geometry, u32), CertFault>
    requires { HasHead bytes.now }
    ensures ok { IfOk result (λ numbers. IsLimitsOf bytes.now numbers.0 numbers.1) }
    ensures err { IfErr result (IsFirstCertificateFault bytes.now) }
{
    let Ok(geometry) = Geometry::new(
        read_word(bytes, 2),
        read_word(bytes, 3),
        read_word(bytes, 4),
        read_word(bytes, 5),
        read_word(bytes, 6),
    ) else {
        return Err(CertFault::Limit);
    };
    let capacity = read_word(bytes, 7);
    if !geometry.is_capacity(capacity) {
        return Err(CertFault::Limit);
    }
    Ok((geometry, capacity))
}

// The head of bytes that are as many as it promises.
pub(crate) fn read_head(bytes: &[u8]) -> Result<Head, CertFault>
    ensures ok { IfOk result (IsHeadOf bytes.now) }
    ensures err { IfErr result (IsFirstCertificateFault bytes.now) }
{
    check_magic(bytes)?;
    let (geometry, capacity) = read_limits(bytes)?;
    let promised = layout_bytes(&geometry);
    if bytes.len() < promised {
        return Err(CertFault::Short);
    }
    if bytes.len() > promised {
        return Err(CertFault::Long);
    }
    Ok(Head {
        geometry,
        capacity,
        next: read_next(bytes),
    })
}
