//! A certificate is written as bytes.
ghost use Rattle.std.specs.Prelude.{◌≡◌, ◌++◌, OnOk, IfOk, IfErr};
ghost use Rattle.std.specs.List.{flat_map};
ghost use Rattle.certificate.specs.Claim.{sizes_of};
ghost use Rattle.certificate.specs.Spelling.{word, block, sizes, certificate_bytes};
ghost use Rattle.certificate.specs.declared.fault.CertFault.TheVariants.{OutOfMemory};

use crate::block_state::BlockState;
use crate::certificate::Certificate;
use crate::fault::CertFault;
use crate::layout::{MAGIC, layout_bytes};
use page_layout::geometry::Geometry;
use std::alloc::{AllocError, Global};

#[tactic(auto, unfolding(crate::specs::Spelling::word))]
fn put_word(out: &mut Vec<u8>, n: u32) -> Result<(), AllocError>
    ensures { OnOk result (out.new.items ≡ out.old.items ++ word n) }
{
    out.extend_from_slice(&n.to_le_bytes())
}

pub(crate) fn put_words(out: &mut Vec<u8>, words: &[u32]) -> Result<(), AllocError>
    ensures { OnOk result (out.new.items ≡ out.old.items ++ flat_map word words.now) }
{
    for n in words {
        put_word(out, *n)?;
    }
    Ok(())
}

fn put_block(out: &mut Vec<u8>, state: &BlockState) -> Result<(), AllocError>
    ensures { OnOk result (out.new.items ≡ out.old.items ++ block state.now) }
{
    out.push(state.class)?;
    out.extend_from_slice(&state.pointer.to_le_bytes())?;
    out.extend_from_slice(&state.live.to_le_bytes())?;
    put_word(out, state.wear)
}

pub(crate) fn put_blocks(out: &mut Vec<u8>, states: &[BlockState]) -> Result<(), AllocError>
    ensures { OnOk result (out.new.items ≡ out.old.items ++ flat_map block states.now) }
{
    for state in states {
        put_block(out, state)?;
    }
    Ok(())
}

fn put_sizes(out: &mut Vec<u8>, geometry: &Geometry) -> Result<(), AllocError>
    ensures { OnOk result (out.new.items ≡ out.old.items ++ sizes (sizes_of geometry.now)) }
{
    let numbers = [
        geometry.data_bytes() as u32,
        geometry.spare_bytes() as u32,
        geometry.pages(),
        geometry.blocks(),
        geometry.sectors(),
    ];
    put_words(out, &numbers)
}

/// The bytes of a certificate, of which there is one spelling, and which `read_certificate` reads as the same certificate.
/// Their memory is taken once, before any is written. Errors: `OutOfMemory` alone, where it was refused. Source: this
/// project.
#[tactic(auto, unfolding(crate::specs::Spelling::certificate_bytes), using(crate::proofs::RowLemmas::rows_spelled))]
pub fn write_certificate(alloc: Global, certificate: &Certificate) -> Result<Vec<u8>, CertFault>
    ensures ok { IfOk result (λ bytes. bytes.items ≡ certificate_bytes certificate.now) }
    ensures err { IfErr result (λ fault. fault ≡ OutOfMemory) }
{
    let geometry = certificate.geometry();
    let mut out = Vec::with_capacity(alloc, layout_bytes(&geometry))?;
    out.extend_from_slice(&MAGIC)?;
    put_sizes(&mut out, &geometry)?;
    put_word(&mut out, certificate.capacity())?;
    out.extend_from_slice(&certificate.next_sequence().to_le_bytes())?;
    certificate.put_rows(&mut out)?;
    Ok(out)
}
