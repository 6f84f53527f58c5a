//! The memory of a device, as an accepted certificate gives it.
ghost use Rattle.std.specs.Prelude.{◌≡◌, ◌≤◌, [], length, IfOk, OnOk};
ghost use Rattle.certificate.specs.Claim.{sizes_of};
ghost use Rattle.certificate.specs.Spelling.{Fits};
ghost use Rattle.image_check.specs.Agrees.{IsCertificateOf};
ghost use Rattle.image_check.specs.Rising.{IsRisingBelow};
ghost use Rattle.mapping_cache.specs.Mapping.{IsMapping};
ghost use Rattle.page_layout.specs.Geometry.{IsShare};
ghost use Rattle.allocation.specs.Begun.{begun};
ghost use Rattle.allocation.specs.View.{state};
ghost use Rattle.ftl_device.specs.Begin.{begun_mapping};

use crate::fault::NoMemory;
use allocation::Blocks;
use certificate::{BlockState, Certificate};
use image_check::Accepted;
use mapping_cache::{LoadFault, Mapping};
use page_layout::geometry::Geometry;
use page_layout::word::word_from;
use std::alloc::{AllocError, Global};
use translation_pages::Directory;

// The states that a certificate gives the blocks.
fn states_of(
    alloc: Global,
    certificate: &Certificate,
    blocks: u32,
) -> Result<Vec<BlockState>, AllocError>
    requires { length certificate.now.blocks ≡ blocks }
    ensures { IfOk result (λ states. states.items ≡ certificate.now.blocks) }
{
    let mut states = Vec::with_capacity(alloc, blocks as usize)?;
    for block in 0..blocks {
        states.push(certificate.block(block))?;
    }
    Ok(states)
}

// The directory that a certificate gives, of so many rows.
fn directory_of(
    alloc: Global,
    certificate: &Certificate,
    rows: u32,
) -> Result<Directory, AllocError>
    requires rows { length certificate.now.directory ≡ rows }
    requires fits { Fits certificate.now }
    ensures { IfOk result (λ directory. directory ≡ certificate.now.directory) }
{
    let mut words = Vec::with_capacity(alloc, rows as usize)?;
    for key in 0..rows {
        words.push(word_from(certificate.directory_row(key)))?;
    }
    Directory::new(alloc, &words)
}

// Caches the stale sectors by rising number, each with the row that the certificate has for it, dirty.
fn load_stale(
    mapping: &mut Mapping,
    certificate: &Certificate,
    stale: &[u32],
) -> Result<(), LoadFault>
    requires empty { mapping.old ≡ begun_mapping mapping.old.geometry mapping.old.share certificate.now [] }
    requires valid { IsMapping mapping.old }
    requires sizes { certificate.now.sizes ≡ sizes_of mapping.old.geometry }
    requires sectors { length certificate.now.sectors ≡ mapping.old.geometry.sectors }
    requires few { length stale.now ≤ certificate.now.capacity }
    requires rising { IsRisingBelow certificate.now.sizes.sectors stale.now }
    ensures loaded { OnOk result (mapping.new ≡ begun_mapping mapping.old.geometry mapping.old.share certificate.now stale.now) }
    ensures valid { OnOk result (IsMapping mapping.new) }
{
    for sector in stale {
        let row = certificate.sector_row(*sector);
        mapping.load(*sector, row)?;
        mapping.set_dirty(*sector, row);
    }
    Ok(())
}

/// What a certificate tells an engine of its die.
#[derive(Drop)]
pub(crate) struct Known {
    pub(crate) blocks: Blocks,
    pub(crate) directory: Directory,
    pub(crate) mapping: Mapping,
}

// An empty mapping of the accepted capacity and this share, into which the stale sectors are loaded.
fn mapping_of(
    alloc: Global,
    geometry: &Geometry,
    share: u32,
    accepted: &Accepted<'_>,
) -> Result<Mapping, NoMemory>
    requires share { IsShare geometry.now share }
    requires sizes { accepted.now.claim.sizes ≡ sizes_of geometry.now }
    requires sectors { length accepted.now.claim.sectors ≡ geometry.now.sectors }
    ensures loaded { IfOk result (λ mapping. mapping ≡ begun_mapping geometry.now share accepted.now.claim accepted.now.stale) }
{
    let certificate = accepted.certificate();
    let mut mapping = Mapping::with_share(alloc, geometry, certificate.capacity(), share)?;
    load_stale(&mut mapping, certificate, accepted.stale())?;
    Ok(mapping)
}

impl Known {
    /// What an accepted certificate of this geometry tells: the stale sectors are cached, dirty.
    pub(crate) fn new(
        alloc: Global,
        geometry: &Geometry,
        share: u32,
        accepted: &Accepted<'_>,
    ) -> Result<Known, NoMemory>
        requires share { IsShare geometry.now share }
        requires sizes { accepted.now.claim.sizes ≡ sizes_of geometry.now }
        requires sized { IsCertificateOf geometry.now accepted.now.claim }
        requires fits { Fits accepted.now.claim }
        ensures states { IfOk result (λ known. state known.blocks ≡ begun geometry.now accepted.now.claim.blocks) }
        ensures directory { IfOk result (λ known. known.directory ≡ accepted.now.claim.directory) }
        ensures mapping { IfOk result (λ known. known.mapping ≡ begun_mapping geometry.now share accepted.now.claim accepted.now.stale) }
    {
        let certificate = accepted.certificate();
        let rows = geometry.translation_pages() + geometry.table_pages();
        let states = states_of(alloc, certificate, geometry.blocks())?;
        Ok(Known {
            blocks: Blocks::new(alloc, geometry, &states)?,
            directory: directory_of(alloc, certificate, rows)?,
            mapping: mapping_of(alloc, geometry, share, accepted)?,
        })
    }
}
