//! The device and its start.
ghost use Rattle.std.specs.Prelude.{◌≡◌, true, None, IfOk, IfErr};
ghost use Rattle.certificate.specs.Claim.{sizes_of, good_blocks};
ghost use Rattle.bad_blocks.specs.Table.{good_count};
ghost use Rattle.allocation.specs.View.{state};
ghost use Rattle.page_layout.specs.Geometry.{IsShare};
ghost use Rattle.promises.specs.Legal.{accounts_of};
ghost use Rattle.collection.specs.Safe.{ram, image_in};
ghost use Rattle.collection.specs.Truth.{IsTrue};
ghost use Rattle.collection.specs.Log.{IsAccounted};
ghost use Rattle.ftl_device.specs.Begin.{begun_ram, is_bad_in, free_in, is_scarce};
ghost use Rattle.ftl_device.specs.Device.{IsDevice, IsAcceptedFor};

use crate::begin::Known;
use crate::fault::StartFault;
use collection::{Engine, LEAST_FREE};
use image_check::Accepted;
use onfi_cycles::Nand;
use std::alloc::Global;

/// Sectors over a die: they are read and written, also where programs of the die fail. Once the die
/// gave no page or no outcome, or a call that changes a sector found a page damaged, the device is
/// stopped: every later call is refused by that fault.
///
/// Source: the DFTL paper, for the mapping; the rest is this project's.
#[derive(Drop)]
pub struct Device<N: Nand> {
    /// The die and what is known of it.
    pub engine: Engine<N>,
    /// Whether it refuses to change a sector.
    pub read_only: bool,
    /// The row from which `migrate_one` looks on.
    pub cursor: u32,
}

impl<N: Nand> Device<N> {
    /// A device over a die whose image a checker accepted, with share 0: no moved sector waits for its
    /// translation page between calls. Nothing is asked of the die. The stale
    /// sectors are cached as dirty, by rising number, and the cache has the capacity that was
    /// accepted. It begins read-only just where fewer than five blocks are free. `migrate_one` looks from
    /// row 0 on.
    ///
    /// The geometry of the accepted certificate is the die's. Where the die is honest and the
    /// certificate was accepted for its image, the device holds the image's array.
    ///
    /// # Errors
    ///
    /// `OutOfMemory` alone, where a growth was refused: the die and the certificate come back. (This
    /// project's rules.)
    pub fn start<'a>(
        alloc: Global,
        nand: N,
        accepted: Accepted<'a>,
    ) -> Result<Device<N>, StartFault<'a, N>>
        requires same_geometry { sizes_of (N.view.flash nand).geometry ≡ accepted.claim.sizes }
        ensures device { IfOk result (IsDevice N.view.flash) }
        ensures nand { IfOk result (λ d. d.engine.nand ≡ nand) }
        ensures cursor { IfOk result (λ d. d.cursor ≡ 0) }
        ensures begun { IfOk result (λ d. ram d.engine ≡ begun_ram (N.view.flash nand).geometry 0 accepted.entry.claim accepted.entry.stale) }
        ensures good { IfOk result (λ d. good_count (state d.engine.blocks).table ≡ good_blocks accepted.entry.claim) }
        // The truth of it, for a die that keeps its promises.
        ensures truth { IfOk result (λ d. N.view.honest nand ≡ true → IsAcceptedFor (N.view.flash nand) accepted.entry →
            IsTrue None (ram d.engine) (image_in N.view.flash d.engine)) }
        ensures free { IfOk result (λ d. N.view.honest nand ≡ true → IsAcceptedFor (N.view.flash nand) accepted.entry →
            d.read_only ≡ is_scarce (free_in (N.view.flash nand).geometry accepted.entry.claim (N.view.flash nand).image)) }
        ensures accounts { IfOk result (λ d. N.view.honest nand ≡ true → IsAcceptedFor (N.view.flash nand) accepted.entry →
            IsAccounted (accounts_of (N.view.flash nand).geometry (N.view.flash nand).image (is_bad_in accepted.entry.claim)) (state d.engine.blocks)) }
        ensures fault { IfErr result (λ fault. fault ≡ StartFault.OutOfMemory nand accepted.entry) }
    {
        Device::start_at(alloc, nand, 0, accepted)
    }

    /// A device as `start` gives it, where up to `share` moved sectors, in the mean, wait for each
    /// translation page between calls. A die that was filled at a share is started at that one or a
    /// greater one: at a smaller one it may lack blocks at once. `share` is one of the geometry:
    /// `Geometry::is_share`.
    ///
    /// # Errors
    ///
    /// `OutOfMemory` alone, as there. (This project's rules, after the batch updates of the DFTL paper.)
    pub fn start_at<'a>(
        alloc: Global,
        nand: N,
        share: u32,
        accepted: Accepted<'a>,
    ) -> Result<Device<N>, StartFault<'a, N>>
        requires share { IsShare (N.view.flash nand).geometry share }
        requires same_geometry { sizes_of (N.view.flash nand).geometry ≡ accepted.claim.sizes }
        ensures device { IfOk result (IsDevice N.view.flash) }
        ensures nand { IfOk result (λ d. d.engine.nand ≡ nand) }
        ensures cursor { IfOk result (λ d. d.cursor ≡ 0) }
        ensures begun { IfOk result (λ d. ram d.engine ≡ begun_ram (N.view.flash nand).geometry share accepted.entry.claim accepted.entry.stale) }
        ensures good { IfOk result (λ d. good_count (state d.engine.blocks).table ≡ good_blocks accepted.entry.claim) }
        // The truth of it, for a die that keeps its promises.
        ensures truth { IfOk result (λ d. N.view.honest nand ≡ true → IsAcceptedFor (N.view.flash nand) accepted.entry →
            IsTrue None (ram d.engine) (image_in N.view.flash d.engine)) }
        ensures free { IfOk result (λ d. N.view.honest nand ≡ true → IsAcceptedFor (N.view.flash nand) accepted.entry →
            d.read_only ≡ is_scarce (free_in (N.view.flash nand).geometry accepted.entry.claim (N.view.flash nand).image)) }
        ensures accounts { IfOk result (λ d. N.view.honest nand ≡ true → IsAcceptedFor (N.view.flash nand) accepted.entry →
            IsAccounted (accounts_of (N.view.flash nand).geometry (N.view.flash nand).image (is_bad_in accepted.entry.claim)) (state d.engine.blocks)) }
        ensures fault { IfErr result (λ fault. fault ≡ StartFault.OutOfMemory nand accepted.entry) }
    {
        let certificate = accepted.certificate();
        let geometry = certificate.geometry();
        let Ok(known) = Known::new(alloc, &geometry, share, &accepted) else {
            return Err(StartFault::OutOfMemory { nand, accepted });
        };
        let Known {
            blocks,
            directory,
            mapping,
        } = known;
        let read_only = blocks.free() < LEAST_FREE;
        let next = certificate.next_sequence();
        match Engine::new(alloc, nand, &geometry, blocks, directory, mapping, next) {
            Ok(engine) => Ok(Device {
                engine,
                read_only,
                cursor: 0,
            }),
            Err((nand, _)) => Err(StartFault::OutOfMemory { nand, accepted }),
        }
    }

    /// Whether it refuses to change a sector, until it is started anew. (This project.)
    pub fn read_only(&self) -> bool
        ensures { result ≡ self.now.read_only }
    {
        self.read_only
    }

    /// The die, given up by the device. (This project.)
    pub fn into_nand(self) -> N
        ensures { result ≡ self.engine.nand }
    {
        self.engine.into_nand()
    }

    /// Gives the device up for its engine. (This project.)
    pub fn into_engine(self) -> Engine<N>
        ensures { result ≡ self.engine }
    {
        self.engine
    }
}
