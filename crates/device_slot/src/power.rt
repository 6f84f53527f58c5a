//! Power comes and goes: from a die to a device, and back.
ghost use Rattle.std.specs.Prelude.{◌≡◌, ◌≢◌, ◌<◌, ◌≤◌, ◌+◌, ℕ, true, Err, IfOk, IfErr, IfSome, IfNone, OnOk};
ghost use Rattle.page_layout.specs.Array.{array_of};
ghost use Rattle.page_layout.specs.Geometry.{row_count};
ghost use Rattle.page_layout.specs.OnlyReads.{OnlyReads};
ghost use Rattle.certificate.specs.Claim.{sizes_of};
ghost use Rattle.image_check.specs.Stale.{stale_count};
ghost use Rattle.ftl_device.specs.Calls.{array_in};
ghost use Rattle.ftl_device.specs.Device.{IsDevice, IsAcceptedFor};
ghost use Rattle.device_slot.specs.Begun.{IsDeviceBegun, IsDeviceKept};
ghost use Rattle.device_slot.specs.Power.{look_reads, unpowered_nand, EndsFlush, FlushesLarger, LooksAtMost, HoldsSame, IsStarted, IsStartedFlushed, HasTriedStart, IsBrought, IsDieHandedBack, IsTooStale, IsCertificateUnaccepted, IsUnbrought, ArePagesUnmounted, IsUnsettled, IsUnsettledWith, StopsFlush, WantsCache};

use certificate::Certificate;
use ftl_device::{Device, DeviceFault, StartFault};
use image_check::{Accepted, Refusal, check};
use mount::{Mounted, mount_counted};
use onfi_cycles::Nand;
use page_layout::geometry::Geometry;
use std::alloc::Global;
use thiserror::Error;

/// Why a die has no device. It comes back. (This project's.)
#[derive(Drop, Error)]
pub enum PowerFault<N> {
    /// Its pages are refused, or a page read failed, or no memory was left to look at them.
    #[error("Refused {refusal}")]
    Refused { refusal: Refusal, nand: N },
    /// Its pages are those of a device, and no memory was left to start it.
    #[error("Start")]
    Start { nand: N },
    /// A device with a larger cache was started, and failed to flush what a stop had left.
    #[error("Flush {fault}")]
    Flush { fault: DeviceFault, nand: N },
}

impl<N> PowerFault<N> {
    ghost use Rattle.std.specs.Prelude.{◌≡◌};
    ghost use Rattle.device_slot.specs.Power.{unpowered_nand};

    /// The die that comes back.
    pub fn into_nand(self) -> N
        ensures { result ≡ unpowered_nand self }
    {
        match self {
            PowerFault::Refused { nand, .. }
            | PowerFault::Start { nand }
            | PowerFault::Flush { nand, .. } => nand,
        }
    }
}

// The device that begins from an accepted certificate. The die comes back where a growth was refused.
fn begin<'a, N: Nand>(alloc: Global, nand: N, accepted: Accepted<'a>) -> Result<Device<N>, N>
    requires same_geometry { sizes_of (N.view.flash nand).geometry ≡ accepted.claim.sizes }
    requires accepted { N.view.honest nand ≡ true → IsAcceptedFor (N.view.flash nand) accepted }
    ensures begun { IfOk result (IsDeviceBegun N.view) }
    ensures nand { IfOk result (λ d. d.engine.nand ≡ nand) }
    ensures geometry { IfOk result (λ d. d.engine.geometry ≡ (N.view.flash nand).geometry) }
    ensures capacity { IfOk result (λ d. d.engine.mapping.capacity ≡ accepted.entry.claim.capacity) }
    ensures back { IfErr result (λ back. back ≡ nand) }
{
    let device = match Device::start(alloc, nand, accepted) {
        Ok(device) => device,
        Err(StartFault::OutOfMemory { nand, .. }) => return Err(nand),
    };
    Ok(device)
}

/// Mounts what a die holds, and starts a device from it with a cache of `capacity` entries, 1 to 65536: **of a die that is honest the device holds the array that the
/// image holds.** The certificate of a mount agrees with the image, so each page is read once, the newest translation pages twice. Whatever
/// the die is, it is asked for reads alone.
///
/// # Errors
///
/// - `Refused` with what keeps the image from being mounted, which is so of an honest die; with `Source` where a page read failed, and with
///   `OutOfMemory` where a growth was refused.
/// - `Start` where the image was mounted, so that of an honest die a certificate agrees with it, and a growth was refused.
///
/// The die comes back in each case, its pages as they were but where a read failed. (This project's.)
pub fn start_mounted<N: Nand>(
    alloc: Global,
    mut nand: N,
    geometry: &Geometry,
    capacity: u32,
) -> Result<Device<N>, PowerFault<N>>
    requires same_geometry { (N.view.flash nand).geometry ≡ geometry.now }
    requires least { 1 ≤ capacity }
    requires most { capacity ≤ 65536 }
    ensures begun { IfOk result (IsDeviceBegun N.view) }
    ensures geometry { IfOk result (λ d. d.engine.geometry ≡ geometry.now) }
    ensures capacity { IfOk result (λ d. d.engine.mapping.capacity ≡ capacity) }
    ensures array { IfOk result (λ d. N.view.honest nand ≡ true → array_in N.view.flash d ≡ array_of geometry.now (N.view.flash nand).image) }
    ensures pages { IfOk result (λ d. N.view.honest nand ≡ true → N.view.flash d.engine.nand ≡ N.view.flash nand) }
    ensures reads { IfOk result (λ d. OnlyReads N.view nand d.engine.nand) }
    ensures fault { IfErr result (ArePagesUnmounted N.view nand geometry.now capacity) }
    ensures given { IfErr result (λ fault. OnlyReads N.view nand (unpowered_nand fault)) }
    ensures most_reads { IfOk result (λ d. N.view.reads d.engine.nand ≤ N.view.reads nand + look_reads geometry.now) }
    ensures most_given { IfErr result (λ fault. N.view.reads (unpowered_nand fault) ≤ N.view.reads nand + look_reads geometry.now) }
{
    let (certificate, stale) = match mount_counted(alloc, &mut nand, geometry, capacity) {
        Ok(Mounted { certificate, stale }) => (certificate, stale),
        Err(refusal) => return Err(PowerFault::Refused { refusal, nand }),
    };
    let accepted = Accepted::new(&certificate, stale);
    match begin(alloc, nand, accepted) {
        Ok(device) => Ok(device),
        Err(nand) => Err(PowerFault::Start { nand }),
    }
}

/// Checks that a certificate agrees with what a die holds, and starts a device from it with a cache of `capacity` entries: **of a die that is honest the
/// device holds the array that the image holds.** Each page is read once: that is how it is known. Whatever the die is, it is asked for reads alone.
///
/// # Errors
///
/// - `Refused` with the checker's refusal, which is so of an honest die; with `Source` where a page read failed, and with `OutOfMemory`
///   where a growth was refused.
/// - `Start` where the certificate was accepted, so that of an honest die it agrees with the image, and a growth was refused.
///
/// The die comes back in each case, its pages as they were but where a read failed. (This project's.)
pub fn start_checked<N: Nand>(
    alloc: Global,
    mut nand: N,
    geometry: &Geometry,
    capacity: u32,
    certificate: &Certificate,
) -> Result<Device<N>, PowerFault<N>>
    requires same_geometry { (N.view.flash nand).geometry ≡ geometry.now }
    ensures begun { IfOk result (IsDeviceBegun N.view) }
    ensures geometry { IfOk result (λ d. d.engine.geometry ≡ geometry.now) }
    ensures capacity { IfOk result (λ d. d.engine.mapping.capacity ≡ capacity) }
    ensures array { IfOk result (λ d. N.view.honest nand ≡ true → array_in N.view.flash d ≡ array_of geometry.now (N.view.flash nand).image) }
    ensures pages { IfOk result (λ d. N.view.honest nand ≡ true → N.view.flash d.engine.nand ≡ N.view.flash nand) }
    ensures reads { IfOk result (λ d. OnlyReads N.view nand d.engine.nand) }
    ensures fault { IfErr result (IsCertificateUnaccepted N.view nand geometry.now capacity certificate.now) }
    ensures given { IfErr result (λ fault. OnlyReads N.view nand (unpowered_nand fault)) }
    ensures most_reads { IfOk result (λ d. N.view.reads d.engine.nand ≤ N.view.reads nand + row_count geometry.now) }
    ensures most_given { IfErr result (λ fault. N.view.reads (unpowered_nand fault) ≤ N.view.reads nand + row_count geometry.now) }
{
    let accepted = match check(alloc, &mut nand, geometry, capacity, certificate) {
        Ok(accepted) => accepted,
        Err(refusal) => return Err(PowerFault::Refused { refusal, nand }),
    };
    match begin(alloc, nand, accepted) {
        Ok(device) => Ok(device),
        Err(nand) => Err(PowerFault::Start { nand }),
    }
}

/// The die of a device, as where the power goes: nothing is written. Of a device that is well it holds the array. (This project's.)
pub fn stop<N: Nand>(device: Device<N>) -> N
    requires { IsDevice N.view.flash device }
    ensures nand { result ≡ device.engine.nand }
    ensures geometry { (N.view.flash result).geometry ≡ device.engine.geometry }
    ensures array { array_of device.engine.geometry (N.view.flash result).image ≡ array_in N.view.flash device }
{
    device.into_nand()
}

// What keeps a device from being settled by a flush. One that takes no change any more has nothing to flush.
fn settled(flushed: Result<(), DeviceFault>) -> Result<(), DeviceFault>
    requires within { flushed ≢ Err DeviceFault.OutOfRange }
    requires memory { flushed ≢ Err DeviceFault.OutOfMemory }
    ensures ok { OnOk result (flushed ≢ Err DeviceFault.BusFault) }
    ensures ends { OnOk result (EndsFlush flushed) }
    ensures err { IfErr result (λ fault. flushed ≡ Err fault) }
    ensures stops { IfErr result StopsFlush }
{
    match flushed {
        Ok(()) | Err(DeviceFault::ReadOnly { .. } | DeviceFault::SequenceSpent) => Ok(()),
        Err(fault) => Err(fault),
    }
}

// A device with so many entries, which flushes, and gives the die back.
fn settle<N: Nand>(
    alloc: Global,
    nand: N,
    geometry: &Geometry,
    stale: u32,
) -> Result<N, PowerFault<N>>
    requires same_geometry { (N.view.flash nand).geometry ≡ geometry.now }
    requires least { 1 ≤ stale }
    requires most { stale ≤ 65536 }
    ensures back { IfOk result (IsDieHandedBack N.view nand) }
    ensures array { IfOk result (HoldsSame N.view geometry.now nand) }
    ensures flushes { IfOk result (FlushesLarger N.view geometry.now 1 stale nand) }
    ensures fault { IfErr result (IsUnsettledWith N.view nand geometry.now stale) }
    ensures given { IfErr result (λ fault. IsDieHandedBack N.view nand (unpowered_nand fault)) }
    ensures tried { IfErr result (λ fault. HasTriedStart N.view geometry.now 1 nand (unpowered_nand fault)) }
{
    let mut device = start_mounted(alloc, nand, geometry, stale)?;
    match settled(device.flush()) {
        Ok(()) => Ok(stop(device)),
        Err(fault) => Err(PowerFault::Flush {
            fault,
            nand: stop(device),
        }),
    }
}

// What a stop left wants a larger cache than one of `capacity` entries: so many.
fn stale_in<N>(fault: &PowerFault<N>, capacity: u32) -> Option<u32>
    ensures wants { IfSome result (WantsCache capacity fault.now) }
    ensures more { IfSome result (λ stale. capacity < stale) }
    ensures most { IfSome result (λ stale. stale ≤ 65536) }
    ensures none { IfNone result ((entries : ℕ) → ¬ WantsCache capacity fault.now entries) }
{
    match fault {
        PowerFault::Refused {
            refusal: Refusal::TooStale { stale, .. },
            ..
        } if *stale > capacity && *stale <= 65_536 => Some(*stale),
        _ => None,
    }
}

// One look, in the words of several.
fn look<N: Nand>(
    alloc: Global,
    nand: N,
    geometry: &Geometry,
    entries: u32,
) -> Result<Device<N>, PowerFault<N>>
    requires same_geometry { (N.view.flash nand).geometry ≡ geometry.now }
    requires least { 1 ≤ entries }
    requires most { entries ≤ 65536 }
    ensures brings { IfOk result (IsBrought N.view nand geometry.now entries) }
    ensures pages { IfOk result (λ d. N.view.honest nand ≡ true → N.view.flash d.engine.nand ≡ N.view.flash nand) }
    ensures capacity { IfOk result (λ d. d.engine.mapping.capacity ≡ entries) }
    ensures looked { IfOk result (λ d. LooksAtMost N.view geometry.now 1 nand d.engine.nand) }
    ensures fault { IfErr result (ArePagesUnmounted N.view nand geometry.now entries) }
    ensures given { IfErr result (λ fault. IsDieHandedBack N.view nand (unpowered_nand fault)) }
    ensures looked_given { IfErr result (λ fault. LooksAtMost N.view geometry.now 1 nand (unpowered_nand fault)) }
{
    match start_mounted(alloc, nand, geometry, entries) {
        Ok(device) => Ok(device),
        Err(fault) => Err(fault),
    }
}

// The device with a cache of so many entries, or of as many as its stale sectors want.
fn start_either<N: Nand>(
    alloc: Global,
    nand: N,
    geometry: &Geometry,
    capacity: u32,
) -> Result<Device<N>, PowerFault<N>>
    requires same_geometry { (N.view.flash nand).geometry ≡ geometry.now }
    requires least { 1 ≤ capacity }
    requires most { capacity ≤ 65536 }
    ensures brings { IfOk result (IsBrought N.view nand geometry.now capacity) }
    ensures looked { IfOk result (λ d. LooksAtMost N.view geometry.now 2 nand d.engine.nand) }
    ensures pages { IfOk result (λ d. N.view.honest nand ≡ true → N.view.flash d.engine.nand ≡ N.view.flash nand) }
    ensures fault { IfErr result (IsUnbrought N.view nand geometry.now capacity) }
    ensures given { IfErr result (λ fault. IsDieHandedBack N.view nand (unpowered_nand fault)) }
    ensures looked_given { IfErr result (λ fault. LooksAtMost N.view geometry.now 2 nand (unpowered_nand fault)) }
{
    let fault = match look(alloc, nand, geometry, capacity) {
        Ok(device) => return Ok(device),
        Err(fault) => fault,
    };
    match stale_in(&fault, capacity) {
        Some(stale) => look(alloc, fault.into_nand(), geometry, stale),
        None => Err(fault),
    }
}

// The device once a larger one has flushed what a stop had left.
fn start_settled<N: Nand>(
    alloc: Global,
    nand: N,
    geometry: &Geometry,
    capacity: u32,
    stale: u32,
) -> Result<Device<N>, PowerFault<N>>
    requires same_geometry { (N.view.flash nand).geometry ≡ geometry.now }
    requires least { 1 ≤ capacity }
    requires more { capacity < stale }
    requires most { stale ≤ 65536 }
    requires wanted { N.view.honest nand ≡ true → IsTooStale geometry.now capacity (N.view.flash nand).image stale }
    ensures brings { IfOk result (IsBrought N.view nand geometry.now capacity) }
    ensures started { IfOk result (IsStartedFlushed N.view nand geometry.now capacity 1) }
    ensures fault { IfErr result (IsUnsettled N.view nand geometry.now capacity) }
    ensures given { IfErr result (λ fault. IsDieHandedBack N.view nand (unpowered_nand fault)) }
    ensures tried { IfErr result (λ fault. HasTriedStart N.view geometry.now 1 nand (unpowered_nand fault)) }
{
    let nand = settle(alloc, nand, geometry, stale)?;
    start_either(alloc, nand, geometry, capacity)
}

/// Starts a device over what a die holds, with a cache of `capacity` entries, 1 to 65536: **of a die that is honest the device holds the array that the image
/// held.** A stop may have left more stale sectors than the cache has room for: then a device with as many entries as it wants, up to 65536,
/// flushes first, and the die is mounted again. One that takes no change any more keeps the larger cache. Where nothing had to be flushed the die
/// is asked for reads alone. Whatever the die is, it is looked at once; or twice, then there is one flush, and it is looked at twice more at most.
///
/// # Errors
///
/// - `Refused` with what keeps the image from being mounted, which is so of an honest die: with `TooStale` only where more than 65536 sectors are
///   stale. With `Source` where a page read failed, and with `OutOfMemory` where a growth was refused.
/// - `Start` where the image was mounted and a growth was refused.
/// - `Flush` where the larger device failed its flush: `BusFault` alone of an honest die, else `Damaged` too.
///
/// The die comes back in each case. An honest one holds the array that it held, but where its bus failed. (This project's.)
pub fn start<N: Nand>(
    alloc: Global,
    nand: N,
    geometry: &Geometry,
    capacity: u32,
) -> Result<Device<N>, PowerFault<N>>
    requires same_geometry { (N.view.flash nand).geometry ≡ geometry.now }
    requires least { 1 ≤ capacity }
    requires most { capacity ≤ 65536 }
    ensures brings { IfOk result (IsBrought N.view nand geometry.now capacity) }
    // By one look, or after one flush.
    ensures started { IfOk result (IsStarted N.view nand geometry.now capacity) }
    // Where the cache has room for what is stale, nothing is written.
    ensures still { IfOk result (λ d. N.view.honest nand ≡ true → stale_count geometry.now (N.view.flash nand).image ≤ capacity → N.view.flash d.engine.nand ≡ N.view.flash nand) }
    ensures looked_given { IfErr result (λ fault. N.view.honest nand ≡ true → stale_count geometry.now (N.view.flash nand).image ≤ capacity → LooksAtMost N.view geometry.now 1 nand (unpowered_nand fault)) }
    ensures fault { IfErr result (IsUnsettled N.view nand geometry.now capacity) }
    ensures given { IfErr result (λ fault. IsDieHandedBack N.view nand (unpowered_nand fault)) }
    ensures tried { IfErr result (λ fault. HasTriedStart N.view geometry.now 2 nand (unpowered_nand fault)) }
{
    let fault = match look(alloc, nand, geometry, capacity) {
        Ok(device) => return Ok(device),
        Err(fault) => fault,
    };
    match stale_in(&fault, capacity) {
        Some(stale) => start_settled(alloc, fault.into_nand(), geometry, capacity, stale),
        None => Err(fault),
    }
}
