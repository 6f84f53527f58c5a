//! The way from a die in memory to a device over it.
ghost use Rattle.std.specs.Prelude.{◌≡◌, true, IfOk};
ghost use Rattle.certificate.specs.Claim.{sizes_of};
ghost use Rattle.onfi_cycles.specs.Driver.{flash_by};
ghost use Rattle.ftl_device.specs.Device.{IsDevice};

use crate::calls::{Call, hold_calls};
use crate::hold::hold_same;
use crate::recorder::{Cycle, Recorder};
use certificate::{Certificate, read_certificate, write_certificate};
use ftl_device::{Device, StartFault};
use image_check::{Accepted, check};
use mount::{format_at, mount};
use nand_die::{Die, Fault, Mark};
use onfi_cycles::{Bus, Driver, Nand};
use page_layout::geometry::Geometry;
use page_layout::source::PageSource;
use std::alloc::Global;
use std::test::Fail;

/// 32 blocks of 8 pages of 64 and 32 bytes, with 32 sectors.
///
/// # Errors
///
/// None comes.
pub fn small() -> Result<Geometry, Fail> {
    Ok(Geometry::new(64, 32, 8, 32, 32)?)
}

// Programs and erases that fail, counted from the first after a format, which programs each table page
// once. The page is left with so many bytes 00h: with none it stays as it was.
fn faults_after_format(
    alloc: Global,
    geometry: &Geometry,
    failing: &[u16],
    page_left: usize,
) -> Result<Vec<Fault>, Fail> {
    let mut faults = Vec::new(alloc);
    for nth in failing {
        faults.push(Fault {
            nth_change: u64::from(*nth) + u64::from(geometry.table_pages()),
            page_left: vec![in alloc; 0; page_left]?,
        })?;
    }
    Ok(faults)
}

// A new die with these marks, of which these programs and erases after its format fail.
fn new_die(
    alloc: Global,
    geometry: Geometry,
    marks: &[Mark],
    failing: &[u16],
    page_left: usize,
) -> Result<Die, Fail>
    ensures { IfOk result (λ die. die.state.flash.geometry ≡ geometry) }
{
    let faults = faults_after_format(alloc, &geometry, failing, page_left)?;
    let mut die = Die::new(alloc, geometry, marks)?;
    die.set_faults(faults)?;
    Ok(die)
}

/// A driver on a bus.
///
/// # Errors
///
/// The bus answers no Reset.
pub fn driver_on<B: Bus + Drop>(bus: B, geometry: Geometry) -> Result<Driver<B>, Fail>
    requires { B.honest bus ≡ true → (B.die bus).flash.geometry ≡ geometry }
    ensures { IfOk result (λ driver. driver.geometry ≡ geometry) }
{
    match Driver::new(bus, geometry) {
        Ok(driver) => Ok(driver),
        Err(_) => Err(Fail::new("no reset")),
    }
}

/// A die behind a driver, with its cycles noted from Reset on.
///
/// # Errors
///
/// None comes, since the die answers.
pub fn wired(alloc: Global, die: Die, geometry: Geometry) -> Result<Driver<Recorder>, Fail>
    ensures { IfOk result (λ driver. driver.geometry ≡ geometry) }
{
    driver_on(Recorder::new(alloc, die), geometry)
}

/// The die, and the cycles that were noted.
pub fn unwired(driver: Driver<Recorder>) -> (Die, Vec<Cycle>) {
    let Recorder { die, seen } = driver.into_bus();
    (die, seen)
}

// The die behind this bus, formatted for a device of this share, and how many blocks are good.
fn formatted_on<B: Bus + Drop>(
    alloc: Global,
    bus: B,
    geometry: Geometry,
    share: u32,
) -> Result<(Driver<B>, u32), Fail>
    requires { B.honest bus ≡ true → (B.die bus).flash.geometry ≡ geometry }
    ensures { IfOk result (λ made. made.0.geometry ≡ geometry) }
{
    let mut driver = driver_on(bus, geometry)?;
    let good = format_at(alloc, &mut driver, &geometry, share)?;
    Ok((driver, good))
}

/// A formatted die, of which these programs and erases after the format fail.
///
/// # Errors
///
/// A growth was refused, or the format is.
pub fn formatted(
    alloc: Global,
    geometry: Geometry,
    failing: &[u16],
    page_left: usize,
) -> Result<Driver<Recorder>, Fail>
    ensures { IfOk result (λ driver. driver.geometry ≡ geometry) }
{
    let die = new_die(alloc, geometry, &[], failing, page_left)?;
    let (driver, _) = formatted_on(alloc, Recorder::new(alloc, die), geometry, 0)?;
    Ok(driver)
}

/// The same, behind a driver with nothing between it and the die.
///
/// # Errors
///
/// A growth was refused, or the format is.
pub fn formatted_die(
    alloc: Global,
    geometry: Geometry,
    failing: &[u16],
    page_left: usize,
) -> Result<Driver<Die>, Fail>
    ensures { IfOk result (λ driver. driver.geometry ≡ geometry) }
{
    let (driver, _) = marked_die(alloc, geometry, &[], failing, page_left)?;
    Ok(driver)
}

/// The same with these marks, and how many blocks are good.
///
/// # Errors
///
/// A growth was refused, or the format is.
pub fn marked_die(
    alloc: Global,
    geometry: Geometry,
    marks: &[Mark],
    failing: &[u16],
    page_left: usize,
) -> Result<(Driver<Die>, u32), Fail>
    ensures { IfOk result (λ made. made.0.geometry ≡ geometry) }
{
    let die = new_die(alloc, geometry, marks, failing, page_left)?;
    formatted_on(alloc, die, geometry, 0)
}

/// The die of `formatted_die`, for a device of this share.
///
/// # Errors
///
/// A growth was refused, or the format is.
pub fn formatted_die_at(
    alloc: Global,
    geometry: Geometry,
    failing: &[u16],
    page_left: usize,
    share: u32,
) -> Result<Driver<Die>, Fail>
    ensures { IfOk result (λ driver. driver.geometry ≡ geometry) }
{
    let die = new_die(alloc, geometry, &[], failing, page_left)?;
    let (driver, _) = formatted_on(alloc, die, geometry, share)?;
    Ok(driver)
}

/// The certificate that a mount gives.
///
/// # Errors
///
/// The capacity is none, or the mount is refused.
pub fn mounted<S: PageSource>(
    alloc: Global,
    source: &mut S,
    geometry: &Geometry,
    capacity: u32,
) -> Result<Certificate, Fail>
    requires { (S.view.flash source.old).geometry ≡ geometry.now }
    ensures { (S.view.flash source.new).geometry ≡ geometry.now }
{
    if !geometry.is_capacity(capacity) {
        return Err(Fail::new("no capacity"));
    }
    Ok(mount(alloc, source, geometry, capacity)?)
}

/// The same, but for the bytes of the next sequence, where others are given.
///
/// # Errors
///
/// Those of `mounted` and `with_bytes`.
pub fn mounted_with<S: PageSource>(
    alloc: Global,
    source: &mut S,
    geometry: &Geometry,
    capacity: u32,
    next: Option<[u8; 8]>,
) -> Result<Certificate, Fail>
    requires { (S.view.flash source.old).geometry ≡ geometry.now }
    ensures { (S.view.flash source.new).geometry ≡ geometry.now }
{
    let certificate = mounted(alloc, source, geometry, capacity)?;
    match next {
        Some(next) => with_bytes(alloc, &certificate, 32, &next),
        None => Ok(certificate),
    }
}

/// The certificate, accepted.
///
/// # Errors
///
/// The certificate is refused.
pub fn checked<'a, S: PageSource>(
    alloc: Global,
    source: &mut S,
    geometry: &Geometry,
    capacity: u32,
    certificate: &'a Certificate,
) -> Result<Accepted<'a>, Fail>
    requires { (S.view.flash source.old).geometry ≡ geometry.now }
    ensures same { (S.view.flash source.new).geometry ≡ geometry.now }
    ensures sizes { IfOk result (λ accepted. sizes_of geometry.now ≡ accepted.claim.sizes) }
{
    Ok(check(alloc, source, geometry, capacity, certificate)?)
}

/// The device on a die that was accepted. Where memory was refused, it is started from what came back.
///
/// # Errors
///
/// A growth was refused twice.
pub fn start_on<N: Nand + Drop>(
    alloc: Global,
    nand: N,
    accepted: Accepted<'_>,
) -> Result<Device<N>, Fail>
    requires { sizes_of (N.view.flash nand).geometry ≡ accepted.claim.sizes }
    ensures { IfOk result (IsDevice N.view.flash) }
{
    match Device::start(alloc, nand, accepted) {
        Ok(device) => Ok(device),
        Err(StartFault::OutOfMemory { nand, accepted }) => {
            match Device::start(alloc, nand, accepted) {
                Ok(device) => Ok(device),
                Err(_) => Err(Fail::new("no memory")),
            }
        }
    }
}

/// The device on a die that is mounted, checked and started.
///
/// # Errors
///
/// Those of `mounted`, `checked` and `start_on`.
pub fn started<N: Nand + Drop>(
    alloc: Global,
    mut nand: N,
    geometry: &Geometry,
    capacity: u32,
) -> Result<Device<N>, Fail>
    requires { (N.view.flash nand).geometry ≡ geometry.now }
    ensures { IfOk result (IsDevice N.view.flash) }
{
    let certificate = mounted(alloc, &mut nand, geometry, capacity)?;
    let accepted = checked(alloc, &mut nand, geometry, capacity, &certificate)?;
    start_on(alloc, nand, accepted)
}

/// The same with this share.
///
/// # Errors
///
/// Those of `mounted` and `checked`, the geometry has no such share, or a growth was refused.
pub fn started_at<N: Nand + Drop>(
    alloc: Global,
    mut nand: N,
    geometry: &Geometry,
    capacity: u32,
    share: u32,
) -> Result<Device<N>, Fail>
    requires { (N.view.flash nand).geometry ≡ geometry.now }
    ensures { IfOk result (IsDevice N.view.flash) }
{
    if !geometry.is_share(share) {
        return Err(Fail::new("no share"));
    }
    let certificate = mounted(alloc, &mut nand, geometry, capacity)?;
    let accepted = checked(alloc, &mut nand, geometry, capacity, &certificate)?;
    match Device::start_at(alloc, nand, share, accepted) {
        Ok(device) => Ok(device),
        Err(_) => Err(Fail::new("no memory")),
    }
}

/// The device with a cache of so many on a formatted die where nothing fails.
///
/// # Errors
///
/// Those of `formatted_die` and `started`.
pub fn fresh(alloc: Global, geometry: Geometry, capacity: u32) -> Result<Device<Driver<Die>>, Fail>
    ensures { IfOk result (IsDevice (flash_by (λ die. die.state))) }
{
    let driver = formatted_die(alloc, geometry, &[], 0)?;
    started(alloc, driver, &geometry, capacity)
}

/// The bytes of a certificate.
///
/// # Errors
///
/// A growth was refused.
pub fn bytes_of(alloc: Global, certificate: &Certificate) -> Result<Vec<u8>, Fail> {
    Ok(write_certificate(alloc, certificate)?)
}

// Puts bytes in the place of those from here on.
fn put(bytes: &mut [u8], at: usize, new: &[u8]) -> Result<(), Fail> {
    if at >= bytes.len() || new.len() > bytes.len() - at {
        return Err(Fail::new("bytes past the end"));
    }
    bytes[at..at + new.len()].copy_from_slice(new);
    Ok(())
}

// The certificate of these bytes, with these in the place of those from here on.
fn certificate_of(
    alloc: Global,
    mut bytes: Vec<u8>,
    at: usize,
    new: &[u8],
) -> Result<Certificate, Fail> {
    put(&mut bytes, at, new)?;
    Ok(read_certificate(alloc, &bytes)?)
}

/// A certificate with these bytes in the place of those from here on.
///
/// # Errors
///
/// They go past its end, or the bytes are no certificate then.
pub fn with_bytes(
    alloc: Global,
    certificate: &Certificate,
    at: usize,
    new: &[u8],
) -> Result<Certificate, Fail> {
    certificate_of(alloc, bytes_of(alloc, certificate)?, at, new)
}

/// The die behind a new driver, with its cycles noted from there on. None of those before was illegal.
///
/// # Errors
///
/// There was an illegal cycle.
pub fn renewed(
    alloc: Global,
    driver: Driver<Recorder>,
    geometry: &Geometry,
) -> Result<Driver<Recorder>, Fail>
    ensures { IfOk result (λ driver. driver.geometry ≡ geometry.now) }
{
    let (die, _) = unwired(driver);
    hold_same("renewed", "abuse", &die.abuse(), &0)?;
    wired(alloc, die, *geometry)
}

// The device on the die behind a new driver.
fn start_renewed(
    alloc: Global,
    driver: Driver<Recorder>,
    geometry: &Geometry,
    accepted: Accepted<'_>,
) -> Result<Device<Driver<Recorder>>, Fail>
    requires { sizes_of geometry.now ≡ accepted.claim.sizes }
    ensures { IfOk result (IsDevice (flash_by (λ bus. bus.die.state))) }
{
    let driver = renewed(alloc, driver, geometry)?;
    start_on(alloc, driver, accepted)
}

/// The device as `started` gives it, with its cycles noted from the start on. The bytes of the next
/// sequence may be others than the mount says.
///
/// # Errors
///
/// Those of `started`, `mounted_with` and `renewed`.
pub fn recorded(
    alloc: Global,
    mut driver: Driver<Recorder>,
    geometry: &Geometry,
    capacity: u32,
    next: Option<[u8; 8]>,
) -> Result<Device<Driver<Recorder>>, Fail>
    requires { driver.geometry ≡ geometry.now }
    ensures { IfOk result (IsDevice (flash_by (λ bus. bus.die.state))) }
{
    let certificate = mounted_with(alloc, &mut driver, geometry, capacity, next)?;
    let accepted = checked(alloc, &mut driver, geometry, capacity, &certificate)?;
    start_renewed(alloc, driver, geometry, accepted)
}

/// The die, given up by its device, and its geometry.
pub fn given_up<N: Nand>(device: Device<N>) -> (N, Geometry)
    requires { IsDevice N.view.flash device }
    ensures { (N.view.flash result.0).geometry ≡ result.1 }
{
    let geometry = device.engine.geometry;
    (device.into_nand(), geometry)
}

/// The same, once it is known what came of the device: the device goes first, and then its error is given on.
///
/// # Errors
///
/// The one that came.
pub fn handed_on<N: Nand + Drop>(
    device: Device<N>,
    came: Result<(), Fail>,
) -> Result<(N, Geometry), Fail>
    requires { IsDevice N.view.flash device }
    ensures { IfOk result (λ pair. (N.view.flash pair.0).geometry ≡ pair.1) }
{
    let pair = given_up(device);
    came?;
    Ok(pair)
}

/// The die after these calls of a device with a cache of four, and its geometry.
///
/// # Errors
///
/// A call has another answer than Done, or those of `started`.
pub fn after_calls<N: Nand + Drop>(
    alloc: Global,
    nand: N,
    geometry: &Geometry,
    calls: &[Call],
) -> Result<(N, Geometry), Fail>
    requires { (N.view.flash nand).geometry ≡ geometry.now }
    ensures { IfOk result (λ pair. (N.view.flash pair.0).geometry ≡ pair.1) }
{
    let mut device = started(alloc, nand, geometry, 4)?;
    let came = hold_calls(&mut device, "before", calls, Ok(()));
    handed_on(device, came)
}
