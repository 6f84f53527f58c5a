//! Images that are noise, or valid but for a few bytes, against a plain scan of their pages.
ghost use Rattle.std.specs.Prelude.{◌≡◌};
ghost use Rattle.page_layout.specs.Geometry.{row_count};
ghost use Rattle.ftl_device.specs.Device.{IsDevice};

use super::list::{List, SECTORS, hold_device, hold_sector, scanned};
use super::noise::Noise;
use certificate::Certificate;
use device_fixtures::bench::{fresh, small, started};
use device_fixtures::calls::{Call, hold_answer, hold_call, make};
use device_fixtures::dies::{certified_image, loaded};
use device_fixtures::hold::hold_same;
use ftl_device::{Device, DeviceFault};
use image_check::{Refusal, SectorFault, check, check_stream, sector};
use mount::{format, mount};
use onfi_cycles::Nand;
use page_layout::geometry::Geometry;
use page_layout::record::{Kind, Record, read_record};
use page_layout::source::{ImageSlice, PageSource};
use std::alloc::Global;
use std::process::Abort;
use std::test::Fail;

// How many images of each sort there are.
const IMAGES: u32 = 200;

// The page of greatest sequence that a scan has seen of a sector.
#[derive(Clone, Copy)]
enum Seen {
    Never,
    // Its row and sequence, and whether it is a trim.
    Once(u32, u64, bool),
    // Two such pages, of this sequence.
    Twice(u64),
}

// What a plain scan has seen of each sector, and how many rows it has looked at.
#[derive(Drop)]
struct Scan {
    seen: [Seen; SECTORS as usize],
}

impl Scan {
    fn get(&self, sector: u32) -> Seen {
        self.seen[(sector % SECTORS) as usize]
    }

    fn note(&mut self, row: u32, record: Record) {
        let Record {
            kind,
            number,
            sequence: new,
            wear: _,
        } = record;
        let is_trim = kind == Kind::Trim;
        if number >= SECTORS || !(is_trim || kind == Kind::Sector) {
            return;
        }
        let place = (number % SECTORS) as usize;
        let before = self.seen[place];
        self.seen[place] = match before {
            Seen::Once(_, old, _) | Seen::Twice(old) if old > new => before,
            Seen::Once(_, old, _) | Seen::Twice(old) if old == new => Seen::Twice(new),
            _ => Seen::Once(row, new, is_trim),
        };
    }
}

fn record_at(image: &ImageSlice<'_>, row: u32) -> Option<Record> {
    let geometry = image.geometry();
    if !geometry.has_row(row) {
        return None;
    }
    let (body, spare) = image.page(row);
    read_record(&geometry, body, spare)
}

fn scan_of(image: &ImageSlice<'_>) -> Scan {
    let mut scan = Scan {
        seen: [Seen::Never; SECTORS as usize],
    };
    for row in 0..image.geometry().rows() {
        if let Some(record) = record_at(image, row) {
            scan.note(row, record);
        }
    }
    scan
}

// The data area of a row.
fn body_at(image: &ImageSlice<'_>, row: u32) -> Option<[u8; 64]> {
    if !image.geometry().has_row(row) {
        return None;
    }
    let (body, _) = image.page(row);
    body.try_into().ok()
}

// The sector that a scan has found, or none where two pages share its sequence.
fn found(image: &ImageSlice<'_>, seen: Seen) -> Option<[u8; 64]> {
    match seen {
        Seen::Never | Seen::Once(_, _, true) => Some([0; 64]),
        Seen::Once(row, _, false) => body_at(image, row),
        Seen::Twice(_) => None,
    }
}

// Whether the checker's scan by one page says this of a sector. It gives zeros where two pages share its sequence.
fn is_read<S: PageSource>(
    source: &mut S,
    geometry: &Geometry,
    number: u32,
    want: Option<[u8; 64]>,
) -> bool
    requires same { (S.view.flash source.old).geometry ≡ geometry.now }
    requires data { geometry.now.data_bytes ≡ 64 }
    requires spare { geometry.now.spare_bytes ≡ 32 }
{
    let mut page = [0; 96];
    let mut out = [0xA5; 64];
    match sector(source, geometry, number, &mut page, &mut out) {
        Ok(()) => want == Some(out),
        Err(SectorFault::SequenceRepeated { .. }) => want.is_none() && out == [0; 64],
        Err(_) => false,
    }
}

// The two plain scans of the checker say the same.
fn hold_scanned(
    rt: &impl Abort,
    geometry: &Geometry,
    bytes: &[u8],
    number: u32,
    want: Option<[u8; 64]>,
) -> Result<(), Fail> {
    let mut image = ImageSlice::new(geometry, bytes)?;
    hold_sector(rt, "scanned", number, scanned(&image, number) == want);
    if geometry.data_bytes() != 64 || geometry.spare_bytes() != 32 {
        return Err(Fail::new("pages of another size"));
    }
    let is_read = is_read(&mut image, geometry, number, want);
    hold_sector(rt, "read", number, is_read);
    Ok(())
}

// The sectors as a plain scan finds them, where it finds each. The checker's scans find the same.
fn hold_scan(rt: &impl Abort, geometry: &Geometry, bytes: &[u8]) -> Result<Option<List>, Fail> {
    let image = ImageSlice::new(geometry, bytes)?;
    let scan = scan_of(&image);
    let mut list = List::new();
    let mut whole = true;
    for number in 0..SECTORS {
        let want = found(&image, scan.get(number));
        hold_scanned(rt, geometry, bytes, number, want)?;
        whole = whole && list.note(number, want);
    }
    Ok(if whole { Some(list) } else { None })
}

// The row of a sector that a scan has found.
fn row_seen(seen: Seen) -> Option<u32> {
    match seen {
        Seen::Once(row, _, _) => Some(row),
        _ => None,
    }
}

fn sector_row(certificate: &Certificate, number: u32) -> Option<u32> {
    if number >= certificate.geometry().sectors() {
        return None;
    }
    certificate.sector_row(number)
}

// A certificate has the rows that a plain scan finds.
fn hold_rows(
    rt: &impl Abort,
    geometry: &Geometry,
    bytes: &[u8],
    certificate: &Certificate,
) -> Result<(), Fail> {
    let scan = scan_of(&ImageSlice::new(geometry, bytes)?);
    for number in 0..SECTORS {
        let row = sector_row(certificate, number);
        hold_sector(rt, "row", number, row == row_seen(scan.get(number)));
    }
    Ok(())
}

// The checker's answer to a certificate, which the pass over a reader gives too. Accepted, it has the rows of a plain scan.
fn hold_check(
    rt: &impl Abort,
    alloc: Global,
    geometry: &Geometry,
    bytes: &[u8],
    certificate: &Certificate,
) -> Result<Option<Refusal>, Fail> {
    let mut image = ImageSlice::new(geometry, bytes)?;
    let refusal = check(alloc, &mut image, geometry, 12, certificate).err();
    let mut reader = bytes;
    let streamed = check_stream(alloc, &mut reader, geometry, 12, certificate).err();
    assert!(rt; refusal == streamed);
    match refusal {
        None => hold_rows(rt, geometry, bytes, certificate)?,
        Some(Refusal::Source | Refusal::OutOfMemory | Refusal::WrongLength) => Err("no answer")?,
        Some(_) => (),
    }
    Ok(refusal)
}

// A change is done, or refused for want of blocks or sequences.
fn is_answer(answer: Result<(), DeviceFault>) -> bool {
    match answer {
        Ok(()) | Err(DeviceFault::SequenceSpent | DeviceFault::ReadOnly { .. }) => true,
        Err(_) => false,
    }
}

// Makes a change, a flush or a turn. Whether it is done.
fn change<N: Nand>(device: &mut Device<N>, call: Call) -> Result<bool, Fail>
    requires { IsDevice N.view.flash device.old }
    ensures { IsDevice N.view.flash device.new }
{
    let answer = make(device, "changed", call)?;
    if !is_answer(answer) {
        hold_answer("changed", call, answer, Ok(()))?;
    }
    Ok(answer.is_ok())
}

// Writes a sector, and the list the same where that is done.
fn write<N: Nand>(device: &mut Device<N>, list: &mut List, number: u32) -> Result<(), Fail>
    requires { IsDevice N.view.flash device.old }
    ensures { IsDevice N.view.flash device.new }
{
    if change(device, Call::Write(number, 0x5A))? {
        list.set(number, [0x5A; 64]);
    }
    Ok(())
}

// A device's sectors are the list's, and stay so.
fn hold_changes<N: Nand>(device: &mut Device<N>, list: &mut List) -> Result<(), Fail>
    requires { IsDevice N.view.flash device.old }
{
    hold_device(device, list, "started")?;
    change(device, Call::Turn)?;
    write(device, list, 7)?;
    write(device, list, 30)?;
    change(device, Call::Flush)?;
    hold_device(device, list, "changed")
}

// A device on a die has the list's sectors, and they stay so.
fn hold_started<N: Nand + Drop>(
    alloc: Global,
    nand: N,
    geometry: &Geometry,
    list: &mut List,
) -> Result<(), Fail>
    requires { (N.view.flash nand).geometry ≡ geometry.now }
{
    let mut device = started(alloc, nand, geometry, 12)?;
    let came = hold_changes(&mut device, list);
    device.into_nand();
    came
}

// The same of a device over an image.
fn hold_loaded(
    alloc: Global,
    geometry: &Geometry,
    bytes: &[u8],
    list: &mut List,
) -> Result<(), Fail> {
    let driver = loaded(alloc, *geometry, bytes)?;
    hold_started(alloc, driver, geometry, list)
}

// The certificate of an image, where it mounts.
fn mount_of(alloc: Global, geometry: &Geometry, bytes: &[u8]) -> Result<Option<Certificate>, Fail> {
    let mut image = ImageSlice::new(geometry, bytes)?;
    match mount(alloc, &mut image, geometry, 12) {
        Ok(certificate) => Ok(Some(certificate)),
        Err(Refusal::Source | Refusal::OutOfMemory) => Err(Fail::new("no answer")),
        Err(_) => Ok(None),
    }
}

// What mounts is accepted, and a device over it has the list's sectors.
fn hold_mounted(
    rt: &impl Abort,
    alloc: Global,
    geometry: &Geometry,
    bytes: &[u8],
    certificate: &Certificate,
    list: Option<List>,
) -> Result<(), Fail> {
    let refusal = hold_check(rt, alloc, geometry, bytes, certificate)?;
    hold_same("mounted", "refusal", &refusal, &None)?;
    match list {
        Some(mut list) => hold_loaded(alloc, geometry, bytes, &mut list),
        None => Err(Fail::new("two pages share a sequence")),
    }
}

// Whether an image mounts. The two plain scans say the same of it.
fn hold_mount(
    rt: &impl Abort,
    alloc: Global,
    geometry: &Geometry,
    bytes: &[u8],
) -> Result<bool, Fail> {
    let list = hold_scan(rt, geometry, bytes)?;
    match mount_of(alloc, geometry, bytes)? {
        Some(certificate) => {
            hold_mounted(rt, alloc, geometry, bytes, &certificate, list)?;
            Ok(true)
        }
        None => Ok(false),
    }
}

// An image with something programmed is not formatted.
fn hold_format(alloc: Global, geometry: &Geometry, bytes: &[u8]) -> Result<(), Fail> {
    let mut driver = loaded(alloc, *geometry, bytes)?;
    match format(alloc, &mut driver, geometry) {
        Ok(_) => Err(Fail::new("formatted")),
        Err(_) => Ok(()),
    }
}

// All calls over an image: whether it mounts, and whether a certificate is accepted for it.
fn hold_image(
    rt: &impl Abort,
    alloc: Global,
    bytes: &[u8],
    certificate: &Certificate,
) -> Result<(bool, bool), Fail> {
    let geometry = small()?;
    hold_format(alloc, &geometry, bytes)?;
    let mounts = hold_mount(rt, alloc, &geometry, bytes)?;
    let refusal = hold_check(rt, alloc, &geometry, bytes, certificate)?;
    Ok((mounts, refusal.is_none()))
}

// Call i of sectors that are written, trimmed, flushed, and written again.
fn nth_call(i: u32) -> Call {
    let number = i.wrapping_mul(11) % SECTORS;
    match i % 20 {
        13 => Call::Trim(number),
        19 => Call::Flush,
        _ => Call::Write(number, (i % 256) as u8),
    }
}

// Sixty of them.
fn do_sixty<N: Nand>(device: &mut Device<N>) -> Result<(), Fail>
    requires { IsDevice N.view.flash device.old }
    ensures { IsDevice N.view.flash device.new }
{
    for i in 0..60 {
        hold_call(device, "valid", nth_call(i), Ok(()))?;
    }
    Ok(())
}

// A valid image, which has pages of each kind in its first eleven blocks, and its certificate.
fn valid(alloc: Global) -> Result<(Vec<u8>, Certificate), Fail> {
    let mut device = fresh(alloc, small()?, 4)?;
    match do_sixty(&mut device) {
        Ok(()) => certified_image(alloc, device, 12),
        Err(fail) => {
            drop(device);
            Err(fail)
        }
    }
}

// A valid image is filled with noise, again and again.
fn fill_each(
    rt: &impl Abort,
    alloc: Global,
    image: &mut [u8],
    certificate: &Certificate,
) -> Result<(), Fail> {
    let found = hold_image(rt, alloc, image, certificate)?;
    assert!(rt; found == (true, true));
    let mut noise = Noise::new();
    for _ in 0..IMAGES {
        noise.fill(image);
        let found = hold_image(rt, alloc, image, certificate)?;
        assert!(rt; found == (false, false));
    }
    Ok(())
}

#[test]
fn noise_is_no_image(rt: HostRuntime) -> Result<(), Fail> {
    let (mut image, certificate) = valid(rt.alloc())?;
    fill_each(&rt, rt.alloc(), &mut image, &certificate)
}

// Changes a few bytes of the first so many of an image: whether it mounts.
fn mounts_changed(
    rt: &impl Abort,
    alloc: Global,
    mut image: Vec<u8>,
    certificate: &Certificate,
    noise: &mut Noise,
    within: usize,
) -> Result<bool, Fail> {
    noise.spoil(&mut image, within);
    let (mounts, accepted) = hold_image(rt, alloc, &image, certificate)?;
    assert!(rt; !accepted);
    Ok(mounts)
}

// How many changed images mount. Every second one is changed where its pages were programmed.
fn mounting(
    rt: &impl Abort,
    alloc: Global,
    image: &Vec<u8>,
    certificate: &Certificate,
) -> Result<u32, Fail> {
    let mut noise = Noise::new();
    let mut mounting = 0u32;
    for nth in 0..IMAGES {
        let within = if nth % 2 == 0 { 9_000 } else { image.len() };
        let mounts = mounts_changed(rt, alloc, image.clone()?, certificate, &mut noise, within)?;
        mounting = mounting.saturating_add(u32::from(mounts));
    }
    Ok(mounting)
}

// A changed page has no record any more, so the certificate from before is refused.
#[test]
fn changed_images_are_told(rt: HostRuntime) -> Result<(), Fail> {
    let (image, certificate) = valid(rt.alloc())?;
    let mounting = mounting(&rt, rt.alloc(), &image, &certificate)?;
    assert!(rt; mounting > 100, "{mounting}");
    Ok(())
}
