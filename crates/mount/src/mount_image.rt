//! Mounting: an image's certificate is made, or it is said why it has none.
ghost use Rattle.std.specs.Prelude.{◌≡◌, ◌≢◌, ◌≤◌, ◌+◌, [], true, Err, length, vec_capacity, IfOk, IfErr, OnOk};
ghost use Rattle.page_layout.specs.Counter.{HasRisen};
ghost use Rattle.page_layout.specs.Geometry.{row_count, translation_pages, table_pages};
ghost use Rattle.page_layout.specs.Page.{IsImage};
ghost use Rattle.page_layout.specs.OnlyReads.{OnlyReads};
ghost use Rattle.image_check.specs.Agrees.{IsAsked};
ghost use Rattle.image_check.specs.Rising.{IsRisingBelow};
ghost use Rattle.image_check.specs.Stale.{stale_sectors};
ghost use Rattle.mount.specs.Mounted.{IsMounted, Refuses, IsOfMounting};
ghost use Rattle.mount.specs.Room.{HasMountRoom};
ghost use Rattle.mount.specs.Shown.{IsShownSized, HasWords};

use crate::mount_pages::{Shown, show_pages};
use certificate::Certificate;
use image_check::{Refusal, find_stale};
use page_layout::geometry::Geometry;
use page_layout::source::PageSource;
use page_layout::word::word_from;
use std::alloc::{AllocError, Global};

// Puts the row of each sector's newest page into `words`, for which there is room.
fn put_sectors(words: &mut Vec<u32>, geometry: &Geometry, shown: &Shown)
    requires empty { words.old.items ≡ [] }
    requires room { geometry.now.sectors ≤ vec_capacity words.old }
    requires shown { IsShownSized geometry.now shown.now }
    ensures { HasWords shown.now.newest.items 0 geometry.now.sectors words.new.items }
{
    for sector in 0..geometry.sectors() {
        let row = shown.newest[sector as usize].row();
        words.push(word_from(row)).unwrap();
    }
}

// Puts the row of each newest translation page, then of each newest table page into `words`, for which there is room.
fn put_directory(words: &mut Vec<u32>, geometry: &Geometry, shown: &Shown)
    requires empty { words.old.items ≡ [] }
    requires room { translation_pages geometry.now + table_pages geometry.now ≤ vec_capacity words.old }
    requires shown { IsShownSized geometry.now shown.now }
    ensures { HasWords shown.now.newest.items geometry.now.sectors (translation_pages geometry.now + table_pages geometry.now) words.new.items }
{
    let sectors = geometry.sectors();
    for page in 0..geometry.translation_pages() + geometry.table_pages() {
        let row = shown.newest[(sectors + page) as usize].row();
        words.push(word_from(row)).unwrap();
    }
}

/// A certificate that was made of an image, and what the image's entries on flash lack against it.
#[derive(Drop)]
pub struct Mounted {
    /// The image's certificate.
    pub certificate: Certificate,
    /// The sectors that are stale, rising: their entry in the newest translation page isn't the row of their newest page.
    pub stale: Vec<u32>,
}

// The memory that mounting takes before it reads the first page.
#[derive(Drop)]
struct Room {
    // the words of the certificate
    sectors: Vec<u32>,
    directory: Vec<u32>,
    // the sectors that are stale
    stale: Vec<u32>,
    // one page
    body: Vec<u8>,
    spare: Vec<u8>,
}

fn take_room(alloc: Global, geometry: &Geometry) -> Result<Room, AllocError>
    ensures { IfOk result (HasMountRoom geometry.now) }
{
    let pages = geometry.translation_pages() + geometry.table_pages();
    Ok(Room {
        sectors: Vec::with_capacity(alloc, geometry.sectors() as usize)?,
        directory: Vec::with_capacity(alloc, pages as usize)?,
        stale: Vec::with_capacity(alloc, geometry.sectors() as usize)?,
        body: vec![in alloc; 0; geometry.data_bytes()]?,
        spare: vec![in alloc; 0; geometry.spare_bytes()]?,
    })
}

/// The certificate of an image, and its stale sectors. It is `mount` but for these: it reads, takes and refuses as `mount` does, and
/// the checker accepts the certificate with just these stale sectors. So a device may be started from it with no second look at the image.
///
/// # Errors
/// As of `mount`. (This project's rules.)
pub fn mount_counted<S: PageSource>(
    alloc: Global,
    source: &mut S,
    geometry: &Geometry,
    capacity: u32,
) -> Result<Mounted, Refusal>
    requires same_geometry { (S.view.flash source.old).geometry ≡ geometry.now }
    requires least { 1 ≤ capacity }
    requires most { capacity ≤ 65536 }
    // The truth of the answer, for a source that keeps its promises.
    ensures ok { IfOk result (λ mounted. S.view.honest source.old ≡ true → IsMounted geometry.now capacity (S.view.flash source.old).image mounted.certificate) }
    ensures stale { IfOk result (λ mounted. S.view.honest source.old ≡ true → mounted.stale.items ≡ stale_sectors geometry.now (S.view.flash source.old).image) }
    ensures whole { OnOk result (S.view.honest source.old ≡ true → IsImage geometry.now (S.view.flash source.old).image) }
    ensures err { IfErr result (λ refusal. S.view.honest source.old ≡ true → Refuses geometry.now capacity (S.view.flash source.old).image refusal) }
    ensures same { result ≢ Err Refusal.Source → S.view.honest source.old ≡ true → S.view.flash source.new ≡ S.view.flash source.old }
    // Whatever the source does.
    ensures few { IfOk result (λ mounted. length mounted.stale.items ≤ capacity) }
    ensures rising { IfOk result (λ mounted. IsRisingBelow geometry.now.sectors mounted.stale.items) }
    ensures asked { IfOk result (λ mounted. IsAsked geometry.now capacity mounted.certificate) }
    ensures only { IfErr result IsOfMounting }
    ensures told { OnOk result (S.view.honest source.old ≡ true → S.view.recorded source.new ≡ S.view.recorded source.old) }
    ensures only_reads { OnlyReads S.view source.old source.new }
    ensures reads { S.view.reads source.new ≤ S.view.reads source.old + (row_count geometry.now + translation_pages geometry.now) }
    ensures rose { result ≡ Err Refusal.Source → HasRisen (S.view.failed source.old) (S.view.failed source.new) }
{
    let mut room = take_room(alloc, geometry)?;
    let shown = show_pages(alloc, source, geometry, &mut room.body, &mut room.spare)?;
    find_stale(
        source,
        geometry,
        &shown.newest,
        &mut room.body,
        &mut room.spare,
        &mut room.stale,
    )?;
    let count = room.stale.len() as u32;
    if count > capacity {
        return Err(Refusal::TooStale {
            stale: count,
            capacity,
        });
    }
    put_sectors(&mut room.sectors, geometry, &shown);
    put_directory(&mut room.directory, geometry, &shown);
    let Room {
        sectors,
        directory,
        stale,
        ..
    } = room;
    let certificate = Certificate::new(
        *geometry,
        capacity,
        shown.next,
        shown.blocks,
        directory,
        sectors,
    );
    Ok(Mounted { certificate, stale })
}

/// The certificate of an image: the one that agrees with it, whose next sequence is one more than the greatest of all
/// sound pages, of good and bad blocks alike.
///
/// Where no page read fails and no growth is refused, the answer is `Ok` just where some certificate agrees with the
/// image at this capacity, which counts the entries of the cache, from 1 to 65536. Any other refusal says what keeps the
/// image from having one. At most one read is made of each page, and one more of each newest translation page. All memory
/// but the live counts, the table and the states of the blocks is taken before the first page is read.
///
/// # Errors
/// `NumberRange`, `SequenceRepeated`, `NotFormatted` and `TableDamaged`, the first of this order that is so, at the lowest
/// row or page. Then `NextSequence` where a sound page has sequence 2^64 - 1, and then `TooStale` where more sectors are
/// stale than the capacity says. `Source` where a page read failed, `OutOfMemory` where a growth was refused. No other
/// refusal comes. (This project's rules.)
pub fn mount<S: PageSource>(
    alloc: Global,
    source: &mut S,
    geometry: &Geometry,
    capacity: u32,
) -> Result<Certificate, Refusal>
    requires same_geometry { (S.view.flash source.old).geometry ≡ geometry.now }
    requires least { 1 ≤ capacity }
    requires most { capacity ≤ 65536 }
    // The truth of the answer, for a source that keeps its promises.
    ensures ok { IfOk result (λ certificate. S.view.honest source.old ≡ true → IsMounted geometry.now capacity (S.view.flash source.old).image certificate) }
    ensures err { IfErr result (λ refusal. S.view.honest source.old ≡ true → Refuses geometry.now capacity (S.view.flash source.old).image refusal) }
    ensures same { result ≢ Err Refusal.Source → S.view.honest source.old ≡ true → S.view.flash source.new ≡ S.view.flash source.old }
    // Whatever the source does.
    ensures asked { IfOk result (IsAsked geometry.now capacity) }
    ensures only { IfErr result IsOfMounting }
    ensures only_reads { OnlyReads S.view source.old source.new }
    ensures reads { S.view.reads source.new ≤ S.view.reads source.old + (row_count geometry.now + translation_pages geometry.now) }
    ensures rose { result ≡ Err Refusal.Source → HasRisen (S.view.failed source.old) (S.view.failed source.new) }
{
    let Mounted { certificate, .. } = mount_counted(alloc, source, geometry, capacity)?;
    Ok(certificate)
}
