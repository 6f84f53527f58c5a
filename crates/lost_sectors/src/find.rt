//! The sectors of a store that have lost a page.
ghost use Rattle.std.specs.Prelude.{◌≡◌, ◌≢◌, ◌⊎◌, ◌<◌, ◌≤◌, ◌+◌, ◌-◌, ◌*◌, ℕ, min, true, false, length, IfOk, OnOk, OnErr, IsErrOf, Some};
ghost use Rattle.page_layout.specs.declared.record.Key.{Key};
ghost use Rattle.page_layout.specs.Array.{marks};
ghost use Rattle.page_layout.specs.Counter.{HasRisen};
ghost use Rattle.page_layout.specs.Geometry.{entries, row_count, page_bytes, translation_pages};
ghost use Rattle.page_layout.specs.Newest.{newest};
ghost use Rattle.page_layout.specs.Sound.{record_of};
ghost use Rattle.onfi_cycles.specs.Cycles.{page_of};
ghost use Rattle.certificate.specs.Claim.{sizes_of};
ghost use Rattle.certificate.specs.Spelling.{IsRowOf};
ghost use Rattle.translation_pages.specs.TranslationPage.{entry_at};
ghost use Rattle.file_die.specs.Store.{page_in};
ghost use Rattle.file_die.specs.Open.{OnlyLooks};
ghost use Rattle.image_check.specs.Agrees.{Agrees, IsCertificateOf};
ghost use Rattle.lost_sectors.specs.Lost.{Adds, AddsUpTo, DropsNone, is_lost, is_older, is_told, names_other, newest_sequence};

use crate::fault::LostFault;
use certificate::Certificate;
use file_die::{Store, StoreFault};
use nand_die::page_length;
use page_layout::geometry::Geometry;
use page_layout::record::{Record, read_record};
use std::alloc::Global;
use translation_pages::entry;

// Whether a row is named, and not this one.
fn names_other(named: Option<u32>, place: Option<u32>) -> bool
    ensures { result ≡ names_other named place }
{
    match (named, place) {
        (None, _) => false,
        (Some(_), None) => true,
        (Some(row), Some(place)) => row != place,
    }
}

// Whether a page's sequence is less than one, or there is no page.
fn is_older(sequence: Option<u64>, than: u64) -> bool
    ensures { result ≡ is_older sequence than }
{
    match sequence {
        None => true,
        Some(sequence) => sequence < than,
    }
}

// The record of a row's page, which is loaded.
fn record_at<S: Store>(
    store: &mut S,
    geometry: &Geometry,
    row: u32,
    page: &mut [u8],
) -> Result<Option<Record>, StoreFault>
    requires geometry { (S.held store.old).geometry ≡ geometry.now }
    requires in_range { row < row_count geometry.now }
    requires room { length page.old ≡ page_bytes geometry.now }
    ensures found { IfOk result (λ its. S.honest store.old ≡ true → its ≡ record_of (page_in (S.held store.old).pages row)) }
    ensures gave { OnOk result (S.honest store.old ≡ true → page_of geometry.now page.new ≡ page_in (S.held store.old).pages row) }
    ensures looks { OnlyLooks S.held S.honest store.old store.new }
    ensures settled { OnOk result (S.failed store.new ≡ S.failed store.old) }
    ensures rose { OnErr result (HasRisen (S.failed store.old) (S.failed store.new)) }
{
    store.load(row, page)?;
    let (body, spare) = page.split_at(geometry.data_bytes());
    Ok(read_record(geometry, body, spare))
}

// The sequence of the page of a row, if there is one. The page is loaded.
fn sequence_of<S: Store>(
    store: &mut S,
    geometry: &Geometry,
    row: Option<u32>,
    page: &mut [u8],
) -> Result<Option<u64>, StoreFault>
    requires geometry { (S.held store.old).geometry ≡ geometry.now }
    requires in_range { IsRowOf (row_count geometry.now) row }
    requires room { length page.old ≡ page_bytes geometry.now }
    ensures found { IfOk result (λ sequence. S.honest store.old ≡ true → (key : Key) → newest (marks (S.held store.old).pages) key ≡ row → sequence ≡ newest_sequence (S.held store.old).pages key) }
    ensures gave { OnOk result (S.honest store.old ≡ true → (at : ℕ) → row ≡ Some at → page_of geometry.now page.new ≡ page_in (S.held store.old).pages at) }
    ensures looks { OnlyLooks S.held S.honest store.old store.new }
    ensures settled { OnOk result (S.failed store.new ≡ S.failed store.old) }
    ensures rose { OnErr result (HasRisen (S.failed store.old) (S.failed store.new)) }
{
    let Some(row) = row else {
        return Ok(None);
    };
    match record_at(store, geometry, row, page)? {
        Some(found) => Ok(Some(found.sequence)),
        None => Ok(None),
    }
}

// Whether a certificate is of this geometry.
fn is_of(certificate: &Certificate, geometry: &Geometry) -> bool
    ensures yes { result ≡ true → (certificate.now.sizes ≡ sizes_of geometry.now) × IsCertificateOf geometry.now certificate.now }
    ensures no { result ≡ false → certificate.now.sizes ≢ sizes_of geometry.now }
{
    let claimed = certificate.geometry();
    claimed.data_bytes() == geometry.data_bytes()
        && claimed.spare_bytes() == geometry.spare_bytes()
        && claimed.pages() == geometry.pages()
        && claimed.blocks() == geometry.blocks()
        && claimed.sectors() == geometry.sectors()
}

// Whether a sector is lost whose translation page of this sequence names a row.
fn is_told<S: Store>(
    store: &mut S,
    geometry: &Geometry,
    certificate: &Certificate,
    sequence: u64,
    named: Option<u32>,
    sector: u32,
    page: &mut [u8],
) -> Result<bool, StoreFault>
    requires geometry { (S.held store.old).geometry ≡ geometry.now }
    requires sizes { certificate.now.sizes ≡ sizes_of geometry.now }
    requires whole { IsCertificateOf geometry.now certificate.now }
    requires in_range { sector < geometry.now.sectors }
    requires room { length page.old ≡ page_bytes geometry.now }
    ensures told { IfOk result (λ told. S.honest store.old ≡ true → (capacity : ℕ) → Agrees geometry.now capacity (S.held store.old).pages certificate.now →
        told ≡ is_told (S.held store.old).pages sequence named sector) }
    ensures looks { OnlyLooks S.held S.honest store.old store.new }
    ensures settled { OnOk result (S.failed store.new ≡ S.failed store.old) }
    ensures rose { OnErr result (HasRisen (S.failed store.old) (S.failed store.new)) }
{
    let place = certificate.sector_row(sector);
    if !names_other(named, place) {
        return Ok(false);
    }
    Ok(is_older(sequence_of(store, geometry, place, page)?, sequence))
}

// Lists the lost sectors from `first` up to `end`, whose rows this translation page of this sequence names.
fn list_told<S: Store>(
    store: &mut S,
    geometry: &Geometry,
    certificate: &Certificate,
    sequence: u64,
    body: &[u8],
    first: u32,
    end: u32,
    page: &mut [u8],
    lost: &mut [bool],
) -> Result<(), StoreFault>
    requires geometry { (S.held store.old).geometry ≡ geometry.now }
    requires sizes { certificate.now.sizes ≡ sizes_of geometry.now }
    requires whole { IsCertificateOf geometry.now certificate.now }
    requires order { first ≤ end }
    requires ends { end ≤ geometry.now.sectors }
    requires entries { 4 * (end - first) ≤ length body.now }
    requires room { length page.old ≡ page_bytes geometry.now }
    requires sectors { length lost.old ≡ geometry.now.sectors }
    ensures adds { OnOk result (S.honest store.old ≡ true → (capacity : ℕ) → Agrees geometry.now capacity (S.held store.old).pages certificate.now →
        Adds (λ n. is_told (S.held store.old).pages sequence (entry_at body.now (n - first)) n) first end lost.old lost.new) }
    ensures only { S.honest store.old ≡ true → (capacity : ℕ) → Agrees geometry.now capacity (S.held store.old).pages certificate.now →
        AddsUpTo (λ n. is_told (S.held store.old).pages sequence (entry_at body.now (n - first)) n) first end lost.old lost.new }
    ensures kept { DropsNone lost.old lost.new }
    ensures looks { OnlyLooks S.held S.honest store.old store.new }
    ensures settled { OnOk result (S.failed store.new ≡ S.failed store.old) }
    ensures rose { OnErr result (HasRisen (S.failed store.old) (S.failed store.new)) }
{
    for sector in first..end {
        let named = entry(body, sector - first);
        if is_told(store, geometry, certificate, sequence, named, sector, page)? {
            lost[sector as usize] = true;
        }
    }
    Ok(())
}

// Lists the lost sectors of translation page `t`.
fn list_page<S: Store>(
    store: &mut S,
    geometry: &Geometry,
    certificate: &Certificate,
    mark: u64,
    t: u32,
    named: &mut [u8],
    page: &mut [u8],
    lost: &mut [bool],
) -> Result<(), StoreFault>
    requires geometry { (S.held store.old).geometry ≡ geometry.now }
    requires sizes { certificate.now.sizes ≡ sizes_of geometry.now }
    requires whole { IsCertificateOf geometry.now certificate.now }
    requires images { S.honest store.old ≡ true → length (S.held store.old).pages ≡ row_count geometry.now }
    requires in_range { t < translation_pages geometry.now }
    requires named { length named.old ≡ page_bytes geometry.now }
    requires room { length page.old ≡ page_bytes geometry.now }
    requires sectors { length lost.old ≡ geometry.now.sectors }
    ensures adds { OnOk result (S.honest store.old ≡ true → (capacity : ℕ) → Agrees geometry.now capacity (S.held store.old).pages certificate.now →
        Adds (is_lost geometry.now (S.held store.old).pages mark) (min (t * entries geometry.now) geometry.now.sectors) (min ((t + 1) * entries geometry.now) geometry.now.sectors) lost.old lost.new) }
    ensures only { S.honest store.old ≡ true → (capacity : ℕ) → Agrees geometry.now capacity (S.held store.old).pages certificate.now →
        AddsUpTo (is_lost geometry.now (S.held store.old).pages mark) (min (t * entries geometry.now) geometry.now.sectors) (min ((t + 1) * entries geometry.now) geometry.now.sectors) lost.old lost.new }
    ensures kept { DropsNone lost.old lost.new }
    ensures looks { OnlyLooks S.held S.honest store.old store.new }
    ensures settled { OnOk result (S.failed store.new ≡ S.failed store.old) }
    ensures rose { OnErr result (HasRisen (S.failed store.old) (S.failed store.new)) }
{
    let row = certificate.directory_row(t);
    let Some(sequence) = sequence_of(store, geometry, row, named)? else {
        return Ok(());
    };
    if sequence >= mark {
        return Ok(());
    }
    let first = t * geometry.entries();
    let end = geometry.sectors().min(first + geometry.entries());
    let (body, _) = named.split_at(geometry.data_bytes());
    list_told(
        store,
        geometry,
        certificate,
        sequence,
        body,
        first,
        end,
        page,
        lost,
    )
}

// Lists the lost sectors of all translation pages.
fn list_pages<S: Store>(
    store: &mut S,
    geometry: &Geometry,
    certificate: &Certificate,
    mark: u64,
    named: &mut [u8],
    page: &mut [u8],
    lost: &mut [bool],
) -> Result<(), StoreFault>
    requires geometry { (S.held store.old).geometry ≡ geometry.now }
    requires sizes { certificate.now.sizes ≡ sizes_of geometry.now }
    requires whole { IsCertificateOf geometry.now certificate.now }
    requires images { S.honest store.old ≡ true → length (S.held store.old).pages ≡ row_count geometry.now }
    requires named { length named.old ≡ page_bytes geometry.now }
    requires room { length page.old ≡ page_bytes geometry.now }
    requires sectors { length lost.old ≡ geometry.now.sectors }
    ensures adds { OnOk result (S.honest store.old ≡ true → (capacity : ℕ) → Agrees geometry.now capacity (S.held store.old).pages certificate.now →
        Adds (is_lost geometry.now (S.held store.old).pages mark) 0 geometry.now.sectors lost.old lost.new) }
    ensures only { S.honest store.old ≡ true → (capacity : ℕ) → Agrees geometry.now capacity (S.held store.old).pages certificate.now →
        AddsUpTo (is_lost geometry.now (S.held store.old).pages mark) 0 geometry.now.sectors lost.old lost.new }
    ensures kept { DropsNone lost.old lost.new }
    ensures looks { OnlyLooks S.held S.honest store.old store.new }
    ensures settled { OnOk result (S.failed store.new ≡ S.failed store.old) }
    ensures rose { OnErr result (HasRisen (S.failed store.old) (S.failed store.new)) }
{
    for t in 0..geometry.translation_pages() {
        list_page(store, geometry, certificate, mark, t, named, page, lost)?;
    }
    Ok(())
}

/// Lists the sectors of a store that have lost a page, beside those that are listed already: its translation page, of a sequence below `mark`, names a row in which the sector's newest
/// page does not stand, and that one is older than the translation page, or there is none. The certificate is that of the store's pages, and `lost` says of each sector whether it is listed.
/// **Of an honest store just these are added.** Each newest translation page is loaded once, and of one below `mark` the newest page of each sector for which it names another
/// row, and no other. With the certificate of another geometry, or a list of another length, nothing is done.
///
/// # Errors
///
/// `OutOfMemory` where a growth was refused: the store was not asked. `Store` where it failed to load a page: the lost sectors below some sector are on the list, and none else was added.
/// None is taken off the list, and the store's pages are as they were. (This project's.)
pub fn find_lost<S: Store>(
    alloc: Global,
    store: &mut S,
    certificate: &Certificate,
    mark: u64,
    lost: &mut [bool],
) -> Result<(), LostFault>
    ensures adds { OnOk result (S.honest store.old ≡ true → (capacity : ℕ) → Agrees (S.held store.old).geometry capacity (S.held store.old).pages certificate.now →
        length lost.old ≡ (S.held store.old).geometry.sectors → Adds (is_lost (S.held store.old).geometry (S.held store.old).pages mark) 0 (S.held store.old).geometry.sectors lost.old lost.new) }
    ensures only { S.honest store.old ≡ true → (capacity : ℕ) → Agrees (S.held store.old).geometry capacity (S.held store.old).pages certificate.now →
        length lost.old ≡ (S.held store.old).geometry.sectors → AddsUpTo (is_lost (S.held store.old).geometry (S.held store.old).pages mark) 0 (S.held store.old).geometry.sectors lost.old lost.new }
    ensures kept { DropsNone lost.old lost.new }
    ensures looks { OnlyLooks S.held S.honest store.old store.new }
    ensures settled { OnOk result (S.failed store.new ≡ S.failed store.old) }
    ensures rose { IsErrOf result LostFault.Store → HasRisen (S.failed store.old) (S.failed store.new) }
    ensures untouched { (certificate.now.sizes ≢ sizes_of (S.held store.old).geometry) ⊎ (length lost.old ≢ (S.held store.old).geometry.sectors) →
        (store.new ≡ store.old) × (lost.new ≡ lost.old) }
    ensures unasked { IsErrOf result LostFault.OutOfMemory → (store.new ≡ store.old) × (lost.new ≡ lost.old) }
{
    let geometry = store.geometry();
    if !is_of(certificate, &geometry) || lost.len() != geometry.sectors() as usize {
        return Ok(());
    }
    let mut named = vec![in alloc; 0xFFu8; page_length(&geometry)]?;
    let mut page = vec![in alloc; 0xFFu8; page_length(&geometry)]?;
    list_pages(
        store,
        &geometry,
        certificate,
        mark,
        &mut named,
        &mut page,
        lost,
    )?;
    Ok(())
}
