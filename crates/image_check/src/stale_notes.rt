//! The stale entries that a pass over the pages notes.
ghost use Rattle.std.specs.Prelude.{◌≡◌, ℕ, ◌+◌, ◌-◌, ◌*◌, ◌<◌, ◌≤◌, ◌++◌, ◌∷◌, [], List, length, filter, not, ◌&&◌, is_none, is_some, slice_get, Some, IfOk};
ghost use Rattle.std.specs.List.{range_with_len};
ghost use Rattle.page_layout.specs.Geometry.{entries};
ghost use Rattle.page_layout.specs.Page.{Page, Image};
ghost use Rattle.page_layout.specs.Sound.{record_of};
ghost use Rattle.translation_pages.specs.TranslationPage.{entry_at};
ghost use Rattle.image_check.specs.Agrees.{IsCertificateOf};
ghost use Rattle.image_check.specs.Noted.{claimed, IsKept, HasNoted};
ghost use Rattle.image_check.specs.Stale.{same_row};

use crate::noted_sectors::Noted;
use crate::parts::same_row;
use certificate::Certificate;
use page_layout::geometry::Geometry;
use page_layout::record::{Key, Record};
use std::alloc::{AllocError, Global};
use translation_pages::entry;

impl Noted {
    /// None noted yet, with room for so many.
    pub(crate) fn new(alloc: Global, most: u32) -> Result<Noted, AllocError>
        ensures none { IfOk result (λ noted. IsKept [] noted) }
        ensures most { IfOk result (λ noted. noted.most ≡ most) }
    {
        Ok(Noted {
            kept: Vec::with_capacity(alloc, most as usize)?,
            most,
            count: 0,
        })
    }

    /// Notes one sector more.
    pub(crate) fn note(&mut self, sector: u32)
        ensures noted { (noted : List ℕ) → IsKept noted self.old → IsKept (noted ++ sector ∷ []) self.new }
        ensures most { self.new.most ≡ self.old.most }
    {
        if self.kept.len() < self.most as usize {
            self.kept.push_reserved(sector);
        }
        self.count = self.count.saturating_add(1);
    }
}

// Whether a certificate has no row of a translation page, and one of a sector.
fn is_absent(certificate: &Certificate, page: u32, sector: u32) -> bool
    requires page { page < length certificate.now.directory }
    requires sector { sector < length certificate.now.sectors }
    ensures { result ≡ (is_none (claimed certificate.now.directory page) && is_some (claimed certificate.now.sectors sector)) }
{
    certificate.directory_row(page).is_none() && certificate.sector_row(sector).is_some()
}

/// Notes the sectors that a certificate has a row for and no translation page: their entries are none.
pub(crate) fn note_absent(geometry: &Geometry, certificate: &Certificate, noted: &mut Noted)
    requires certificate { IsCertificateOf geometry.now certificate.now }
    requires none { IsKept [] noted.old }
    ensures noted { (image : Image) → HasNoted geometry.now image certificate.now 0 noted.new }
    ensures most { noted.new.most ≡ noted.old.most }
{
    for sector in 0..geometry.sectors() {
        if is_absent(certificate, sector / geometry.entries(), sector) {
            noted.note(sector);
        }
    }
}

// Notes which sectors from `first` up to `end` have another row in the certificate than in this translation page.
fn note_differing(certificate: &Certificate, first: u32, end: u32, page: &[u8], noted: &mut Noted)
    requires order { first ≤ end }
    requires sectors { end ≤ length certificate.now.sectors }
    requires entries { 4 * (end - first) ≤ length page.now }
    ensures noted { (before : List ℕ) → IsKept before noted.old →
        IsKept (before ++ filter (λ n. not (same_row (entry_at page.now (n - first)) (claimed certificate.now.sectors n))) (range_with_len first (end - first))) noted.new }
    ensures most { noted.new.most ≡ noted.old.most }
{
    for sector in first..end {
        if !same_row(entry(page, sector - first), certificate.sector_row(sector)) {
            noted.note(sector);
        }
    }
}

/// Notes the stale entries of a page that is the certificate's newest one of a translation page.
pub(crate) fn note_entries(
    geometry: &Geometry,
    certificate: &Certificate,
    row: u32,
    found: Option<Record>,
    body: &[u8],
    noted: &mut Noted,
)
    requires certificate { IsCertificateOf geometry.now certificate.now }
    requires body_whole { length body.now ≡ geometry.now.data_bytes }
    ensures noted { (image : Image) (p : Page) → HasNoted geometry.now image certificate.now row noted.old → slice_get image row ≡ Some p →
        found ≡ record_of p → body.now ≡ p.body → HasNoted geometry.now image certificate.now (row + 1) noted.new }
    ensures most { noted.new.most ≡ noted.old.most }
{
    let Some(found) = found else {
        return;
    };
    let Key::Translation(page) = found.key() else {
        return;
    };
    if page >= geometry.translation_pages() {
        return;
    }
    if !same_row(certificate.directory_row(page), Some(row)) {
        return;
    }
    let first = page * geometry.entries();
    let end = geometry.sectors().min(first + geometry.entries());
    note_differing(certificate, first, end, body, noted);
}
