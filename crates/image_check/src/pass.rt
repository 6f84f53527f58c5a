//! One pass over the pages of an image, and what it comes to.
ghost use Rattle.std.specs.Prelude.{◌≡◌, ◌+◌, ◌<◌, length, slice_get, Some, IfOk, IfErr};
ghost use Rattle.page_layout.specs.Geometry.{row_count};
ghost use Rattle.page_layout.specs.Page.{Image, page};
ghost use Rattle.image_check.specs.Accepted.{IsAcceptance};
ghost use Rattle.image_check.specs.Agrees.{IsAsked, IsCertificateOf};
ghost use Rattle.image_check.specs.Passed.{IsBegun, IsPass, IsSamePass, Shows};
ghost use Rattle.image_check.specs.Refused.{IsFirstWrong, IsJudgement};

use crate::accepted::Accepted;
use crate::judge::judge;
use crate::noted_sectors::Noted;
use crate::page_notes::note_claim;
use crate::refusal::Refusal;
use crate::scratch::Scratch;
use crate::stale_notes::{note_absent, note_entries};
use crate::survey::Survey;
use certificate::Certificate;
use page_layout::geometry::Geometry;
use std::alloc::{AllocError, Global};

/// A pass over the pages of an image, which is handed each page once, in row order, and holds a certificate against them.
#[derive(Drop)]
pub(crate) struct Pass<'a> {
    pub(crate) certificate: &'a Certificate,
    pub(crate) survey: Survey,
    // of each sector whether the row that the certificate has for it holds a sound page of it
    pub(crate) passed: Vec<bool>,
    pub(crate) noted: Noted,
    pub(crate) scratch: Scratch,
}

impl<'a> Pass<'a> {
    /// No page yet. All the memory of the pass is taken here. `AllocError` where there is none.
    pub(crate) fn new(
        alloc: Global,
        geometry: &Geometry,
        certificate: &'a Certificate,
    ) -> Result<Pass<'a>, AllocError>
        requires asked { IsAsked geometry.now certificate.now.capacity certificate.now }
        requires certificate { IsCertificateOf geometry.now certificate.now }
        ensures pass { IfOk result (IsPass 0) }
        ensures shows { IfOk result (λ pass. (image : Image) → Shows image 0 pass) }
        ensures geometry { IfOk result (λ pass. pass.survey.geometry ≡ geometry.now) }
        ensures claim { IfOk result (λ pass. pass.certificate.now ≡ certificate.now) }
    {
        let passed = vec![in alloc; false; geometry.sectors() as usize]?;
        let mut noted = Noted::new(alloc, certificate.capacity())?;
        let scratch = Scratch::new(alloc, geometry)?;
        let survey = Survey::new(alloc, geometry)?;
        note_absent(geometry, certificate, &mut noted);
        Ok(Pass {
            certificate,
            survey,
            passed,
            noted,
            scratch,
        })
    }

    /// The next page passes.
    pub(crate) fn page(&mut self, row: u32, body: &[u8], spare: &[u8])
        requires pass { IsPass row self.old }
        requires row_in { row < row_count self.old.survey.geometry }
        requires body_whole { length body.now ≡ self.old.survey.geometry.data_bytes }
        requires spare_whole { length spare.now ≡ self.old.survey.geometry.spare_bytes }
        ensures pass { IsPass (row + 1) self.new }
        ensures shows { (image : Image) → Shows image row self.old → slice_get image row ≡ Some (page body.now spare.now) → Shows image (row + 1) self.new }
        ensures same { IsSamePass self.old self.new }
    {
        let geometry = self.survey.geometry;
        let found = self.survey.see(row, body, spare);
        note_claim(self.certificate, &mut self.passed, row, found);
        note_entries(
            &geometry,
            self.certificate,
            row,
            found,
            body,
            &mut self.noted,
        );
    }

    /// What the pages come to, all of which have passed: the parts of the agreement in order, the stale sectors last.
    ///
    /// # Errors
    /// The first part that fails, at its lowest place.
    pub(crate) fn finish(self) -> Result<Accepted<'a>, Refusal>
        requires { IsPass (row_count self.survey.geometry) self }
        ensures ok { IfOk result (λ accepted. (image : Image) → length image ≡ row_count self.entry.survey.geometry →
            Shows image (row_count self.entry.survey.geometry) self.entry →
            IsAcceptance self.entry.survey.geometry self.entry.certificate.now.capacity image self.entry.certificate.now accepted) }
        ensures err { IfErr result (λ refusal. (image : Image) → length image ≡ row_count self.entry.survey.geometry →
            Shows image (row_count self.entry.survey.geometry) self.entry →
            IsFirstWrong self.entry.survey.geometry self.entry.certificate.now.capacity image self.entry.certificate.now refusal) }
        ensures named { IfErr result IsJudgement }
        ensures claim { IfOk result (λ accepted. accepted.claim ≡ self.entry.certificate.now) }
    {
        let Pass {
            certificate,
            mut survey,
            passed,
            noted,
            mut scratch,
        } = self;
        judge(&mut survey, certificate, &passed, &mut scratch)?;
        let capacity = certificate.capacity();
        let stale = noted.count;
        if stale > capacity {
            return Err(Refusal::TooStale { stale, capacity });
        }
        let mut sectors = noted.kept;
        sectors.sort_unstable();
        Ok(Accepted::new(certificate, sectors))
    }
}

/// A pass that begins, and room for one page.
#[derive(Drop)]
pub(crate) struct Begun<'a> {
    pub(crate) pass: Pass<'a>,
    pub(crate) body: Vec<u8>,
    pub(crate) spare: Vec<u8>,
}

impl<'a> Begun<'a> {
    /// All memory is taken here. `AllocError` where there is none.
    pub(crate) fn new(
        alloc: Global,
        geometry: &Geometry,
        certificate: &'a Certificate,
    ) -> Result<Begun<'a>, AllocError>
        requires asked { IsAsked geometry.now certificate.now.capacity certificate.now }
        requires certificate { IsCertificateOf geometry.now certificate.now }
        ensures { IfOk result (IsBegun geometry.now certificate.now) }
    {
        Ok(Begun {
            body: vec![in alloc; 0; geometry.data_bytes()]?,
            spare: vec![in alloc; 0; geometry.spare_bytes()]?,
            pass: Pass::new(alloc, geometry, certificate)?,
        })
    }
}
