//! The parts of a certificate's agreement with an image that the records of the pages decide, one function each.
ghost use Rattle.std.specs.Prelude.{◌≡◌, ◌≢◌, ◌^◌, true, false, ℕ, ◌+◌, ◌<◌, ◌↔◌, All, IsTrue, length, OnOk, IfErr};
ghost use Rattle.page_layout.specs.Page.{Image};
ghost use Rattle.page_layout.specs.declared.geometry.Geometry.{Geometry};
ghost use Rattle.page_layout.specs.OneArray.{AreDistinct, AreBelow};
ghost use Rattle.page_layout.specs.Array.{marks};
ghost use Rattle.page_layout.specs.Geometry.{row_count, key_count, translation_pages, table_pages};
ghost use Rattle.certificate.specs.Claim.{Claim};
ghost use Rattle.image_check.specs.Surveyed.{Surveys, SurveysKeys, SurveysPairs};
ghost use Rattle.image_check.specs.Agrees.{AreInRange, IsDirectory, AreNewest};
ghost use Rattle.image_check.specs.Refused.{IsWrong, Numbers, Directory, Sectors, Next, IsJudgement, IsOfImage};
ghost use Rattle.image_check.specs.Survey.{HasPassed, AreClaimed};

use crate::refusal::Refusal;
use crate::survey::Survey;
use certificate::Certificate;

/// Every sound page's number is in range.
pub(crate) fn check_numbers(survey: &Survey) -> Result<(), Refusal>
    ensures ok { OnOk result ((image : Image) → Surveys survey.now.geometry image survey.now → AreInRange survey.now.geometry (marks image)) }
    ensures err { IfErr result (λ refusal. (capacity : ℕ) (image : Image) (claim : Claim) → Surveys survey.now.geometry image survey.now →
        IsWrong survey.now.geometry capacity image claim Numbers refusal) }
    ensures named { IfErr result IsJudgement }
    ensures kind { IfErr result IsOfImage }
{
    match survey.outside {
        Some(row) => Err(Refusal::NumberRange { row }),
        None => Ok(()),
    }
}

fn are_below(pairs: &[(u64, u32)], next: u64) -> bool
    ensures { IsTrue result ↔ All (λ pair. pair.0 < next) pairs.now }
{
    pairs.iter().all(|pair| pair.0 < next)
}

/// Every sequence is below the certificate's next one.
pub(crate) fn check_next(pairs: &[(u64, u32)], certificate: &Certificate) -> Result<(), Refusal>
    ensures ok { OnOk result ((g : Geometry) (image : Image) → SurveysPairs g image pairs.now → AreBelow (marks image) certificate.now.next) }
    ensures err { IfErr result (λ refusal. (g : Geometry) (capacity : ℕ) (image : Image) → SurveysPairs g image pairs.now → IsWrong g capacity image certificate.now Next refusal) }
    ensures named { IfErr result IsJudgement }
{
    if are_below(pairs, certificate.next_sequence()) {
        Ok(())
    } else {
        Err(Refusal::NextSequence)
    }
}

// Whether two rows, or none, are the same.
pub(crate) fn same_row(a: Option<u32>, b: Option<u32>) -> bool
    ensures yes { result ≡ true → a ≡ b }
    ensures no { result ≡ false → a ≢ b }
{
    match (a, b) {
        (Some(a), Some(b)) => a == b,
        (None, None) => true,
        _ => false,
    }
}

/// The certificate's directory has the rows of the newest translation pages and table pages.
pub(crate) fn check_directory(survey: &Survey, certificate: &Certificate) -> Result<(), Refusal>
    requires sized { length survey.now.newest.items ≡ key_count survey.now.geometry }
    requires directory { length certificate.now.directory ≡ translation_pages survey.now.geometry + table_pages survey.now.geometry }
    ensures ok { OnOk result ((image : Image) → SurveysKeys survey.now.geometry image survey.now.newest.items → IsDirectory survey.now.geometry image certificate.now.directory) }
    ensures err { IfErr result (λ refusal. (capacity : ℕ) (image : Image) → SurveysKeys survey.now.geometry image survey.now.newest.items →
        IsWrong survey.now.geometry capacity image certificate.now Directory refusal) }
    ensures named { IfErr result IsJudgement }
{
    let sectors = survey.geometry.sectors();
    let pages = survey.geometry.translation_pages() + survey.geometry.table_pages();
    for page in 0..pages {
        let newest = survey.newest[(sectors + page) as usize].row();
        if !same_row(newest, certificate.directory_row(page)) {
            return Err(Refusal::DirectoryWrong { page });
        }
    }
    Ok(())
}

/// Each row that the certificate has for a sector holds a sound page of that sector.
pub(crate) fn check_claims(certificate: &Certificate, passed: &[bool]) -> Result<(), Refusal>
    requires few { length passed.now < 2 ^ 32 }
    requires sized { length passed.now ≡ length certificate.now.sectors }
    ensures ok { OnOk result ((g : Geometry) (image : Image) → length image ≡ row_count g →
        HasPassed (marks image) (row_count g) certificate.now.sectors passed.now →
        AreClaimed (length certificate.now.sectors) (marks image) certificate.now.sectors) }
    ensures err { IfErr result (λ refusal. (g : Geometry) (capacity : ℕ) (image : Image) → length image ≡ row_count g →
        g.sectors ≡ length certificate.now.sectors → HasPassed (marks image) (row_count g) certificate.now.sectors passed.now →
        IsWrong g capacity image certificate.now Sectors refusal) }
    ensures named { IfErr result IsJudgement }
{
    for sector in 0..passed.len() as u32 {
        if let Some(row) = certificate.sector_row(sector) {
            if !passed[sector as usize] {
                return Err(Refusal::NoSuchRecord { sector, row });
            }
        }
    }
    Ok(())
}

/// The certificate's row of each sector is that of its newest page.
pub(crate) fn check_sectors(survey: &Survey, certificate: &Certificate) -> Result<(), Refusal>
    requires sized { length survey.now.newest.items ≡ key_count survey.now.geometry }
    requires sectors { length certificate.now.sectors ≡ survey.now.geometry.sectors }
    ensures ok { OnOk result ((image : Image) → SurveysKeys survey.now.geometry image survey.now.newest.items → AreNewest survey.now.geometry image certificate.now.sectors) }
    ensures err { IfErr result (λ refusal. (capacity : ℕ) (image : Image) → SurveysKeys survey.now.geometry image survey.now.newest.items →
        AreDistinct (marks image) → AreClaimed (length certificate.now.sectors) (marks image) certificate.now.sectors →
        IsWrong survey.now.geometry capacity image certificate.now Sectors refusal) }
    ensures named { IfErr result IsJudgement }
{
    for sector in 0..survey.geometry.sectors() {
        let newest = survey.newest[sector as usize].row();
        let claimed = certificate.sector_row(sector);
        if !same_row(newest, claimed) {
            // A sector of which a sound page is claimed has a newest page.
            let row = newest.unwrap_or(0);
            return Err(Refusal::NotNewest { sector, row });
        }
    }
    Ok(())
}
