//! The newest table pages: whether there are all of them, and what they say of the blocks.
ghost use Rattle.std.specs.Prelude.{◌≡◌, true, false, ℕ, ◌+◌, ◌*◌, ◌<◌, length, OnOk, IfErr};
ghost use Rattle.page_layout.specs.Page.{Image};
ghost use Rattle.page_layout.specs.Array.{marks};
ghost use Rattle.page_layout.specs.OneArray.{AreDistinct};
ghost use Rattle.page_layout.specs.Geometry.{key_count, table_pages};
ghost use Rattle.page_layout.specs.Limits.{IsDataSize};
ghost use Rattle.certificate.specs.Claim.{Claim};
ghost use Rattle.image_check.specs.Blocks.{IsTableBody, IsTableOf};
ghost use Rattle.image_check.specs.Agrees.{HasNewestTable, HasTables};
ghost use Rattle.image_check.specs.Surveyed.{SurveysKeys, SurveysTables};
ghost use Rattle.image_check.specs.Refused.{IsUnformatted, IsWrong, Tables, IsJudgement, IsOfImage};

use crate::newest::Newest;
use crate::refusal::Refusal;
use crate::survey::Survey;
use bad_blocks::{Table, read_table_page};
use page_layout::geometry::Geometry;

// Whether each table page has a newest page. It has none where it has no sound page, or where two share its greatest sequence.
fn is_formatted(geometry: &Geometry, newest: &[Newest]) -> bool
    requires { length newest.now ≡ key_count geometry.now }
    ensures yes { result ≡ true → (image : Image) → SurveysKeys geometry.now image newest.now → (u : ℕ) → u < table_pages geometry.now → HasNewestTable image u }
    ensures no { result ≡ false → (image : Image) → SurveysKeys geometry.now image newest.now → AreDistinct (marks image) → IsUnformatted geometry.now image }
{
    let first = geometry.sectors() + geometry.translation_pages();
    for page in 0..geometry.table_pages() {
        if newest[(first + page) as usize].row().is_none() {
            return false;
        }
    }
    true
}

// The bytes of a table page that the survey keeps.
fn bytes_of(survey: &Survey, page: u32) -> &[u8]
    requires tables { length survey.now.tables.items ≡ table_pages survey.now.geometry * survey.now.geometry.data_bytes }
    requires within { page < table_pages survey.now.geometry }
    ensures size { length result.now ≡ survey.now.geometry.data_bytes }
    ensures whole { IsDataSize (length result.now) }
    ensures kept { (image : Image) → SurveysTables survey.now.geometry image survey.now.newest.items survey.now.tables.items →
        HasNewestTable image page → IsTableBody survey.now.geometry image page result.now }
{
    let size = survey.geometry.data_bytes();
    let at = page as usize * size;
    &survey.tables[at..at + size]
}

/// Each table page has a newest page, and it is well formed. Takes what they say of the blocks. Where no two sound pages share
/// a sequence, a table page with no newest page has no sound page.
pub(crate) fn check_tables(survey: &Survey, table: &mut Table) -> Result<(), Refusal>
    requires newest { length survey.now.newest.items ≡ key_count survey.now.geometry }
    requires tables { length survey.now.tables.items ≡ table_pages survey.now.geometry * survey.now.geometry.data_bytes }
    requires blocks { length table.old ≡ survey.now.geometry.blocks }
    ensures ok { OnOk result ((image : Image) → SurveysTables survey.now.geometry image survey.now.newest.items survey.now.tables.items → HasTables survey.now.geometry image) }
    ensures rows { OnOk result ((image : Image) → SurveysTables survey.now.geometry image survey.now.newest.items survey.now.tables.items → IsTableOf survey.now.geometry image table.new) }
    ensures err { IfErr result (λ refusal. (capacity : ℕ) (image : Image) (claim : Claim) →
        SurveysTables survey.now.geometry image survey.now.newest.items survey.now.tables.items → AreDistinct (marks image) →
        IsWrong survey.now.geometry capacity image claim Tables refusal) }
    ensures named { IfErr result IsJudgement }
    ensures kind { IfErr result IsOfImage }
    ensures size { length table.new ≡ length table.old }
{
    if !is_formatted(&survey.geometry, &survey.newest) {
        return Err(Refusal::NotFormatted);
    }
    for page in 0..survey.geometry.table_pages() {
        if let Err(_) = read_table_page(table, page, bytes_of(survey, page)) {
            return Err(Refusal::TableDamaged { page });
        }
    }
    Ok(())
}
