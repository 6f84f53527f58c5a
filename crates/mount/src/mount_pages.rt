//! What all pages of an image show: the state of each block, the newest page of each key, and the next sequence.
ghost use Rattle.std.specs.Prelude.{◌≡◌, ◌≢◌, ◌≤◌, ◌+◌, ℕ, true, Err, length, IfOk, IfErr, OnOk};
ghost use Rattle.page_layout.specs.declared.geometry.Geometry.{Geometry};
ghost use Rattle.page_layout.specs.Array.{marks};
ghost use Rattle.page_layout.specs.Counter.{HasRisen};
ghost use Rattle.page_layout.specs.Geometry.{row_count};
ghost use Rattle.page_layout.specs.Page.{Image, IsImage};
ghost use Rattle.page_layout.specs.OnlyReads.{OnlyReads};
ghost use Rattle.image_check.specs.declared.refusal.Refusal.TheVariants as refusals;
ghost use Rattle.image_check.specs.Agrees.{HasTables};
ghost use Rattle.image_check.specs.Refused.{StopsCheck};
ghost use Rattle.image_check.specs.Surveyed.{IsSized, Surveys, SurveysPairs};
ghost use Rattle.mount.specs.Mounted.{IsNextSequence, IsSpent, Refuses, IsOfMounting};
ghost use Rattle.mount.specs.Shown.{IsShownSized, IsShown};

use certificate::BlockState;
use image_check::{Newest, Refusal, Survey, describe_blocks};
use page_layout::geometry::Geometry;
use page_layout::source::PageSource;
use std::alloc::Global;

#[derive(Drop)]
pub(crate) struct Shown {
    // for each key what is known of its newest page
    pub(crate) newest: Vec<Newest>,
    pub(crate) blocks: Vec<BlockState>,
    // the sequence that the next program takes
    pub(crate) next: u64,
}

// Shows a survey each page of the source.
fn survey_pages<S: PageSource>(
    alloc: Global,
    source: &mut S,
    geometry: &Geometry,
    body: &mut [u8],
    spare: &mut [u8],
) -> Result<Survey, Refusal>
    requires same_geometry { (S.view.flash source.old).geometry ≡ geometry.now }
    requires body_whole { length body.old ≡ geometry.now.data_bytes }
    requires spare_whole { length spare.old ≡ geometry.now.spare_bytes }
    ensures sized { IfOk result (IsSized geometry.now (row_count geometry.now)) }
    ensures surveys { IfOk result (λ survey. S.view.honest source.old ≡ true → Surveys geometry.now (S.view.flash source.old).image survey) }
    ensures whole { OnOk result (S.view.honest source.old ≡ true → IsImage geometry.now (S.view.flash source.old).image) }
    ensures stops { IfErr result StopsCheck }
    ensures same { result ≢ Err Refusal.Source → S.view.honest source.old ≡ true → S.view.flash source.new ≡ S.view.flash source.old }
    ensures told { OnOk result (S.view.honest source.old ≡ true → S.view.recorded source.new ≡ S.view.recorded source.old) }
    ensures only_reads { OnlyReads S.view source.old source.new }
    ensures reads { S.view.reads source.new ≤ S.view.reads source.old + row_count geometry.now }
    ensures rose { result ≡ Err Refusal.Source → HasRisen (S.view.failed source.old) (S.view.failed source.new) }
{
    let mut survey = Survey::new(alloc, geometry)?;
    for row in 0..geometry.rows() {
        source.read_page(row, body, spare)?;
        survey.see(row, body, spare);
    }
    Ok(survey)
}

// One more than the greatest sequence.
#[tactic(auto, using(crate::proofs::NextLemmas::spent_of_all))]
fn next_sequence(pairs: &[(u64, u32)]) -> Result<u64, Refusal>
    ensures ok { IfOk result (λ next. (g : Geometry) (image : Image) → SurveysPairs g image pairs.now → HasTables g image → IsNextSequence (marks image) next) }
    ensures err { IfErr result (λ refusal. (refusal ≡ refusals.NextSequence) × ((g : Geometry) (image : Image) → SurveysPairs g image pairs.now → IsSpent (marks image))) }
{
    let mut greatest = 0;
    for pair in pairs {
        greatest = greatest.max(pair.0);
    }
    if greatest == u64::MAX {
        return Err(Refusal::NextSequence);
    }
    Ok(greatest + 1)
}

// Reads each page, and looks at what an image has to be whatever a certificate says of it.
pub(crate) fn show_pages<S: PageSource>(
    alloc: Global,
    source: &mut S,
    geometry: &Geometry,
    body: &mut [u8],
    spare: &mut [u8],
) -> Result<Shown, Refusal>
    requires same_geometry { (S.view.flash source.old).geometry ≡ geometry.now }
    requires body_whole { length body.old ≡ geometry.now.data_bytes }
    requires spare_whole { length spare.old ≡ geometry.now.spare_bytes }
    ensures sized { IfOk result (IsShownSized geometry.now) }
    ensures shown { IfOk result (λ shown. S.view.honest source.old ≡ true → IsShown geometry.now (S.view.flash source.old).image shown) }
    ensures whole { OnOk result (S.view.honest source.old ≡ true → IsImage geometry.now (S.view.flash source.old).image) }
    ensures err { IfErr result (λ refusal. S.view.honest source.old ≡ true → (capacity : ℕ) → Refuses geometry.now capacity (S.view.flash source.old).image refusal) }
    ensures only { IfErr result IsOfMounting }
    ensures same { result ≢ Err Refusal.Source → S.view.honest source.old ≡ true → S.view.flash source.new ≡ S.view.flash source.old }
    ensures told { OnOk result (S.view.honest source.old ≡ true → S.view.recorded source.new ≡ S.view.recorded source.old) }
    ensures only_reads { OnlyReads S.view source.old source.new }
    ensures reads { S.view.reads source.new ≤ S.view.reads source.old + row_count geometry.now }
    ensures rose { result ≡ Err Refusal.Source → HasRisen (S.view.failed source.old) (S.view.failed source.new) }
{
    let mut survey = survey_pages(alloc, source, geometry, body, spare)?;
    let blocks = describe_blocks(alloc, &mut survey)?;
    let next = next_sequence(&survey.pairs)?;
    Ok(Shown {
        newest: survey.newest,
        blocks,
        next,
    })
}
