//! The parts in order, each after the ones before it.
ghost use Rattle.std.specs.Prelude.{◌≡◌, ◌⊎◌, ℕ, ◌+◌, ◌*◌, ◌<◌, ◌^◌, All, length, OnOk, IfOk, IfErr, IsPermutation};
ghost use Rattle.page_layout.specs.declared.geometry.Geometry.{Geometry};
ghost use Rattle.page_layout.specs.Array.{marks};
ghost use Rattle.page_layout.specs.Geometry.{row_count, key_count, translation_pages, table_pages};
ghost use Rattle.page_layout.specs.OneArray.{AreDistinct};
ghost use Rattle.page_layout.specs.Page.{Image};
ghost use Rattle.certificate.specs.Claim.{Claim};
ghost use Rattle.certificate.specs.Spelling.{FitsBlock};
ghost use Rattle.image_check.specs.Agrees.{IsCertificateOf};
ghost use Rattle.image_check.specs.Blocks.{AreStates, IsTableOf};
ghost use Rattle.image_check.specs.Room.{IsScratch};
ghost use Rattle.image_check.specs.Survey.{HasPassed};
ghost use Rattle.image_check.specs.Surveyed.{IsSized, Surveys, SurveysKeys};
ghost use Rattle.image_check.specs.Refused.{HoldBetween, FailsFrom, IsMemory, IsJudgement, IsOfImage};

use crate::blocks::{Aspect, check_blocks};
use crate::live::count_live;
use crate::parts::{check_claims, check_directory, check_next, check_numbers, check_sectors};
use crate::refusal::Refusal;
use crate::scratch::Scratch;
use crate::sequences::check_sequences;
use crate::states::block_states;
use crate::survey::Survey;
use crate::tables::check_tables;
use bad_blocks::Table;
use certificate::{BlockState, Certificate};
use std::alloc::Global;

/// What the records of all pages and the newest table pages have to be, whatever a certificate says.
pub(crate) fn judge_image(survey: &mut Survey, table: &mut Table) -> Result<(), Refusal>
    requires newest { length survey.old.newest.items ≡ key_count survey.old.geometry }
    requires tables { length survey.old.tables.items ≡ table_pages survey.old.geometry * survey.old.geometry.data_bytes }
    requires blocks { length table.old ≡ survey.old.geometry.blocks }
    ensures ok { OnOk result ((capacity : ℕ) (image : Image) (claim : Claim) → Surveys survey.old.geometry image survey.old → HoldBetween survey.old.geometry capacity image claim 1 4) }
    ensures rows { OnOk result ((image : Image) → Surveys survey.old.geometry image survey.old → IsTableOf survey.old.geometry image table.new) }
    ensures err { IfErr result (λ refusal. (capacity : ℕ) (image : Image) (claim : Claim) → Surveys survey.old.geometry image survey.old →
        FailsFrom survey.old.geometry capacity image claim 1 refusal) }
    ensures kind { IfErr result IsOfImage }
    ensures named { IfErr result IsJudgement }
    ensures size { length table.new ≡ length table.old }
    ensures permutation { IsPermutation survey.old.pairs.items survey.new.pairs.items }
    ensures others { survey.new ≡ record survey.old { pairs = survey.new.pairs } }
{
    check_numbers(survey)?;
    check_sequences(&mut survey.pairs)?;
    check_tables(survey, table)?;
    Ok(())
}

// The rows that a certificate has for keys. The rows of the sectors that it claims have passed or not.
fn judge_rows(survey: &Survey, certificate: &Certificate, passed: &[bool]) -> Result<(), Refusal>
    requires newest { length survey.now.newest.items ≡ key_count survey.now.geometry }
    requires directory { length certificate.now.directory ≡ translation_pages survey.now.geometry + table_pages survey.now.geometry }
    requires sectors { length certificate.now.sectors ≡ survey.now.geometry.sectors }
    requires passed { length passed.now ≡ survey.now.geometry.sectors }
    ensures ok { OnOk result ((capacity : ℕ) (image : Image) → SurveysKeys survey.now.geometry image survey.now.newest.items →
        HasPassed (marks image) (row_count survey.now.geometry) certificate.now.sectors passed.now →
        HoldBetween survey.now.geometry capacity image certificate.now 4 6) }
    ensures err { IfErr result (λ refusal. (capacity : ℕ) (image : Image) → SurveysKeys survey.now.geometry image survey.now.newest.items →
        HasPassed (marks image) (row_count survey.now.geometry) certificate.now.sectors passed.now → AreDistinct (marks image) →
        FailsFrom survey.now.geometry capacity image certificate.now 4 refusal) }
    ensures named { IfErr result IsJudgement }
{
    check_directory(survey, certificate)?;
    check_claims(certificate, passed)?;
    check_sectors(survey, certificate)?;
    Ok(())
}

// What a certificate says of each block.
fn judge_blocks(states: &[BlockState], certificate: &Certificate) -> Result<(), Refusal>
    requires few { length states.now < 2 ^ 32 }
    requires sized { length certificate.now.blocks ≡ length states.now }
    ensures ok { OnOk result ((g : Geometry) (capacity : ℕ) (image : Image) → AreStates g image states.now → HoldBetween g capacity image certificate.now 6 10) }
    ensures err { IfErr result (λ refusal. (g : Geometry) (capacity : ℕ) (image : Image) → AreStates g image states.now → FailsFrom g capacity image certificate.now 6 refusal) }
    ensures named { IfErr result IsJudgement }
{
    check_blocks(Aspect::BadSet, states, certificate)?;
    check_blocks(Aspect::State, states, certificate)?;
    check_blocks(Aspect::Live, states, certificate)?;
    check_blocks(Aspect::Wear, states, certificate)?;
    Ok(())
}

/// As `describe_blocks`, onto a scratch on which nothing was written. It takes no memory.
///
/// # Errors
/// Those of `describe_blocks`, but `OutOfMemory`. (This project's rules.)
pub fn describe(survey: &mut Survey, scratch: &mut Scratch) -> Result<(), Refusal>
    requires sized { IsSized survey.old.geometry (row_count survey.old.geometry) survey.old }
    requires scratch { IsScratch survey.old.geometry scratch.old }
    ensures ok { OnOk result ((capacity : ℕ) (image : Image) (claim : Claim) → Surveys survey.old.geometry image survey.old → HoldBetween survey.old.geometry capacity image claim 1 4) }
    ensures states { OnOk result ((image : Image) → Surveys survey.old.geometry image survey.old → AreStates survey.old.geometry image scratch.new.states.items) }
    ensures size { OnOk result (length scratch.new.states.items ≡ survey.old.geometry.blocks) }
    ensures fits { OnOk result (All FitsBlock scratch.new.states.items) }
    ensures err { IfErr result (λ refusal. (capacity : ℕ) (image : Image) (claim : Claim) → Surveys survey.old.geometry image survey.old →
        FailsFrom survey.old.geometry capacity image claim 1 refusal) }
    ensures kind { IfErr result IsOfImage }
    ensures named { IfErr result IsJudgement }
    ensures permutation { IsPermutation survey.old.pairs.items survey.new.pairs.items }
    ensures others { survey.new ≡ record survey.old { pairs = survey.new.pairs } }
{
    judge_image(survey, &mut scratch.table)?;
    count_live(&survey.geometry, &survey.newest, &mut scratch.counts);
    block_states(
        &survey.looks,
        &scratch.table,
        &scratch.counts,
        &mut scratch.states,
    );
    Ok(())
}

/// The state of each block of a die whose pages a survey has seen, once what an image has to be whatever a certificate
/// says of it was looked at: every number is in range, no two sound pages share a sequence, and each table page has a
/// newest page, which is well formed. Takes its memory first, sorts the survey's pairs, and leaves the rest of it.
///
/// # Errors
/// `NumberRange`, `SequenceRepeated`, `NotFormatted` and `TableDamaged`, the first of this order that is so, at the lowest
/// row or page. `OutOfMemory` where a growth was refused. (This project's rules.)
pub fn describe_blocks(alloc: Global, survey: &mut Survey) -> Result<Vec<BlockState>, Refusal>
    requires { IsSized survey.old.geometry (row_count survey.old.geometry) survey.old }
    ensures ok { OnOk result ((capacity : ℕ) (image : Image) (claim : Claim) → Surveys survey.old.geometry image survey.old → HoldBetween survey.old.geometry capacity image claim 1 4) }
    ensures states { IfOk result (λ states. (image : Image) → Surveys survey.old.geometry image survey.old → AreStates survey.old.geometry image states.items) }
    ensures size { IfOk result (λ states. length states.items ≡ survey.old.geometry.blocks) }
    ensures fits { IfOk result (λ states. All FitsBlock states.items) }
    ensures err { IfErr result (λ refusal. (capacity : ℕ) (image : Image) (claim : Claim) → Surveys survey.old.geometry image survey.old →
        IsMemory refusal ⊎ FailsFrom survey.old.geometry capacity image claim 1 refusal) }
    ensures kind { IfErr result IsOfImage }
    ensures permutation { IsPermutation survey.old.pairs.items survey.new.pairs.items }
    ensures others { survey.new ≡ record survey.old { pairs = survey.new.pairs } }
{
    let mut scratch = Scratch::new(alloc, &survey.geometry)?;
    describe(survey, &mut scratch)?;
    Ok(scratch.states)
}

/// Looks at the parts from the second to the last but one in order, and names the first that fails.
pub(crate) fn judge(
    survey: &mut Survey,
    certificate: &Certificate,
    passed: &[bool],
    scratch: &mut Scratch,
) -> Result<(), Refusal>
    requires sized { IsSized survey.old.geometry (row_count survey.old.geometry) survey.old }
    requires certificate { IsCertificateOf survey.old.geometry certificate.now }
    requires passed { length passed.now ≡ survey.old.geometry.sectors }
    requires scratch { IsScratch survey.old.geometry scratch.old }
    ensures ok { OnOk result ((capacity : ℕ) (image : Image) → Surveys survey.old.geometry image survey.old →
        HasPassed (marks image) (row_count survey.old.geometry) certificate.now.sectors passed.now →
        HoldBetween survey.old.geometry capacity image certificate.now 1 11) }
    ensures err { IfErr result (λ refusal. (capacity : ℕ) (image : Image) → Surveys survey.old.geometry image survey.old →
        HasPassed (marks image) (row_count survey.old.geometry) certificate.now.sectors passed.now →
        FailsFrom survey.old.geometry capacity image certificate.now 1 refusal) }
    ensures named { IfErr result IsJudgement }
{
    describe(survey, scratch)?;
    judge_rows(survey, certificate, passed)?;
    judge_blocks(&scratch.states, certificate)?;
    check_next(&survey.pairs, certificate)?;
    Ok(())
}
