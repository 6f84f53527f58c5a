//! The survey of a dump.
ghost use Rattle.std.specs.Prelude.{◌≡◌, ℕ, ◌<◌, true, length, get_or, Err, IfOk, IfErr, IfSome, IsPermutation, option_map};
ghost use Rattle.page_layout.specs.Geometry.{row_count};
ghost use Rattle.page_layout.specs.Page.{Image};
ghost use Rattle.image_check.specs.Room.{IsScratch};
ghost use Rattle.image_check.specs.Surveyed.{IsSized, Surveys};
ghost use Rattle.lab_dump.specs.declared.held.KeyState.TheVariants.{Absent};
ghost use Rattle.lab_dump.specs.declared.trace.Trace.TheVariants.{Never};
ghost use Rattle.lab_dump.specs.Noted.{SeeingStands, ShowsDump};
ghost use Rattle.lab_dump.specs.Rooms.{IsSurveyRoom};
ghost use Rattle.lab_dump.specs.Surveyed.{BlocksAs, IsSurveyed, IsSurveyOf, IsSurveyWhole, IsUnsurveyed, MountsLaw};
ghost use Rattle.lab_dump.specs.Trace.{key_state_in};

use crate::counts::PageCounts;
use crate::doubts::Unsettled;
use crate::held::KeyState;
use crate::pass::{PassFault, scan_rows};
use crate::repeated::shared_sequence;
use crate::rows::Rows;
use crate::seeing::Seeing;
use crate::trace::Trace;
use certificate::BlockState;
use image_check::{DumpReader, Scratch, Survey, describe};
use page_layout::geometry::Geometry;
use std::alloc::{AllocError, Global};
use thiserror::Error;

/// Why a dump was not surveyed.
#[derive(Clone, Copy, Debug, PartialEq, Eq, Error)]
pub enum SurveyFault {
    /// The dump has not as many bytes as the die's pages have.
    #[error("the dump has not as many bytes as the geometry says")]
    WrongLength,
    /// A read of the dump failed, or was interrupted.
    #[error("the dump could not be read")]
    Source,
}

impl From<PassFault> for SurveyFault {
    ghost use Rattle.lab_dump.specs.Surveyed.{survey_fault_of};

    ghost from_gives = { λ scan fault. fault ≡ survey_fault_of scan };

    fn from(fault: PassFault) -> SurveyFault {
        match fault {
            PassFault::WrongLength => SurveyFault::WrongLength,
            PassFault::Source | PassFault::Stopped => SurveyFault::Source,
        }
    }
}

/// What a dump tells of its die.
#[derive(Drop)]
pub struct DieSurvey {
    /// How many pages are of each sort.
    pub counts: PageCounts,
    /// The rows of two sound pages that share a sequence, if some do: of all such pairs the one whose second row is lowest.
    pub repeated: Option<(u32, u32)>,
    /// How each key stands: the sectors, then the translation pages, then the table pages.
    pub keys: Vec<KeyState>,
    /// Of each table page that has a newest page, whether that is well formed.
    pub formed: Vec<bool>,
    /// Of each block how many pages are neither erased nor sound.
    pub unsound: Vec<u32>,
    /// The state of each block, where every number is in range, no two sound pages share a sequence, and each table page has a newest page,
    /// which is well formed.
    pub blocks: Option<Vec<BlockState>>,
    /// What the dump leaves open.
    pub left: Unsettled,
}

/// A die mounts for a cache of at least as many entries as there are stale sectors, and of 1 to 65,536, just where its survey has no reason
/// against it.
pub fn mounts_law()
    ensures { MountsLaw }
{}

// Notes how each key stands.
fn note_keys(traces: &[Trace], keys: &mut [KeyState])
    requires room { length keys.old ≡ length traces.now }
    ensures size { length keys.new ≡ length traces.now }
    ensures each { (i : ℕ) → i < length traces.now → get_or keys.new i Absent ≡ key_state_in (get_or traces.now i Never) }
{
    for i in 0..traces.len() {
        keys[i] = traces[i].state();
    }
}

// The state of each block, where the pages have none of the first three faults.
fn blocks_of(survey: &mut Survey, mut scratch: Scratch) -> Option<Vec<BlockState>>
    requires sized { IsSized survey.old.geometry (row_count survey.old.geometry) survey.old }
    requires scratch { IsScratch survey.old.geometry scratch }
    ensures blocks { (image : Image) → Surveys survey.old.geometry image survey.old → BlocksAs survey.old.geometry image (option_map (λ states. states.items) result) }
    ensures size { IfSome result (λ states. length states.items ≡ survey.old.geometry.blocks) }
    ensures permutation { IsPermutation survey.old.pairs.items survey.new.pairs.items }
{
    match describe(survey, &mut scratch) {
        Ok(()) => Some(scratch.states),
        Err(_) => None,
    }
}

// What was seen in the end. It takes no memory.
fn conclude(geometry: &Geometry, seeing: Seeing) -> DieSurvey
    requires { SeeingStands geometry.now (row_count geometry.now) seeing }
    ensures whole { IsSurveyWhole geometry.now result }
    ensures survey { (image : Image) → length image ≡ row_count geometry.now → ShowsDump geometry.now (row_count geometry.now) image seeing → IsSurveyed geometry.now image result }
{
    let (mut survey, mut keys, mut doubting) = (seeing.survey, seeing.keys, seeing.doubting);
    note_keys(&doubting.traces, &mut keys);
    let blocks = blocks_of(&mut survey, seeing.scratch);
    let repeated = shared_sequence(&mut survey.pairs);
    let doubts = doubting.conclude(geometry);
    let left = Unsettled {
        doubts,
        legible: doubting.legible,
        said: doubting.said,
    };
    DieSurvey {
        counts: seeing.counts,
        repeated,
        keys,
        formed: seeing.formed,
        left,
        unsound: doubting.unsound,
        blocks,
    }
}

/// The memory of a survey, for a die of one geometry. (This project's.)
#[derive(Drop)]
pub struct SurveyRoom {
    // the page at hand
    pub(crate) body: Vec<u8>,
    pub(crate) spare: Vec<u8>,
    // what was seen so far
    pub(crate) seeing: Seeing,
}

impl SurveyRoom {
    ghost use Rattle.std.specs.Prelude.{IfOk};
    ghost use Rattle.lab_dump.specs.Rooms.{IsSurveyRoom};

    /// All the memory that a survey of a die of this geometry takes.
    ///
    /// # Errors
    ///
    /// Where a growth was refused. (This project's.)
    pub fn new(alloc: Global, geometry: &Geometry) -> Result<SurveyRoom, AllocError>
        ensures { IfOk result (IsSurveyRoom geometry.now) }
    {
        Ok(SurveyRoom {
            body: vec![in alloc; 0; geometry.data_bytes()]?,
            spare: vec![in alloc; 0; geometry.spare_bytes()]?,
            seeing: Seeing::new(alloc, geometry)?,
        })
    }
}

/// Surveys a dump in one pass over its pages, as if each page of a row that is not asked for were erased; where no rows are named, each is asked
/// for. The dump is read whole, and only pages of rows asked for are hashed. It takes no memory but that of the room.
///
/// # Errors
///
/// Each when it happens: `WrongLength` where the dump's bytes ended before the last page or a byte follows it, `Source` where a read failed or was
/// interrupted. (This project's rules.)
pub fn survey_dump<R: DumpReader>(
    room: SurveyRoom,
    reader: &mut R,
    geometry: &Geometry,
    rows: Option<Rows>,
) -> Result<DieSurvey, SurveyFault>
    requires { IsSurveyRoom geometry.now room }
    ensures whole { IfOk result (IsSurveyWhole geometry.now) }
    ensures ok { IfOk result (λ survey. IfSome (R.remaining reader.old) (IsSurveyOf geometry.now rows survey)) }
    ensures err { IfErr result (λ fault. IfSome (R.remaining reader.old) (IsUnsurveyed geometry.now fault)) }
    ensures source { result ≡ Err SurveyFault.Source → R.failed reader.new ≡ true }
{
    let (mut body, mut spare, mut seeing) = (room.body, room.spare, room.seeing);
    scan_rows(reader, geometry, rows, &mut seeing, &mut body, &mut spare)?;
    Ok(conclude(geometry, seeing))
}
