//! Where pages come from: the trait of what puts out pages one by one, and a raw image in memory.

ghost use Rattle.std.specs.Prelude.{◌≡◌, ◌*◌, ◌+◌, length, ℕ, ◌<◌, slice_index};
ghost use Rattle.page_layout.specs.Geometry.{row_count, page_bytes};

use crate::geometry::Geometry;
use std::marker::Model;
use thiserror::Error;

/// A page read failed. The number is the device's own, such as that of a bus fault; what it means is
/// said where the source is.
#[derive(Clone, Copy, Debug, PartialEq, Eq, Error)]
#[error("SourceFault {0}")]
pub struct SourceFault(pub u8);

/// Why bytes are no raw image of a die.
#[derive(Clone, Copy, Debug, PartialEq, Eq, Error)]
pub enum ImageFault {
    /// They are not as many as the die's pages have.
    #[error("WrongLength")]
    WrongLength,
}

/// A die's pages, which can be read one by one, by row.
///
/// What a contract says of the pages it says of an honest source: one that puts out the pages of its
/// image and leaves it as it is. A source stays honest or not for good. Of another source nothing is
/// known but how often it was read, and that each fault raises its count of faults.
pub trait PageSource {
    ghost use Rattle.std.specs.Prelude.{◌≡◌, ◌<◌, ◌≤◌, true, [], length, slice_get, is_ok, OnOk, OnErr, Some};
    ghost use Rattle.page_layout.specs.Recording.{EndsAt};
    ghost use Rattle.page_layout.specs.Page.{page, IsImage};
    ghost use Rattle.page_layout.specs.View.{View};
    ghost use Rattle.page_layout.specs.DieCalls.{ReadCall};
    ghost use Rattle.page_layout.specs.Counter.{counted, HasRisen};

    /// What contracts say of it, each word by its name.
    ///
    /// - `flash`, what stands in it: its geometry, its pages and, for a die, the next page of each block. A source that is no die has
    ///   no next pages.
    /// - `recorded`, the record that it tells of its programs and erases, or none. None claims nothing.
    /// - `honest`: whether it is honest.
    /// - `calm`, a word that a source may give to a die that nothing can make fail. Of any source this only says that no call changes
    ///   it; what it means stands in the contract of the type that defines it.
    /// - `reads`, `programs`, `erases`: what was asked for so far, failed ones too; `failed`: the faults so far. Each of these counts stays
    ///   at `2^64 - 1` once there.
    /// - `called`, that it was asked so: in this state, by this call with its answer, and left in that state. A source says here of its calls
    ///   what it likes, or nothing; what is proved of callers over any source they ask therefore by these very calls.
    ghost view: { View Self };

    /// Reads the page of a row: its data area into `body` and its spare area into `spare`, whose
    /// lengths are those of the geometry. It programs and erases nothing.
    ///
    /// # Errors
    ///
    /// A fault comes only where the count of faults rises or stands at its greatest value. The
    /// buffers then hold anything, and nothing is known of the image.
    fn read_page(&mut self, row: u32, body: &mut [u8], spare: &mut [u8]) -> Result<(), SourceFault>
        requires row_in { row < row_count (view.flash self.old).geometry }
        requires body_whole { length body.old ≡ (view.flash self.old).geometry.data_bytes }
        requires spare_whole { length spare.old ≡ (view.flash self.old).geometry.spare_bytes }
        ensures called { view.called self.old (ReadCall row (is_ok result)) self.new }
        ensures page { OnOk result (view.honest self.old ≡ true → slice_get (view.flash self.old).image row ≡ Some (page body.new spare.new)) }
        ensures same { OnOk result (view.honest self.old ≡ true → view.flash self.new ≡ view.flash self.old) }
        ensures whole { OnOk result (view.honest self.old ≡ true → IsImage (view.flash self.new).geometry (view.flash self.new).image) }
        ensures recorded { OnOk result (view.honest self.old ≡ true → view.recorded self.new ≡ view.recorded self.old) }
        ensures cut { OnErr result (view.honest self.old ≡ true → EndsAt [] (view.recorded self.old) (view.recorded self.new)) }
        ensures geometry { (view.flash self.new).geometry ≡ (view.flash self.old).geometry }
        ensures honest { view.honest self.new ≡ view.honest self.old }
        ensures calm { view.calm self.new ≡ view.calm self.old }
        ensures reads { view.reads self.new ≡ counted (view.reads self.old) }
        ensures programs { view.programs self.new ≡ view.programs self.old }
        ensures erases { view.erases self.new ≡ view.erases self.old }
        ensures failed { view.failed self.old ≤ view.failed self.new }
        ensures rose { OnErr result (HasRisen (view.failed self.old) (view.failed self.new)) };

    /// The faults so far.
    fn failures(&self) -> u64
        ensures { result ≡ view.failed self.now };
}

/// The pages of a raw image in memory: in row order, each its data area and then its spare area. It is
/// an honest source that never fails.
#[derive(Drop)]
pub struct ImageSlice<'a> {
    geometry: Geometry,
    bytes: &'a [u8],
    reads: u64,
}

impl<'a> Model for ImageSlice<'a> {
    ghost use Rattle.page_layout.specs.Raw.{Slice, IsRaw, raw_image, still};

    ghost Value = { Slice };

    ghost view = { λ s. record { flash = still s.geometry (raw_image s.geometry s.bytes.now); reads = s.reads } };

    ghost invariant = { λ s. IsRaw s.geometry s.bytes.now };
}

impl<'a> ImageSlice<'a> {
    ghost use Rattle.std.specs.Prelude.{◌≡◌, ◌≢◌, ◌*◌, ◌<◌, ◌↔◌, IfOk, IsOk, length, slice_get, Some};
    ghost use Rattle.page_layout.specs.Page.{page, IsImage};
    ghost use Rattle.page_layout.specs.Raw.{raw_image, still};

    /// The pages of these bytes, of which none was read yet.
    ///
    /// # Errors
    ///
    /// `WrongLength` where the bytes are not as many as the pages of the geometry have together.
    pub fn new(geometry: &Geometry, bytes: &'a [u8]) -> Result<ImageSlice<'a>, ImageFault>
        ensures image { IfOk result (λ slice. slice.flash ≡ still geometry.now (raw_image geometry.now bytes.now)) }
        ensures reads { IfOk result (λ slice. slice.reads ≡ 0) }
        ensures accepted { IsOk result ↔ (length bytes.now ≡ row_count geometry.now * page_bytes geometry.now) }
    {
        let rows = geometry.blocks() as usize * geometry.pages() as usize;
        if bytes.len() != rows * (geometry.data_bytes() + geometry.spare_bytes()) {
            return Err(ImageFault::WrongLength);
        }
        Ok(ImageSlice {
            geometry: *geometry,
            bytes,
            reads: 0,
        })
    }

    /// The geometry that it was made with.
    pub fn geometry(&self) -> Geometry
        ensures is { result ≡ self.now.flash.geometry }
        ensures whole { IsImage self.now.flash.geometry self.now.flash.image }
    {
        self.geometry
    }

    /// The data area and the spare area of the page of a row, lent without copying.
    #[tactic(auto, using(crate::proofs::RawLemmas::raw_page))]
    pub fn page(&self, row: u32) -> (&'a [u8], &'a [u8])
        requires { row < row_count self.now.flash.geometry }
        ensures page { slice_get self.now.flash.image row ≡ Some (page result.0.now result.1.now) }
        ensures body_whole { length result.0.now ≡ self.now.flash.geometry.data_bytes }
        ensures spare_whole { length result.1.now ≡ self.now.flash.geometry.spare_bytes }
    {
        let data_bytes = self.geometry.data_bytes();
        let page_bytes = data_bytes + self.geometry.spare_bytes();
        let at = row as usize * page_bytes;
        let bytes = self.bytes;
        (
            &bytes[at..at + data_bytes],
            &bytes[at + data_bytes..at + page_bytes],
        )
    }
}

impl PageSource for ImageSlice<'_> {
    ghost use Rattle.std.specs.Prelude.{true, ⊤, ◌≡◌, ◌<◌, IsOk, length, slice_get, Some, None, false};
    ghost use Rattle.page_layout.specs.Page.{page, IsImage};
    ghost use Rattle.page_layout.specs.Counter.{counted};

    ghost view = { record {
      flash = λ s. s.flash;
      recorded = λ _. None;
      honest = λ _. true;
      calm = λ _. false;
      reads = λ s. s.reads;
      programs = λ _. 0;
      erases = λ _. 0;
      failed = λ _. 0;
      called = λ _ _ _. ⊤;
    } };

    fn read_page(&mut self, row: u32, body: &mut [u8], spare: &mut [u8]) -> Result<(), SourceFault>
        requires row_in { row < row_count self.old.flash.geometry }
        requires body_whole { length body.old ≡ self.old.flash.geometry.data_bytes }
        requires spare_whole { length spare.old ≡ self.old.flash.geometry.spare_bytes }
        ensures never_fails { IsOk result }
        ensures page { slice_get self.old.flash.image row ≡ Some (page body.new spare.new) }
        ensures same { self.new.flash ≡ self.old.flash }
        ensures whole { IsImage self.new.flash.geometry self.new.flash.image }
        ensures reads { self.new.reads ≡ counted self.old.reads }
    {
        let (page_body, page_spare) = self.page(row);
        body.copy_from_slice(page_body);
        spare.copy_from_slice(page_spare);
        self.reads = self.reads.saturating_add(1);
        Ok(())
    }

    fn failures(&self) -> u64 {
        0
    }
}
