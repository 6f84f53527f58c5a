//! What one page is: sound, erased, or neither.
ghost use Rattle.std.specs.Prelude.{◌≡◌, length};
ghost use Rattle.page_layout.specs.Page.{page};
ghost use Rattle.page_layout.specs.Sound.{is_erased_page};
ghost use Rattle.page_layout.specs.PageLook.{look_by, look_of};

use crate::geometry::Geometry;
use crate::record::{Record, is_erased, read_record};

/// What a page is.
#[derive(Clone, Copy, Debug, PartialEq, Eq)]
pub enum PageLook {
    /// Sound, with this record.
    Sound(Record),
    /// As an erase leaves it: all its bytes are FFh.
    Erased,
    /// Neither. It may have been the newest page of anything.
    Unsound,
}

/// What a page is with this data area and this spare area, where `found` is its record.
pub fn look_with(found: Option<Record>, body: &[u8], spare: &[u8]) -> PageLook
    ensures { result ≡ look_by found (is_erased_page (page body.now spare.now)) }
{
    match found {
        Some(found) => PageLook::Sound(found),
        None if is_erased(body, spare) => PageLook::Erased,
        None => PageLook::Unsound,
    }
}

/// What a page is with this data area and this spare area, of the lengths that the geometry says.
#[tactic(auto, unfolding(crate::specs::PageLook::look_of))]
pub fn look_at(geometry: &Geometry, body: &[u8], spare: &[u8]) -> PageLook
    requires body_whole { length body.now ≡ geometry.now.data_bytes }
    requires spare_whole { length spare.now ≡ geometry.now.spare_bytes }
    ensures { result ≡ look_of (page body.now spare.now) }
{
    look_with(read_record(geometry, body, spare), body, spare)
}
