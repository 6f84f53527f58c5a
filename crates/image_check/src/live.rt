//! How many keys have their newest page in each block.
ghost use Rattle.std.specs.Prelude.{◌≡◌, ℕ, ◌+◌, ◌<◌, ◌^◌, length, count_by, slice_index};
ghost use Rattle.page_layout.specs.Geometry.{key_count};
ghost use Rattle.page_layout.specs.Page.{Image};
ghost use Rattle.image_check.specs.Newest.{place_in};
ghost use Rattle.image_check.specs.Survey.{AreLiveCounts};
ghost use Rattle.image_check.specs.Surveyed.{SurveysKeys};
ghost use Rattle.page_layout.specs.Live.{is_in_block};

use crate::newest::Newest;
use page_layout::geometry::Geometry;

// Counts, for each block, the newest pages in it.
fn count_rows(newest: &[Newest], pages: u32, counts: &mut [u32])
    requires pages { 0 < pages }
    requires few { length newest.now < 2 ^ 32 }
    requires zeros { (b : ℕ) → slice_index counts.old b ≡ 0 }
    ensures { (b : ℕ) → b < length counts.new → slice_index counts.new b ≡ count_by (λ latest. is_in_block pages b (place_in latest)) newest.now }
{
    for latest in newest {
        if let Some(row) = latest.row() {
            let block = (row / pages) as usize;
            if block < counts.len() {
                counts[block] += 1;
            }
        }
    }
}

/// Counts, for each block, how many keys have their newest page in it.
pub(crate) fn count_live(geometry: &Geometry, newest: &[Newest], counts: &mut [u32])
    requires newest { length newest.now ≡ key_count geometry.now }
    requires size { length counts.old ≡ geometry.now.blocks }
    requires zeros { (b : ℕ) → slice_index counts.old b ≡ 0 }
    ensures { (image : Image) → SurveysKeys geometry.now image newest.now → AreLiveCounts geometry.now image counts.new }
{
    count_rows(newest, geometry.pages(), counts);
}
