//! Sound pages that share a sequence.
ghost use Rattle.std.specs.Prelude.{◌≡◌, ℕ, List, length, IsPermutation};
ghost use Rattle.page_layout.specs.Geometry.{row_count};
ghost use Rattle.page_layout.specs.Page.{Image};
ghost use Rattle.page_layout.specs.Array.{marks};
ghost use Rattle.page_layout.specs.declared.geometry.Geometry.{Geometry};
ghost use Rattle.image_check.specs.Survey.{pairs_below};
ghost use Rattle.lab_dump.specs.Surveyed.{RepeatsAs};

use image_check::first_repeated;

// The rows of two sound pages that share a sequence, if some do: those whose second row is lowest. `pairs` are the sequence and the row
// of each sound page, in whatever order. They are sorted.
pub(crate) fn shared_sequence(pairs: &mut [(u64, u32)]) -> Option<(u32, u32)>
    ensures { (g : Geometry) (image : Image) (pairs_of : List (ℕ × ℕ)) → length image ≡ row_count g → pairs_of ≡ pairs_below (marks image) (row_count g) → IsPermutation pairs_of pairs.old → RepeatsAs (marks image) result }
{
    first_repeated(pairs)
}
