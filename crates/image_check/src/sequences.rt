//! Sound pages that share a sequence.
ghost use Rattle.std.specs.Prelude.{◌≡◌, None, ℕ, ◌<◌, length, OnOk, IfErr, IfNone, IfSome, IsPermutation};
ghost use Rattle.page_layout.specs.Page.{Image};
ghost use Rattle.page_layout.specs.OneArray.{AreDistinct};
ghost use Rattle.page_layout.specs.Array.{marks};
ghost use Rattle.page_layout.specs.Geometry.{row_count};
ghost use Rattle.page_layout.specs.declared.geometry.Geometry.{Geometry};
ghost use Rattle.certificate.specs.Claim.{Claim};
ghost use Rattle.image_check.specs.Survey.{pairs_below};
ghost use Rattle.image_check.specs.Pairs.{AreInOrder, DifferBelow, IsLowestBelow};
ghost use Rattle.image_check.specs.Refused.{IsWrong, Sequences, IsJudgement, IsOfImage};

use crate::refusal::Refusal;

// Puts the pairs in the order of their sequences, and of their rows where those are the same.
fn sort_pairs(pairs: &mut [(u64, u32)])
    ensures permutation { IsPermutation pairs.old pairs.new }
    ensures sorted { AreInOrder pairs.new }
{
    pairs.sort_unstable();
}

// Of the neighbours that share a sequence those whose second row is lowest.
fn find_repeated(pairs: &[(u64, u32)]) -> Option<(u32, u32)>
    ensures none { IfNone result (DifferBelow (length pairs.now) pairs.now) }
    ensures found { IfSome result (λ rows. IsLowestBelow (length pairs.now) pairs.now rows.0 rows.1) }
{
    let mut lowest: Option<(u32, u32)> = None;
    for i in 1..pairs.len() {
        let (first, second) = (pairs[i - 1], pairs[i]);
        if first.0 == second.0 {
            lowest = match lowest {
                Some(found) if found.1 <= second.1 => lowest,
                _ => Some((first.1, second.1)),
            };
        }
    }
    lowest
}

/// The rows of two pages that share a sequence, if some do: those whose second row is lowest. `pairs` are the sequence and the row of each page, in
/// whatever order. They are sorted. (This project's.)
pub fn first_repeated(pairs: &mut [(u64, u32)]) -> Option<(u32, u32)>
    ensures permutation { IsPermutation pairs.old pairs.new }
    ensures sorted { AreInOrder pairs.new }
    ensures none { IfNone result (DifferBelow (length pairs.new) pairs.new) }
    ensures found { IfSome result (λ rows. IsLowestBelow (length pairs.new) pairs.new rows.0 rows.1) }
{
    sort_pairs(pairs);
    find_repeated(pairs)
}

/// No two sound pages share a sequence. Leaves the pairs sorted.
pub(crate) fn check_sequences(pairs: &mut [(u64, u32)]) -> Result<(), Refusal>
    ensures ok { OnOk result ((g : Geometry) (image : Image) → length image ≡ row_count g → pairs.old ≡ pairs_below (marks image) (row_count g) → AreDistinct (marks image)) }
    ensures err { IfErr result (λ refusal. (g : Geometry) (capacity : ℕ) (image : Image) (claim : Claim) → length image ≡ row_count g →
        pairs.old ≡ pairs_below (marks image) (row_count g) → IsWrong g capacity image claim Sequences refusal) }
    ensures named { IfErr result IsJudgement }
    ensures kind { IfErr result IsOfImage }
    ensures permutation { IsPermutation pairs.old pairs.new }
{
    match first_repeated(pairs) {
        Some((first, second)) => Err(Refusal::SequenceRepeated { first, second }),
        None => Ok(()),
    }
}
