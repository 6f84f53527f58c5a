//! The entries of one translation page.
ghost use Rattle.std.specs.Prelude.{◌≡◌, ◌≢◌, ℕ, ◌+◌, ◌*◌, ◌≤◌, true, Some, None, List, Option, length, slice_get, slice_set, All};
ghost use Rattle.page_layout.specs.Sound.{is_filled};
ghost use Rattle.translation_pages.specs.TranslationPage.{row_of_word, entry_at, entries_of, translation_bytes, IsRow, OneSpellingLaw};

use page_layout::word::{read_word, row_from, word_from, write_word};

/// The row in entry `i` of a translation page, or none where the sector was never written.
///
/// `page` has four bytes for each entry, of which entry `i` is one. An erased page, all of FFh, has
/// no row in any entry.
///
/// Source: this project, after the translation pages of the DFTL paper.
pub fn entry(page: &[u8], i: u32) -> Option<u32>
    requires { 4 * i + 4 ≤ length page.now }
    ensures value { result ≡ entry_at page.now i }
    ensures row { IsRow result }

    // A page that spells a list of entries gives that list, and every page spells its own entries.
    ensures spelled { (es : List (Option ℕ)) → All IsRow es → page.now ≡ translation_bytes es →
        slice_get es i ≡ Some result }
    ensures spells { (n : ℕ) → length page.now ≡ 4 * n →
        page.now ≡ translation_bytes (entries_of n page.now) }
    ensures erased { is_filled page.now ≡ true → result ≡ None }
{
    row_from(read_word(page, i))
}

/// Writes a row, or none, into entry `i` of a translation page, and leaves every other entry.
///
/// `page` has four bytes for each entry, of which entry `i` is one; a row is below FFFFFFFFh.
///
/// Source: this project.
pub fn patch(page: &mut [u8], i: u32, row: Option<u32>)
    requires within { 4 * i + 4 ≤ length page.old }
    requires row { IsRow row }
    ensures written { entry_at page.new i ≡ row }
    ensures others { (k : ℕ) → k ≢ i → entry_at page.new k ≡ entry_at page.old k }
    ensures spelled { (es : List (Option ℕ)) → page.old ≡ translation_bytes es →
        page.new ≡ translation_bytes (slice_set es i row) }
{
    write_word(page, i, word_from(row));
}

/// Entries are spelled in one way only.
pub fn spelling_law()
    ensures { OneSpellingLaw }
{}
