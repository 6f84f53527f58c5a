//! Rows as words of four bytes, lowest byte first, as translation pages and certificates have them
//! (this project's format). FFFFFFFFh stands for no row.

ghost use Rattle.std.specs.Prelude.{◌≡◌, ◌≢◌, ℕ, ◌+◌, ◌*◌, ◌≤◌, length};
ghost use Rattle.page_layout.specs.Word.{row_of_word, word_of_row, IsRow, word_at};

const NO_ROW: u32 = 0xffff_ffff;

/// The row that a word stands for, or `None` where it is FFFFFFFFh.
pub fn row_from(word: u32) -> Option<u32>
    ensures value { result ≡ row_of_word word }
    ensures row { IsRow result }
{
    if word == NO_ROW { None } else { Some(word) }
}

/// The word that stands for a row, or for none. FFFFFFFFh is no row of any die.
pub fn word_from(row: Option<u32>) -> u32
    ensures { result ≡ word_of_row row }
{
    match row {
        Some(row) => row,
        None => NO_ROW,
    }
}

/// Word `i` of a page, counted from 0: its bytes `4 * i` to `4 * i + 3`.
pub fn read_word(page: &[u8], i: u32) -> u32
    requires { 4 * i + 4 ≤ length page.now }
    ensures { result ≡ word_at page.now (4 * i) }
{
    let at = 4 * i as usize;
    u32::from_le_bytes([page[at], page[at + 1], page[at + 2], page[at + 3]])
}

/// Writes word `i` of a page, and leaves every other word.
pub fn write_word(page: &mut [u8], i: u32, word: u32)
    requires { 4 * i + 4 ≤ length page.old }
    ensures written { word_at page.new (4 * i) ≡ word }
    ensures others { (k : ℕ) → k ≢ i → word_at page.new (4 * k) ≡ word_at page.old (4 * k) }
{
    let at = 4 * i as usize;
    page[at..at + 4].copy_from_slice(&word.to_le_bytes());
}
