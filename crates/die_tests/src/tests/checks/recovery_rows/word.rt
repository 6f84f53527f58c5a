//! Rows as words of a page.
use super::hold;
use page_layout::word::{read_word, row_from, word_from, write_word};

// A row that is written as word 1 of three, and the page's bytes then.
static WRITTEN: [(Option<u32>, [u8; 12]); 2] = [
    (
        Some(8),
        [
            0xFF, 0xFF, 0xFF, 0xFF, 0x08, 0x00, 0x00, 0x00, 0xFF, 0xFF, 0xFF, 0xFF,
        ],
    ),
    (None, [0xFF; 12]),
];

// The rows that the words 1 and 2 stand for.
fn rows_of(page: &[u8; 12]) -> [Option<u32>; 2] {
    [row_from(read_word(page, 1)), row_from(read_word(page, 2))]
}

#[test]
fn row_8_and_no_row(rt: HostRuntime) {
    let mut page = [0xFF; 12];
    hold(&rt, &"no row yet", &rows_of(&page), &[None, None]);
    for (row, bytes) in &WRITTEN {
        write_word(&mut page, 1, word_from(*row));
        hold(&rt, row, &page, bytes);
        hold(&rt, row, &rows_of(&page), &[*row, None]);
    }
}
