//! The directory: the row of each translation page and of each table page.
ghost use Rattle.std.specs.Prelude.{◌≡◌, ◌<◌, Some, IfOk, length, map, slice_get, slice_set};
ghost use Rattle.translation_pages.specs.TranslationPage.{row_of_word, IsRow};

use page_layout::word::{row_from, word_from};
use std::alloc::{AllocError, Global};
use std::marker::Model;

/// Where the newest translation pages and table pages lie. Of `T` translation pages and `U` table
/// pages, translation page `t` has key `t` and table page `u` has key `T + u`. Contracts see the
/// list of their rows, by key.
///
/// Source: the global translation directory of the DFTL paper; that it holds the table pages too is
/// this project's.
#[derive(Drop)]
pub struct Directory {
    words: Vec<u32>,
}

impl Model for Directory {
    ghost use Rattle.std.specs.Prelude.{ℕ, List, Option, map};
    ghost use Rattle.translation_pages.specs.TranslationPage.{row_of_word};

    ghost Value = { List (Option ℕ) };

    ghost view = { λ d. map row_of_word d.words.items };
}

impl Directory {
    /// A directory with these rows, of which FFFFFFFFh means none. It alone takes memory, and fails
    /// for want of it alone.
    pub fn new(alloc: Global, words: &[u32]) -> Result<Directory, AllocError>
        ensures { IfOk result (λ d. d ≡ map row_of_word words.now) }
    {
        Ok(Directory {
            words: Vec::from_slice(alloc, words)?,
        })
    }

    /// The row of a key, or none where its page was never written.
    pub fn row_of(&self, key: u32) -> Option<u32>
        requires { key < length self.now }
        ensures value { slice_get self.now key ≡ Some result }
        ensures row { IsRow result }
    {
        row_from(self.words[key as usize])
    }

    /// Sets the row of a key, and leaves every other key's. A row is below FFFFFFFFh.
    pub fn set(&mut self, key: u32, row: Option<u32>)
        requires within { key < length self.old }
        requires row { IsRow row }
        ensures { self.new ≡ slice_set self.old key row }
    {
        self.words[key as usize] = word_from(row);
    }
}
