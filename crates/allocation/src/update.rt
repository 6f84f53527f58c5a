//! A row is taken, a page becomes live or old, a block is retired or freed.
ghost use Rattle.std.specs.Prelude.{◌≡◌};
ghost use Rattle.allocation.specs.Step.{open_without};

use crate::blocks::Blocks;
use crate::fill::Fill;
use budget::Stream;

// An open block, unless it is this one.
fn other_than(block: u32, open: Option<u32>) -> Option<u32>
    ensures { result ≡ open_without «open» block }
{
    open.filter(|open| *open != block)
}

impl Blocks {
    ghost use Rattle.std.specs.Prelude.{◌≡◌, ℕ, ◌+◌, ◌-◌, ◌<◌, true, min, MatchOption, IfSome, IfNone};
    ghost use Rattle.page_layout.specs.Geometry.{row_count};
    ghost use Rattle.bad_blocks.specs.Table.{is_good_at};
    ghost use Rattle.budget.specs.Counts.{TakesOne, Erased};
    ghost use Rattle.allocation.specs.State.{free_count, open_of, is_closed, live_at};
    ghost use Rattle.allocation.specs.Step.{TakesNextRow, HasNone, IsNextBlock, taken, with_open, without, erased, with_live, most_live};
    ghost use Rattle.allocation.specs.Counts.{counts_of};
    ghost use Rattle.allocation.specs.View.{state};

    // The block that the stream writes to next.
    fn next_block(&self, stream: Stream) -> Option<u32>
        ensures { MatchOption result (HasNone (state self.now) stream) (IsNextBlock (state self.now) stream) }
    {
        match self.open(stream) {
            Some(block) => Some(block),
            None => self.least_worn(),
        }
    }

    // Moves past the next page of the stream's block, which is closed with its last page.
    fn advance(&mut self, stream: Stream, block: u32)
        requires { IsNextBlock (state self.old) stream block }
        ensures { state self.new ≡ taken stream block (state self.old) }
    {
        let fill = self.fills[block as usize];
        let next = fill.pointer + 1;
        let open = (next < self.geometry.pages()).then_some(block);
        self.free -= u32::from(fill.pointer == 0);
        self.fills[block as usize] = Fill {
            pointer: next,
            live: fill.live,
        };
        match stream {
            Stream::Data => self.data_open = open,
            Stream::Meta => self.meta_open = open,
        }
    }

    /// The row that the stream programs next: the next page of its open block, or the first of a
    /// free block that is opened for it, the least worn and of these the one of lowest number. The
    /// block is closed with its last page.
    ///
    /// There is none where the stream has no block open and none is free; then nothing changes.
    pub fn take_row(&mut self, stream: Stream) -> Option<u32>
        ensures none { IfNone result (HasNone (state self.old) stream × (state self.new ≡ state self.old)) }
        ensures some { IfSome result (λ row. TakesNextRow stream row (state self.old) (state self.new)) }
        ensures within { IfSome result (λ row. row < row_count (state self.old).geometry) }
        ensures counted { IfSome result (λ _. TakesOne stream (state self.old).geometry.pages
            (counts_of (state self.old)) (counts_of (state self.new))) }
    {
        let block = self.next_block(stream)?;
        let page = self.fills[block as usize].pointer;
        let row = self.geometry.row(block, page);
        self.advance(stream, block);
        Some(row)
    }

    /// Counts one more live page of a block, up to `u32::MAX`.
    pub fn live_up(&mut self, block: u32)
        requires { block < (state self.old).geometry.blocks }
        ensures { state self.new ≡
            with_live block (min (live_at (state self.old) block + 1) most_live) (state self.old) }
    {
        let live = self.fills[block as usize].live;
        self.fills[block as usize].live = live.saturating_add(1);
    }

    /// Counts one live page of a block less, down to none.
    pub fn live_down(&mut self, block: u32)
        requires { block < (state self.old).geometry.blocks }
        ensures { state self.new ≡
            with_live block (live_at (state self.old) block - 1) (state self.old) }
    {
        let live = self.fills[block as usize].live;
        self.fills[block as usize].live = live.saturating_sub(1);
    }

    /// A program or an erase of a good block failed: it is grown bad from now on, and neither open
    /// nor free.
    pub fn retire(&mut self, block: u32)
        requires within { block < (state self.old).geometry.blocks }
        requires good { is_good_at (state self.old).table block ≡ true }
        ensures is { state self.new ≡ without block (state self.old) }
        ensures counted { is_closed (state self.old) block ≡ true →
            Erased 1 (counts_of (state self.old)) (counts_of (state self.new)) }
    {
        self.free -= u32::from(self.is_free(block));
        self.table.retire(block);
        self.data_open = other_than(block, self.data_open);
        self.meta_open = other_than(block, self.meta_open);
    }

    /// An erase of a closed block passed: it is free, and its erase count is one more, up to the
    /// greatest that a table page can hold.
    pub fn freed(&mut self, block: u32)
        requires within { block < (state self.old).geometry.blocks }
        requires closed { is_closed (state self.old) block ≡ true }
        ensures is { state self.new ≡ erased block (state self.old) }
        ensures counted { Erased 0 (counts_of (state self.old)) (counts_of (state self.new)) }
    {
        self.table.count_erase(block);
        self.fills[block as usize].pointer = 0;
        self.free += 1;
    }
}
