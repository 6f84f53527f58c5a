//! A page is programmed, in whatever block takes it.
ghost use Rattle.std.specs.Prelude.{◌≡◌, ◌≢◌, ◌+◌, ◌<◌, ◌^◌, true, length, Some, None, Err, IfOk, IfSome, OnOk, MatchResult};
ghost use Rattle.std.specs.Option.{ForSome};
ghost use Rattle.page_layout.specs.Key.{key_from, key_of};
ghost use Rattle.page_layout.specs.Page.{Image};
ghost use Rattle.page_layout.specs.Geometry.{row_count};
ghost use Rattle.page_layout.specs.Array.{array_of};
ghost use Rattle.page_layout.specs.Live.{IsKeyOf};
ghost use Rattle.budget.specs.Stream.{stream_of};
ghost use Rattle.allocation.specs.View.{state};
ghost use Rattle.collection.specs.Pages.{newest_row};
ghost use Rattle.collection.specs.Safe.{IsSafe, IsOutside, ram, image_in, page_in_buffer};
ghost use Rattle.collection.specs.Maps.{IsPageFor};
ghost use Rattle.collection.specs.Truth.{IsTrue};
ghost use Rattle.collection.specs.Settle.{IsCachedKey};
ghost use Rattle.collection.specs.Cost.{moved_live, TryCosts, PutCosts};
ghost use Rattle.collection.specs.Results.{MayPut, Attempted, Refused, GoesPut, IsPut, IsLastPage, array_after};
ghost use Rattle.collection.specs.Acts.{EngineActs, Stands, OnlyPrograms};
ghost use Rattle.collection.specs.Stops.{Cuts, IsKeptOr, IsKeptOrPut, Stops};

use super::Engine;
use super::operations::program_record;
use crate::fault::{EngineFault, WriteFault};
use allocation::{Blocks, Stream};
use onfi_cycles::{Nand, Outcome};
use page_layout::geometry::Geometry;
use page_layout::record::{Key, Kind, Record};

/// A key's newest page is in this block now, and no longer in its old row.
fn count_move(blocks: &mut Blocks, geometry: &Geometry, old_row: Option<u32>, block: u32)
    requires same_geometry { (state blocks.old).geometry ≡ geometry.now }
    requires block { block < geometry.now.blocks }
    requires old_row { ForSome old_row (λ r. r < row_count geometry.now) }
    ensures { state blocks.new ≡ moved_live old_row block (state blocks.old) }
{
    if let Some(row) = old_row {
        let (old_block, _) = geometry.split_row(row);
        blocks.live_down(old_block);
    }
    blocks.live_up(block);
}

impl<N: Nand> Engine<N> {
    /// Takes the next row of the kind's stream and programs it with what is in the page buffer.
    /// Answers the row, or `None` where the program failed.
    fn program_next(
        &mut self,
        kind: Kind,
        number: u32,
        old_row: Option<u32>,
    ) -> Result<Option<u32>, EngineFault>
        requires safe { IsSafe N.view.flash self.old }
        requires next { self.old.next + 1 < 2 ^ 64 }
        requires key { IsKeyOf self.old.geometry (key_from kind number) }
        requires old_row { ForSome old_row (λ r. r < row_count self.old.geometry) }
        ensures acts { EngineActs N.view self.old self.new result }
        ensures goes { GoesPut (ram self.old) (ram self.new) }
        ensures page { self.new.page.body ≡ self.old.page.body }
        ensures scratch { self.new.scratch ≡ self.old.scratch }
        ensures only_programs { OnlyPrograms N.view self.old.nand self.new.nand }
        ensures row { IfOk result (λ row. IfSome row (IsOutside (ram self.old))) }
        ensures programmed { IfOk result (λ row. IfSome row (λ _. IsLastPage kind number (ram self.new) (page_in_buffer self.new.page))) }
        ensures cost { TryCosts (stream_of kind) (ram self.old) (ram self.new) result }
        ensures truth { N.view.honest self.old.nand ≡ true →
            MayPut kind number old_row self.old.page.body.items (ram self.old) (image_in N.view.flash self.old) →
            MatchResult result
            (Attempted kind number self.old.page.body.items (ram self.old) (image_in N.view.flash self.old) (ram self.new) (image_in N.view.flash self.new))
            (Refused (ram self.old) (image_in N.view.flash self.old) (ram self.new) (image_in N.view.flash self.new)) }
        ensures stops { N.view.honest self.old.nand ≡ true →
            MayPut kind number old_row self.old.page.body.items (ram self.old) (image_in N.view.flash self.old) →
            result ≢ Err EngineFault.Bus →
            Stops N.view (IsKeptOr self.old.geometry (image_in N.view.flash self.old) (image_in N.view.flash self.new)) self.old self.new }
        ensures cut { N.view.honest self.old.nand ≡ true →
            MayPut kind number old_row self.old.page.body.items (ram self.old) (image_in N.view.flash self.old) →
            result ≡ Err EngineFault.Bus →
            Cuts N.view (IsKeptOrPut kind number self.old.page.body.items self.old.geometry (image_in N.view.flash self.old)) self.old self.new }
    {
        let Some(row) = self.blocks.take_row(Stream::of(kind)) else {
            return Err(EngineFault::ReadOnly);
        };
        let (block, _) = self.geometry.split_row(row);
        let written = Record {
            kind,
            number,
            sequence: self.next,
            wear: self.blocks.table().wear(block),
        };
        self.next += 1;
        match program_record(
            &mut self.nand,
            &self.geometry,
            row,
            &written,
            &self.page.body,
            &mut self.page.spare,
        ) {
            Ok(Outcome::Passed) => {
                count_move(&mut self.blocks, &self.geometry, old_row, block);
                Ok(Some(row))
            }
            Ok(Outcome::Failed) => {
                self.blocks.retire(block);
                Ok(None)
            }
            Err(_) => Err(EngineFault::Bus),
        }
    }

    /// Programs a page of the key with what is in the page buffer, in another block after each
    /// failure. Answers the row, which the caller sets as the key's.
    pub(crate) fn put_page(
        &mut self,
        kind: Kind,
        number: u32,
        old_row: Option<u32>,
    ) -> Result<u32, EngineFault>
        requires safe { IsSafe N.view.flash self.old }
        requires key { IsKeyOf self.old.geometry (key_from kind number) }
        requires old_row { ForSome old_row (λ r. r < row_count self.old.geometry) }
        ensures acts { EngineActs N.view self.old self.new result }
        ensures goes { GoesPut (ram self.old) (ram self.new) }
        ensures page { self.new.page.body ≡ self.old.page.body }
        ensures scratch { self.new.scratch ≡ self.old.scratch }
        ensures only_programs { OnlyPrograms N.view self.old.nand self.new.nand }
        ensures row { IfOk result (IsOutside (ram self.old)) }
        ensures programmed { OnOk result (IsLastPage kind number (ram self.new) (page_in_buffer self.new.page)) }
        ensures cost { PutCosts (stream_of kind) (ram self.old) (ram self.new) result }
        ensures truth { N.view.honest self.old.nand ≡ true →
            MayPut kind number old_row self.old.page.body.items (ram self.old) (image_in N.view.flash self.old) →
            MatchResult result
            (λ row. IsPut kind number row self.old.page.body.items (ram self.old) (image_in N.view.flash self.old) (ram self.new) (image_in N.view.flash self.new))
            (Refused (ram self.old) (image_in N.view.flash self.old) (ram self.new) (image_in N.view.flash self.new)) }
        ensures stops { N.view.honest self.old.nand ≡ true →
            MayPut kind number old_row self.old.page.body.items (ram self.old) (image_in N.view.flash self.old) →
            result ≢ Err EngineFault.Bus →
            Stops N.view (IsKeptOr self.old.geometry (image_in N.view.flash self.old) (image_in N.view.flash self.new)) self.old self.new }
        ensures cut { N.view.honest self.old.nand ≡ true →
            MayPut kind number old_row self.old.page.body.items (ram self.old) (image_in N.view.flash self.old) →
            result ≡ Err EngineFault.Bus →
            Cuts N.view (IsKeptOrPut kind number self.old.page.body.items self.old.geometry (image_in N.view.flash self.old)) self.old self.new }
    {
        'tries: while self.next < u64::MAX {
            let tried = self.program_next(kind, number, old_row)?;
            match tried {
                Some(row) => return Ok(row),
                None => continue,
            }
        }
        Err(EngineFault::SequenceSpent)
    }

    // The row of the newest page of a key, where it is known in memory.
    pub(crate) fn row_of_key(&self, key: Key) -> Option<u32>
        requires safe { IsSafe N.view.flash self.now }
        requires key { IsKeyOf self.now.geometry key }
        requires cached { IsCachedKey self.now.mapping key }
        ensures row { ForSome result (λ r. r < row_count self.now.geometry) }
        ensures newest { (image : Image) → IsTrue None (ram self.now) image → result ≡ newest_row image key }
    {
        match key {
            Key::Sector(n) => self.mapping.peek(n).flatten(),
            Key::Translation(t) => self.directory.row_of(t),
            Key::Table(u) => {
                let place = self.geometry.translation_pages() + u;
                self.directory.row_of(place)
            }
        }
    }

    /// Programs a page with this data area and a record of this kind and number in the next row of
    /// the stream, and answers the row. The sequence is the engine's next one and the wear that of
    /// the block, whatever the record handed in has.
    ///
    /// After a program that fails its block is grown bad, and nothing more is programmed or erased in
    /// it; the same page is tried with the next sequence in a block that is opened anew.
    ///
    /// The stream is that of the kind. A sector is cached, and a translation page lacks rows of
    /// cached dirty or moved sectors alone. Before the next call the row answered is set as the
    /// key's, in the mapping (dirty) or in the directory.
    ///
    /// # Errors
    ///
    /// Each stands: `put`, `write_back`, `collect`, `make_room`, `rescue_one`, `write_sector`,
    /// `trim_sector` and `write_table` answer it again from then on, and change nothing.
    ///
    /// - `ReadOnly` where the stream has no block open and none is free: each that was free has
    ///   failed in this call, and the open one if there was one. The array is as it was.
    /// - `SequenceSpent` where the next sequence is 2^64 - 1; no block was opened for it. The array is
    ///   as it was.
    /// - `Bus` where the die answered no outcome, and its count of failures has risen or stands at
    ///   2^64 - 1. What the die holds is then not known.
    ///
    /// `Damaged` never comes, unless it stood before.
    ///
    /// It takes no memory. (This project.)
    pub fn put(&mut self, stream: Stream, written: &Record, body: &[u8]) -> Result<u32, WriteFault>
        requires safe { IsSafe N.view.flash self.old }
        requires stream { stream ≡ stream_of written.now.kind }
        requires key { IsKeyOf self.old.geometry (key_of written.now) }
        requires cached { IsCachedKey self.old.mapping (key_of written.now) }
        requires body { length body.now ≡ self.old.geometry.data_bytes }
        ensures stands { Stands N.view self.old self.new result }
        ensures goes { GoesPut (ram self.old) (ram self.new) }
        ensures only_programs { OnlyPrograms N.view self.old.nand self.new.nand }
        ensures row { IfOk result (IsOutside (ram self.old)) }
        ensures programmed { OnOk result (IsLastPage written.now.kind written.now.number (ram self.new) (page_in_buffer self.new.page)) }
        ensures cost { self.old.fault ≡ None → PutCosts stream (ram self.old) (ram self.new) result }
        ensures truth { N.view.honest self.old.nand ≡ true → self.old.fault ≡ None → IsTrue None (ram self.old) (image_in N.view.flash self.old) →
            IsPageFor self.old.geometry (image_in N.view.flash self.old) self.old.mapping body.now (key_of written.now) →
            MatchResult result
            (λ row. IsPut written.now.kind written.now.number row body.now (ram self.old) (image_in N.view.flash self.old) (ram self.new) (image_in N.view.flash self.new))
            (Refused (ram self.old) (image_in N.view.flash self.old) (ram self.new) (image_in N.view.flash self.new)) }
        ensures array { N.view.honest self.old.nand ≡ true → self.old.fault ≡ None → IsTrue None (ram self.old) (image_in N.view.flash self.old) →
            IsPageFor self.old.geometry (image_in N.view.flash self.old) self.old.mapping body.now (key_of written.now) →
            OnOk result (array_of self.old.geometry (image_in N.view.flash self.new) ≡
            array_after self.old.geometry written.now.kind written.now.number body.now (array_of self.old.geometry (image_in N.view.flash self.old))) }
        ensures stops { N.view.honest self.old.nand ≡ true → self.old.fault ≡ None → IsTrue None (ram self.old) (image_in N.view.flash self.old) →
            IsPageFor self.old.geometry (image_in N.view.flash self.old) self.old.mapping body.now (key_of written.now) → result ≢ Err EngineFault.Bus →
            Stops N.view (IsKeptOr self.old.geometry (image_in N.view.flash self.old) (image_in N.view.flash self.new)) self.old self.new }
        ensures cut { N.view.honest self.old.nand ≡ true → self.old.fault ≡ None → IsTrue None (ram self.old) (image_in N.view.flash self.old) →
            IsPageFor self.old.geometry (image_in N.view.flash self.old) self.old.mapping body.now (key_of written.now) → result ≡ Err EngineFault.Bus →
            Cuts N.view (IsKeptOrPut written.now.kind written.now.number body.now self.old.geometry (image_in N.view.flash self.old)) self.old self.new }
    {
        // (the stream is its caller's word for the kind, and named by the proof alone)
        let of_kind = stream == Stream::of(written.kind);
        prove!(of_kind);
        self.standing()?;
        let old_row = self.row_of_key(written.key());
        self.page.body.copy_from_slice(body);
        let answer = self.put_page(written.kind, written.number, old_row);
        self.noted(answer)
    }
}
