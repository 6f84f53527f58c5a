//! What the pages of a dump are, and what they tell, when they are put in order.
ghost use Rattle.std.specs.Prelude.{◌≡◌, ◌+◌, ◌*◌, ◌%◌, ◌<◌, ◌≤◌, ◌^◌, List, ℕ, length, IfOk, IfSome, OnErr, Some, true};
ghost use Rattle.page_layout.specs.Geometry.{page_bytes, row_count};
ghost use Rattle.lab_arrange.specs.Place.{IsFitting};
ghost use Rattle.lab_dump.specs.Sample.{looked_count};
ghost use Rattle.lab_dump.specs.Told.{pages_told_of};
ghost use Rattle.lab_shapes.specs.Ordered.{follows, in_turn_of, is_likely, look_before, look_in, ordered, sample_first, shows_sound};

use lab_arrange::{Arrangement, read_page, read_spare};
use lab_dump::{Dump, DumpFault, PagesTold, Sample, look_in, looked_row, spelled};
use page_layout::geometry::Geometry;
use page_layout::look::PageLook;

// So many of the pages that are looked at have to show a sound one.
const PROBED: u32 = 64;

/// What the pages are that are looked at, and how many of these are in their turn.
#[derive(Clone, Copy)]
pub(crate) struct LookedOver {
    pub sample: Sample,
    pub in_turn: u32,
}

// What the page of a row is, when the dump is put in order. `raw` and `page` are scratch.
fn look_in_order<D: Dump>(
    dump: &mut D,
    size: u64,
    geometry: &Geometry,
    arrangement: &Arrangement,
    row: u32,
    raw: &mut [u8],
    page: &mut [u8],
) -> Result<PageLook, DumpFault>
    requires fits { IsFitting geometry.now arrangement.now }
    requires row { row < row_count geometry.now }
    requires page_room { length page.old ≡ page_bytes geometry.now }
    requires raw_room { length raw.old ≡ page_bytes geometry.now + 2 }
    ensures look { IfOk result (λ look. (all : List ℕ) → D.bytes dump.old ≡ Some all → size ≡ length all → look ≡ look_in geometry.now (ordered geometry.now arrangement.now all) row) }
    ensures failed { OnErr result (D.failed dump.new ≡ true) }
    ensures same { D.bytes dump.new ≡ D.bytes dump.old }
{
    read_page(dump, size, geometry, arrangement, row, raw, page)?;
    Ok(look_in(geometry, page))
}

/// What the pages are of the first places that are looked at, when the dump is put in order. `raw` and `page` are scratch.
pub(crate) fn sample_first<D: Dump>(
    dump: &mut D,
    size: u64,
    geometry: &Geometry,
    arrangement: &Arrangement,
    places: u32,
    raw: &mut [u8],
    page: &mut [u8],
) -> Result<Sample, DumpFault>
    requires fits { IsFitting geometry.now arrangement.now }
    requires places { places ≤ looked_count (row_count geometry.now) }
    requires page_room { length page.old ≡ page_bytes geometry.now }
    requires raw_room { length raw.old ≡ page_bytes geometry.now + 2 }
    ensures sample { IfOk result (λ sample. (all : List ℕ) → D.bytes dump.old ≡ Some all → size ≡ length all → sample ≡ sample_first geometry.now (ordered geometry.now arrangement.now all) places) }
    ensures few { IfOk result (λ sample. sample.sound + sample.unsound ≤ sample.looked) }
    ensures failed { OnErr result (D.failed dump.new ≡ true) }
    ensures same { D.bytes dump.new ≡ D.bytes dump.old }
{
    let mut sample = Sample::none(geometry);
    for place in 0..places {
        let row = looked_row(geometry.rows(), place);
        let look = look_in_order(dump, size, geometry, arrangement, row, raw, page)?;
        sample = sample.noted(look);
    }
    Ok(sample)
}

/// What all pages tell together, when the dump is put in order. Of a page that could not tell more the spare area alone is read. `raw` and `page` are
/// scratch.
pub(crate) fn told_in_order<D: Dump>(
    dump: &mut D,
    size: u64,
    geometry: &Geometry,
    arrangement: &Arrangement,
    raw: &mut [u8],
    page: &mut [u8],
) -> Result<PagesTold, DumpFault>
    requires fits { IsFitting geometry.now arrangement.now }
    requires page_room { length page.old ≡ page_bytes geometry.now }
    requires raw_room { length raw.old ≡ page_bytes geometry.now + 2 }
    ensures told { IfOk result (λ told. (all : List ℕ) → D.bytes dump.old ≡ Some all → size ≡ length all
        → told ≡ pages_told_of geometry.now.data_bytes geometry.now.spare_bytes (row_count geometry.now) (ordered geometry.now arrangement.now all)) }
    ensures failed { OnErr result (D.failed dump.new ≡ true) }
    ensures same { D.bytes dump.new ≡ D.bytes dump.old }
{
    let mut told = PagesTold {
        blocks: 0,
        sectors: 0,
    };
    for row in 0..geometry.rows() {
        let spare = &mut page[..geometry.spare_bytes()];
        read_spare(dump, size, geometry, arrangement, row, raw, spare)?;
        if told.may_rise(geometry, spare) {
            read_page(dump, size, geometry, arrangement, row, raw, page)?;
            told = told.noted(geometry, page);
        }
    }
    Ok(told)
}

// Whether a page is sound.
fn is_sound(look: PageLook) -> bool
    ensures { result ≡ Rattle.lab_dump.specs.Sample.is_sound_look look }
{
    matches!(look, PageLook::Sound(_))
}

// Whether a page is in its turn, with the one before it in its block, if there is one.
fn follows(before: Option<PageLook>, look: PageLook) -> bool
    ensures { result ≡ follows before look }
{
    let PageLook::Sound(found) = look else {
        return false;
    };
    match before {
        None | Some(PageLook::Unsound) => true,
        Some(PageLook::Sound(last)) => last.sequence < found.sequence,
        Some(PageLook::Erased) => false,
    }
}

// What the page before that of a row is in its block, if there is one, when the dump is put in order. It is not read again where it was looked at
// last. `raw` and `page` are scratch.
fn look_before<D: Dump>(
    dump: &mut D,
    size: u64,
    geometry: &Geometry,
    arrangement: &Arrangement,
    row: u32,
    last: Option<(u32, PageLook)>,
    raw: &mut [u8],
    page: &mut [u8],
) -> Result<Option<PageLook>, DumpFault>
    requires fits { IsFitting geometry.now arrangement.now }
    requires row { row < row_count geometry.now }
    requires last { IfSome last (λ last. (all : List ℕ) → D.bytes dump.old ≡ Some all → size ≡ length all → last.1 ≡ look_in geometry.now (ordered geometry.now arrangement.now all) last.0) }
    requires page_room { length page.old ≡ page_bytes geometry.now }
    requires raw_room { length raw.old ≡ page_bytes geometry.now + 2 }
    ensures before { IfOk result (λ before. (all : List ℕ) → D.bytes dump.old ≡ Some all → size ≡ length all → before ≡ look_before geometry.now (ordered geometry.now arrangement.now all) row) }
    ensures failed { OnErr result (D.failed dump.new ≡ true) }
    ensures same { D.bytes dump.new ≡ D.bytes dump.old }
{
    if row % geometry.pages() == 0 {
        return Ok(None);
    }
    if let Some((at, look)) = last
        && at == row - 1
    {
        return Ok(Some(look));
    }
    let look = look_in_order(dump, size, geometry, arrangement, row - 1, raw, page)?;
    Ok(Some(look))
}

// Whether the page of a row is sound, when the dump is put in order. Of a spare area that spells no record no more is read: it needs no hash.
// `raw` and `page` are scratch.
fn is_sound_in_order<D: Dump>(
    dump: &mut D,
    size: u64,
    geometry: &Geometry,
    arrangement: &Arrangement,
    row: u32,
    raw: &mut [u8],
    page: &mut [u8],
) -> Result<bool, DumpFault>
    requires fits { IsFitting geometry.now arrangement.now }
    requires row { row < row_count geometry.now }
    requires page_room { length page.old ≡ page_bytes geometry.now }
    requires raw_room { length raw.old ≡ page_bytes geometry.now + 2 }
    ensures sound { IfOk result (λ sound. (all : List ℕ) → D.bytes dump.old ≡ Some all → size ≡ length all → sound ≡ Rattle.lab_dump.specs.Sample.is_sound_look (look_in geometry.now (ordered geometry.now arrangement.now all) row)) }
    ensures failed { OnErr result (D.failed dump.new ≡ true) }
    ensures same { D.bytes dump.new ≡ D.bytes dump.old }
{
    let spare = &mut page[..geometry.spare_bytes()];
    read_spare(dump, size, geometry, arrangement, row, raw, spare)?;
    if spelled(spare).is_none() {
        return Ok(false);
    }
    let look = look_in_order(dump, size, geometry, arrangement, row, raw, page)?;
    Ok(is_sound(look))
}

/// Whether one of the first 64 pages that are looked at is sound, when the dump is put in order. `raw` and `page` are scratch.
pub(crate) fn shows_sound<D: Dump>(
    dump: &mut D,
    size: u64,
    geometry: &Geometry,
    arrangement: &Arrangement,
    raw: &mut [u8],
    page: &mut [u8],
) -> Result<bool, DumpFault>
    requires fits { IsFitting geometry.now arrangement.now }
    requires page_room { length page.old ≡ page_bytes geometry.now }
    requires raw_room { length raw.old ≡ page_bytes geometry.now + 2 }
    ensures shows { IfOk result (λ shows. (all : List ℕ) → D.bytes dump.old ≡ Some all → size ≡ length all → shows ≡ shows_sound geometry.now (ordered geometry.now arrangement.now all)) }
    ensures failed { OnErr result (D.failed dump.new ≡ true) }
    ensures same { D.bytes dump.new ≡ D.bytes dump.old }
{
    let rows = geometry.rows();
    for place in 0..rows.min(PROBED) {
        let row = looked_row(rows, place);
        if is_sound_in_order(dump, size, geometry, arrangement, row, raw, page)? {
            return Ok(true);
        }
    }
    Ok(false)
}

/// Whether what fits is no chance: where something was cut off, whether of the first 64 pages that are looked at more are sound than neither sound nor
/// erased, when the dump is put in order. `raw` and `page` are scratch.
pub(crate) fn is_likely<D: Dump>(
    dump: &mut D,
    size: u64,
    geometry: &Geometry,
    arrangement: &Arrangement,
    raw: &mut [u8],
    page: &mut [u8],
) -> Result<bool, DumpFault>
    requires fits { IsFitting geometry.now arrangement.now }
    requires page_room { length page.old ≡ page_bytes geometry.now }
    requires raw_room { length raw.old ≡ page_bytes geometry.now + 2 }
    ensures likely { IfOk result (λ likely. (all : List ℕ) → D.bytes dump.old ≡ Some all → size ≡ length all → likely ≡ is_likely geometry.now arrangement.now (ordered geometry.now arrangement.now all)) }
    ensures failed { OnErr result (D.failed dump.new ≡ true) }
    ensures same { D.bytes dump.new ≡ D.bytes dump.old }
{
    if arrangement.cut.is_none() {
        return Ok(true);
    }
    let places = geometry.rows().min(PROBED);
    let first = sample_first(dump, size, geometry, arrangement, places, raw, page)?;
    Ok(first.unsound < first.sound)
}

/// What the pages are that are looked at, and how many of these are sound and in their turn, when the dump is put in order. `raw` and `page` are scratch.
pub(crate) fn look_over<D: Dump>(
    dump: &mut D,
    size: u64,
    geometry: &Geometry,
    arrangement: &Arrangement,
    raw: &mut [u8],
    page: &mut [u8],
) -> Result<LookedOver, DumpFault>
    requires fits { IsFitting geometry.now arrangement.now }
    requires page_room { length page.old ≡ page_bytes geometry.now }
    requires raw_room { length raw.old ≡ page_bytes geometry.now + 2 }
    ensures sample { IfOk result (λ over. (all : List ℕ) → D.bytes dump.old ≡ Some all → size ≡ length all → over.sample ≡ sample_first geometry.now (ordered geometry.now arrangement.now all) (looked_count (row_count geometry.now))) }
    ensures few { IfOk result (λ over. over.sample.sound + over.sample.unsound ≤ over.sample.looked) }
    ensures turns { IfOk result (λ over. (all : List ℕ) → D.bytes dump.old ≡ Some all → size ≡ length all → over.in_turn ≡ in_turn_of geometry.now (ordered geometry.now arrangement.now all)) }
    ensures failed { OnErr result (D.failed dump.new ≡ true) }
    ensures same { D.bytes dump.new ≡ D.bytes dump.old }
{
    let mut sample = Sample::none(geometry);
    let mut in_turn = 0;
    let mut last = None;
    for place in 0..sample.looked {
        let row = looked_row(geometry.rows(), place);
        let before = look_before(dump, size, geometry, arrangement, row, last, raw, page)?;
        let look = look_in_order(dump, size, geometry, arrangement, row, raw, page)?;
        sample = sample.noted(look);
        in_turn += u32::from(follows(before, look));
        last = Some((row, look));
    }
    Ok(LookedOver { sample, in_turn })
}
