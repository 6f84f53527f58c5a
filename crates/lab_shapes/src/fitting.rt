//! Whether a geometry fits a dump in an arrangement.
ghost use Rattle.std.specs.Prelude.{◌≡◌, ◌+◌, ◌≤◌, List, ℕ, length, IfOk, IfSome, OnErr, Some, true};
ghost use Rattle.page_layout.specs.Geometry.{page_bytes, row_count};
ghost use Rattle.lab_arrange.specs.Place.{IsFitting, length_of};
ghost use Rattle.lab_shapes.specs.Arranged.{FitsAs, IsPossibleAs, fit_in_order};
ghost use Rattle.lab_shapes.specs.Better.{IsFoundAs};
ghost use Rattle.lab_shapes.specs.Ordered.{in_turn_of, ordered, shows_sound};
ghost use Rattle.lab_shapes.specs.Tried.{IsTried};

use crate::find::ArrangedFit;
use crate::looking::{is_likely, look_over, shows_sound, told_in_order};
use lab_arrange::{Arrangement, fit_arrangement, wanted_length};
use lab_dump::{Dump, DumpFault, fit_of};
use page_layout::geometry::Geometry;
use std::cmp::Reverse;

// A die of this geometry stands in this arrangement, and the dump has its bytes: what it tells when it is put in order, where one of the first pages
// is sound and at least so many are in their turn. `raw` and `page` are scratch.
fn fit_whole<D: Dump>(
    dump: &mut D,
    size: u64,
    geometry: &Geometry,
    arrangement: &Arrangement,
    least: u32,
    raw: &mut [u8],
    page: &mut [u8],
) -> Result<Option<ArrangedFit>, DumpFault>
    requires fits { IsFitting geometry.now arrangement.now }
    requires whole { size ≡ length_of geometry.now arrangement.now }
    requires tried { IsTried arrangement.now }
    requires page_room { length page.old ≡ page_bytes geometry.now }
    requires raw_room { length raw.old ≡ page_bytes geometry.now + 2 }
    ensures found { IfOk result (λ found. (all : List ℕ) → D.bytes dump.old ≡ Some all → size ≡ length all → IsFoundAs all least geometry.now arrangement.now found) }
    ensures possible { IfOk result (λ found. IfSome found IsPossibleAs) }
    ensures source { OnErr result (D.failed dump.new ≡ true) }
    ensures same { D.bytes dump.new ≡ D.bytes dump.old }
{
    let shows = shows_sound(dump, size, geometry, arrangement, raw, page)?;
    if !shows {
        return Ok(None);
    }
    let likely = is_likely(dump, size, geometry, arrangement, raw, page)?;
    if !likely {
        return Ok(None);
    }
    let over = look_over(dump, size, geometry, arrangement, raw, page)?;
    if over.sample.sound == 0 || over.in_turn < least {
        return Ok(None);
    }
    let told = told_in_order(dump, size, geometry, arrangement, raw, page)?;
    Ok(Some(ArrangedFit {
        in_turn: Reverse(over.in_turn),
        fit: fit_of(geometry, over.sample, told),
        arrangement: *arrangement,
    }))
}

/// What a dump of this size tells for this geometry in this arrangement, if it fits so with at least so many pages in their turn: of one with fewer no
/// more is read than the pages that are looked at. `raw` and `page` are scratch.
pub(crate) fn fit_as<D: Dump>(
    dump: &mut D,
    size: u64,
    geometry: &Geometry,
    arrangement: &Arrangement,
    least: u32,
    raw: &mut [u8],
    page: &mut [u8],
) -> Result<Option<ArrangedFit>, DumpFault>
    requires tried { IsTried arrangement.now }
    requires page_room { 4352 ≤ length page.old }
    requires raw_room { 4354 ≤ length raw.old }
    ensures found { IfOk result (λ found. (all : List ℕ) → D.bytes dump.old ≡ Some all → size ≡ length all → IsFoundAs all least geometry.now arrangement.now found) }
    ensures possible { IfOk result (λ found. IfSome found IsPossibleAs) }
    ensures source { OnErr result (D.failed dump.new ≡ true) }
    ensures same { D.bytes dump.new ≡ D.bytes dump.old }
{
    if fit_arrangement(geometry, arrangement).is_err() {
        return Ok(None);
    }
    if wanted_length(geometry, arrangement) != size {
        return Ok(None);
    }
    let bytes = geometry.data_bytes() + geometry.spare_bytes();
    let (raw, page) = (&mut raw[..bytes + 2], &mut page[..bytes]);
    fit_whole(dump, size, geometry, arrangement, least, raw, page)
}
