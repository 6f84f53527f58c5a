//! The data area of a translation page, before it is programmed.

ghost use Rattle.std.specs.Prelude.{◌≡◌, ℕ, ◌+◌, ◌*◌, ◌<◌, length, replicate, None, unwrap_or};
ghost use Rattle.page_layout.specs.Geometry.{entries, translation_pages};
ghost use Rattle.mapping_cache.specs.Mapping.{pending};
ghost use Rattle.translation_pages.specs.TranslationPage.{entry_at};
ghost use Rattle.collection.specs.Looks.{IsPadded};

use mapping_cache::Mapping;
use page_layout::geometry::Geometry;
use translation_pages::patch;

const NO_ENTRY: u8 = 0xFF;

// Makes a page one that has no row in any entry.
pub(crate) fn clear_entries(body: &mut [u8])
    ensures { body.new ≡ replicate (length body.old) 255 }
{
    body.fill(NO_ENTRY);
}

// Takes the row out of each entry of translation page `t` that is past the last sector's. The others
// stay.
fn pad_entries(geometry: &Geometry, t: u32, body: &mut [u8])
    requires page_in { t < translation_pages geometry.now }
    requires whole { length body.old ≡ geometry.now.data_bytes }
    ensures padded { IsPadded geometry.now t body.new }
    ensures others { (i : ℕ) → t * entries geometry.now + i < geometry.now.sectors →
        entry_at body.new i ≡ entry_at body.old i }
{
    let entries = geometry.entries();
    let used = geometry.sectors() - t * entries;
    'past: for i in used..entries {
        patch(body, i, None);
    }
}

// Brings translation page `t` up to date: each row that it lacks is written into its entry, and there
// is none past the last sector's.
pub(crate) fn fill_entries(mapping: &Mapping, geometry: &Geometry, t: u32, body: &mut [u8])
    requires same_geometry { mapping.now.geometry ≡ geometry.now }
    requires page_in { t < translation_pages geometry.now }
    requires whole { length body.old ≡ geometry.now.data_bytes }
    ensures padded { IsPadded geometry.now t body.new }
    ensures rows { (i : ℕ) → i < entries geometry.now → t * entries geometry.now + i < geometry.now.sectors →
        entry_at body.new i ≡ unwrap_or (pending mapping.now (t * entries geometry.now + i)) (entry_at body.old i) }
{
    mapping.write_into(t, body);
    pad_entries(geometry, t, body);
}
