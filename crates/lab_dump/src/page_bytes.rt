//! A page as its bytes: its data area and then its spare area.
ghost use Rattle.std.specs.Prelude.{◌≡◌, ◌+◌, ◌++◌, length};
ghost use Rattle.page_layout.specs.Geometry.{page_bytes};
ghost use Rattle.page_layout.specs.Block.{is_broken};
ghost use Rattle.lab_dump.specs.PageBytes.{is_sound, page_from_bytes};

use page_layout::geometry::Geometry;
use page_layout::record::{is_erased, read_record};

/// Puts the two areas of a page one behind the other.
pub fn join_page(bytes: &mut [u8], body: &[u8], spare: &[u8])
    requires { length bytes.old ≡ length body.now + length spare.now }
    ensures { bytes.new ≡ body.now ++ spare.now }
{
    bytes[..body.len()].copy_from_slice(body);
    bytes[body.len()..].copy_from_slice(spare);
}

/// Whether the page of these bytes, as many as the geometry's pages have, is sound. A page that spells no record is not hashed.
pub fn is_sound(geometry: &Geometry, bytes: &[u8]) -> bool
    requires { length bytes.now ≡ page_bytes geometry.now }
    ensures { result ≡ is_sound (page_from_bytes geometry.now.data_bytes bytes.now) }
{
    let (body, spare) = bytes.split_at(geometry.data_bytes());
    read_record(geometry, body, spare).is_some()
}

/// Whether it is neither erased nor sound.
pub fn is_broken(geometry: &Geometry, bytes: &[u8]) -> bool
    requires { length bytes.now ≡ page_bytes geometry.now }
    ensures { result ≡ is_broken (page_from_bytes geometry.now.data_bytes bytes.now) }
{
    let (body, spare) = bytes.split_at(geometry.data_bytes());
    !is_erased(body, spare) && read_record(geometry, body, spare).is_none()
}
