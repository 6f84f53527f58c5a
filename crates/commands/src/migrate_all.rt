//! All pages of version 1 that a device has are brought forward.
ghost use Rattle.commands.specs.Migrate.{HasRenewed, IsRenewedThenFlushed, IsRenewable};

use ftl_device::{Device, DeviceFault};
use onfi_cycles::Nand;
use page_layout::geometry::Geometry;

// Calls `migrate_one` until it answers false, and answers how many calls answered true. Each of them leaves fewer newest pages of version 1, of which
// there is one for each key at most.
fn renew_all<N: Nand>(device: &mut Device<N>, geometry: &Geometry) -> Result<u32, DeviceFault>
    requires { IsRenewable N.view geometry.now device.old }
    ensures { HasRenewed N.view geometry.now device.old result device.new }
{
    let calls = geometry.sectors() + geometry.translation_pages() + geometry.table_pages() + 1;
    'calls: for count in 0..calls {
        if !device.migrate_one()? {
            return Ok(count);
        }
    }
    unreachable!()
}

/// Brings all pages of version 1 forward: those of sectors and translation pages one by one, and then, by a flush, the table pages. The
/// answer is how many calls of `migrate_one` found a page.
///
/// # Errors
///
/// Those of `migrate_one` and of `flush`, of the first call that is refused: no other follows. No sector changes, unless it is `BusFault`.
///
/// (This project.)
pub fn renew_and_flush<N: Nand>(
    device: &mut Device<N>,
    geometry: &Geometry,
) -> Result<u32, DeviceFault>
    requires { IsRenewable N.view geometry.now device.old }
    ensures { IsRenewedThenFlushed N.view geometry.now device.old result device.new }
{
    let count = renew_all(device, geometry)?;
    device.flush()?;
    Ok(count)
}
