//! Dies that have an image, and the images of dies.
ghost use Rattle.std.specs.Prelude.{◌≡◌, IfOk};
ghost use Rattle.onfi_cycles.specs.Driver.{flash_by};
ghost use Rattle.ftl_device.specs.Device.{IsDevice};

use crate::bench::{driver_on, given_up, mounted};
use certificate::Certificate;
use ftl_device::Device;
use nand_die::Die;
use onfi_cycles::Driver;
use page_layout::geometry::Geometry;
use std::alloc::Global;
use std::test::Fail;

/// A die with this image.
///
/// # Errors
///
/// A growth was refused, or the image has another length.
pub fn loaded(alloc: Global, geometry: Geometry, image: &[u8]) -> Result<Driver<Die>, Fail>
    ensures { IfOk result (λ driver. driver.geometry ≡ geometry) }
{
    driver_on(Die::from_image(alloc, geometry, image, &[])?, geometry)
}

/// The image of a die. One that has stopped has it too.
///
/// # Errors
///
/// A growth was refused.
pub fn image_of(alloc: Global, geometry: &Geometry, driver: Driver<Die>) -> Result<Vec<u8>, Fail>
    requires { driver.geometry ≡ geometry.now }
{
    let rows = geometry.blocks() as usize * geometry.pages() as usize;
    let mut image = vec![in alloc; 0; rows * (geometry.data_bytes() + geometry.spare_bytes())]?;
    let die = driver.into_bus();
    die.image_into(&mut image);
    Ok(image)
}

/// The image of the die that a device gives up, and its geometry.
///
/// # Errors
///
/// A growth was refused.
pub fn image_left(alloc: Global, device: Device<Driver<Die>>) -> Result<(Vec<u8>, Geometry), Fail>
    requires { IsDevice (flash_by (λ die. die.state)) device }
{
    let (driver, geometry) = given_up(device);
    let image = image_of(alloc, &geometry, driver)?;
    Ok((image, geometry))
}

/// The image of the die that a device gives up, and the certificate that a mount gives of it.
///
/// # Errors
///
/// A growth was refused, or those of `mounted`.
pub fn certified_image(
    alloc: Global,
    device: Device<Driver<Die>>,
    capacity: u32,
) -> Result<(Vec<u8>, Certificate), Fail>
    requires { IsDevice (flash_by (λ die. die.state)) device }
{
    let (mut driver, geometry) = given_up(device);
    let certificate = mounted(alloc, &mut driver, &geometry, capacity)?;
    let image = image_of(alloc, &geometry, driver)?;
    Ok((image, certificate))
}
