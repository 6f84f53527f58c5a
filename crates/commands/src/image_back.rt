//! What `serve` and `migrate` end with: the image that a die in memory holds then.
ghost use Rattle.std.specs.Prelude.{◌≡◌};
ghost use Rattle.commands.specs.Check.{HasImageLength};
ghost use Rattle.commands.specs.Serve.{HasGivenBack, failures_of, flash_behind};

use crate::steady::SteadyDie;
use onfi_cycles::Driver;

/// Puts the image of the die behind a driver in the place of one of its size. The driver has answered no fault.
pub(crate) fn image_back(driver: Driver<SteadyDie>, image: &mut [u8])
    requires whole { HasImageLength (flash_behind driver).geometry image.old }
    ensures { HasGivenBack driver image.new }
{
    driver.into_bus().die.image_into(image);
}

/// Lets a driver go. It has answered no fault.
pub(crate) fn let_go(driver: Driver<SteadyDie>)
    ensures { failures_of driver ≡ 0 }
{
    let _ = driver.into_bus();
}
