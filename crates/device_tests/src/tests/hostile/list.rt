//! A plain list of sectors, and what is held against it.
ghost use Rattle.ftl_device.specs.Device.{IsDevice};

use device_fixtures::calls::read_over;
use device_fixtures::hold::hold_same;
use ftl_device::Device;
use image_check::sector_in;
use onfi_cycles::Nand;
use page_layout::source::ImageSlice;
use std::process::Abort;
use std::test::Fail;

pub const SECTORS: u32 = 32;

// The sectors, all zeros at first.
#[derive(Drop)]
pub struct List {
    sectors: [[u8; 64]; SECTORS as usize],
}

impl List {
    pub fn new() -> List {
        List {
            sectors: [[0; 64]; SECTORS as usize],
        }
    }

    // A sector below 32.
    pub fn get(&self, sector: u32) -> [u8; 64] {
        self.sectors[(sector % SECTORS) as usize]
    }

    pub fn set(&mut self, sector: u32, body: [u8; 64]) {
        self.sectors[(sector % SECTORS) as usize] = body;
    }

    // A sector is this one, or zeros where there is none. Whether there is one.
    pub fn note(&mut self, sector: u32, body: Option<[u8; 64]>) -> bool {
        self.set(sector, body.unwrap_or([0; 64]));
        body.is_some()
    }
}

// A sector is as it should be.
pub fn hold_sector(rt: &impl Abort, name: &str, sector: u32, is_held: bool) {
    assert!(rt; is_held, "{name}: sector {sector}");
}

// Each read gives what the list has.
pub fn hold_device<N: Nand>(device: &mut Device<N>, list: &List, name: &str) -> Result<(), Fail>
    requires { IsDevice N.view.flash device.old }
    ensures { IsDevice N.view.flash device.new }
{
    for sector in 0..SECTORS {
        let wanted = list.get(sector);
        let found = read_over(device, sector, !wanted[0])?;
        hold_same(
            name,
            "a sector",
            &(sector, found),
            &(sector, (Ok(()), wanted)),
        )?;
    }
    Ok(())
}

// The sector that the plain scan of an image gives.
pub fn scanned(image: &ImageSlice<'_>, sector: u32) -> Option<[u8; 64]> {
    match sector_in(image, sector) {
        Ok(None) => Some([0; 64]),
        Ok(Some(bytes)) => bytes.try_into().ok(),
        Err(_) => None,
    }
}

// The plain scan of an image gives what the list has.
pub fn hold_image(rt: &impl Abort, image: &ImageSlice<'_>, list: &List, name: &str) {
    for sector in 0..SECTORS {
        let found = scanned(image, sector);
        hold_sector(rt, name, sector, found == Some(list.get(sector)));
    }
}
