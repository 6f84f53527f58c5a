//! Reads, writes, trims, flushes, turns and restarts with smaller and smaller caches, at several shares, held against a plain list of sectors.
ghost use Rattle.std.specs.Prelude.{◌≡◌, IfOk};

use super::bench::served;
use super::narrow::Narrow;
use device_fixtures::bench::{formatted_die, small};
use onfi_cycles::Nand;
use page_layout::geometry::Geometry;
use std::alloc::Global;
use std::process::Abort;
use std::test::Fail;

const SECTORS: usize = 32;

const BODY: usize = 64;

// The requests between two restarts; the last one is a flush, so that a smaller cache holds what is stale.
const REQUESTS: u8 = 24;

const READ: u8 = 1;

const WRITE: u8 = 2;

const TRIM: u8 = 3;

const FLUSH: u8 = 4;

const TURN: u8 = 5;

// The sectors as they should be, each of one byte all over, and a stream of requests with the replies to them.
#[derive(Drop)]
struct Plain {
    sectors: [u8; SECTORS],
    input: Vec<u8>,
    output: Vec<u8>,
}

impl Plain {
    // A request without its body, and the header of its reply.
    fn ask(&mut self, op: u8, tag: u8, sector: u8) -> Result<(), Fail> {
        let request = [b'D', b'F', op, 0, tag, 0, 0, 0, sector, 0, 0, 0];
        self.input.extend_from_slice(&request)?;
        let reply = [b'd', b'f', op, 0, tag, 0, 0, 0];
        self.output.extend_from_slice(&reply)?;
        Ok(())
    }

    fn read(&mut self, tag: u8, sector: u8) -> Result<(), Fail> {
        self.ask(READ, tag, sector)?;
        let held = self.sectors[usize::from(sector) % SECTORS];
        self.output.extend_from_slice(&[held; BODY])?;
        Ok(())
    }

    fn write(&mut self, tag: u8, sector: u8, byte: u8) -> Result<(), Fail> {
        self.ask(WRITE, tag, sector)?;
        self.input.extend_from_slice(&[byte; BODY])?;
        self.sectors[usize::from(sector) % SECTORS] = byte;
        Ok(())
    }

    fn trim(&mut self, tag: u8, sector: u8) -> Result<(), Fail> {
        self.ask(TRIM, tag, sector)?;
        self.sectors[usize::from(sector) % SECTORS] = 0;
        Ok(())
    }

    // The request of this number: its tag, and with 11 steps from sector to sector.
    fn request(&mut self, number: u8) -> Result<(), Fail> {
        let sector = (u16::from(number) * 11 % 32) as u8;
        match number % 8 {
            0 | 2 | 5 => self.write(number, sector, number | 1),
            1 | 4 => self.read(number, sector.wrapping_sub(11) % 32),
            3 => self.trim(number, sector),
            6 => self.ask(FLUSH, number, sector),
            _ => self.ask(TURN, number, sector),
        }
    }

    // So many requests from this number on, then a read of each sector, and a flush.
    fn ask_all(&mut self, first: u8) -> Result<(), Fail> {
        self.input.clear();
        self.output.clear();
        for nth in 0..REQUESTS {
            self.request(first.wrapping_add(nth))?;
        }
        for sector in 0..32 {
            self.read(sector, sector)?;
        }
        self.ask(FLUSH, 255, 0)
    }
}

// So many requests from this number on, over a die at this share with a cache of so many entries, which is then given back.
fn hold_requests<N: Nand + Drop>(
    rt: &impl Abort,
    alloc: Global,
    nand: N,
    geometry: &Geometry,
    share: u32,
    capacity: u32,
    plain: &mut Plain,
    first: u8,
) -> Result<N, Fail>
    requires { (N.view.flash nand).geometry ≡ geometry.now }
    ensures { IfOk result (λ nand. (N.view.flash nand).geometry ≡ geometry.now) }
{
    plain.ask_all(first)?;
    let mut writer = Narrow::new(alloc, 5, 0);
    let nand = served(
        alloc,
        nand,
        geometry,
        share,
        capacity,
        &plain.input,
        &mut writer,
    )?;
    assert!(rt;
        writer.bytes.as_slice() == plain.output.as_slice(),
        "{share} {capacity}"
    );
    Ok(nand)
}

// The capacities of the caches, and the number of the first request of each.
static RESTARTS: [(u32, u8); 5] = [(16, 0), (8, 24), (4, 48), (2, 72), (1, 96)];

// The shares at which it is all done.
static SHARES: [u32; 4] = [0, 1, 3, 15];

// A die goes from cache to cache.
fn hold_restarts<N: Nand + Drop>(
    rt: &impl Abort,
    alloc: Global,
    mut nand: N,
    geometry: &Geometry,
    share: u32,
) -> Result<(), Fail>
    requires { (N.view.flash nand).geometry ≡ geometry.now }
{
    let mut plain = Plain {
        sectors: [0; SECTORS],
        input: Vec::new(alloc),
        output: Vec::new(alloc),
    };
    for (capacity, first) in &RESTARTS {
        nand = hold_requests(
            rt, alloc, nand, geometry, share, *capacity, &mut plain, *first,
        )?;
    }
    Ok(())
}

#[test]
fn replies_are_a_plain_lists(rt: HostRuntime) -> Result<(), Fail> {
    let geometry = small()?;
    for share in &SHARES {
        let driver = formatted_die(rt.alloc(), geometry, &[], 0)?;
        hold_restarts(&rt, rt.alloc(), driver, &geometry, *share)?;
    }
    Ok(())
}
