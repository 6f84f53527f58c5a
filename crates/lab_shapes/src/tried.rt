//! The arrangements that are tried.
ghost use Rattle.std.specs.Prelude.{◌≡◌, ◌<◌};
ghost use Rattle.lab_shapes.specs.Tried.{around_of, numbered, spares_of, way_numbered};

use lab_arrange::{Arrangement, Spares};

/// A way in which the geometries are tried.
#[derive(Clone, Copy)]
pub(crate) enum Way {
    /// In this order of the bytes, with nothing cut off.
    Order(Arrangement),
    /// In order, with a part of the last block cut off.
    Cut,
}

/// How many ways there are: each order, and the cut.
pub(crate) const WAYS: u32 = TRIED + 1;

// How many orders of the bytes are tried, with what stands around the pages.
const TRIED: u32 = 1296;

// How many orders of the bytes there are.
const ORDERS: u32 = 48;

// The header, or the tail, of this number: none, a header of 16, 32, .. 65536 bytes, or a tail of so many.
fn around_of(number: u32) -> (Option<u32>, Option<u32>)
    requires { number < 27 }
    ensures { result ≡ around_of number }
{
    let sizes = [
        16, 32, 64, 128, 256, 512, 1024, 2048, 4096, 8192, 16384, 32768, 65536,
    ];
    if number == 0 {
        (None, None)
    } else if number < 14 {
        (Some(sizes[number as usize - 1]), None)
    } else {
        (None, Some(sizes[number as usize - 14]))
    }
}

// The spare areas that stand together.
fn spares_of(number: u32) -> Option<Spares>
    ensures { result ≡ spares_of number }
{
    match number {
        1 => Some(Spares::Block),
        2 => Some(Spares::Die),
        _ => None,
    }
}

// The order of this number, of those that are tried. The first 48 have nothing around the pages.
#[tactic(auto, unfolding(crate::specs::Tried::numbered))]
fn arrangement_of(number: u32) -> Arrangement
    requires { number < 1296 }
    ensures { result ≡ numbered number }
{
    let (header, tail) = around_of(number / ORDERS);
    Arrangement {
        header,
        tail,
        cut: None,
        spares: spares_of(number % 3),
        spare_first: number / 3 % 2 == 1,
        swapped: number / 6 % 2 == 1,
        inverted: number / 12 % 2 == 1,
        planes: number / 24 % 2 == 1,
    }
}

/// The way of this number.
pub(crate) fn way_of(number: u32) -> Way
    ensures { result ≡ way_numbered number }
{
    if number < TRIED {
        Way::Order(arrangement_of(number))
    } else {
        Way::Cut
    }
}
