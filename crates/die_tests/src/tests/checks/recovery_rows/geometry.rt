//! The numbers of a die: their limits, in order, and what follows from them.
use super::{hold, small};
use page_layout::geometry::{Geometry, GeometryFault};
use std::test::Fail;

// What follows from these numbers, with 64 data bytes and 32 spare bytes.
struct Derived {
    pages: u32,
    blocks: u32,
    sectors: u32,
    translation_pages: u32,
    table_pages: u32,
    vmax: u32,
    need: u32,
    rows: u32,
}

static DERIVED: [Derived; 5] = [
    Derived {
        pages: 8,
        blocks: 32,
        sectors: 32,
        translation_pages: 2,
        table_pages: 2,
        vmax: 5,
        need: 17,
        rows: 256,
    },
    Derived {
        pages: 4,
        blocks: 32,
        sectors: 32,
        translation_pages: 2,
        table_pages: 2,
        vmax: 1,
        need: 29,
        rows: 128,
    },
    Derived {
        pages: 4,
        blocks: 12,
        sectors: 1,
        translation_pages: 1,
        table_pages: 1,
        vmax: 2,
        need: 12,
        rows: 48,
    },
    Derived {
        pages: 8,
        blocks: 128,
        sectors: 32,
        translation_pages: 2,
        table_pages: 8,
        vmax: 5,
        need: 18,
        rows: 1024,
    },
    Derived {
        pages: 4,
        blocks: 64,
        sectors: 1_048_576,
        translation_pages: 65_536,
        table_pages: 4,
        vmax: 1,
        need: 557_069,
        rows: 256,
    },
];

// The five numbers that a die was made of.
fn made_of(geometry: &Geometry) -> (usize, usize, u32, u32, u32) {
    (
        geometry.data_bytes(),
        geometry.spare_bytes(),
        geometry.pages(),
        geometry.blocks(),
        geometry.sectors(),
    )
}

// The entries of a page, and the numbers in the order of `Derived`.
fn follows_from(geometry: &Geometry) -> [u32; 6] {
    [
        geometry.entries(),
        geometry.translation_pages(),
        geometry.table_pages(),
        geometry.vmax(),
        geometry.need(),
        geometry.rows(),
    ]
}

#[test]
fn derived_numbers(rt: HostRuntime) -> Result<(), Fail> {
    for row in &DERIVED {
        let geometry = Geometry::new(64, 32, row.pages, row.blocks, row.sectors)?;
        let numbers = (64, 32, row.pages, row.blocks, row.sectors);
        hold(&rt, &numbers, &made_of(&geometry), &numbers);
        let expected = [
            16,
            row.translation_pages,
            row.table_pages,
            row.vmax,
            row.need,
            row.rows,
        ];
        hold(&rt, &numbers, &follows_from(&geometry), &expected);
    }
    Ok(())
}

// The data bytes, the spare bytes, the pages of a block, the blocks and the sectors, and the first limit that they break.
static FAULTS: [([u32; 5], GeometryFault); 11] = [
    ([65, 31, 3, 11, 0], GeometryFault::DataSize),
    ([8192, 32, 8, 32, 32], GeometryFault::DataSize),
    ([64, 31, 3, 11, 0], GeometryFault::SpareSize),
    ([64, 257, 8, 32, 32], GeometryFault::SpareSize),
    ([64, 32, 3, 11, 0], GeometryFault::PagesPerBlock),
    ([64, 32, 2, 32, 32], GeometryFault::PagesPerBlock),
    ([64, 32, 8, 11, 0], GeometryFault::Blocks),
    ([64, 32, 8, 129, 32], GeometryFault::Blocks),
    ([4096, 256, 256, 4097, 32], GeometryFault::Blocks),
    ([64, 32, 8, 32, 0], GeometryFault::Sectors),
    ([64, 32, 8, 32, 1_048_577], GeometryFault::Sectors),
];

#[test]
fn first_fault(rt: HostRuntime) {
    for (numbers, fault) in &FAULTS {
        let [data_bytes, spare_bytes, pages, blocks, sectors] = *numbers;
        let refused = Geometry::new(data_bytes, spare_bytes, pages, blocks, sectors);
        hold(&rt, numbers, &refused.err(), &Some(*fault));
    }
}

// What a number is taken for.
enum Limit {
    Row,
    Block,
    Capacity,
}

// The last ones that there are, and the first ones past them.
static LIMITS: [(Limit, u32, bool); 8] = [
    (Limit::Row, 255, true),
    (Limit::Row, 256, false),
    (Limit::Block, 31, true),
    (Limit::Block, 32, false),
    (Limit::Capacity, 0, false),
    (Limit::Capacity, 1, true),
    (Limit::Capacity, 65_536, true),
    (Limit::Capacity, 65_537, false),
];

fn is_within(geometry: &Geometry, limit: &Limit, number: u32) -> bool {
    match limit {
        Limit::Row => geometry.has_row(number),
        Limit::Block => geometry.has_block(number),
        Limit::Capacity => geometry.is_capacity(number),
    }
}

#[test]
fn limits_of_a_die(rt: HostRuntime) {
    let geometry = small(&rt);
    for (limit, number, expected) in &LIMITS {
        hold(&rt, number, &is_within(&geometry, limit, *number), expected);
    }
}

// A row put together, and taken apart.
#[test]
fn row_19(rt: HostRuntime) {
    let geometry = small(&rt);
    hold(&rt, &"row", &geometry.row(2, 3), &19);
    hold(&rt, &"split row", &geometry.split_row(19), &(2, 3));
}
