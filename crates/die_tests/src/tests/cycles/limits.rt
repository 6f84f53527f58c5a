//! Dies of which every block is bad, up to the largest.
use super::hold;
use nand_die::{Die, Mark};
use page_layout::geometry::Geometry;
use std::alloc::{AllocError, Global};
use std::process::Abort;

// A die with spare areas of 32 bytes, and how many bytes its image has.
struct Limit {
    name: &'static str,
    data_bytes: u32,
    pages: u32,
    blocks: u32,
    image: usize,
}

static LIMITS: [Limit; 3] = [
    Limit {
        name: "the fewest blocks",
        data_bytes: 64,
        pages: 4,
        blocks: 12,
        image: 4608,
    },
    Limit {
        name: "the most blocks of 8 of the smallest pages",
        data_bytes: 64,
        pages: 8,
        blocks: 128,
        image: 98_304,
    },
    Limit {
        name: "the most blocks of all",
        data_bytes: 4096,
        pages: 4,
        blocks: 4096,
        image: 67_633_152,
    },
];

fn geometry_of(rt: &impl Abort, limit: &Limit) -> Geometry {
    Geometry::new(limit.data_bytes, 32, limit.pages, limit.blocks, 1).expect(
        rt,
        "a geometry within the limits",
    )
}

// A mark on each block, in the first page and the last by turns.
fn marks_of(rt: &impl Abort, alloc: Global, blocks: u32) -> Vec<Mark> {
    let mut marks = Vec::new(alloc);
    for block in 0..blocks {
        let last = block % 2 == 1;
        marks.push(Mark { block, last }).expect(rt, "a list");
    }
    marks
}

fn numbers(rt: &impl Abort, alloc: Global, blocks: u32) -> Vec<u32> {
    let names: Result<Vec<u32>, AllocError> = (0..blocks).collect(alloc);
    names.expect(rt, "a list")
}

fn make_marked(rt: &impl Abort, alloc: Global, limit: &Limit) {
    let marks = marks_of(rt, alloc, limit.blocks);
    let die = Die::new(alloc, geometry_of(rt, limit), marks.as_slice());
    hold(rt, die.is_ok(), limit.name);
}

fn make_loaded(rt: &impl Abort, alloc: Global, limit: &Limit) {
    let bad = numbers(rt, alloc, limit.blocks);
    let image = vec![in alloc; 0; limit.image].expect(rt, "an image");
    let geometry = geometry_of(rt, limit);
    let die = Die::from_image(alloc, geometry, image.as_slice(), bad.as_slice());
    hold(rt, die.is_ok(), limit.name);
}

#[test]
fn every_block_may_be_marked(rt: HostRuntime) {
    for limit in &LIMITS {
        make_marked(&rt, rt.alloc(), limit);
    }
}

#[test]
fn every_block_of_an_image_may_be_bad(rt: HostRuntime) {
    for limit in &LIMITS {
        make_loaded(&rt, rt.alloc(), limit);
    }
}
