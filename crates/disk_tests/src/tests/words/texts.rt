//! The file beside a disk, written and read.
use crate::tests::{hold_at, hold_true};
use disk_commands::{DiskText, Member, ShapeFault, read_shape, shape_for, write_shape};
use page_layout::geometry::GeometryFault;
use std::alloc::Global;

// A share, a size, and the text of its shape.
static TEXTS: &[(u32, u64, &str)] = &[
    (
        0,
        1,
        "{\"cache\":64,\"code\":\"none\",\"geometry\":\"4096,128,64,13,1\",\"lost\":false,\"share\":0,\"version\":2}\n",
    ),
    (
        0,
        509_349_888,
        "{\"cache\":57344,\"code\":\"none\",\"geometry\":\"4096,128,64,4095,124353\",\"lost\":false,\"share\":0,\"version\":2}\n",
    ),
    (
        0,
        2_037_469_184,
        "{\"cache\":57344,\"code\":\"none\",\"geometry\":\"4096,128,256,4095,497429\",\"lost\":false,\"share\":0,\"version\":2}\n",
    ),
    (
        15,
        1,
        "{\"cache\":64,\"code\":\"none\",\"geometry\":\"4096,128,64,15,1\",\"lost\":false,\"share\":15,\"version\":2}\n",
    ),
    (
        15,
        4_023_562_240,
        "{\"cache\":42944,\"code\":\"none\",\"geometry\":\"4096,128,256,4096,982315\",\"lost\":false,\"share\":15,\"version\":2}\n",
    ),
];

// Whether the text of the shape for a size is this, and tells that shape.
fn goes_round(alloc: Global, share: u32, bytes: u64, wanted: &str) -> bool {
    let Ok(shape) = shape_for(bytes, share) else {
        return false;
    };
    let Ok(text) = write_shape(alloc, &shape) else {
        return false;
    };
    let told = DiskText {
        shape,
        marked: true,
        lost: false,
    };
    text.as_str() == wanted && read_shape(alloc, text.as_bytes()) == Ok(told)
}

#[test]
fn shapes_are_written_and_read(rt: HostRuntime) {
    for (share, bytes, text) in TEXTS {
        hold_true(&rt, goes_round(rt.alloc(), *share, *bytes, text), text);
    }
}

// Other texts of the small shape, and whether each is of version 2.
static SAME: &[(bool, &str)] = &[
    (
        false,
        "{\"cache\":64,\"geometry\":\"4096,128,64,13,1\",\"version\":1}\n",
    ),
    (
        false,
        "{\"cache\":64,\"geometry\":\"4096,128,64,13,1\",\"version\":1}",
    ),
    (
        false,
        " { \"version\" : 1,\n\"geometry\":\"04096,128,64,13,1\", \"cache\": 64 } \n\n",
    ),
    (
        false,
        "{\"cache\":1,\"version\":1,\"geometry\":\"4096,128,64,13,1\",\"cache\":64}",
    ),
    (
        true,
        "{\"version\":2,\"share\":0,\"lost\":false,\"geometry\":\"4096,128,64,13,1\",\"code\":\"none\",\"cache\":64}",
    ),
];

fn is_small(alloc: Global, marked: bool, text: &str) -> bool {
    match shape_for(1, 0) {
        Ok(shape) => read_shape(alloc, text.as_bytes())
            == Ok(DiskText {
                shape,
                marked,
                lost: false,
            }),
        Err(_) => false,
    }
}

#[test]
fn other_texts_of_a_shape(rt: HostRuntime) {
    for (marked, text) in SAME {
        hold_true(&rt, is_small(rt.alloc(), *marked, text), text);
    }
}

static FAULTS: &[(&[u8], ShapeFault)] = &[
    (b"", ShapeFault::NotJson),
    (b"{", ShapeFault::NotJson),
    (b"{} {}", ShapeFault::NotJson),
    (b"[]", ShapeFault::NotObject),
    (b"{}", ShapeFault::Missing(Member::Version)),
    (b"{\"version\":1}", ShapeFault::Missing(Member::Cache)),
    (
        b"{\"version\":1,\"cache\":64}",
        ShapeFault::Missing(Member::Geometry),
    ),
    (
        b"{\"version\":\"1\"}",
        ShapeFault::WrongType(Member::Version),
    ),
    (
        b"{\"version\":1,\"cache\":64.0}",
        ShapeFault::WrongType(Member::Cache),
    ),
    (
        b"{\"version\":1,\"cache\":64,\"geometry\":1}",
        ShapeFault::WrongType(Member::Geometry),
    ),
    (b"{\"version\":0}", ShapeFault::Version),
    (b"{\"version\":3}", ShapeFault::Version),
    (b"{\"version\":2}", ShapeFault::Missing(Member::Cache)),
    (b"{\"version\":1,\"cache\":0}", ShapeFault::CacheRange),
    (b"{\"version\":1,\"cache\":65537}", ShapeFault::CacheRange),
    (
        b"{\"version\":1,\"cache\":4294967297}",
        ShapeFault::CacheRange,
    ),
    (
        b"{\"version\":1,\"cache\":64,\"geometry\":\"4096,128,64,13\"}",
        ShapeFault::BadGeometry,
    ),
    (
        b"{\"version\":1,\"cache\":64,\"geometry\":\"4096,128,64,11,1\"}",
        ShapeFault::Geometry(GeometryFault::Blocks),
    ),
    (
        b"{\"cache\":64,\"geometry\":\"4096,128,64,13,1\",\"name\":\"\",\"version\":1}",
        ShapeFault::Unknown,
    ),
    (
        b"{\"cache\":64,\"geometry\":\"4096,128,64,13,1\",\"version\":2}",
        ShapeFault::Missing(Member::Code),
    ),
    (
        b"{\"cache\":64,\"code\":0,\"geometry\":\"4096,128,64,13,1\",\"version\":2}",
        ShapeFault::WrongType(Member::Code),
    ),
    (
        b"{\"cache\":64,\"code\":\"bch\",\"geometry\":\"4096,128,64,13,1\",\"version\":2}",
        ShapeFault::Code,
    ),
    (
        b"{\"cache\":64,\"code\":\"none\",\"geometry\":\"4096,128,64,13,1\",\"version\":2}",
        ShapeFault::Missing(Member::Lost),
    ),
    (
        b"{\"cache\":64,\"code\":\"none\",\"geometry\":\"4096,128,64,13,1\",\"lost\":0,\"version\":2}",
        ShapeFault::WrongType(Member::Lost),
    ),
    (
        b"{\"cache\":64,\"code\":\"none\",\"geometry\":\"4096,128,64,13,1\",\"lost\":false,\"version\":2}",
        ShapeFault::Missing(Member::Share),
    ),
    // so many may not wait: with one translation page, and with more sectors than any cache has entries
    (
        b"{\"cache\":64,\"code\":\"none\",\"geometry\":\"4096,128,64,13,1\",\"lost\":false,\"share\":65472,\"version\":2}",
        ShapeFault::Share(65_472),
    ),
    (
        b"{\"cache\":64,\"code\":\"none\",\"geometry\":\"4096,128,64,13,1\",\"lost\":false,\"share\":4294967296,\"version\":2}",
        ShapeFault::Share(4_294_967_296),
    ),
    (
        b"{\"cache\":64498,\"code\":\"none\",\"geometry\":\"4096,128,64,1136,65537\",\"lost\":false,\"share\":15,\"version\":2}",
        ShapeFault::Share(15),
    ),
    (
        b"{\"cache\":64,\"code\":\"none\",\"geometry\":\"4096,128,64,13,1\",\"lost\":false,\"share\":\"0\",\"version\":2}",
        ShapeFault::WrongType(Member::Share),
    ),
    (
        b"{\"cache\":64,\"code\":\"none\",\"geometry\":\"4096,128,64,13,1\",\"lost\":false,\"name\":1,\"share\":0,\"version\":2}",
        ShapeFault::Unknown,
    ),
    (
        b"{\"cache\":64,\"geometry\":\"4096,128,64,13,1\",\"share\":0,\"version\":1}",
        ShapeFault::Unknown,
    ),
    (b"{\"\xff\":1}", ShapeFault::NotJson),
];

// Shares that disks may have: as many as one translation page allows; with a cache that leaves just room for all that may be stale; and with share 0 beside any cache.
static SHARED: &[(u32, &[u8])] = &[
    (
        65_471,
        b"{\"cache\":64,\"code\":\"none\",\"geometry\":\"4096,128,64,13,1\",\"lost\":false,\"share\":65471,\"version\":2}",
    ),
    (
        15,
        b"{\"cache\":64497,\"code\":\"none\",\"geometry\":\"4096,128,64,1136,65537\",\"lost\":false,\"share\":15,\"version\":2}",
    ),
    (
        0,
        b"{\"cache\":65536,\"code\":\"none\",\"geometry\":\"4096,128,64,2165,65537\",\"lost\":false,\"share\":0,\"version\":2}",
    ),
];

fn has_share(alloc: Global, text: &[u8], share: u32) -> bool {
    match read_shape(alloc, text) {
        Ok(told) => told.shape.share == share,
        Err(_) => false,
    }
}

#[test]
fn shares_are_read(rt: HostRuntime) {
    for (row, (share, text)) in SHARED.iter().enumerate() {
        hold_at(&rt, has_share(rt.alloc(), text, *share), row);
    }
}

fn is_refused(alloc: Global, text: &[u8], fault: ShapeFault) -> bool {
    read_shape(alloc, text) == Err(fault)
}

#[test]
fn each_fault_is_named(rt: HostRuntime) {
    for (number, (text, fault)) in FAULTS.iter().enumerate() {
        hold_at(&rt, is_refused(rt.alloc(), text, *fault), number);
    }
}
