//! Sizes as words write them, and the shapes for them.
use crate::tests::{hold_at, hold_true};
use disk_commands::{DiskShape, SizeFault, SizeWordFault, shape_for, share_for, size_from};

type Said = Result<u64, SizeWordFault>;

// A part of a byte.
const PART: Said = Err(SizeWordFault::PartOfByte);

const NO_SIZE: Said = Err(SizeWordFault::NoSize);

// A word, and the bytes that it says.
static SIZES: &[(&str, Said)] = &[
    ("1", Ok(1)),
    ("4096", Ok(4096)),
    ("007", Ok(7)),
    ("1K", Ok(1024)),
    ("1k", Ok(1024)),
    ("64M", Ok(67_108_864)),
    ("64m", Ok(67_108_864)),
    ("64MiB", Ok(67_108_864)),
    ("64mB", Ok(64_000_000)),
    ("64MB", Ok(64_000_000)),
    ("1G", Ok(1_073_741_824)),
    ("1.5G", Ok(1_610_612_736)),
    ("1.5GiB", Ok(1_610_612_736)),
    ("1.5GB", Ok(1_500_000_000)),
    ("0.25K", Ok(256)),
    ("1.0", Ok(1)),
    ("1.50000M", Ok(1_572_864)),
    ("0.000001MB", Ok(1)),
    ("2T", Ok(2_199_023_255_552)),
    ("1TB", Ok(1_000_000_000_000)),
    ("9223372036854775808", Ok(9_223_372_036_854_775_808)),
    ("8388608T", Ok(9_223_372_036_854_775_808)),
    ("1.000000000000000000", Ok(1)),
    ("1.5", PART),
    ("0.1K", PART),
    ("1.1G", PART),
    ("0.0001KB", PART),
    ("0.000000000000000001T", PART),
    ("9223372036854775809", NO_SIZE),
    ("8388609T", NO_SIZE),
    ("18446744073709551615", NO_SIZE),
    ("18446744073709551616", NO_SIZE),
    ("18446744073709551615T", NO_SIZE),
    ("1.0000000000000000000", NO_SIZE),
    ("", NO_SIZE),
    ("0", NO_SIZE),
    ("0K", NO_SIZE),
    ("0.0M", NO_SIZE),
    ("K", NO_SIZE),
    ("1KK", NO_SIZE),
    ("K1", NO_SIZE),
    ("-1", NO_SIZE),
    ("+1", NO_SIZE),
    ("1 M", NO_SIZE),
    ("1.", NO_SIZE),
    ("1.M", NO_SIZE),
    (".5M", NO_SIZE),
    ("1..5M", NO_SIZE),
    ("1.5.5M", NO_SIZE),
    ("1MIB", NO_SIZE),
    ("1Mib", NO_SIZE),
    ("1Mb", NO_SIZE),
    ("1B", NO_SIZE),
    ("1iB", NO_SIZE),
    ("1P", NO_SIZE),
    ("1MiBs", NO_SIZE),
    ("1,5G", NO_SIZE),
    ("0x10", NO_SIZE),
    ("1e3", NO_SIZE),
];

#[test]
fn sizes_are_read(rt: HostRuntime) {
    for (word, said) in SIZES {
        hold_true(&rt, size_from(word) == *said, word);
    }
}

// A share, a size, and the pages of a block, blocks, sectors and cache of its shape.
static SHAPES: &[(u32, u64, [u32; 4])] = &[
    (0, 1, [64, 13, 1, 64]),
    (0, 4096, [64, 13, 1, 64]),
    (0, 4097, [64, 13, 2, 64]),
    (0, 64 << 20, [64, 370, 16_384, 16_384]),
    (0, 255 << 20, [64, 2156, 65_280, 65_280]),
    (0, 256 << 20, [64, 2165, 65_536, 65_280]),
    (0, (256 << 20) + 1, [64, 2165, 65_537, 57_344]),
    (0, 509_349_888, [64, 4095, 124_353, 57_344]),
    (0, 509_349_889, [128, 2053, 124_354, 57_344]),
    (0, 1_018_724_352, [128, 4095, 248_712, 57_344]),
    (0, 1_018_724_353, [256, 2053, 248_713, 57_344]),
    (0, 1 << 30, [256, 2165, 262_144, 57_344]),
    (0, 2_037_469_184, [256, 4095, 497_429, 57_344]),
    (1, 64 << 20, [64, 364, 16_384, 16_384]),
    (15, 1, [64, 15, 1, 64]),
    (15, 4097, [64, 15, 2, 64]),
    (15, 64 << 20, [64, 295, 16_384, 16_384]),
    (15, 256 << 20, [64, 1135, 65_536, 65_280]),
    (15, (256 << 20) + 1, [64, 1136, 65_537, 56_369]),
    (15, 977_149_952, [64, 4096, 238_562, 53_849]),
    (15, 977_149_953, [128, 2055, 238_563, 53_849]),
    (15, 1 << 30, [128, 2257, 262_144, 53_504]),
    (15, 1_954_320_384, [128, 4096, 477_129, 50_354]),
    (15, 1_954_320_385, [256, 2046, 477_130, 50_354]),
    (15, 2 << 30, [256, 2247, 524_288, 49_664]),
    (15, 3 << 30, [256, 3365, 786_432, 45_824]),
    (15, 3_924_946_944, [256, 4096, 958_239, 43_304]),
    // no block is over
    (15, 3_924_946_945, [256, 4096, 958_240, 43_304]),
    (15, 4_023_562_240, [256, 4096, 982_315, 42_944]),
    (22, 3900 << 20, [256, 4096, 998_400, 35_894]),
];

// Whether a shape has pages of 4,096 and 128 bytes, this share, and these numbers.
fn is_shape(shape: &DiskShape, share: u32, numbers: [u32; 4]) -> bool {
    let die = shape.geometry;
    let sizes = [die.data_bytes(), die.spare_bytes()];
    let its = [die.pages(), die.blocks(), die.sectors(), shape.cache];
    sizes == [4096, 128] && its == numbers && shape.share == share
}

fn has_shape(share: u32, bytes: u64, numbers: [u32; 4]) -> bool {
    match shape_for(bytes, share) {
        Ok(shape) => is_shape(&shape, share, numbers),
        Err(_) => false,
    }
}

#[test]
fn shapes_follow_from_sizes(rt: HostRuntime) {
    for (row, (share, bytes, numbers)) in SHAPES.iter().enumerate() {
        hold_at(&rt, has_shape(*share, *bytes, *numbers), row);
    }
}

// Sizes that no shape is for.
static REFUSED: &[(u32, u64, SizeFault)] = &[
    (0, 0, SizeFault::Zero),
    (0, 2_037_469_185, SizeFault::TooLarge),
    (0, 1 << 31, SizeFault::TooLarge),
    (0, u64::MAX, SizeFault::TooLarge),
    (15, 0, SizeFault::Zero),
    (15, 4_023_562_241, SizeFault::TooLarge),
    (15, 3900 << 20, SizeFault::TooLarge),
    (22, 4_090_343_425, SizeFault::TooLarge),
    (u32::MAX, u64::MAX, SizeFault::TooLarge),
];

#[test]
fn sizes_without_a_shape(rt: HostRuntime) {
    for (row, (share, bytes, fault)) in REFUSED.iter().enumerate() {
        hold_at(&rt, shape_for(*bytes, *share) == Err(*fault), row);
    }
}

// A size, and the share of a new disk of it.
static NEW_SHARES: &[(u64, u32)] = &[
    (0, 15),
    (1, 15),
    (256 << 20, 15),
    (4_023_562_240, 15),
    (4_023_562_241, 17),
    (4_040_257_537, 18),
    (3900 << 20, 22),
    (4_190_515_200, 49),
    (4_190_515_201, 62),
    (4_207_210_496, 62),
    // no die has room
    (4_207_210_497, 15),
    (u64::MAX, 15),
];

#[test]
fn new_disks_have_the_least_share_that_serves(rt: HostRuntime) {
    for (row, (bytes, share)) in NEW_SHARES.iter().enumerate() {
        hold_at(&rt, share_for(*bytes) == *share, row);
    }
}
