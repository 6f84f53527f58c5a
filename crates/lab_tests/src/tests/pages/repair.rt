//! A dump with pages that are one bit and two bits away from sound ones, of which all are mended or those of some rows.
use super::{PAGE, PAGES};
use crate::tests::files::{Beside, MemoryReader, Unwatched};
use lab_dump::Rows;
use lab_mend::{BitPair, BitTurn, Made, Mend, RepairAsked, RepairRoom, Turned, repair_dump};
use page_layout::geometry::Geometry;
use std::alloc::Global;
use std::test::Fail;
use test_images::image_of;

// The bits that are turned of the dump, each byte with its bits. Row 8 loses one of its data area, row 9 one of its spare area; rows 1 and 20 have
// two turned, and row 21 is an erased page that lost a bit.
static TURNED: &[(usize, u8)] = &[
    (PAGE + 7, 0x03),
    (PAGE * 8 + 5, 0x10),
    (PAGE * 9 + 64 + 9, 0x01),
    (PAGE * 20 + 7, 0x03),
    (PAGE * 21, 0x80),
];

const ROW_8: Mend = Mend {
    row: 8,
    turn: BitTurn::One(Turned {
        bit: 44,
        made: Made::Sound,
    }),
};

const ROW_9: Mend = Mend {
    row: 9,
    turn: BitTurn::One(Turned {
        bit: 584,
        made: Made::Sound,
    }),
};

const ROW_21: Mend = Mend {
    row: 21,
    turn: BitTurn::One(Turned {
        bit: 7,
        made: Made::Erased,
    }),
};

const ROW_1: Mend = Mend {
    row: 1,
    turn: BitTurn::Two(BitPair { low: 56, high: 57 }),
};

// Two bits make it erased, and none make it sound.
const ROW_20: Mend = Mend {
    row: 20,
    turn: BitTurn::Nothing,
};

// The rows that are asked for, how many bits of a page may be turned, and the pages that are mended then.
struct Case {
    name: &'static str,
    rows: Option<Rows>,
    bits: u32,
    mends: &'static [Mend],
}

static CASES: &[Case] = &[
    Case {
        name: "no rows named",
        rows: None,
        bits: 1,
        mends: &[ROW_8, ROW_9, ROW_21],
    },
    Case {
        name: "the rows before row 21, two bits",
        rows: Some(Rows { first: 0, end: 21 }),
        bits: 2,
        mends: &[ROW_1, ROW_8, ROW_9, ROW_20],
    },
    Case {
        name: "every row",
        rows: Some(Rows { first: 0, end: 256 }),
        bits: 1,
        mends: &[ROW_8, ROW_9, ROW_21],
    },
    Case {
        name: "both rows",
        rows: Some(Rows { first: 8, end: 10 }),
        bits: 1,
        mends: &[ROW_8, ROW_9],
    },
    Case {
        name: "the rows before row 9",
        rows: Some(Rows { first: 0, end: 9 }),
        bits: 1,
        mends: &[ROW_8],
    },
    Case {
        name: "row 9 and the rows past the die",
        rows: Some(Rows {
            first: 9,
            end: 0xFFFF_FFFF,
        }),
        bits: 1,
        mends: &[ROW_9, ROW_21],
    },
    Case {
        name: "the rows after row 9",
        rows: Some(Rows {
            first: 10,
            end: 256,
        }),
        bits: 1,
        mends: &[ROW_21],
    },
    Case {
        name: "the empty range",
        rows: Some(Rows { first: 8, end: 8 }),
        bits: 1,
        mends: &[],
    },
    Case {
        name: "an end before the first row",
        rows: Some(Rows { first: 10, end: 8 }),
        bits: 1,
        mends: &[],
    },
];

// Turns bits of a byte.
fn turn(bytes: &mut [u8], at: usize, bits: u8) {
    if let Some(byte) = bytes.get_mut(at) {
        *byte ^= bits;
    }
}

// Turns a bit of the page of a row.
fn turn_bit(bytes: &mut [u8], row: u32, bit: u32) {
    turn(
        bytes,
        PAGE * row as usize + bit as usize / 8,
        1 << (bit % 8),
    );
}

// Turns the bits of these pages back.
fn turn_back(bytes: &mut [u8], mends: &[Mend]) {
    for mend in mends {
        match mend.turn {
            BitTurn::One(turned) => turn_bit(bytes, mend.row, turned.bit),
            BitTurn::Two(pair) => {
                turn_bit(bytes, mend.row, pair.low);
                turn_bit(bytes, mend.row, pair.high);
            }
            BitTurn::Tied | BitTurn::Nothing => {}
        }
    }
}

// Whether the pages that a case names are mended of a dump, and no others.
fn holds(alloc: Global, geometry: &Geometry, dump: &[u8], case: &Case) -> Result<bool, Fail> {
    let mut want = Vec::from_slice(alloc, dump)?;
    turn_back(&mut want, case.mends);
    let target = Beside::new(vec![in alloc; 0u8; dump.len()]?, PAGE);
    let mut reader = MemoryReader::new(alloc, dump)?;
    let room = RepairRoom::new(alloc, geometry)?;
    let asked = RepairAsked {
        rows: case.rows,
        bits: case.bits,
    };
    let Ok(told) = repair_dump(room, &mut reader, geometry, asked, target, Unwatched) else {
        return Ok(false);
    };
    Ok(told.mends.as_slice() == case.mends && told.target.bytes == want)
}

// The dump with its bits turned.
fn turned(alloc: Global, geometry: &Geometry) -> Result<Vec<u8>, Fail> {
    let mut dump = image_of(alloc, geometry, PAGES)?;
    for (at, bits) in TURNED {
        turn(&mut dump, *at, *bits);
    }
    Ok(dump)
}

#[test]
fn one_bit_is_mended_and_two_where_that_is_asked_for(rt: HostRuntime) -> Result<(), Fail> {
    let geometry = Geometry::new(64, 40, 8, 32, 32)?;
    let dump = turned(rt.alloc(), &geometry)?;
    for case in CASES {
        let holds = holds(rt.alloc(), &geometry, &dump, case)?;
        let name = case.name;
        assert!(rt; holds, "{name}");
    }
    Ok(())
}
