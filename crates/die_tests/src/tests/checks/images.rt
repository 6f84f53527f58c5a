//! The checker on images of small dies, whose pages are built one by one, in either version and mixed.
use super::source_of;
use certificate::{Certificate, read_certificate};
use image_check::{Accepted, Refusal, check, check_stream};
use page_layout::geometry::Geometry;
use std::alloc::Global;
use std::process::Abort;
use test_images::{
    Claim, DAMAGED_TABLE, FORMATTED, LAYOUTS, Layout, META, Said, TABLE_0, TABLE_1, THREE_SECTORS,
    Written, certificate_bytes, laid_out, page,
};

// The pages of a die that is else erased, the capacity that a certificate of it is checked for, and the answer: the stale
// sectors where it is accepted.
struct Case {
    name: &'static str,
    pages: &'static [Written],
    asked: u32,
    claim: Claim,
    answer: Result<&'static [u32], Refusal>,
}

// A directory that names a translation page which is not there.
const MISLED: [Option<u8>; 4] = [Some(8), None, Some(0), Some(1)];

// A block whose first page is erased and whose second is sound was programmed out of order.
const GAP: [Written; 3] = [TABLE_0, TABLE_1, page!(41, Sector 5, sequence 3, fill 1)];

const ONE: [Written; 3] = [TABLE_0, TABLE_1, page!(8, Sector 5, sequence 3, fill 1)];

// A next sequence that is past all of them.
const LATER: Claim = Claim {
    next: 12,
    ..FORMATTED
};

const LATER_AND_MISLED: Claim = Claim {
    directory: MISLED,
    ..LATER
};

// Three stale sectors.
const THREE_CLAIM: Claim = Claim {
    capacity: 3,
    next: 6,
    blocks: &[META, (1, 1, 3, 3, 0)],
    sectors: &[(0, 8), (1, 9), (2, 10)],
    ..FORMATTED
};

// Sector 5 in the first of two pages of a block.
const FIRST_OF_TWO: Claim = Claim {
    next: 5,
    blocks: &[META, (1, 1, 2, 1, 0)],
    sectors: &[(5, 8)],
    ..FORMATTED
};

// The block with the gap is grown bad.
const GAP_CLAIM: Claim = Claim {
    next: 4,
    blocks: &[META, (5, 5, 0, 1, 0)],
    sectors: &[(5, 41)],
    ..FORMATTED
};

// Sector 5 in the one page of a block, of which no row is told.
const ONE_CLAIM: Claim = Claim {
    next: 4,
    blocks: &[META, (1, 1, 1, 1, 0)],
    ..FORMATTED
};

const FREE_BUT_LIVE: Said = (2, 0, 0, 1, 0);

const CLOSED_BUT_ERASED: Said = (3, 3, 0, 0, 0);

const FREE_BUT_WORN: Said = (1, 0, 0, 0, 1);

// The certificate of the formatted die, for a cache of 4 entries, and its pages.
pub(super) const FORMATTED_CLAIM: Claim = FORMATTED;

pub(super) static FORMATTED_PAGES: [Written; 2] = [TABLE_0, TABLE_1];

// The rows 0 and 8 share a sequence.
const REPEATED: Refusal = Refusal::SequenceRepeated {
    first: 0,
    second: 8,
};

static CASES: [Case; 26] = [
    Case {
        name: "a formatted die",
        pages: &[TABLE_0, TABLE_1],
        asked: 4,
        claim: FORMATTED,
        answer: Ok(&[]),
    },
    Case {
        name: "another capacity",
        pages: &[TABLE_0, TABLE_1],
        asked: 5,
        claim: FORMATTED,
        answer: Err(Refusal::GeometryDiffers),
    },
    Case {
        name: "the greatest next sequence",
        pages: &[TABLE_0, TABLE_1],
        asked: 4,
        claim: Claim {
            next: u64::MAX,
            ..FORMATTED
        },
        answer: Ok(&[]),
    },
    Case {
        name: "a next sequence that was used",
        pages: &[TABLE_0, TABLE_1],
        asked: 4,
        claim: Claim {
            next: 2,
            ..FORMATTED
        },
        answer: Err(Refusal::NextSequence),
    },
    Case {
        name: "three stale sectors",
        pages: &THREE_SECTORS,
        asked: 3,
        claim: THREE_CLAIM,
        answer: Ok(&[0, 1, 2]),
    },
    Case {
        name: "three stale sectors, and room for two",
        pages: &THREE_SECTORS,
        asked: 2,
        claim: Claim {
            capacity: 2,
            ..THREE_CLAIM
        },
        answer: Err(Refusal::TooStale {
            stale: 3,
            capacity: 2,
        }),
    },
    Case {
        name: "a newer page of the sector",
        pages: &[
            TABLE_0,
            TABLE_1,
            page!(8, Sector 5, sequence 3, fill 1),
            page!(9, Sector 5, sequence 4, fill 2),
        ],
        asked: 4,
        claim: FIRST_OF_TWO,
        answer: Err(Refusal::NotNewest { sector: 5, row: 9 }),
    },
    Case {
        name: "another sector's page",
        pages: &[TABLE_0, TABLE_1, page!(8, Sector 6, sequence 3, fill 1)],
        asked: 4,
        claim: FIRST_OF_TWO,
        answer: Err(Refusal::NoSuchRecord { sector: 5, row: 8 }),
    },
    Case {
        name: "two sequences that are shared",
        pages: &[
            TABLE_0,
            TABLE_1,
            page!(8, Sector 1, sequence 9, fill 1),
            page!(16, Translation 0, sequence 9, fill 0xFF),
            page!(24, Sector 2, sequence 10, fill 1),
            page!(25, Sector 3, sequence 10, fill 1),
        ],
        asked: 4,
        claim: LATER,
        answer: Err(Refusal::SequenceRepeated {
            first: 8,
            second: 16,
        }),
    },
    Case {
        name: "a sector past the last",
        pages: &[TABLE_0, TABLE_1, page!(8, Sector 32, sequence 3, fill 1)],
        asked: 4,
        claim: LATER,
        answer: Err(Refusal::NumberRange { row: 8 }),
    },
    Case {
        name: "an erased die",
        pages: &[],
        asked: 4,
        claim: LATER,
        answer: Err(Refusal::NotFormatted),
    },
    Case {
        name: "a gap, and its block grown bad",
        pages: &GAP,
        asked: 4,
        claim: GAP_CLAIM,
        answer: Ok(&[5]),
    },
    Case {
        name: "a gap, and its block closed",
        pages: &GAP,
        asked: 4,
        claim: Claim {
            blocks: &[META, (5, 3, 0, 1, 0)],
            ..GAP_CLAIM
        },
        answer: Err(Refusal::BadSetWrong { block: 5 }),
    },
    // From here on each breaks two parts that stand side by side in the order. The first is named.
    Case {
        name: "the capacity before a number",
        pages: &[TABLE_0, TABLE_1, page!(8, Sector 32, sequence 2, fill 1)],
        asked: 5,
        claim: LATER_AND_MISLED,
        answer: Err(Refusal::GeometryDiffers),
    },
    Case {
        name: "a number before a sequence",
        pages: &[TABLE_0, TABLE_1, page!(8, Sector 32, sequence 2, fill 1)],
        asked: 4,
        claim: LATER_AND_MISLED,
        answer: Err(Refusal::NumberRange { row: 8 }),
    },
    Case {
        name: "a sequence before a table page",
        pages: &[TABLE_0, page!(8, Sector 1, sequence 1, fill 1)],
        asked: 4,
        claim: LATER_AND_MISLED,
        answer: Err(REPEATED),
    },
    Case {
        name: "a missing table page before a damaged one",
        pages: &[DAMAGED_TABLE],
        asked: 4,
        claim: LATER_AND_MISLED,
        answer: Err(Refusal::NotFormatted),
    },
    Case {
        name: "a damaged table page before the directory",
        pages: &[DAMAGED_TABLE, TABLE_1],
        asked: 4,
        claim: LATER_AND_MISLED,
        answer: Err(Refusal::TableDamaged { page: 0 }),
    },
    Case {
        name: "the directory before a sector's row",
        pages: &ONE,
        asked: 4,
        claim: Claim {
            directory: MISLED,
            sectors: &[(5, 20)],
            ..ONE_CLAIM
        },
        answer: Err(Refusal::DirectoryWrong { page: 0 }),
    },
    Case {
        name: "a row without a record before a sector's newest",
        pages: &ONE,
        asked: 4,
        claim: Claim {
            sectors: &[(9, 20)],
            ..ONE_CLAIM
        },
        answer: Err(Refusal::NoSuchRecord { sector: 9, row: 20 }),
    },
    Case {
        name: "a sector's newest before the bad blocks",
        pages: &ONE,
        asked: 4,
        claim: Claim {
            next: 4,
            blocks: &[META, (1, 1, 1, 1, 0), (7, 4, 0, 0, 0)],
            ..FORMATTED
        },
        answer: Err(Refusal::NotNewest { sector: 5, row: 8 }),
    },
    Case {
        name: "the bad blocks before a block's state",
        pages: &[TABLE_0, TABLE_1],
        asked: 4,
        claim: Claim {
            next: 2,
            blocks: &[META, CLOSED_BUT_ERASED, (7, 5, 0, 0, 0)],
            ..FORMATTED
        },
        answer: Err(Refusal::BadSetWrong { block: 7 }),
    },
    Case {
        name: "a block's state before its live pages",
        pages: &[TABLE_0, TABLE_1],
        asked: 4,
        claim: Claim {
            next: 2,
            blocks: &[META, FREE_BUT_LIVE, CLOSED_BUT_ERASED],
            ..FORMATTED
        },
        answer: Err(Refusal::BlockState { block: 3 }),
    },
    Case {
        name: "live pages before an erase count",
        pages: &[TABLE_0, TABLE_1],
        asked: 4,
        claim: Claim {
            next: 2,
            blocks: &[META, FREE_BUT_WORN, FREE_BUT_LIVE],
            ..FORMATTED
        },
        answer: Err(Refusal::LiveWrong { block: 2 }),
    },
    Case {
        name: "an erase count before the next sequence",
        pages: &[TABLE_0, TABLE_1],
        asked: 4,
        claim: Claim {
            next: 2,
            blocks: &[META, FREE_BUT_WORN],
            ..FORMATTED
        },
        answer: Err(Refusal::WearWrong { block: 1 }),
    },
    Case {
        name: "the next sequence before the stale sectors",
        pages: &[
            TABLE_0,
            TABLE_1,
            page!(8, Sector 0, sequence 3, fill 1),
            page!(9, Sector 1, sequence 4, fill 1),
        ],
        asked: 1,
        claim: Claim {
            capacity: 1,
            next: 4,
            blocks: &[META, (1, 1, 2, 2, 0)],
            sectors: &[(0, 8), (1, 9)],
            ..FORMATTED
        },
        answer: Err(Refusal::NextSequence),
    },
];

pub(super) fn certificate_of(rt: &impl Abort, alloc: Global, claim: &Claim) -> Certificate {
    let bytes = certificate_bytes(alloc, claim).expect(rt, "the bytes of a certificate");
    read_certificate(alloc, &bytes).expect(rt, "a certificate")
}

fn hold_answer(rt: &impl Abort, case: &Case, form: &str, answer: Result<Accepted, Refusal>) {
    let is_wanted = match answer {
        Ok(accepted) => case.answer == Ok(accepted.stale()),
        Err(refusal) => case.answer == Err(refusal),
    };
    assert!(rt; is_wanted, "{}, {form}", case.name);
}

// An image page by page, and the same from a reader.
fn hold_image(
    rt: &impl Abort,
    alloc: Global,
    case: &Case,
    geometry: &Geometry,
    bytes: &[u8],
    certificate: &Certificate,
) {
    let mut source = source_of(rt, geometry, bytes);
    let answer = check(alloc, &mut source, geometry, case.asked, certificate);
    hold_answer(rt, case, "page by page", answer);
    let mut reader = bytes;
    let answer = check_stream(alloc, &mut reader, geometry, case.asked, certificate);
    hold_answer(rt, case, "streamed", answer);
}

fn geometry_of(rt: &impl Abort, layout: Layout) -> Geometry {
    Geometry::new(64, layout.spare_bytes, 8, 32, 32).expect(rt, "a geometry within the limits")
}

// A case in one layout.
fn hold_laid_out(rt: &impl Abort, alloc: Global, case: &Case, layout: Layout) {
    let geometry = geometry_of(rt, layout);
    let claim = Claim {
        spare_bytes: layout.spare_bytes,
        ..case.claim
    };
    let certificate = certificate_of(rt, alloc, &claim);
    let bytes = laid_out(alloc, &geometry, layout, case.pages).expect(rt, "an image");
    hold_image(rt, alloc, case, &geometry, &bytes, &certificate);
}

// A case in each layout.
fn hold_case(rt: &impl Abort, alloc: Global, case: &Case) {
    for layout in &LAYOUTS {
        hold_laid_out(rt, alloc, case, *layout);
    }
}

#[test]
fn cases_are_answered(rt: HostRuntime) {
    for case in &CASES {
        hold_case(&rt, rt.alloc(), case);
    }
}
