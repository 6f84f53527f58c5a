//! Images of small dies, whose pages are built one by one, in either version and mixed, and sources that fail.
use super::said::{Said, hold, hold_said, mounted, mounted_counted, stale_count};
use image_check::Refusal;
use mount::Mounted;
use page_layout::geometry::Geometry;
use page_layout::source::{ImageSlice, PageSource, SourceFault};
use std::alloc::Global;
use std::process::Abort;
use std::test::Fail;
use test_images::{LAYOUTS, Layout, TABLE_0, TABLE_1, Written, image_of, laid_out, page};

// What the certificate says that mounting answers, and how many sectors a check of it finds stale.
type Accepted = (&'static [Said], usize);

// The pages of a die that is else erased, the capacity of its mapping, and what mounting answers.
struct Case {
    name: &'static str,
    pages: &'static [Written],
    capacity: u32,
    answer: Result<Accepted, Refusal>,
}

// A table page whose record is sound, and whose bytes no table has.
const DAMAGED: Written = page!(0, Table 0, sequence 1, fill 3);

const LAST: Written = page!(8, Sector 5, sequence u64::MAX, fill 1);

// Three sectors were written and no translation page.
const THREE: [Written; 5] = [
    TABLE_0,
    TABLE_1,
    page!(8, Sector 0, sequence 3, fill 1),
    page!(9, Sector 1, sequence 4, fill 1),
    page!(10, Sector 2, sequence 5, fill 1),
];

static CASES: [Case; 15] = [
    Case {
        name: "three stale sectors, and room for two",
        pages: &THREE,
        capacity: 2,
        answer: Err(Refusal::TooStale {
            stale: 3,
            capacity: 2,
        }),
    },
    Case {
        name: "three stale sectors",
        pages: &THREE,
        capacity: 3,
        answer: Ok((
            &[
                Said::NextSequence(6),
                Said::Block(0, (2, 2, 2, 0)),
                Said::Block(1, (1, 3, 3, 0)),
                Said::Block(2, (0, 0, 0, 0)),
            ],
            3,
        )),
    },
    Case {
        name: "a shared sequence",
        pages: &[
            TABLE_0,
            TABLE_1,
            page!(8, Sector 1, sequence 9, fill 1),
            page!(16, Translation 0, sequence 9, fill 0xFF),
        ],
        capacity: 4,
        answer: Err(Refusal::SequenceRepeated {
            first: 8,
            second: 16,
        }),
    },
    // A table page that has sound pages and no newest one.
    Case {
        name: "a table page's only pages tie",
        pages: &[TABLE_0, TABLE_1, page!(8, Table 1, sequence 2, fill 0)],
        capacity: 4,
        answer: Err(Refusal::SequenceRepeated {
            first: 1,
            second: 8,
        }),
    },
    // A block whose first page is erased and whose second is sound was programmed out of order. Its newest page counts.
    Case {
        name: "a gap makes a block grown bad",
        pages: &[TABLE_0, TABLE_1, page!(41, Sector 5, sequence 3, fill 1)],
        capacity: 4,
        answer: Ok((
            &[
                Said::Block(5, (5, 0, 1, 0)),
                Said::Good(31),
                Said::Sector(5, Some(41)),
            ],
            1,
        )),
    },
    Case {
        name: "an erased die",
        pages: &[],
        capacity: 4,
        answer: Err(Refusal::NotFormatted),
    },
    Case {
        name: "a sector past the last",
        pages: &[TABLE_0, TABLE_1, page!(8, Sector 32, sequence 3, fill 1)],
        capacity: 4,
        answer: Err(Refusal::NumberRange { row: 8 }),
    },
    Case {
        name: "a damaged table page",
        pages: &[TABLE_0, page!(1, Table 1, sequence 2, fill 3)],
        capacity: 4,
        answer: Err(Refusal::TableDamaged { page: 1 }),
    },
    Case {
        name: "the greatest sequence leaves no next",
        pages: &[TABLE_0, TABLE_1, LAST],
        capacity: 4,
        answer: Err(Refusal::NextSequence),
    },
    Case {
        name: "the greatest but one leaves the greatest",
        pages: &[
            TABLE_0,
            TABLE_1,
            page!(8, Sector 5, sequence u64::MAX - 1, fill 1),
        ],
        capacity: 4,
        answer: Ok((&[Said::NextSequence(u64::MAX)], 1)),
    },
    // From here on each image breaks two parts that stand side by side in the order. The first is answered.
    Case {
        name: "a number before a sequence",
        pages: &[TABLE_0, TABLE_1, page!(8, Sector 32, sequence 1, fill 1)],
        capacity: 4,
        answer: Err(Refusal::NumberRange { row: 8 }),
    },
    Case {
        name: "a sequence before a missing table page",
        pages: &[TABLE_0, page!(8, Sector 1, sequence 1, fill 1)],
        capacity: 4,
        answer: Err(Refusal::SequenceRepeated {
            first: 0,
            second: 8,
        }),
    },
    Case {
        name: "a missing table page before a damaged one",
        pages: &[DAMAGED],
        capacity: 4,
        answer: Err(Refusal::NotFormatted),
    },
    Case {
        name: "a damaged table page before the next sequence",
        pages: &[DAMAGED, TABLE_1, LAST],
        capacity: 4,
        answer: Err(Refusal::TableDamaged { page: 0 }),
    },
    Case {
        name: "the next sequence before the stale sectors",
        pages: &[
            TABLE_0,
            TABLE_1,
            LAST,
            page!(9, Sector 6, sequence 3, fill 1),
        ],
        capacity: 1,
        answer: Err(Refusal::NextSequence),
    },
];

fn hold_case(rt: &impl Abort, alloc: Global, case: &Case, layout: Layout) -> Result<(), Fail> {
    let geometry = Geometry::new(64, layout.spare_bytes, 8, 32, 32)?;
    let bytes = laid_out(alloc, &geometry, layout, case.pages)?;
    let mut source = ImageSlice::new(&geometry, &bytes)?;
    match mounted_counted(alloc, &mut source, &geometry, case.capacity) {
        Ok(Mounted { certificate, stale }) => {
            let (said, want) = case.answer?;
            hold_said(rt, case.name, &certificate, said);
            hold(rt, stale.len() == want, case.name, "as mounted");
            let checked = stale_count(alloc, &mut source, &geometry, case.capacity, &certificate);
            hold(rt, checked == Ok(want), case.name, "as checked");
        }
        Err(refusal) => hold(rt, case.answer.err() == Some(refusal), case.name, "refused"),
    }
    Ok(())
}

#[test]
fn images_are_mounted(rt: HostRuntime) -> Result<(), Fail> {
    for case in &CASES {
        for layout in LAYOUTS {
            hold_case(&rt, rt.alloc(), case, layout)?;
        }
    }
    Ok(())
}

// An image whose page read of one number fails.
#[derive(Drop)]
struct FailingAt<'a> {
    image: ImageSlice<'a>,
    nth: u64,
    reads: u64,
    faults: u64,
}

impl<'a> PageSource for FailingAt<'a> {
    ghost use Rattle.std.specs.Prelude.{⊤, false, None};

    ghost view = { record {
      flash = λ s. s.image.flash;
      recorded = λ _. None;
      honest = λ _. false;
      calm = λ _. false;
      reads = λ s. s.reads;
      programs = λ _. 0;
      erases = λ _. 0;
      failed = λ s. s.faults;
      called = λ _ _ _. ⊤;
    } };

    fn read_page(
        &mut self,
        row: u32,
        body: &mut [u8],
        spare: &mut [u8],
    ) -> Result<(), SourceFault> {
        self.reads = self.reads.saturating_add(1);
        if self.reads == self.nth {
            self.faults = self.faults.saturating_add(1);
            return Err(SourceFault(6));
        }
        self.image.read_page(row, body, spare)
    }

    fn failures(&self) -> u64 {
        self.faults
    }
}

static NEWEST: [Written; 3] = [
    TABLE_0,
    TABLE_1,
    page!(2, Translation 0, sequence 3, fill 0xFF),
];

// The number of the page read that fails, and what mounting answers: the first page, the last, and the newest translation
// page, which is read again.
static FAILING: [(u64, Option<Refusal>); 4] = [
    (1, Some(Refusal::Source)),
    (256, Some(Refusal::Source)),
    (257, Some(Refusal::Source)),
    (258, None),
];

// What mounting an image of those pages answers where the page read of this number fails.
fn failing_at(alloc: Global, bytes: &[u8], nth: u64) -> Result<Option<Refusal>, Fail> {
    let geometry = Geometry::new(64, 32, 8, 32, 32)?;
    let mut source = FailingAt {
        image: ImageSlice::new(&geometry, bytes)?,
        nth,
        reads: 0,
        faults: 0,
    };
    Ok(mounted(alloc, &mut source, &geometry, 4).err())
}

#[test]
fn failed_read_is_answered(rt: HostRuntime) -> Result<(), Fail> {
    let geometry = Geometry::new(64, 32, 8, 32, 32)?;
    let bytes = image_of(rt.alloc(), &geometry, &NEWEST)?;
    for (nth, want) in &FAILING {
        let found = failing_at(rt.alloc(), &bytes, *nth)?;
        assert!(rt; found == *want, "at {nth}");
    }
    Ok(())
}
