//! The plain scan of a source that puts out other pages when it is read again.
use super::{hold, image, small, source_of};
use image_check::sector;
use std::process::Abort;
use test_images::{FaultySource, SourceTrouble, TABLE_0, Written, page};

// Sector 5 as it is found.
const FOUND: [Written; 2] = [TABLE_0, page!(8, Sector 5, sequence 3, fill 0x11)];

// The page that stands there when it is read again, and what sector 5 then reads as.
type Case = (&'static [Written], u8);

static CASES: [Case; 5] = [
    (&FOUND, 0x11),
    (&[TABLE_0, page!(8, Sector 5, sequence 9, fill 0x22)], 0x22),
    (&[TABLE_0, page!(8, Sector 6, sequence 3, fill 0x33)], 0),
    (&[TABLE_0, page!(8, Trim 5, sequence 3, fill 0x44)], 0),
    (&[], 0),
];

fn hold_case(rt: &impl Abort, found: &[u8], later: &[u8], want: u8) {
    let geometry = small(rt);
    let trouble = SourceTrouble::Turns(256, source_of(rt, &geometry, later));
    let mut source = FaultySource::new(source_of(rt, &geometry, found), trouble);
    let mut page = [0; 96];
    let mut out = [0xEE; 64];
    let read = sector(&mut source, &geometry, 5, &mut page, &mut out);
    hold(rt, read == Ok(()), "read");
    assert!(rt; out == [want; 64], "{want}");
}

#[test]
fn another_sector_is_not_shown(rt: HostRuntime) {
    let geometry = small(&rt);
    let found = image(&rt, rt.alloc(), &geometry, &FOUND);
    for (pages, want) in &CASES {
        let later = image(&rt, rt.alloc(), &geometry, pages);
        hold_case(&rt, &found, &later, *want);
    }
}
