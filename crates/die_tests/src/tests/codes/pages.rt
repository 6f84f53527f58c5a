//! Pages with their codes, to the byte.
use page_code::{decode_page, encode_page, outer_bytes};
use page_layout::geometry::Geometry;
use page_layout::record::{Kind, Record, write_record};
use std::test::Fail;

// Two whole pages, by `page_example.py`.
#[test]
fn small_page(rt: HostRuntime) -> Result<(), Fail> {
    let geometry = Geometry::new(64, 32, 4, 32, 32)?;
    assert_eq!(rt; outer_bytes(&geometry), 38);
    let mut body = [0u8; 64];
    for i in 0..64usize {
        body[i] = i as u8;
    }
    let mut spare = [0u8; 32];
    let record = Record {
        kind: Kind::Sector,
        number: 5,
        sequence: 3,
        wear: 0,
    };
    write_record(&geometry, &record, &body, &mut spare);
    let mut outer = [0u8; 38];
    encode_page(&geometry, &body, &spare, &mut outer);
    assert_eq!(rt; outer, SMALL);
    body[40] ^= 0x10;
    outer[9] ^= 0x80;
    let mut found = [0u8; 32];
    let mended = decode_page(&geometry, &mut body, &mut found, &outer);
    assert_eq!(rt; (mended, found), (Some(2), spare));
    Ok(())
}

#[test]
fn large_page(rt: HostRuntime) -> Result<(), Fail> {
    let geometry = Geometry::new(2048, 37, 64, 64, 1000)?;
    assert_eq!(rt; outer_bytes(&geometry), 64);
    let mut body = [0u8; 2048];
    for i in 0..2048usize {
        body[i] = (i * 7 % 251) as u8;
    }
    let mut spare = [0u8; 37];
    let record = Record {
        kind: Kind::Sector,
        number: 5,
        sequence: 9,
        wear: 3,
    };
    write_record(&geometry, &record, &body, &mut spare);
    let mut outer = [0u8; 64];
    encode_page(&geometry, &body, &spare, &mut outer);
    assert_eq!(rt; outer, LARGE);
    Ok(())
}

static SMALL: [u8; 38] = [
    0xff, 0xff, 0x01, 0x01, 0x05, 0x00, 0x00, 0x00, 0x03, 0x00, 0x00, 0x00, 0x00, 0x00, 0x00, 0x00,
    0x00, 0x00, 0x00, 0x00, 0xff, 0xff, 0xff, 0xff, 0x4b, 0x4d, 0xbe, 0xc0, 0x52, 0x7e, 0xc0, 0xfc,
    0xa9, 0x59, 0x97, 0xff, 0xff, 0xff,
];

static LARGE: [u8; 64] = [
    0xff, 0xff, 0x01, 0x01, 0x05, 0x00, 0x00, 0x00, 0x09, 0x00, 0x00, 0x00, 0x00, 0x00, 0x00, 0x00,
    0x03, 0x00, 0x00, 0x00, 0xff, 0xff, 0xff, 0xff, 0x4d, 0x0d, 0xbf, 0x0f, 0x76, 0x47, 0x61, 0x02,
    0xff, 0xff, 0xff, 0xff, 0xff, 0xa9, 0x55, 0x97, 0xa5, 0x6a, 0x9b, 0x95, 0x95, 0x97, 0x56, 0x69,
    0x9b, 0xaa, 0x9a, 0x97, 0x3f, 0xc3, 0x3f, 0x0f, 0xcc, 0xcf, 0x5a, 0x55, 0x57, 0x0f, 0x3c, 0x3f,
];
