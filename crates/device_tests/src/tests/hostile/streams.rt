//! Streams of requests that are noise, or valid but for a few bytes, against a plain reader and a plain list of sectors.
ghost use Rattle.std.specs.Prelude.{◌≡◌};

use super::list::{List, SECTORS, hold_image};
use super::noise::Noise;
use crate::tests::serving::{Answer, serve_at};
use block_server::Served;
use device_fixtures::bench::{formatted_die, small};
use device_fixtures::dies::image_of;
use page_layout::geometry::Geometry;
use page_layout::source::ImageSlice;
use promises::stream::End;
use std::alloc::Global;
use std::process::Abort;
use std::test::Fail;

// How many streams of each sort there are.
const STREAMS: u32 = 200;

// The list of sectors, and the replies so far.
#[derive(Drop)]
struct Plain {
    list: List,
    output: Vec<u8>,
    replies: u64,
}

// What stands at the beginning of a stream: a request, and the bytes after it, or the end.
enum Front<'a> {
    Request(&'a [u8; 12], &'a [u8], &'a [u8]),
    Last(End),
}

// The first twelve bytes of a stream begin a request: its operation.
fn operation(header: &[u8; 12]) -> Option<u8> {
    match header {
        [0x44, 0x46, op @ 1..=5, 0, ..] => Some(*op),
        _ => None,
    }
}

fn split_front(stream: &[u8]) -> Front<'_> {
    if stream.is_empty() {
        return Front::Last(End::Boundary);
    }
    let Some((header, rest)) = stream.split_first_chunk::<12>() else {
        return Front::Last(End::Unfinished);
    };
    let body = match operation(header) {
        None => return Front::Last(End::BadFrame),
        Some(2) => 64,
        Some(_) => 0,
    };
    match rest.split_at_checked(body) {
        Some((body, rest)) => Front::Request(header, body, rest),
        None => Front::Last(End::Unfinished),
    }
}

impl Plain {
    fn reply(&mut self, op: u8, status: u8, tag: [u8; 4]) -> Result<(), Fail> {
        self.replies = self.replies.saturating_add(1);
        self.output.extend_from_slice(&[0x64, 0x66, op, status])?;
        Ok(self.output.extend_from_slice(&tag)?)
    }

    // Makes the call of a request.
    fn make(&mut self, op: u8, sector: u32, body: &[u8]) -> Result<(), Fail> {
        match op {
            1 => self.output.extend_from_slice(&self.list.get(sector))?,
            2 => self.list.set(sector, body.try_into().unwrap_or([0; 64])),
            3 => self.list.set(sector, [0; 64]),
            _ => (),
        }
        Ok(())
    }

    // Answers a request.
    fn answer(&mut self, header: &[u8; 12], body: &[u8]) -> Result<(), Fail> {
        let [_, _, op, _, t0, t1, t2, t3, s0, s1, s2, s3] = *header;
        let sector = u32::from_le_bytes([s0, s1, s2, s3]);
        let refused = op <= 3 && sector >= SECTORS;
        self.reply(op, u8::from(refused), [t0, t1, t2, t3])?;
        if refused {
            return Ok(());
        }
        self.make(op, sector, body)
    }

    // Answers a stream.
    fn answer_all(&mut self, stream: &[u8]) -> Result<End, Fail> {
        let mut left = stream;
        for _ in 0..=stream.len() {
            match split_front(left) {
                Front::Request(header, body, rest) => {
                    self.answer(header, body)?;
                    left = rest;
                }
                Front::Last(End::BadFrame) => {
                    self.reply(0, 7, [0; 4])?;
                    return Ok(End::BadFrame);
                }
                Front::Last(end) => return Ok(end),
            }
        }
        Err(Fail::new("no end"))
    }
}

// What the server of a new die makes of a stream: its answer, what it wrote, and the image.
type Came = (Answer, Vec<u8>, Vec<u8>);

fn served(alloc: Global, geometry: &Geometry, stream: &[u8]) -> Result<Came, Fail> {
    let driver = formatted_die(alloc, *geometry, &[], 0)?;
    let mut reader = stream;
    let mut written = Vec::new(alloc);
    let (answer, driver) = serve_at(alloc, driver, geometry, 0, 4, &mut reader, &mut written)?;
    let image = image_of(alloc, geometry, driver)?;
    Ok((answer, written, image))
}

// The server's answer, output and image are those of the plain list.
fn hold_came(
    rt: &impl Abort,
    geometry: &Geometry,
    plain: &Plain,
    end: End,
    came: &Came,
    name: &str,
) -> Result<(), Fail> {
    let (answer, written, image) = came;
    let replies = plain.replies;
    assert!(rt; *answer == Ok(Served { replies, end }), "{name}");
    assert!(rt; written.as_slice() == plain.output.as_slice(), "{name}");
    hold_image(rt, &ImageSlice::new(geometry, image)?, &plain.list, name);
    Ok(())
}

// The server of a new die answers a stream as the plain list.
fn hold_answered(
    rt: &impl Abort,
    alloc: Global,
    plain: &mut Plain,
    stream: &[u8],
    name: &str,
) -> Result<End, Fail> {
    let geometry = small()?;
    let end = plain.answer_all(stream)?;
    let came = served(alloc, &geometry, stream)?;
    hold_came(rt, &geometry, plain, end, &came, name)?;
    Ok(end)
}

// The same with a new list.
fn hold_stream(rt: &impl Abort, alloc: Global, stream: &[u8], name: &str) -> Result<End, Fail> {
    let mut plain = Plain {
        list: List::new(),
        output: Vec::new(alloc),
        replies: 0,
    };
    hold_answered(rt, alloc, &mut plain, stream, name)
}

// Adds a request. One sector in nine is out of range.
fn add_request(noise: &mut Noise, stream: &mut Vec<u8>) -> Result<(), Fail> {
    let op = 1 + noise.below(5) as u8;
    let sector = noise.below(36) as u8;
    let mut body = [0; 64];
    noise.fill(&mut body);
    let [t0, t1, t2, t3, ..] = body;
    stream.extend_from_slice(&[0x44, 0x46, op, 0, t0, t1, t2, t3, sector, 0, 0, 0])?;
    if op == 2 {
        stream.extend_from_slice(&body)?;
    }
    Ok(())
}

fn valid_stream(alloc: Global, noise: &mut Noise) -> Result<Vec<u8>, Fail> {
    let mut stream = Vec::new(alloc);
    for _ in 0..40 {
        add_request(noise, &mut stream)?;
    }
    Ok(stream)
}

fn noise_stream(alloc: Global, noise: &mut Noise) -> Result<Vec<u8>, Fail> {
    let mut stream = vec![in alloc; 0; noise.below(200) as usize]?;
    noise.fill(&mut stream);
    Ok(stream)
}

#[test]
fn noise_is_answered(rt: HostRuntime) -> Result<(), Fail> {
    let mut noise = Noise::new();
    for _ in 0..STREAMS {
        let stream = noise_stream(rt.alloc(), &mut noise)?;
        hold_stream(&rt, rt.alloc(), &stream, "noise")?;
    }
    Ok(())
}

// A valid stream, and the same changed.
fn hold_changed(rt: &impl Abort, alloc: Global, noise: &mut Noise) -> Result<(), Fail> {
    let mut stream = valid_stream(alloc, noise)?;
    let end = hold_stream(rt, alloc, &stream, "valid")?;
    assert!(rt; end == End::Boundary);
    let length = stream.len();
    noise.spoil(&mut stream, length);
    hold_stream(rt, alloc, &stream, "changed")?;
    Ok(())
}

#[test]
fn changed_requests_are_answered(rt: HostRuntime) -> Result<(), Fail> {
    let mut noise = Noise::new();
    for _ in 0..STREAMS {
        hold_changed(&rt, rt.alloc(), &mut noise)?;
    }
    Ok(())
}
