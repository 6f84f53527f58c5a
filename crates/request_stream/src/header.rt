//! The header of a request.
ghost use Rattle.std.specs.Prelude.{◌≡◌, ◌<◌, ◌^◌, [], false, IfSome, IsNone};
ghost use Rattle.promises.specs.Stream.{header_bytes, is_header};
ghost use Rattle.request_stream.specs.Frames.{request_at};

use promises::stream::Op;

/// What a request asks for, the tag that its reply carries, and a sector's number, which a flush and a
/// turn don't look at. (This project's.)
#[derive(Clone, Copy, Debug, PartialEq, Eq)]
pub struct Header {
    pub op: Op,
    pub tag: u32,
    pub sector: u32,
}

impl Header {
    ghost use Rattle.std.specs.Prelude.{◌≡◌, ◌<◌, ◌^◌, [], false, IfSome, IsNone};
    ghost use Rattle.promises.specs.Stream.{header_bytes, is_header};
    ghost use Rattle.request_stream.specs.Frames.{request_at};

    /// The header that twelve bytes spell: `DF`, the operation's code, 00h, and the tag and the sector's
    /// number, each least significant byte first. Else `None`. (This project's layout.)
    pub fn parse(bytes: &[u8; 12]) -> Option<Header>
        ensures spelled { IfSome result (λ header. bytes.now ≡ header_bytes (request_at header [])) }
        ensures tag { IfSome result (λ header. header.tag < 2 ^ 32) }
        ensures sector { IfSome result (λ header. header.sector < 2 ^ 32) }
        ensures bad { IsNone result → is_header bytes.now ≡ false }
    {
        let [b'D', b'F', code, 0, t0, t1, t2, t3, s0, s1, s2, s3] = *bytes else {
            return None;
        };
        let op = Op::from_code(code)?;
        Some(Header {
            op,
            tag: u32::from_le_bytes([t0, t1, t2, t3]),
            sector: u32::from_le_bytes([s0, s1, s2, s3]),
        })
    }
}
