//! The words of the request stream.
ghost use Rattle.std.specs.Prelude.{◌≡◌};
ghost use Rattle.promises.specs.Stream.{op_code, op_from};

/// What a request asks for.
#[derive(Clone, Copy, Debug, PartialEq, Eq)]
pub enum Op {
    /// Gives a sector.
    Read,
    /// Sets a sector to the bytes that follow.
    Write,
    /// Sets a sector to zeros.
    Trim,
    /// Writes to flash what is known in memory alone.
    Flush,
    /// Gives the device an idle moment.
    Turn,
}

impl Op {
    /// The byte that stands for it in a header: 1 to 5, in the order above. (This project.)
    pub fn code(self) -> u8
        ensures { result ≡ op_code self }
    {
        match self {
            Op::Read => 1,
            Op::Write => 2,
            Op::Trim => 3,
            Op::Flush => 4,
            Op::Turn => 5,
        }
    }

    /// What a byte of a header asks for; none where it is not 1 to 5. (This project.)
    pub fn from_code(code: u8) -> Option<Op>
        ensures { result ≡ op_from code }
    {
        match code {
            1 => Some(Op::Read),
            2 => Some(Op::Write),
            3 => Some(Op::Trim),
            4 => Some(Op::Flush),
            5 => Some(Op::Turn),
            _ => None,
        }
    }
}

/// Why a stream of requests has no more: it ends after a whole request, or in the middle of one, or goes on with a bad header.
#[derive(Clone, Copy, Debug, PartialEq, Eq)]
pub enum End {
    /// After a whole request, or before the first.
    Boundary,
    /// In the middle of a request.
    Unfinished,
    /// With twelve bytes that begin with no header.
    BadFrame,
}
