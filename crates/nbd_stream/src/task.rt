//! What a request asks of a disk, or the error that it has before the disk is asked.
ghost use Rattle.std.specs.Prelude.{◌≡◌, IsTrue};
ghost use Rattle.nbd_stream.specs.Tasks.{admitted, change_of, command_from, sets_bytes, is_within, is_durable};

use crate::export::Export;
use crate::reply::RequestError;
use crate::request::NbdHeader;

/// The commands that are answered with more than a refusal. (The NBD protocol, "Request types".)
#[derive(Clone, Copy, Debug, PartialEq, Eq)]
pub enum NbdCommand {
    /// Gives bytes.
    Read,
    /// Sets bytes to those that follow the request.
    Write,
    /// Ends the transmission, with no reply.
    Disconnect,
    /// Makes lasting what was written.
    Flush,
    /// Tells that bytes are not needed: they read as zeros from then on.
    Trim,
    /// Sets bytes to zeros.
    WriteZeroes,
}

/// What a disk is asked. `durable` asks that the bytes last before the reply. (This project's.)
#[derive(Clone, Copy, Debug, PartialEq, Eq)]
pub enum Task {
    /// Gives bytes.
    Read {
        offset: u64,
        count: u32,
    },
    /// Sets bytes.
    Write {
        offset: u64,
        count: u32,
        durable: bool,
    },
    /// Makes lasting what was written.
    Flush,
    /// Sets bytes to zeros; they are not needed.
    Trim {
        offset: u64,
        count: u32,
        durable: bool,
    },
    /// Sets bytes to zeros.
    WriteZeroes {
        offset: u64,
        count: u32,
        durable: bool,
    },
}

impl Task {
    // Whether it sets bytes.
    pub(crate) fn is_change(self) -> bool
        ensures { result ≡ sets_bytes self }
    {
        match self {
            Task::Write { .. } | Task::Trim { .. } | Task::WriteZeroes { .. } => true,
            Task::Read { .. } | Task::Flush => false,
        }
    }
}

// The flags that may stand with a request: the first asks for bytes that last; the second, with zeroes, that they take room.
const DURABLE: u16 = 1;

const ZEROES_FLAGS: u16 = 3;

// What a header's number asks for; none for what is not supported.
fn command_from(code: u16) -> Option<NbdCommand>
    ensures { result ≡ command_from code }
{
    match code {
        0 => Some(NbdCommand::Read),
        1 => Some(NbdCommand::Write),
        2 => Some(NbdCommand::Disconnect),
        3 => Some(NbdCommand::Flush),
        4 => Some(NbdCommand::Trim),
        6 => Some(NbdCommand::WriteZeroes),
        _ => None,
    }
}

// Whether the header's range has bytes, and all are the export's.
fn is_within(export: &Export, header: &NbdHeader) -> bool
    ensures { result ≡ is_within export.now header.now }
{
    let count = header.count as u64;
    count > 0 && count <= export.size && header.offset <= export.size - count
}

// Whether the bytes are to last before the reply.
fn is_durable(header: &NbdHeader) -> bool
    ensures { result ≡ is_durable header.now }
{
    header.flags % 2 == 1
}

// A change of at most so many bytes, or the error past the export's end.
fn admit_change(
    export: &Export,
    header: &NbdHeader,
    most: u32,
    past: RequestError,
    task: Task,
) -> Result<Task, RequestError>
    ensures { result ≡ change_of export.now header.now most past task }
{
    if export.read_only {
        Err(RequestError::NotPermitted)
    } else if header.count == 0 || header.count > most {
        Err(RequestError::Invalid)
    } else if is_within(export, header) {
        Ok(task)
    } else {
        Err(past)
    }
}

/// What a request asks of the disk.
///
/// # Errors
///
/// The first that is so: `Invalid` for a command or a flag that is not supported; `NotPermitted` for a change of a read-only export;
/// `Invalid` for no byte or for more than the export takes, of a read or a write; then, past the export's end, `Invalid` for a read or
/// a trim and `NoSpace` for a write or zeros. (The NBD protocol, "Error values".)
pub fn admit(export: &Export, header: &NbdHeader) -> Result<Task, RequestError>
    ensures { result ≡ admitted export.now header.now }
{
    let (offset, count, durable) = (header.offset, header.count, is_durable(header));
    match command_from(header.code) {
        Some(NbdCommand::WriteZeroes) if header.flags <= ZEROES_FLAGS => admit_change(
            export,
            header,
            u32::MAX,
            RequestError::NoSpace,
            Task::WriteZeroes {
                offset,
                count,
                durable,
            },
        ),
        None | Some(NbdCommand::Disconnect | NbdCommand::WriteZeroes) => Err(RequestError::Invalid),
        Some(_) if header.flags > DURABLE => Err(RequestError::Invalid),
        Some(NbdCommand::Read) if count <= export.maximum && is_within(export, header) => {
            Ok(Task::Read { offset, count })
        }
        Some(NbdCommand::Flush) if offset == 0 && count == 0 => Ok(Task::Flush),
        Some(NbdCommand::Read | NbdCommand::Flush) => Err(RequestError::Invalid),
        Some(NbdCommand::Write) => admit_change(
            export,
            header,
            export.maximum,
            RequestError::NoSpace,
            Task::Write {
                offset,
                count,
                durable,
            },
        ),
        Some(NbdCommand::Trim) => admit_change(
            export,
            header,
            u32::MAX,
            RequestError::Invalid,
            Task::Trim {
                offset,
                count,
                durable,
            },
        ),
    }
}
