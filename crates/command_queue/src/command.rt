//! Commands, and calls that are answered.
ghost use Rattle.std.specs.Prelude.{◌≡◌, None, IfOk};
ghost use Rattle.command_queue.specs.Commands.{room_for, told_command};

use ftl_device::DeviceFault;
use page_layout::geometry::Geometry;
use std::alloc::{AllocError, Global};

/// What a device is told. (This project.)
#[derive(Clone, Copy)]
pub enum Command<'a> {
    /// Read a sector.
    Read { sector: u32 },
    /// Write a sector: `body` is one data area.
    Write { sector: u32, body: &'a [u8] },
    /// Trim a sector, which then reads as 00h bytes.
    Trim { sector: u32 },
    /// Write to flash what is known in memory alone.
    Flush,
    /// An idle moment.
    Turn,
}

/// A command, and what the device answered to it. (This project.)
#[derive(Drop)]
pub struct Call<'a> {
    /// What the device is told.
    pub command: Command<'a>,
    /// What it answered; `None` before it was told.
    pub reply: Option<Result<(), DeviceFault>>,
    /// For a read, room for one data area, into which the sector's bytes go.
    pub bytes: Vec<u8>,
}

impl<'a> Call<'a> {
    /// A command that was not told yet. A read has room for one data area of this geometry; no other
    /// command needs any.
    ///
    /// # Errors
    ///
    /// `AllocError` where a growth was refused. (This project.)
    pub fn new(
        alloc: Global,
        geometry: &Geometry,
        command: Command<'a>,
    ) -> Result<Call<'a>, AllocError>
        ensures command { IfOk result (λ call. call.command ≡ command.entry) }
        ensures untold { IfOk result (λ call. call.reply ≡ None) }
        ensures room { IfOk result (λ call. call.bytes.items ≡ room_for geometry.now command.entry) }
    {
        let bytes = match command {
            Command::Read { .. } => vec![in alloc; 0; geometry.data_bytes()]?,
            Command::Write { .. } | Command::Trim { .. } | Command::Flush | Command::Turn => {
                Vec::new(alloc)
            }
        };
        Ok(Call {
            command,
            reply: None,
            bytes,
        })
    }
}
