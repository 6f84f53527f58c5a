//! How far a file was read, on a screen.
use lab_dump::{DumpFault, DumpReader};
use lab_mend::Watch;
use part_files::FirstError;
use std::io::{self, Read, Seek, SeekFrom, Write};

/// Shows how much of a file was read, as a line that is renewed.
#[derive(Drop)]
pub struct Meter<E> {
    screen: E,
    // the file's bytes
    size: u64,
    // those that were read
    done: u64,
    // the hundredths that are shown
    shown: u64,
}

impl<E: Write> Meter<E> {
    /// One for a file of so many bytes, of which none was read.
    pub fn new(screen: E, size: u64) -> Meter<E> {
        Meter {
            screen,
            size,
            done: 0,
            shown: 0,
        }
    }

    /// So many bytes more were read. That the screen fails is no fault.
    pub fn advance(&mut self, bytes: u64) {
        self.done = self.done.saturating_add(bytes).min(self.size);
        let percent = self
            .done
            .saturating_mul(100)
            .checked_div(self.size)
            .unwrap_or(0);
        if percent > self.shown {
            self.shown = percent;
            let _ = self.show(percent);
        }
    }

    // The line ends with a carriage return, so what is printed next stands in its place. The last one clears it.
    fn show(&mut self, percent: u64) -> io::Result<()> {
        if percent < 100 {
            write!(self.screen, "read {percent} %\r")?;
        } else {
            self.screen.write_all(b"         \r")?;
        }
        self.screen.flush()
    }
}

/// A reader that a meter may follow. The system's error of a read that fails is noted.
#[derive(Drop)]
pub struct Metered<'a, R, E> {
    reader: R,
    meter: Option<Meter<E>>,
    first: &'a FirstError,
}

impl<'a, R, E> Metered<'a, R, E> {
    /// This reader, with this meter, and where an error is noted.
    pub fn new(reader: R, meter: Option<Meter<E>>, first: &'a FirstError) -> Metered<'a, R, E> {
        Metered {
            reader,
            meter,
            first,
        }
    }
}

impl<R: Read, E: Write> DumpReader for Metered<'_, R, E> {
    ghost use Rattle.std.specs.Prelude.{None, true};

    ghost remaining = { λ _. None };

    ghost failed = { λ _. true };

    fn read(&mut self, buffer: &mut [u8]) -> Result<usize, DumpFault> {
        let done = self.reader.read(buffer);
        let Ok(count) = self.first.noting(done) else {
            return Err(DumpFault);
        };
        if let Some(meter) = &mut self.meter {
            meter.advance(count as u64);
        }
        Ok(count)
    }
}

/// Shows how many pairs of bits of a page were tried, as a line that is renewed.
#[derive(Drop)]
pub struct Trials<E> {
    screen: Option<E>,
    // the hundredths that are shown
    shown: u64,
}

// How many hundredths of the pairs of so many bits have a lower bit before this one.
fn hundredths(bit: u64, bits: u64) -> u64 {
    let pairs = |low: u64| low.saturating_mul(low.saturating_sub(1));
    let all = pairs(bits);
    let left = pairs(bits.saturating_sub(bit));
    all.saturating_sub(left)
        .saturating_mul(100)
        .checked_div(all)
        .unwrap_or(100)
}

impl<E: Write> Trials<E> {
    /// On this screen, if there is one.
    pub fn new(screen: Option<E>) -> Trials<E> {
        Trials { screen, shown: 0 }
    }
}

// The line ends with a carriage return. The last one of a page clears it.
fn show_trials<E: Write>(screen: &mut E, row: u32, percent: u64) -> io::Result<()> {
    if percent < 100 {
        write!(screen, "row {row} tried {percent} %\r")?;
    } else {
        screen.write_all(b"                           \r")?;
    }
    screen.flush()
}

impl<E: Write> Watch for Trials<E> {
    fn tried(&mut self, row: u32, bit: u32, bits: u32) {
        let Some(screen) = &mut self.screen else {
            return;
        };
        let percent = hundredths(u64::from(bit), u64::from(bits));
        if percent != self.shown {
            self.shown = percent;
            let _ = show_trials(screen, row, percent);
        }
    }
}

/// How many bytes a file has, where that can be known. It is read from its first byte on then.
pub fn size_of<F: Seek>(file: &mut F) -> Option<u64> {
    let size = file.seek(SeekFrom::End(0)).ok()?;
    file.seek(SeekFrom::Start(0)).ok()?;
    if size == 0 { None } else { Some(size) }
}
