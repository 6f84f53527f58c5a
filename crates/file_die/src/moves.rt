//! Whole reads and writes of a file, whose calls may move less.
ghost use Rattle.std.specs.Prelude.{◌≡◌, ◌<◌, ◌≤◌, ℕ, ◌+◌, ◌^◌, true, List, length, take, OnErr, IfErr, IfOk, is_ok};
ghost use Rattle.page_layout.specs.Page.{Page};
ghost use Rattle.file_die.specs.Bytes.{Bytes, WritesFailBy, Gives, HasEnded, IsPatient, ReadInterrupted, KeepsTold, TakesBytes, TakesFewer, WriteInterrupted, over};
ghost use Rattle.file_die.specs.Rows.{WritesAll, Going, IsFilled, moved_by};

use crate::bytes::{ByteFault, ByteFile};

// Reads on by one call, once the first bytes are read, and says how many are then.
fn read_once<F: ByteFile>(
    file: &mut F,
    to: &mut [u8],
    done: usize,
    at: u64,
) -> Result<usize, ByteFault>
    requires unfinished { done < length to.old }
    requires within { at + length to.old < 2 ^ 64 }
    ensures next { IfOk result (λ next. (done < next) × (next ≤ length to.old)) }
    ensures gave { (first : F) → Gives F.gave first at (take done to.old) file.old → Gives F.gave first at (take (moved_by done result) to.new) file.new }
    ensures ended { IfErr result (λ why. (first : F) → Gives F.gave first at (take done to.old) file.old → HasEnded F.gave first at (length to.old) why file.new) }
    ensures interrupted { IfErr result (λ why. why ≡ ByteFault.Interrupted → ReadInterrupted F.gave file.old file.new) }
    ensures reads { F.honest file.old ≡ true → IsFilled (F.held file.old).bytes at done to.old → IsFilled (F.held file.old).bytes at (moved_by done result) to.new }
    ensures same { F.honest file.old ≡ true → F.held file.new ≡ F.held file.old }
    ensures honest { F.honest file.new ≡ F.honest file.old }
    ensures tells { (size : ℕ) (reads : List ℕ → Page) → F.tells file.new size reads ≡ F.tells file.old size reads }
{
    match file.read_at(&mut to[done..], at + done as u64) {
        Ok(0) => Err(ByteFault::Other),
        Ok(moved) => Ok(done + moved),
        Err(fault) => Err(fault),
    }
}

// The same, by as many calls as were interrupted, and one more.
fn read_next<F: ByteFile>(
    file: &mut F,
    to: &mut [u8],
    done: usize,
    at: u64,
) -> Result<usize, ByteFault>
    requires unfinished { done < length to.old }
    requires within { at + length to.old < 2 ^ 64 }
    ensures next { IfOk result (λ next. (done < next) × (next ≤ length to.old)) }
    ensures gave { (first : F) → Gives F.gave first at (take done to.old) file.old → Gives F.gave first at (take (moved_by done result) to.new) file.new }
    ensures ended { IfErr result (λ why. (first : F) → Gives F.gave first at (take done to.old) file.old → HasEnded F.gave first at (length to.old) why file.new) }
    ensures patient { IfErr result (λ why. IsPatient (ReadInterrupted F.gave) why file.new) }
    ensures reads { F.honest file.old ≡ true → IsFilled (F.held file.old).bytes at done to.old → IsFilled (F.held file.old).bytes at (moved_by done result) to.new }
    ensures same { F.honest file.old ≡ true → F.held file.new ≡ F.held file.old }
    ensures honest { F.honest file.new ≡ F.honest file.old }
    ensures tells { (size : ℕ) (reads : List ℕ → Page) → F.tells file.new size reads ≡ F.tells file.old size reads }
{
    for _tries in 0..u64::MAX {
        match read_once(file, to, done, at) {
            Err(ByteFault::Interrupted) => {}
            answer => return answer,
        }
    }
    read_once(file, to, done, at)
}

// Writes on by one call, once the first bytes are written, and says how many are then.
fn write_once<F: ByteFile>(
    file: &mut F,
    bytes: &[u8],
    done: usize,
    at: u64,
) -> Result<usize, ByteFault>
    requires unfinished { done < length bytes.now }
    requires within { at + length bytes.now < 2 ^ 64 }
    ensures next { IfOk result (λ next. (done < next) × (next ≤ length bytes.now)) }
    ensures taken { (first : F) → TakesBytes F.wrote first at bytes.now done file.old → TakesBytes F.wrote first at bytes.now (moved_by done result) file.new }
    ensures fails { IfErr result (λ why. WritesFailBy F.wrote why file.new) }
    ensures interrupted { IfErr result (λ why. why ≡ ByteFault.Interrupted → WriteInterrupted F.wrote file.old file.new) }
    ensures goes { F.honest file.old ≡ true → (first : Bytes) → at ≤ length first.bytes → Going first at bytes.now done (F.held file.old) → Going first at bytes.now (moved_by done result) (F.held file.new) }
    ensures told { F.honest file.old ≡ true → (first : Bytes) → at ≤ length first.bytes → Going first at bytes.now done (F.held file.old) →
        (size : ℕ) (reads : List ℕ → Page) → F.tells file.old size reads ≡ true → KeepsTold size reads (over at bytes.now first.bytes) (F.held file.old) (F.held file.new) }
    ensures honest { F.honest file.new ≡ F.honest file.old }
    ensures tells { (size : ℕ) (reads : List ℕ → Page) → F.tells file.new size reads ≡ F.tells file.old size reads }
{
    match file.write_at(&bytes[done..], at + done as u64) {
        Ok(0) => Err(ByteFault::Other),
        Ok(moved) => Ok(done + moved),
        Err(fault) => Err(fault),
    }
}

// The same, by as many calls as were interrupted, and one more.
fn write_next<F: ByteFile>(
    file: &mut F,
    bytes: &[u8],
    done: usize,
    at: u64,
) -> Result<usize, ByteFault>
    requires unfinished { done < length bytes.now }
    requires within { at + length bytes.now < 2 ^ 64 }
    ensures next { IfOk result (λ next. (done < next) × (next ≤ length bytes.now)) }
    ensures taken { (first : F) → TakesBytes F.wrote first at bytes.now done file.old → TakesBytes F.wrote first at bytes.now (moved_by done result) file.new }
    ensures fails { IfErr result (λ why. WritesFailBy F.wrote why file.new) }
    ensures patient { IfErr result (λ why. IsPatient (WriteInterrupted F.wrote) why file.new) }
    ensures goes { F.honest file.old ≡ true → (first : Bytes) → at ≤ length first.bytes → Going first at bytes.now done (F.held file.old) → Going first at bytes.now (moved_by done result) (F.held file.new) }
    ensures told { F.honest file.old ≡ true → (first : Bytes) → at ≤ length first.bytes → Going first at bytes.now done (F.held file.old) →
        (size : ℕ) (reads : List ℕ → Page) → F.tells file.old size reads ≡ true → KeepsTold size reads (over at bytes.now first.bytes) (F.held file.old) (F.held file.new) }
    ensures honest { F.honest file.new ≡ F.honest file.old }
    ensures tells { (size : ℕ) (reads : List ℕ → Page) → F.tells file.new size reads ≡ F.tells file.old size reads }
{
    for _tries in 0..u64::MAX {
        match write_once(file, bytes, done, at) {
            Err(ByteFault::Interrupted) => {}
            answer => return answer,
        }
    }
    write_once(file, bytes, done, at)
}

/// Reads as many bytes as there is room for from a place on, by as many calls as that takes. One that was interrupted is made again.
///
/// # Errors
///
/// - `Other` where the file has no more bytes, or by its own fault.
/// - `NoSpace` where the file answered that.
/// - `Interrupted` where 2^64 calls in a row were.
///
/// The buffer holds anything.
pub fn read_all<F: ByteFile>(file: &mut F, to: &mut [u8], at: u64) -> Result<(), ByteFault>
    requires within { at + length to.old < 2 ^ 64 }
    ensures gave { is_ok result ≡ true → Gives F.gave file.old at to.new file.new }
    ensures ended { IfErr result (λ why. HasEnded F.gave file.old at (length to.old) why file.new) }
    ensures patient { IfErr result (λ why. IsPatient (ReadInterrupted F.gave) why file.new) }
    ensures reads { is_ok result ≡ true → F.honest file.old ≡ true → IsFilled (F.held file.old).bytes at (length to.old) to.new }
    ensures same { F.honest file.old ≡ true → F.held file.new ≡ F.held file.old }
    ensures honest { F.honest file.new ≡ F.honest file.old }
    ensures tells { (size : ℕ) (reads : List ℕ → Page) → F.tells file.new size reads ≡ F.tells file.old size reads }
{
    let mut done = 0;
    while done < to.len() {
        done = read_next(file, to, done, at)?;
    }
    Ok(())
}

/// Writes all bytes from a place on, by as many calls as that takes. One that was interrupted is made again.
///
/// # Errors
///
/// - `Other` where the file takes no more bytes, or by its own fault.
/// - `NoSpace` where the file answered that.
/// - `Interrupted` where 2^64 calls in a row were.
///
/// Each byte is as it was or as it was to be.
pub fn write_all<F: ByteFile>(file: &mut F, bytes: &[u8], at: u64) -> Result<(), ByteFault>
    requires within { at + length bytes.now < 2 ^ 64 }
    ensures taken { is_ok result ≡ true → TakesBytes F.wrote file.old at bytes.now (length bytes.now) file.new }
    ensures stopped { OnErr result (TakesFewer F.wrote file.old at bytes.now file.new) }
    ensures fails { IfErr result (λ why. WritesFailBy F.wrote why file.new) }
    ensures patient { IfErr result (λ why. IsPatient (WriteInterrupted F.wrote) why file.new) }
    ensures writes { F.honest file.old ≡ true → at ≤ length (F.held file.old).bytes → WritesAll (F.held file.old) at bytes.now (is_ok result) (F.held file.new) }
    ensures told { F.honest file.old ≡ true → at ≤ length (F.held file.old).bytes → (size : ℕ) (reads : List ℕ → Page) → F.tells file.old size reads ≡ true →
        KeepsTold size reads (over at bytes.now (F.held file.old).bytes) (F.held file.old) (F.held file.new) }
    ensures honest { F.honest file.new ≡ F.honest file.old }
    ensures tells { (size : ℕ) (reads : List ℕ → Page) → F.tells file.new size reads ≡ F.tells file.old size reads }
{
    let mut done = 0;
    while done < bytes.len() {
        done = write_next(file, bytes, done, at)?;
    }
    Ok(())
}
