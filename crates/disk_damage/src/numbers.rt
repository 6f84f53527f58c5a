//! The sectors of a list, and numbers as text.
ghost use Rattle.std.specs.Prelude.{◌≡◌, ◌++◌, IfOk, OnOk, string_bytes};
ghost use Rattle.disk_damage.specs.Numbers.{between, counted_lines, listed_sectors, with_commas};

use std::alloc::{AllocError, Global};

/// The sectors that are listed, by rising number.
///
/// # Errors
///
/// Where a growth was refused.
pub fn numbers_of(alloc: Global, lost: &[bool]) -> Result<Vec<u64>, AllocError>
    ensures { IfOk result (λ sectors. sectors.items ≡ listed_sectors lost.now) }
{
    let mut sectors = Vec::new(alloc);
    for (n, is_lost) in lost.iter().enumerate() {
        if *is_lost {
            sectors.push(n as u64)?;
        }
    }
    Ok(sectors)
}

// Adds numbers to a text, each between two texts.
fn add_numbers(text: &mut String, front: &str, end: &str, numbers: &[u64]) -> Result<(), AllocError>
    ensures { OnOk result (string_bytes text.new ≡ string_bytes text.old ++ between front.now end.now numbers.now) }
{
    for number in numbers {
        write!(text, "{front}{number}{end}")?;
    }
    Ok(())
}

/// How many numbers there are, behind a head, and each on a line of its own behind the same words.
///
/// # Errors
///
/// Where a growth was refused.
pub fn counted(alloc: Global, head: &str, line: &str, numbers: &[u64]) -> Result<String, AllocError>
    ensures { IfOk result (λ text. string_bytes text ≡ counted_lines head.now line.now numbers.now) }
{
    let count = numbers.len();
    let mut text = format!(in alloc; "{head}{count}\n")?;
    add_numbers(&mut text, line, "\n", numbers)?;
    Ok(text)
}

/// The numbers, with a comma between two.
///
/// # Errors
///
/// Where a growth was refused.
pub fn joined(alloc: Global, numbers: &[u64]) -> Result<String, AllocError>
    ensures { IfOk result (λ text. string_bytes text ≡ with_commas numbers.now) }
{
    let mut text = String::new(alloc);
    if let Some((first, others)) = numbers.split_first() {
        write!(text, "{first}")?;
        add_numbers(&mut text, ",", "", others)?;
    }
    Ok(text)
}
