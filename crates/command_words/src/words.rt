//! What the words of the command line ask for: a command's name, as `clap` finds it, and the words in its places.
ghost use Rattle.std.specs.Prelude.{◌≡◌, ◌≢◌, ◌∷◌, IfOk, IfSome, Err, None};
ghost use Rattle.std.specs.List.{list_any};
ghost use Rattle.program_words.specs.Met.{command_entries, texts};
ghost use Rattle.command_words.specs.declared.words.CertificateWords.{CertificateWords};
ghost use Rattle.command_words.specs.declared.words.FileWords.{FileWords};
ghost use Rattle.command_words.specs.declared.words.ImageWords.{ImageWords};
ghost use Rattle.command_words.specs.declared.words.Order.{Order};
ghost use Rattle.command_words.specs.declared.words.ServeWords.{ServeWords};
ghost use Rattle.command_words.specs.Words.{IsNoOrderRead, IsOrder, IsOrderAt, IsOrderRead, certificate_texts, file_texts, image_texts, order_words, serve_texts};

use crate::grammar::grammar;
use program_words::{CommandWords, GrammarFault, Met, read_words};
use std::alloc::Global;

/// The words of `sector GEOM IMAGE N` and of `show GEOM IMAGE ROW`.
#[derive(Clone, Copy)]
pub struct ImageWords<'a> {
    pub geometry: &'a str,
    pub image: &'a str,
    pub number: &'a str,
}

/// The words of `format GEOM IN OUT`.
#[derive(Clone, Copy)]
pub struct FileWords<'a> {
    pub geometry: &'a str,
    pub input: &'a str,
    pub output: &'a str,
}

/// The words of `check GEOM C IMAGE CERT` and of `mount GEOM C IMAGE CERT`.
#[derive(Clone, Copy)]
pub struct CertificateWords<'a> {
    pub geometry: &'a str,
    pub capacity: &'a str,
    pub image: &'a str,
    pub certificate: &'a str,
}

/// The words of `serve GEOM C IMAGE CERT OUT` and of `migrate GEOM C IMAGE CERT OUT`.
#[derive(Clone, Copy)]
pub struct ServeWords<'a> {
    pub geometry: &'a str,
    pub capacity: &'a str,
    pub image: &'a str,
    pub certificate: &'a str,
    pub output: &'a str,
}

/// What the words ask for, each word as written.
#[derive(Clone, Copy)]
pub enum Order<'a> {
    /// Prints a sector of a raw image.
    Sector(ImageWords<'a>),
    /// Prints the record of a page of a raw image.
    Show(ImageWords<'a>),
    /// Makes a fresh die ready for use.
    Format(FileWords<'a>),
    /// Holds a certificate against a raw image.
    Check(CertificateWords<'a>),
    /// Makes the certificate of a raw image.
    Mount(CertificateWords<'a>),
    /// Serves requests over a raw image.
    Serve(ServeWords<'a>),
    /// Brings the pages of version 1 of a raw image forward.
    Migrate(ServeWords<'a>),
}

// A geometry, an image and a number, where there are three words.
fn image_words<'a>(words: &[&'a str]) -> Option<ImageWords<'a>>
    ensures some { IfSome result (λ read. image_texts read ≡ texts words.now) }
    ensures none { result ≡ None → (read : ImageWords) → image_texts read ≢ texts words.now }
{
    match words {
        &[geometry, image, number] => Some(ImageWords {
            geometry,
            image,
            number,
        }),
        _ => None,
    }
}

// A geometry and two files, where there are three words.
fn file_words<'a>(words: &[&'a str]) -> Option<FileWords<'a>>
    ensures some { IfSome result (λ read. file_texts read ≡ texts words.now) }
    ensures none { result ≡ None → (read : FileWords) → file_texts read ≢ texts words.now }
{
    match words {
        &[geometry, input, output] => Some(FileWords {
            geometry,
            input,
            output,
        }),
        _ => None,
    }
}

// A geometry, a capacity, an image and its certificate, where there are four words.
fn certificate_words<'a>(words: &[&'a str]) -> Option<CertificateWords<'a>>
    ensures some { IfSome result (λ read. certificate_texts read ≡ texts words.now) }
    ensures none { result ≡ None → (read : CertificateWords) → certificate_texts read ≢ texts words.now }
{
    match words {
        &[geometry, capacity, image, certificate] => Some(CertificateWords {
            geometry,
            capacity,
            image,
            certificate,
        }),
        _ => None,
    }
}

// The same and a file to be written, where there are five words.
fn serve_words<'a>(words: &[&'a str]) -> Option<ServeWords<'a>>
    ensures some { IfSome result (λ read. serve_texts read ≡ texts words.now) }
    ensures none { result ≡ None → (read : ServeWords) → serve_texts read ≢ texts words.now }
{
    match words {
        &[geometry, capacity, image, certificate, output] => Some(ServeWords {
            geometry,
            capacity,
            image,
            certificate,
            output,
        }),
        _ => None,
    }
}

// The order of a command of this name with these words, where there is such a command.
fn order_named<'a>(name: &str, words: &[&'a str]) -> Option<Order<'a>>
    ensures some { IfSome result (λ order. order_words order ≡ name.now ∷ texts words.now) }
    ensures none { result ≡ None → (order : Order) → order_words order ≢ name.now ∷ texts words.now }
{
    match name {
        "sector" => image_words(words).map(Order::Sector),
        "show" => image_words(words).map(Order::Show),
        "format" => file_words(words).map(Order::Format),
        "check" => certificate_words(words).map(Order::Check),
        "mount" => certificate_words(words).map(Order::Mount),
        "serve" => serve_words(words).map(Order::Serve),
        "migrate" => serve_words(words).map(Order::Migrate),
        _ => None,
    }
}

// The order of the command that `clap` met, where it has so many words.
fn order_at<'a>(name: &str, found: &CommandWords<'a>) -> Option<Order<'a>>
    ensures some { IfSome result (IsOrderAt name.now (command_entries found.now)) }
    ensures none { result ≡ None → (order : Order) → ¬ IsOrderAt name.now (command_entries found.now) order }
{
    order_named(name, found.words("WORDS")?)
}

// What the words ask for as `clap` reads them. No order has the text of help or of the version.
fn read_order<'a>(alloc: Global, words: &'a [&'a str]) -> Result<Order<'a>, GrammarFault>
    ensures ok { IfOk result (IsOrderRead (texts words.now)) }
    ensures none { result ≡ Err GrammarFault.NoSuchCommand → IsNoOrderRead (texts words.now) }
{
    match read_words(alloc, &grammar(), words) {
        Ok(Met::Command { name, words }) => {
            order_at(name, &words).ok_or(GrammarFault::NoSuchCommand)
        }
        Ok(Met::Text(_)) => Err(GrammarFault::NoSuchCommand),
        Err(fault) => Err(fault),
    }
}

fn is_option(word: &str) -> bool
    ensures { result ≡ Rattle.command_words.specs.Words.is_option word.now }
{
    match word.as_bytes() {
        [first, ..] => *first == b'-',
        [] => false,
    }
}

fn has_option(words: &[&str]) -> bool
    ensures { result ≡ list_any (λ word. Rattle.command_words.specs.Words.is_option word.now) words.now }
{
    words.iter().any(|word| is_option(word))
}

/// The order that the words give, of which the first is the program's name: a command's name and
/// as many words as the command has. No word after the program's name may begin with `-`, so that
/// `clap` is never asked for help or the version.
///
/// # Errors
///
/// `NoSuchCommand` exactly where the words are no such command, memory aside. `OutOfMemory` where a
/// growth was refused.
pub fn parse<'a>(alloc: Global, words: &'a [&'a str]) -> Result<Order<'a>, GrammarFault>
    ensures ok { IfOk result (IsOrder (texts words.now)) }
    ensures none { result ≡ Err GrammarFault.NoSuchCommand → (order : Order) → ¬ IsOrder (texts words.now) order }
{
    if words.is_empty() || has_option(&words[1..]) {
        return Err(GrammarFault::NoSuchCommand);
    }
    read_order(alloc, words)
}
