//! What an option is answered.
ghost use Rattle.request_stream.specs.Streams.{EndsBy};
ghost use Rattle.std.specs.Prelude.{◌≡◌, OnErr, OnOk, ◌≤◌, ℕ, Bool, List, length, take, false, true, IfSome, IsNone};
ghost use Rattle.request_stream.specs.Frames.{SendsBytes};
ghost use Rattle.nbd_stream.specs.Handed.{HandsAnswer};
ghost use Rattle.nbd_stream.specs.Options.{IsData, option_from, answer_to_option, question_answer, is_question, name_length, step_after, option_answer_bytes, asked_option, option_reply_header, transmission_flags, export_bytes, export_info, block_info};

use crate::export::Export;
use crate::option::OptionHeader;
use crate::reply::send_parts;
use byteorder::{BigEndian, ByteOrder};
use request_stream::{Outgoing, ServeFault};

/// The options that are answered with more than that they are not supported. (The NBD protocol, "Option types".)
#[derive(Clone, Copy)]
pub enum OptionCode {
    /// Chooses an export, in the old way.
    ExportName,
    /// Ends the negotiation.
    Abort,
    /// Asks which exports there are.
    List,
    /// Asks what an export is.
    Info,
    /// The same, and chooses it.
    Go,
}

/// What is answered to an option. (This project's.)
#[derive(Clone, Copy)]
pub enum Answer {
    /// A reply of this kind, with no data.
    Short(u32),
    /// The one export, and the end of the list.
    Listed,
    /// What the export is.
    Told,
    /// The export that was chosen in the old way.
    Chosen,
    /// Nothing: such a refusal has no words.
    Silent,
}

/// What follows an answer. (This project's.)
#[derive(Clone, Copy)]
pub enum AnswerStep {
    /// Another option.
    More,
    /// Requests.
    Transmit,
    /// Nothing.
    Close,
}

// The kinds of the replies to options.
const ACK: u32 = 1;

const SERVER: u32 = 2;

const INFO: u32 = 3;

const UNSUPPORTED: u32 = 0x8000_0001;

const INVALID: u32 = 0x8000_0003;

const UNKNOWN: u32 = 0x8000_0006;

const TOO_BIG: u32 = 0x8000_0009;

// What an option's number asks for; none for what is not supported.
fn option_from(code: u32) -> Option<OptionCode>
    ensures { result ≡ option_from code }
{
    match code {
        1 => Some(OptionCode::ExportName),
        2 => Some(OptionCode::Abort),
        3 => Some(OptionCode::List),
        6 => Some(OptionCode::Info),
        7 => Some(OptionCode::Go),
        _ => None,
    }
}

// The length of the name in the data of a question for an export; none where the data is no such question.
fn question_name(body: &[u8]) -> Option<usize>
    ensures question { IfSome result (λ name. is_question body.now ≡ true) }
    ensures name { IfSome result (λ name. name ≡ name_length body.now) }
    ensures none { IsNone result → is_question body.now ≡ false }
{
    if body.len() < 6 {
        return None;
    }
    let name = BigEndian::read_u32(body) as usize;
    if body.len() - 6 < name {
        return None;
    }
    let types = BigEndian::read_u16(&body[4 + name..]) as usize;
    if body.len() == 6 + name + 2 * types {
        Some(name)
    } else {
        None
    }
}

// The answer to a question for an export.
fn question_answer(body: &[u8]) -> Answer
    ensures { (limit : ℕ) → length body.now ≤ limit → result ≡ question_answer limit body.now }
{
    match question_name(body) {
        Some(0) => Answer::Told,
        Some(_) => Answer::Short(UNKNOWN),
        None => Answer::Short(INVALID),
    }
}

// The answer to a question for an export, with its data at the front of the buffer where it has room there.
fn answer_question(count: u32, body: &[u8]) -> Answer
    ensures { (given : List ℕ) → length given ≡ count → (count ≤ length body.now → given ≡ take count body.now) → result ≡ question_answer (length body.now) given }
{
    if count as usize <= body.len() {
        question_answer(&body[..count as usize])
    } else {
        Answer::Short(TOO_BIG)
    }
}

// The answer to an option, with its data at the front of the buffer where it has room there.
pub(crate) fn answer_to(header: &OptionHeader, body: &[u8]) -> Answer
    ensures { (given : List ℕ) → IsData header.now body.now given → result ≡ answer_to_option (length body.now) (asked_option header.now.code given) }
{
    match option_from(header.code) {
        None => Answer::Short(UNSUPPORTED),
        Some(OptionCode::ExportName) if header.count == 0 => Answer::Chosen,
        Some(OptionCode::ExportName) => Answer::Silent,
        Some(OptionCode::Abort) => Answer::Short(ACK),
        Some(OptionCode::List) if header.count == 0 => Answer::Listed,
        Some(OptionCode::List) => Answer::Short(INVALID),
        Some(OptionCode::Info | OptionCode::Go) => answer_question(header.count, body),
    }
}

// What follows the answer to an option of this number.
pub(crate) fn step_after(code: u32, answer: Answer) -> AnswerStep
    ensures { result ≡ step_after code answer }
{
    match answer {
        Answer::Short(_) if code == 2 => AnswerStep::Close,
        Answer::Short(_) | Answer::Listed => AnswerStep::More,
        Answer::Told if code == 7 => AnswerStep::Transmit,
        Answer::Told => AnswerStep::More,
        Answer::Chosen => AnswerStep::Transmit,
        Answer::Silent => AnswerStep::Close,
    }
}

// The twenty bytes that a reply to an option begins with.
fn reply_header(code: u32, kind: u32, count: u32) -> [u8; 20]
    ensures { result ≡ option_reply_header code kind count }
{
    let [o0, o1, o2, o3] = code.to_be_bytes();
    let [k0, k1, k2, k3] = kind.to_be_bytes();
    let [n0, n1, n2, n3] = count.to_be_bytes();
    [
        0x00, 0x03, 0xe8, 0x89, 0x04, 0x55, 0x65, 0xa9, o0, o1, o2, o3, k0, k1, k2, k3, n0, n1, n2,
        n3,
    ]
}

// What the protocol says of the export, in bits.
fn transmission_flags(export: &Export) -> u16
    ensures { result ≡ transmission_flags export.now }
{
    if export.read_only { 15 } else { 109 }
}

// The export's size and flags.
fn export_bytes(export: &Export) -> [u8; 10]
    ensures { result ≡ export_bytes export.now }
{
    let [s0, s1, s2, s3, s4, s5, s6, s7] = export.size.to_be_bytes();
    let [f0, f1] = transmission_flags(export).to_be_bytes();
    [s0, s1, s2, s3, s4, s5, s6, s7, f0, f1]
}

// The same, as an information.
fn export_info(export: &Export) -> [u8; 12]
    ensures { result ≡ export_info export.now }
{
    let [s0, s1, s2, s3, s4, s5, s6, s7] = export.size.to_be_bytes();
    let [f0, f1] = transmission_flags(export).to_be_bytes();
    [0, 0, s0, s1, s2, s3, s4, s5, s6, s7, f0, f1]
}

// The counts of bytes that requests may have, as an information.
fn block_info(export: &Export) -> [u8; 14]
    ensures { result ≡ block_info export.now }
{
    let [p0, p1, p2, p3] = export.preferred.to_be_bytes();
    let [m0, m1, m2, m3] = export.maximum.to_be_bytes();
    [0, 3, 0, 0, 0, 1, p0, p1, p2, p3, m0, m1, m2, m3]
}

// Writes what the export is.
fn send_told<W: Outgoing>(writer: &mut W, export: &Export, code: u32) -> Result<(), ServeFault>
    ensures sends { (no_zeroes : Bool) → SendsBytes (W.contents writer.old) (W.contents writer.new) (option_answer_bytes export.now no_zeroes code Answer.Told) result }
    ensures fails { OnErr result (EndsBy W.fails writer.new) }
    ensures hands { OnOk result (EndsBy W.hands writer.new) }
{
    send_parts(
        writer,
        &[
            &reply_header(code, INFO, 12),
            &export_info(export),
            &reply_header(code, INFO, 14),
            &block_info(export),
            &reply_header(code, ACK, 0),
        ],
    )
}

/// Writes an answer, and has the writer hand it on.
///
/// # Errors
///
/// `Write` where a write or the handing on failed, was interrupted or took nothing: a beginning of the answer is out. (The NBD
/// protocol, "Option haggling".)
pub(crate) fn send_answer<W: Outgoing>(
    writer: &mut W,
    export: &Export,
    no_zeroes: bool,
    code: u32,
    answer: Answer,
) -> Result<(), ServeFault>
    ensures sends { SendsBytes (W.contents writer.old) (W.contents writer.new) (option_answer_bytes export.now no_zeroes code answer) result }
    ensures fails { OnErr result (EndsBy W.fails writer.new) }
    ensures hands { OnOk result (HandsAnswer W.hands answer writer.old writer.new) }
{
    match answer {
        Answer::Short(kind) => send_parts(writer, &[&reply_header(code, kind, 0)]),
        Answer::Listed => send_parts(
            writer,
            &[
                &reply_header(code, SERVER, 4),
                &[0; 4],
                &reply_header(code, ACK, 0),
            ],
        ),
        Answer::Told => send_told(writer, export, code),
        Answer::Chosen if no_zeroes => send_parts(writer, &[&export_bytes(export)]),
        Answer::Chosen => send_parts(writer, &[&export_bytes(export), &[0; 124]]),
        Answer::Silent => Ok(()),
    }
}
