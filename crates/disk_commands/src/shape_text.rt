//! The file beside a disk, which tells its shape.
ghost use Rattle.std.specs.Prelude.{◌≡◌, ◌≢◌, false, None, Some, IfOk, IfErr, IfSome, OnOk, codes, string_bytes};
ghost use Rattle.serde_json.specs.View.{view};
ghost use Rattle.disk_commands.specs.declared.shape_text.Member.{Member};
ghost use Rattle.disk_commands.specs.ShapeText.{IsGeometryTold, IsNoShape, IsShapeText, IsTextMember, IsCacheSize, ShapeToldLaw, TellsLater, TellsLaterBy, TellsNone};
ghost use Rattle.disk_commands.specs.ShapeText.{TellsShape, TellsText, code_words, flag_at, geometry_words, listed_text, number_at, shape_data};
ghost use Rattle.disk_commands.specs.ShapeText.{shape_text, members_of, member_count, text_at, shape_version_of};
ghost use Rattle.disk_commands.specs.Shapes.{IsShareFor};

use crate::shape_words::{GeometryText, GeometryWordFault, geometry_from};
use crate::shapes::{Code, DiskShape, is_share_for};
use crate::text::{limit, told, told_of};
use page_layout::geometry::{Geometry, GeometryFault};
use serde_json::{Value, json};
use std::alloc::{AllocError, Global};
use std::error::Error;
use std::fmt;

/// What the file beside a disk tells. (This project's.)
#[derive(Clone, Copy, Debug, PartialEq, Eq)]
pub struct DiskText {
    /// The shape of the disk.
    pub shape: DiskShape,
    /// Whether the mark beside the disk counts: a program that knows version 1 alone writes none.
    pub marked: bool,
    /// Whether a list of lost sectors stands beside the disk. Version 1 has none.
    pub lost: bool,
}

/// A member of the object in the file beside a disk.
#[derive(Clone, Copy, Debug, PartialEq, Eq)]
pub enum Member {
    /// The entries of the cache, a number.
    Cache,
    /// The code of the pages, a string: `none` or `hamming`. Version 1 has no such member.
    Code,
    /// The geometry, a string: the word GEOM of `nandctl`.
    Geometry,
    /// Whether a list of lost sectors stands beside the disk, `true` or `false`. Version 1 has no such member.
    Lost,
    /// How many moved sectors may wait for each translation page in the mean, a number. Version 1 has no such member: then none may.
    Share,
    /// The version of the file, the number 1 or 2.
    Version,
}

impl Member {
    ghost use Rattle.std.specs.Prelude.{◌≡◌};
    ghost use Rattle.disk_commands.specs.ShapeText.{member_words};

    /// The name of the member.
    pub fn name(self) -> &'static str
        ensures { result.now ≡ member_words self }
    {
        match self {
            Member::Cache => "cache",
            Member::Code => "code",
            Member::Geometry => "geometry",
            Member::Lost => "lost",
            Member::Share => "share",
            Member::Version => "version",
        }
    }
}

/// Why the bytes of a file tell no shape. (This project's.)
#[derive(Clone, Copy, Debug, PartialEq, Eq)]
pub enum ShapeFault {
    /// They are no JSON in UTF-8.
    NotJson,
    /// They are JSON, but no object.
    NotObject,
    /// The object lacks this member.
    Missing(Member),
    /// This member is of another type than its own.
    WrongType(Member),
    /// The object has a member more.
    Unknown,
    /// The version is neither 1 nor 2.
    Version,
    /// The geometry is not five numbers with four commas.
    BadGeometry,
    /// The five numbers are no geometry.
    Geometry(GeometryFault),
    /// The cache has not from 1 to 65,536 entries.
    CacheRange,
    /// The code of the pages is neither `none` nor `hamming`.
    Code,
    /// So many moved sectors may wait for each translation page, and no disk of this geometry and cache may have that share.
    Share(u64),
    /// A growth was refused.
    OutOfMemory,
}

impl Error for ShapeFault {}

impl fmt::Display for ShapeFault {
    ghost use Rattle.std.specs.Prelude.{Some};
    ghost use Rattle.disk_commands.specs.Text.{shape_words};

    ghost output = { λ fault. Some (shape_words fault) };

    fn fmt<W: fmt::Write>(&self, f: &mut fmt::Formatter<W>) -> fmt::Result {
        match *self {
            ShapeFault::NotJson => f.write_str("not JSON"),
            ShapeFault::NotObject => f.write_str("no object"),
            ShapeFault::Missing(member) => told(f, "no member ", member.name()),
            ShapeFault::WrongType(member) => {
                told_of(f, "member ", member.name(), " of another type")
            }
            ShapeFault::Unknown => f.write_str("a member with another name"),
            ShapeFault::Version => f.write_str("another version"),
            ShapeFault::BadGeometry => f.write_str("the geometry is no five numbers"),
            ShapeFault::Geometry(fault) => {
                told(f, "the geometry breaks a limit: ", limit(fault))
            }
            ShapeFault::CacheRange => f.write_str("the cache has not from 1 to 65536 entries"),
            ShapeFault::Code => f.write_str("the code is neither none nor hamming"),
            ShapeFault::Share(share) => write!(
                f,
                "the share is {share}, and no cache has room for all that may be stale"
            ),
            ShapeFault::OutOfMemory => f.write_str("out of memory"),
        }
    }
}

// The word GEOM of a geometry.
fn geometry_word(alloc: Global, geometry: &Geometry) -> Result<String, AllocError>
    ensures { IfOk result (λ word. string_bytes word ≡ geometry_words geometry.now) }
{
    format!(in alloc; "{}", GeometryText(geometry))
}

// The word of a code.
fn code_word(code: Code) -> &'static str
    ensures { result.now ≡ code_words code }
{
    match code {
        Code::Plain => "none",
        Code::Hamming => "hamming",
    }
}

// The object of a disk of this shape, by whether a list of lost sectors stands beside it.
fn shape_value(alloc: Global, shape: &DiskShape, lost: bool) -> Result<Value, AllocError>
    ensures { IfOk result (λ value. view value ≡ shape_data shape.now lost) }
{
    let word = geometry_word(alloc, &shape.geometry)?;
    let (cache, code, geometry) = (u64::from(shape.cache), code_word(shape.code), word.as_str());
    let share = u64::from(shape.share);
    json!(in alloc; {"cache": cache, "code": code, "geometry": geometry, "lost": lost, "share": share, "version": 2u64})
}

/// The text of the file beside a disk of this shape, in version 2: one JSON object and a line feed. It says which code there is, that no sectors are lost and how many may wait.
///
/// (The form is this project's.)
pub fn write_shape(alloc: Global, shape: &DiskShape) -> Result<String, AllocError>
    ensures { IfOk result (λ text. string_bytes text ≡ shape_text shape.now) }
{
    let mut text = shape_value(alloc, shape, false)?.to_string(alloc)?;
    text.push('\n')?;
    Ok(text)
}

/// The same text of a disk beside which a list of lost sectors stands.
///
/// (The form is this project's.)
pub fn write_listed_shape(alloc: Global, shape: &DiskShape) -> Result<String, AllocError>
    ensures { IfOk result (λ text. string_bytes text ≡ listed_text shape.now) }
{
    let mut text = shape_value(alloc, shape, true)?.to_string(alloc)?;
    text.push('\n')?;
    Ok(text)
}

/// The object that is written of a shape tells that shape, whether a list of lost sectors stands beside the disk, and that a mark counts. (This project.)
pub fn shape_laws()
    ensures { ShapeToldLaw }
{}

// The number of a member.
fn number(value: &Value, member: Member) -> Result<u64, ShapeFault>
    requires { (member ≢ Member.Geometry) × ((member ≢ Member.Code) × (member ≢ Member.Lost)) }
    ensures ok { IfOk result (λ n. number_at member (view value.now) ≡ Some n) }
    ensures fault { IfErr result (TellsNone (view value.now)) }
{
    let Some(found) = value.get(member.name()) else {
        return Err(ShapeFault::Missing(member));
    };
    match found.as_u64() {
        Some(number) => Ok(number),
        None => Err(ShapeFault::WrongType(member)),
    }
}

// The string of a member.
fn word<'a>(value: &'a Value, member: Member) -> Result<&'a str, ShapeFault>
    requires { IsTextMember member }
    ensures ok { IfOk result (λ word. text_at member (view value.now) ≡ Some word.now) }
    ensures fault { IfErr result (TellsNone (view value.now)) }
{
    let Some(found) = value.get(member.name()) else {
        return Err(ShapeFault::Missing(member));
    };
    match found.as_str() {
        Some(word) => Ok(word),
        None => Err(ShapeFault::WrongType(member)),
    }
}

// The geometry of an object.
fn geometry_told(value: &Value) -> Result<Geometry, ShapeFault>
    ensures ok { IfOk result (IsGeometryTold (view value.now)) }
    ensures fault { IfErr result (TellsNone (view value.now)) }
{
    let word = word(value, Member::Geometry)?;
    match geometry_from(word) {
        Ok(geometry) => Ok(geometry),
        Err(GeometryWordFault::NoNumbers) => Err(ShapeFault::BadGeometry),
        Err(GeometryWordFault::Limit(limit)) => Err(ShapeFault::Geometry(limit)),
    }
}

// The entries of the cache of an object.
fn cache_told(value: &Value) -> Result<u32, ShapeFault>
    ensures ok { IfOk result (λ cache. (number_at Member.Cache (view value.now) ≡ Some cache) × IsCacheSize cache) }
    ensures fault { IfErr result (TellsNone (view value.now)) }
{
    let cache = number(value, Member::Cache)?;
    if cache == 0 || cache > 65536 {
        return Err(ShapeFault::CacheRange);
    }
    Ok(cache as u32)
}

// Whether an object is of version 2, and not of version 1.
fn is_second(value: &Value) -> Result<bool, ShapeFault>
    ensures ok { IfOk result (λ second. number_at Member.Version (view value.now) ≡ Some (shape_version_of second)) }
    ensures fault { IfErr result (TellsNone (view value.now)) }
{
    match number(value, Member::Version)? {
        1 => Ok(false),
        2 => Ok(true),
        _ => Err(ShapeFault::Version),
    }
}

// The code of the pages.
fn code_told(value: &Value) -> Result<Code, ShapeFault>
    ensures ok { IfOk result (λ code. text_at Member.Code (view value.now) ≡ Some (code_words code)) }
    ensures fault { IfErr result (TellsNone (view value.now)) }
{
    match word(value, Member::Code)? {
        "none" => Ok(Code::Plain),
        "hamming" => Ok(Code::Hamming),
        _ => Err(ShapeFault::Code),
    }
}

// Whether a list of lost sectors stands beside the disk.
fn lost_told(value: &Value) -> Result<bool, ShapeFault>
    ensures ok { IfOk result (λ lost. flag_at Member.Lost (view value.now) ≡ Some lost) }
    ensures fault { IfErr result (TellsNone (view value.now)) }
{
    let Some(found) = value.get(Member::Lost.name()) else {
        return Err(ShapeFault::Missing(Member::Lost));
    };
    match found.as_bool() {
        Some(lost) => Ok(lost),
        None => Err(ShapeFault::WrongType(Member::Lost)),
    }
}

// A share that a disk of this geometry and cache may have, where a number is one.
fn share_from(geometry: &Geometry, cache: u32, number: u64) -> Option<u32>
    ensures some { IfSome result (λ share. (share ≡ number) × IsShareFor geometry.now cache share) }
    ensures none { result ≡ None → ¬ IsShareFor geometry.now cache number }
{
    let Ok(share) = u32::try_from(number) else {
        return None;
    };
    if is_share_for(geometry, cache, share) {
        Some(share)
    } else {
        None
    }
}

// The share of the disk, whose geometry and cache the value tells too.
fn share_told(value: &Value, geometry: &Geometry, cache: u32) -> Result<u32, ShapeFault>
    requires { TellsShape (view value.now) geometry.now cache }
    ensures ok { IfOk result (λ share. number_at Member.Share (view value.now) ≡ Some share) }
    ensures may_wait { IfOk result (IsShareFor geometry.now cache) }
    ensures fault { IfErr result (TellsNone (view value.now)) }
{
    let told = number(value, Member::Share)?;
    match share_from(geometry, cache, told) {
        Some(share) => Ok(share),
        None => Err(ShapeFault::Share(told)),
    }
}

// What the members say which version 1 lacks: the code of the pages, whether a list of lost sectors stands beside the disk, and the share.
fn later_told(
    value: &Value,
    geometry: &Geometry,
    cache: u32,
) -> Result<(Code, bool, u32), ShapeFault>
    requires { TellsShape (view value.now) geometry.now cache }
    ensures ok { IfOk result (λ later. TellsLater later.0 later.1 later.2 (view value.now)) }
    ensures may_wait { IfOk result (λ later. IsShareFor geometry.now cache later.2) }
    ensures fault { IfErr result (TellsNone (view value.now)) }
{
    let code = code_told(value)?;
    let lost = lost_told(value)?;
    let share = share_told(value, geometry, cache)?;
    Ok((code, lost, share))
}

// The same by the version: the first has no such member.
fn later_by(
    value: &Value,
    second: bool,
    geometry: &Geometry,
    cache: u32,
) -> Result<(Code, bool, u32), ShapeFault>
    requires { TellsShape (view value.now) geometry.now cache }
    ensures ok { IfOk result (λ later. TellsLaterBy second later.0 later.1 later.2 (view value.now)) }
    ensures may_wait { IfOk result (λ later. IsShareFor geometry.now cache later.2) }
    ensures fault { IfErr result (TellsNone (view value.now)) }
{
    if second {
        later_told(value, geometry, cache)
    } else {
        Ok((Code::Plain, false, 0))
    }
}

// How many members an object of the version has.
fn members_wanted(second: bool) -> usize
    ensures { result ≡ members_of second }
{
    if second { 6 } else { 3 }
}

// That a value is an object of so many members.
fn require_alone(value: &Value, second: bool) -> Result<(), ShapeFault>
    requires version { number_at Member.Version (view value.now) ≡ Some (shape_version_of second) }
    ensures ok { OnOk result (member_count (view value.now) ≡ Some (members_of second)) }
    ensures fault { IfErr result (TellsNone (view value.now)) }
{
    let wanted = members_wanted(second);
    match value.as_object() {
        None => Err(ShapeFault::NotObject),
        Some(members) if members.len() != wanted => Err(ShapeFault::Unknown),
        Some(_) => Ok(()),
    }
}

// The geometry and the cache that a value tells.
fn shape_told(value: &Value) -> Result<(Geometry, u32), ShapeFault>
    ensures ok { IfOk result (λ shape. TellsShape (view value.now) shape.0 shape.1) }
    ensures fault { IfErr result (TellsNone (view value.now)) }
{
    let cache = cache_told(value)?;
    let geometry = geometry_told(value)?;
    Ok((geometry, cache))
}

// What a value tells.
fn text_told(value: &Value) -> Result<DiskText, ShapeFault>
    ensures ok { IfOk result (TellsText (view value.now)) }
    ensures fault { IfErr result (TellsNone (view value.now)) }
{
    if value.as_object().is_none() {
        return Err(ShapeFault::NotObject);
    }
    let second = is_second(value)?;
    let (geometry, cache) = shape_told(value)?;
    let (code, lost, share) = later_by(value, second, &geometry, cache)?;
    require_alone(value, second)?;
    Ok(DiskText {
        shape: DiskShape {
            geometry,
            cache,
            share,
            code,
        },
        marked: second,
        lost,
    })
}

/// What the bytes of the file beside a disk tell: one JSON object with the members of its version and no other. Blanks and line feeds around it do not count.
///
/// # Errors
///
/// As [`ShapeFault`] says. Of several causes it tells the first in this order: no JSON, no object, the version, the cache, the geometry; of version 2 the code, whether a
/// list stands beside the disk, the share; another member. `OutOfMemory` where a growth was refused.
///
/// (The form is this project's.)
pub fn read_shape(alloc: Global, bytes: &[u8]) -> Result<DiskText, ShapeFault>
    ensures ok { IfOk result (IsShapeText bytes.now) }
    ensures fault { IfErr result (IsNoShape bytes.now) }
{
    match Value::from_slice(alloc, bytes) {
        Ok(value) => text_told(&value),
        Err(error) if error.is_memory() => Err(ShapeFault::OutOfMemory),
        Err(_) => Err(ShapeFault::NotJson),
    }
}
