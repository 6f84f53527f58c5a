//! The shape that the words of `create` ask for.
ghost use Rattle.std.specs.Prelude.{◌≡◌, IfOk, IfErr, None, Some};
ghost use Rattle.disk_commands.specs.ShapeText.{IsCacheSize};
ghost use Rattle.disk_commands.specs.ShapeWords.{SaysGeometry};
ghost use Rattle.disk_commands.specs.Asked.{IsCacheAsked, IsCacheAt, IsGeometryAsked, IsGeometryFor, IsNoCacheAsked, IsNoGeometryAsked, IsNoGeometryAt, IsNoGeometryFor};
ghost use Rattle.disk_commands.specs.Asked.{IsNoShapeAsked, IsNoShapeAt, IsNoShareAsked, IsShapeAsked, IsShareAsked, IsShareFrom};

use crate::shape_words::{GeometryWordFault, geometry_from};
use crate::shapes::{
    DiskShape, MOST_ENTRIES, SHARE, cache_for, is_share_for, shape_for, share_for,
};
use crate::sizes::{SizeWordFault, size_from};
use crate::text::DiskCommandFault;
use crate::words::{CreateWords, MakeWords};
use page_layout::geometry::Geometry;
use program_words::number;

// The share of a disk of the size of a word.
fn share_from(word: &str) -> u32
    ensures { IsShareFrom word.now result }
{
    match size_from(word) {
        Ok(bytes) => share_for(bytes),
        Err(_) => SHARE,
    }
}

// The share of a disk that is made so, where none is named.
fn share_of(make: MakeWords<'_>) -> u32
    ensures { IsShareAsked None make.entry result }
{
    match make {
        MakeWords::Size(word) => share_from(word),
        MakeWords::Geometry(_) | MakeWords::Dump { .. } => SHARE,
    }
}

// The share that is asked for.
fn share_asked<'a>(words: CreateWords<'a>) -> Result<u32, DiskCommandFault<'a>>
    ensures ok { IfOk result (IsShareAsked words.entry.share words.entry.make) }
    ensures fault { IfErr result (IsNoShareAsked words.entry.share) }
{
    let Some(word) = words.share else {
        return Ok(share_of(words.make));
    };
    match number(word) {
        Some(share) => Ok(share),
        None => Err(DiskCommandFault::BadNumber(word)),
    }
}

// The geometry of a word.
fn geometry_at<'a>(word: &'a str) -> Result<Geometry, DiskCommandFault<'a>>
    ensures ok { IfOk result (SaysGeometry word.now) }
    ensures fault { IfErr result (IsNoGeometryAt word.now) }
{
    match geometry_from(word) {
        Ok(geometry) => Ok(geometry),
        Err(GeometryWordFault::NoNumbers) => Err(DiskCommandFault::BadNumber(word)),
        Err(GeometryWordFault::Limit(limit)) => Err(DiskCommandFault::Geometry(limit)),
    }
}

// The geometry for the size of a word, at this share.
fn geometry_for<'a>(word: &'a str, share: u32) -> Result<Geometry, DiskCommandFault<'a>>
    ensures ok { IfOk result (IsGeometryFor word.now share) }
    ensures fault { IfErr result (IsNoGeometryFor word.now share) }
{
    let bytes = match size_from(word) {
        Ok(bytes) => bytes,
        Err(SizeWordFault::NoSize) => return Err(DiskCommandFault::BadSize(word)),
        Err(SizeWordFault::PartOfByte) => return Err(DiskCommandFault::PartOfByte(word)),
    };
    match shape_for(bytes, share) {
        Ok(shape) => Ok(shape.geometry),
        Err(fault) => Err(DiskCommandFault::Size(fault)),
    }
}

// The geometry that is asked for.
fn geometry_asked<'a>(make: MakeWords<'a>, share: u32) -> Result<Geometry, DiskCommandFault<'a>>
    ensures ok { IfOk result (IsGeometryAsked make.entry share) }
    ensures fault { IfErr result (IsNoGeometryAsked make.entry share) }
{
    match make {
        MakeWords::Size(word) => geometry_for(word, share),
        MakeWords::Geometry(word) | MakeWords::Dump { geometry: word, .. } => geometry_at(word),
    }
}

// The entries of the cache that are asked for, or those for the geometry at this share.
fn cache_asked<'a>(
    word: Option<&'a str>,
    geometry: &Geometry,
    share: u32,
) -> Result<u32, DiskCommandFault<'a>>
    ensures ok { IfOk result (IsCacheAsked word.entry geometry.now share) }
    ensures within { IfOk result IsCacheSize }
    ensures fault { IfErr result (IsNoCacheAsked word.entry) }
{
    let Some(word) = word else {
        return Ok(cache_for(geometry, share));
    };
    match number(word) {
        Some(cache) if cache >= 1 && cache <= MOST_ENTRIES => Ok(cache),
        _ => Err(DiskCommandFault::BadNumber(word)),
    }
}

// The shape that the words ask for, of which the share was read.
fn shape_at<'a>(words: CreateWords<'a>, share: u32) -> Result<DiskShape, DiskCommandFault<'a>>
    requires { IsShareAsked words.share words.make share }
    ensures ok { IfOk result (IsShapeAsked words.entry) }
    ensures within { IfOk result (λ shape. IsCacheSize shape.cache) }
    ensures fault { IfErr result (IsNoShapeAt words.entry share) }
{
    let geometry = geometry_asked(words.make, share)?;
    let cache = cache_asked(words.cache, &geometry, share)?;
    if !is_share_for(&geometry, cache, share) {
        return Err(DiskCommandFault::Share(share));
    }
    Ok(DiskShape {
        geometry,
        cache,
        share,
        code: words.code,
    })
}

/// The shape that the words of `create` ask for: the share that is named, or for a size that of [`share_for`], or 15; the geometry that is named, or the one for the size at this share; the cache that is
/// named, or the one for the geometry at this share; and the code.
///
/// # Errors
///
/// The first of this order: `BadNumber` where the share is no number below 2^32; `BadSize` or `PartOfByte`, or `Size` where no die is of the size; `BadNumber` where the
/// geometry is not five numbers, or `Geometry` with the first limit that they break; `BadNumber` where the cache is no number from 1 to 65,536; `Share` where no cache has
/// room for all that may be stale of such a disk with this share. (This project's.)
pub fn shape_of<'a>(words: CreateWords<'a>) -> Result<DiskShape, DiskCommandFault<'a>>
    ensures ok { IfOk result (IsShapeAsked words.entry) }
    ensures within { IfOk result (λ shape. IsCacheSize shape.cache) }
    ensures fault { IfErr result (IsNoShapeAsked words.entry) }
{
    let share = share_asked(words)?;
    shape_at(words, share)
}
