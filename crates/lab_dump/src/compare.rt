//! What a dump comes to beside a certificate.
ghost use Rattle.std.specs.Prelude.{◌≡◌, ◌≢◌, ◌↔◌, ℕ, ◌<◌, ◌≤◌, ◌^◌, true, false, length, get_or, IfOk, IfErr, IfSome, IsTrue, Err, None};
ghost use Rattle.certificate.specs.Claim.{sizes_of};
ghost use Rattle.lab_dump.specs.declared.trace.Trace.TheVariants.{Never};
ghost use Rattle.lab_dump.specs.Trace.{is_lost_in_trace};
ghost use Rattle.lab_dump.specs.Compared.{IsComparedTo, IsUncompared};
ghost use Rattle.lab_dump.specs.Rooms.{IsCompareRoom};

use crate::doubting::Doubting;
use crate::doubts::Unsettled;
use crate::pass::{PassFault, scan};
use crate::trace::Trace;
use certificate::Certificate;
use image_check::DumpReader;
use page_layout::geometry::Geometry;
use std::alloc::{AllocError, Global};
use thiserror::Error;

/// Why a dump was not held beside a certificate.
#[derive(Clone, Copy, Debug, PartialEq, Eq, Error)]
pub enum CompareFault {
    /// The certificate is of another geometry.
    #[error("the certificate is of another geometry")]
    GeometryDiffers,
    /// The dump has not as many bytes as the die's pages have.
    #[error("the dump has not as many bytes as the geometry says")]
    WrongLength,
    /// A read of the dump failed, or was interrupted.
    #[error("the dump could not be read")]
    Source,
}

impl From<PassFault> for CompareFault {
    ghost use Rattle.lab_dump.specs.Compared.{compare_fault_of};

    ghost from_gives = { λ scan fault. fault ≡ compare_fault_of scan };

    fn from(fault: PassFault) -> CompareFault {
        match fault {
            PassFault::WrongLength => CompareFault::WrongLength,
            PassFault::Source | PassFault::Stopped => CompareFault::Source,
        }
    }
}

/// What a dump comes to beside a certificate.
#[derive(Drop)]
pub struct Compared {
    /// Of each sector whether it has lost a page.
    pub lost: Vec<bool>,
    /// What the dump leaves open.
    pub left: Unsettled,
}

// Whether the certificate is of this geometry.
fn is_of(geometry: &Geometry, certificate: &Certificate) -> bool
    ensures same { IsTrue result ↔ (certificate.now.sizes ≡ sizes_of geometry.now) }
    ensures sectors { IsTrue result → length certificate.now.sectors ≡ geometry.now.sectors }
{
    let said = certificate.geometry();
    said.data_bytes() == geometry.data_bytes()
        && said.spare_bytes() == geometry.spare_bytes()
        && said.pages() == geometry.pages()
        && said.blocks() == geometry.blocks()
        && said.sectors() == geometry.sectors()
}

// Notes of each sector whether it has lost a page, by what is held of it in the end.
fn note_lost(certificate: &Certificate, traces: &[Trace], lost: &mut [bool])
    requires size { length certificate.now.sectors ≤ length traces.now }
    requires few { length traces.now < 2 ^ 32 }
    requires room { length lost.old ≡ length certificate.now.sectors }
    ensures size { length lost.new ≡ length lost.old }
    ensures each { (n : ℕ) → n < length lost.old → get_or lost.new n false ≡ is_lost_in_trace (get_or certificate.now.sectors n None) certificate.now.next (get_or traces.now n Never) }
{
    let next = certificate.next_sequence();
    for n in 0..lost.len() {
        lost[n] = traces[n].is_lost(certificate.sector_row(n as u32), next);
    }
}

/// The memory of a comparison, for a die of one geometry. (This project's.)
#[derive(Drop)]
pub struct CompareRoom {
    // the page at hand
    pub(crate) body: Vec<u8>,
    pub(crate) spare: Vec<u8>,
    pub(crate) doubting: Doubting,
    // room for the end: of each sector whether it has lost a page
    pub(crate) lost: Vec<bool>,
}

impl CompareRoom {
    ghost use Rattle.std.specs.Prelude.{IfOk};
    ghost use Rattle.lab_dump.specs.Rooms.{IsCompareRoom};

    /// All the memory that holding a dump of this geometry beside a certificate takes.
    ///
    /// # Errors
    ///
    /// Where a growth was refused. (This project's.)
    pub fn new(alloc: Global, geometry: &Geometry) -> Result<CompareRoom, AllocError>
        ensures { IfOk result (IsCompareRoom geometry.now) }
    {
        Ok(CompareRoom {
            body: vec![in alloc; 0; geometry.data_bytes()]?,
            spare: vec![in alloc; 0; geometry.spare_bytes()]?,
            doubting: Doubting::new(alloc, geometry)?,
            lost: vec![in alloc; false; geometry.sectors() as usize]?,
        })
    }
}

/// Holds a dump beside a certificate that was made of its die before, in one pass over the dump: which sectors have lost a page since. A sector
/// has lost none whose newest page stands in the row that the certificate says, or has a sequence of at least the certificate's next one. So
/// has one of which the certificate says no row and the dump has no sound page. Every other sector has. It takes no memory but that of the room.
///
/// # Errors
///
/// `GeometryDiffers` where the certificate is of another geometry, before any byte was read. Else each when it happens: `WrongLength` where the
/// dump's bytes ended before the last page or a byte follows it, `Source` where a read failed or was interrupted. (This project's rules.)
pub fn compare_dump<R: DumpReader>(
    room: CompareRoom,
    reader: &mut R,
    geometry: &Geometry,
    certificate: &Certificate,
) -> Result<Compared, CompareFault>
    requires { IsCompareRoom geometry.now room }
    ensures ok { IfOk result (λ told. IfSome (R.remaining reader.old) (IsComparedTo geometry.now certificate.now told)) }
    ensures sized { IfOk result (λ told. length told.lost.items ≡ geometry.now.sectors) }
    ensures err { IfErr result (λ fault. IfSome (R.remaining reader.old) (IsUncompared geometry.now fault)) }
    // Whatever the reader does.
    ensures differs { (result ≡ Err CompareFault.GeometryDiffers) ↔ (certificate.now.sizes ≢ sizes_of geometry.now) }
    ensures unread { result ≡ Err CompareFault.GeometryDiffers → reader.new ≡ reader.old }
    ensures source { result ≡ Err CompareFault.Source → R.failed reader.new ≡ true }
{
    if !is_of(geometry, certificate) {
        return Err(CompareFault::GeometryDiffers);
    }
    let (mut body, mut spare) = (room.body, room.spare);
    let (mut doubting, mut lost) = (room.doubting, room.lost);
    scan(reader, geometry, &mut doubting, &mut body, &mut spare)?;
    note_lost(certificate, &doubting.traces, &mut lost);
    let doubts = doubting.conclude(geometry);
    let left = Unsettled {
        doubts,
        legible: doubting.legible,
        said: doubting.said,
    };
    Ok(Compared { lost, left })
}
