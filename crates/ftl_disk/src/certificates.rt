//! Certificates of a disk, in and out.
ghost use Rattle.ftl_disk.specs.Disk.{Certifies, CertifiesDisk, IsCertifying, IsStartingBy, StartsByBytes, StartsCertified};
ghost use Rattle.ftl_disk.specs.Way.{way_words};

use crate::dies::{certify_over, put};
use crate::disk::WayDisk;
use crate::measures::certificate_length;
use crate::number::{STARTED, WRONG_SIZE, of_certificate};
use crate::reset::reset;
use crate::way::Way;
use certificate::{Certificate, read_certificate};
use device_slot::start_checked;

// The certificate of what the die holds is written to `out`.
fn certified<W: Way + Drop>(disk: &mut WayDisk<W>, out: &mut [u8]) -> u32
    ensures { CertifiesDisk (way_words W.calls W.die W.chip W.honest W.keeps W.called) disk.old out.old result out.new disk.new }
{
    let link = disk.way.go(&disk.plan);
    match reset(disk.alloc, link, &disk.plan) {
        Ok(mut die) => {
            let number = certify_over(disk.alloc, &mut die, &disk.plan, out);
            disk.way.leave(die);
            number
        }
        Err(number) => number,
    }
}

// It is written to `out`, which has to be as long.
fn put_certificate<W: Way + Drop>(disk: &mut WayDisk<W>, out: &mut [u8]) -> u32
    ensures { IsCertifying (way_words W.calls W.die W.chip W.honest W.keeps W.called) disk.old out.old result out.new disk.new }
{
    if out.len() as u64 != certificate_length(&disk.plan.geometry) {
        return WRONG_SIZE;
    }
    certified(disk, out)
}

/// Writes the certificate of what the die holds.
pub fn certify<W: Way + Drop>(disk: &mut WayDisk<W>, out: &mut [u8]) -> u32
    ensures { Certifies (way_words W.calls W.die W.chip W.honest W.keeps W.called) disk.old out.old result out.new disk.new }
{
    if disk.slot.is_started() {
        return STARTED;
    }
    put_certificate(disk, out)
}

// The certificate is held against the die, and the device begins.
#[tactic(auto, using(crate::proofs::DieLemmas::begun_kept))]
fn begin_by<W: Way + Drop>(disk: &mut WayDisk<W>, certificate: &Certificate) -> u32
    ensures { IsStartingBy (way_words W.calls W.die W.chip W.honest W.keeps W.called) disk.old certificate.now result disk.new }
{
    let link = disk.way.go(&disk.plan);
    match reset(disk.alloc, link, &disk.plan) {
        Ok(die) => {
            let geometry = &disk.plan.geometry;
            let brought = start_checked(disk.alloc, die, geometry, disk.plan.cache, certificate);
            put(&mut disk.way, brought, &mut disk.slot)
        }
        Err(number) => number,
    }
}

// The bytes are read as a certificate first.
fn begin_certified<W: Way + Drop>(disk: &mut WayDisk<W>, bytes: &[u8]) -> u32
    ensures { StartsByBytes (way_words W.calls W.die W.chip W.honest W.keeps W.called) disk.old bytes.now result disk.new }
{
    if bytes.len() as u64 != certificate_length(&disk.plan.geometry) {
        return WRONG_SIZE;
    }
    match read_certificate(disk.alloc, bytes) {
        Ok(certificate) => begin_by(disk, &certificate),
        Err(fault) => of_certificate(fault),
    }
}

/// Power comes, and the die has to hold what a certificate says.
pub fn start_certified<W: Way + Drop>(disk: &mut WayDisk<W>, bytes: &[u8]) -> u32
    ensures { StartsCertified (way_words W.calls W.die W.chip W.honest W.keeps W.called) disk.old bytes.now result disk.new }
{
    if disk.slot.is_started() {
        return STARTED;
    }
    begin_certified(disk, bytes)
}
