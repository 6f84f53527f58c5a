//! What a reader would ask of the definitions first. Each function does nothing: its contract is the law.
ghost use Rattle.nbd_stream.specs.Frames.{TransmissionOneWayLaw, TransmissionSomeWayLaw};
ghost use Rattle.nbd_stream.specs.Options.{OptionOneWayLaw};
ghost use Rattle.nbd_stream.specs.Runs.{ByteLaw, DoneLaw, KeptOrSetLaw, LastsLaw, NothingLostLaw, ReadAfterChangeLaw, SetLaw};
ghost use Rattle.nbd_stream.specs.Tasks.{AdmittedLaw};
ghost use Rattle.nbd_stream.specs.Until.{NeverHonestAgainLaw, StaysHonestLaw, UntilLaw};

use crate::disk::Disk;

/// Every list of bytes is, in just one way, whole requests and a rest. The bytes of an option say which it is, and are no part of another. (This project's.)
pub fn stream_laws()
    ensures one_way { TransmissionOneWayLaw }
    ensures some_way { TransmissionSomeWayLaw }
    ensures option { OptionOneWayLaw }
{}

/// What is asked of a disk is for it, whatever the request: bytes that it has, no more than it takes, and no change where it is
/// read-only. (This project's.)
pub fn task_laws()
    ensures { AdmittedLaw }
{}

/// What a disk's answers come to. A task that is done leaves each byte of its range as it sets it, and each other as it was: a read gives what
/// was written, and zeros where a trim or zeroes were. What a flush or a durable change made last is as it was then if the power goes later,
/// whatever fails between, but for what later requests set. Where no task fails, the answers are those of the array. (This project's.)
pub fn disk_laws()
    ensures byte { ByteLaw }
    ensures read_back { ReadAfterChangeLaw }
    ensures set { SetLaw }
    ensures lasts { LastsLaw }
    ensures kept { KeptOrSetLaw }
    ensures nothing_lost { NothingLostLaw }
    ensures done { DoneLaw }
{}

/// How long a disk is honest. Once it is not, it never is again, whatever it is asked. While no task and no rest fails it stays so. In a transmission it
/// ends with an exchange that was asked of the disk and failed, or whose rest failed, and not before: up to that one the answers are the array's, one
/// before such a rest too, and where none of them failed they are what it gives. (This project's.)
pub fn honesty_laws<D: Disk>()
    ensures back { NeverHonestAgainLaw D.contents D.honest D.calm D.does D.rests }
    ensures stays { StaysHonestLaw D.contents D.honest D.calm D.does D.rests }
    ensures until { UntilLaw D.contents D.honest D.calm D.does D.rests }
{}
