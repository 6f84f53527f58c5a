//! A store is recovered, and its disk is opened.
ghost use Rattle.std.specs.Prelude.{◌≡◌, ◌≤◌, [], Bool, true, IfOk, IfErr};
ghost use Rattle.image_check.specs.Agrees.{Agrees};
ghost use Rattle.disk_server.specs.Disk.{contents_of, holds};
ghost use Rattle.disk_server.specs.Opened.{SyncsWhen, is_honest_in, view_in};
ghost use Rattle.disk_recovery.specs.Recovered.{HoldsRecovered, IsNotAgain, IsNotTaken, IsOpenedLeft, IsRecovered, IsUnrecovered};

use certificate::Certificate;
use crash_recovery::{RecoveryFault, recover};
use disk_server::{OpenStoreFault, StoreDisk, mount_store, open_stopped};
use file_die::{Store, SyncWhen};
use std::alloc::Global;

// The most entries of a cache: a store is mounted for so many, so that its stale sectors don't keep it from being recovered.
const MOST_ENTRIES: u32 = 65_536;

// Takes away what a crash left torn in a store that was mounted with this certificate, once, and answers whether anything was.
fn recover_once<S: Store>(
    alloc: Global,
    store: &mut S,
    certificate: &Certificate,
    mark: u64,
) -> Result<bool, OpenStoreFault>
    requires mounted { S.honest store.old ≡ true → Agrees (S.held store.old).geometry 65536 (S.held store.old).pages certificate.now }
    ensures recovered { IfOk result (λ changed. S.honest store.old ≡ true → IsRecovered mark (S.held store.old) changed (S.held store.new)) }
    ensures honest { S.honest store.new ≡ S.honest store.old }
    ensures fault { IfErr result (IsNotTaken S.held S.honest S.failed mark store.old store.new) }
{
    match recover(alloc, store, certificate, mark) {
        Ok(changed) => Ok(changed),
        Err(RecoveryFault::OutOfMemory) => Err(OpenStoreFault::OutOfMemory),
        Err(RecoveryFault::Store) => Err(OpenStoreFault::Device),
    }
}

// The same of a store that is mounted for that, which comes back.
fn recover_again<S: Store + Drop>(
    alloc: Global,
    store: S,
    mark: u64,
) -> Result<S, (S, OpenStoreFault)>
    ensures recovered { IfOk result (λ left. S.honest store ≡ true → (changed : Bool) × IsRecovered mark (S.held store) changed (S.held left)) }
    ensures honest { IfOk result (λ left. S.honest left ≡ S.honest store) }
    ensures fault { IfErr result (λ e. IsNotAgain S.held S.honest S.failed mark store e.0 e.1) }
{
    let (mut store, certificate) = match mount_store(alloc, store, MOST_ENTRIES) {
        Ok(mounted) => mounted,
        Err(back) => return Err(back),
    };
    match recover_once(alloc, &mut store, &certificate, mark) {
        Ok(_) => Ok(store),
        Err(fault) => Err((store, fault)),
    }
}

// The disk of a store that was mounted with this certificate, once what was torn is taken away.
pub(crate) fn recover_mounted<S: Store + Drop>(
    alloc: Global,
    store: S,
    certificate: &Certificate,
    capacity: u32,
    share: u32,
    mark: u64,
    sync_when: SyncWhen,
) -> Result<StoreDisk<S>, (S, OpenStoreFault)>
    requires mounted { S.honest store ≡ true → Agrees (S.held store).geometry 65536 (S.held store).pages certificate.now }
    requires least { 1 ≤ capacity }
    requires most { capacity ≤ 65536 }
    ensures syncs { IfOk result (λ d. SyncsWhen sync_when d.engine.nand) }
    ensures share { IfOk result (λ d. d.engine.mapping.share ≡ share) }
    ensures honest { IfOk result (λ d. S.honest store ≡ true → holds (is_honest_in S.honest) d ≡ true) }
    ensures clear { IfOk result (λ d. S.honest store ≡ true → d.engine.nand.told.at_hand ≡ []) }
    ensures bytes { IfOk result (λ d. S.honest store ≡ true → HoldsRecovered mark (S.held store) (contents_of (view_in S.held S.honest S.failed) d).bytes) }
    ensures entries { IfOk result (λ d. IsOpenedLeft S.held S.honest S.failed mark store capacity share d.engine.mapping.capacity) }
    ensures fault { IfErr result (λ e. IsUnrecovered S.held S.honest S.failed store capacity share mark e.0 e.1) }
{
    let mut store = store;
    let changed = match recover_once(alloc, &mut store, certificate, mark) {
        Ok(changed) => changed,
        Err(fault) => return Err((store, fault)),
    };
    if !changed {
        return open_stopped(alloc, store, capacity, share, sync_when, true);
    }
    match recover_again(alloc, store, mark) {
        Ok(left) => open_stopped(alloc, left, capacity, share, sync_when, true),
        Err(back) => Err(back),
    }
}
